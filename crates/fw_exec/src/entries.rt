//! The entry of a number, with bytes of its own.

ghost use Rattle.std.specs.Prelude.{◌≡◌, IfOk};
ghost use Rattle.fw_frame.specs.Plain.{plain_request, plain_entry};
ghost use Rattle.fw_frame.specs.View.{viewed_request, viewed_entry, plain_request_of, plain_entry_of};
ghost use Rattle.fw_exec.specs.Kept.{own_request};

use fw_frame::{Entry, Request};
use fw_list::{Bytes, Memory};
use std::alloc::Global;
use std::marker::Model;

/// A client's request.
#[derive(Debug, Drop)]
pub struct OwnRequest {
    client: u32,
    stamp: u32,
    body: Bytes,
    sig: Bytes,
}

/// The entry of a number: a request, or none where it is null.
#[derive(Debug, Drop)]
pub struct OwnEntry {
    request: Option<OwnRequest>,
}

impl Model for OwnEntry {
    ghost use Rattle.fw_frame.specs.View.{Entry};
    ghost use Rattle.fw_exec.specs.Kept.{own_entry};

    ghost Value = { Entry };

    ghost view = { λ e. own_entry e.request };
}

/// A copy of a request.
fn copy_of_request(alloc: Global, request: &Request<'_>) -> Result<OwnRequest, Memory>
    ensures { IfOk result (λ copy. own_request copy ≡ viewed_request (plain_request request.now)) }
{
    Ok(OwnRequest {
        client: request.client,
        stamp: request.stamp,
        body: Bytes::copy_of(alloc, request.body)?,
        sig: Bytes::copy_of(alloc, request.sig)?,
    })
}

/// The request, as it borrows these bytes.
fn request_in(request: &OwnRequest) -> Request<'_>
    ensures { plain_request result ≡ plain_request_of (own_request request.now) }
{
    Request {
        client: request.client,
        stamp: request.stamp,
        body: request.body.items(),
        sig: request.sig.items(),
    }
}

impl OwnEntry {
    /// A copy of an entry.
    pub(crate) fn copy_of(alloc: Global, entry: &Entry<'_>) -> Result<OwnEntry, Memory>
        ensures { IfOk result (λ copy. copy ≡ viewed_entry (plain_entry entry.now)) }
    {
        match entry {
            Entry::Null => Ok(OwnEntry { request: None }),
            Entry::Request(request) => Ok(OwnEntry {
                request: Some(copy_of_request(alloc, request)?),
            }),
        }
    }

    /// The entry, as it borrows these bytes.
    pub(crate) fn entry(&self) -> Entry<'_>
        ensures { plain_entry result ≡ plain_entry_of self.now }
    {
        match &self.request {
            None => Entry::Null,
            Some(request) => Entry::Request(request_in(request)),
        }
    }
}
