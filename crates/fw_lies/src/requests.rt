//! The requests and entries of lies.

ghost use Rattle.std.specs.Prelude.{◌≡◌, IfOk, IsTrue};
ghost use Rattle.fw_base.specs.Sizes.{accepted};
ghost use Rattle.fw_text.specs.Texts.{hash, Asked};
ghost use Rattle.fw_frame.specs.Frames as frames;
ghost use Rattle.fw_frame.specs.Plain.{plain_request, plain_entry};
ghost use Rattle.fw_frame.specs.Spelling.{frame_bytes};
ghost use Rattle.fw_step.specs.Fitting.{request_fits, entry_fits};
ghost use Rattle.fw_lies.specs.Lying.{request_of, entry_of};
ghost use Rattle.fw_lies.specs.Made.{plain_made, plain_entry_made};

use crate::bodies::asked_body;
use crate::signing::values_for;
use fw_base::Slot;
use fw_deal::Deal;
use fw_digest::digest;
use fw_frame::{Entry, Frame, Request, two_numbers};
use fw_list::{Bytes, Memory, SIGNATURE_LEN};
use fw_seal::Body;
use fw_step::LieRequest;
use std::alloc::Global;

/// A request that was made.
#[derive(Drop)]
pub(crate) struct Made {
    pub client: u32,
    pub stamp: u32,
    pub body: Body,
    pub sig: [u8; SIGNATURE_LEN],
}

impl Made {
    /// The request of a frame.
    pub(crate) fn lent(&self) -> Request<'_>
        ensures { plain_request result ≡ plain_made self.now }
    {
        Request {
            client: self.client,
            stamp: self.stamp,
            body: &self.body.bytes,
            sig: &self.sig,
        }
    }
}

/// The digest of a request's text.
#[tactic(auto, unfolding(fw_text::specs::Texts::hash, fw_text::specs::Texts::text_bytes))]
fn asked_digest(client: u32, stamp: u32, body: &Body) -> [u8; 32]
    ensures { result ≡ hash (Asked client stamp body.now.bytes) }
{
    digest(16, &two_numbers(client, stamp), &body.bytes)
}

/// The request of a lie.
pub(crate) fn request_of(alloc: Global, deal: &Deal, request: &LieRequest) -> Result<Made, Memory>
    requires sizes { IsTrue (accepted deal.now.origin.params) }
    requires fits { IsTrue (request_fits deal.now.origin.params request.now) }
    ensures { IfOk result (λ made. plain_made made ≡ request_of deal.now.origin request.now) }
{
    let client = request.client;
    let stamp = request.stamp;
    let body = asked_body(alloc, deal.key(client), client, stamp, &request.op)?;
    let digest = asked_digest(client, stamp, &body);
    let sig = values_for(deal, Slot::Request { client, stamp }, 0, &digest);
    Ok(Made {
        client,
        stamp,
        body,
        sig,
    })
}

/// The bytes of the frame of a lie's request.
pub(crate) fn request_bytes(
    alloc: Global,
    deal: &Deal,
    request: &LieRequest,
) -> Result<Bytes, Memory>
    requires sizes { IsTrue (accepted deal.now.origin.params) }
    requires fits { IsTrue (request_fits deal.now.origin.params request.now) }
    ensures { IfOk result (λ bytes. bytes ≡ frame_bytes (frames.Request (request_of deal.now.origin request.now))) }
{
    let made = request_of(alloc, deal, request)?;
    Frame::Request(made.lent()).write(alloc)
}

/// The entry of a lie: its request, or none where it is null.
pub(crate) fn entry_of(
    alloc: Global,
    deal: &Deal,
    entry: &[LieRequest],
) -> Result<Option<Made>, Memory>
    requires sizes { IsTrue (accepted deal.now.origin.params) }
    requires fits { IsTrue (entry_fits deal.now.origin.params entry.now) }
    ensures { IfOk result (λ made. plain_entry_made made ≡ entry_of deal.now.origin entry.now) }
{
    match entry.first() {
        Some(request) => Ok(Some(request_of(alloc, deal, request)?)),
        None => Ok(None),
    }
}

/// The entry of a frame.
pub(crate) fn lent_entry(made: &Option<Made>) -> Entry<'_>
    ensures { plain_entry result ≡ plain_entry_made made.now }
{
    match made {
        Some(request) => Entry::Request(request.lent()),
        None => Entry::Null,
    }
}
