//! Requests, entries and signers: copied from frames, copied again, and lent to frames.

ghost use Rattle.std.specs.Prelude.{◌≡◌, map, IfOk};
ghost use Rattle.fw_frame.specs.Plain.{plain_request, plain_entry, plain_signer};
ghost use Rattle.fw_frame.specs.View.{viewed_request, viewed_entry, viewed_signer};
ghost use Rattle.fw_frame.specs.Writing.{IsCountable};
ghost use Rattle.fw_owned.specs.Pieces.{request_of, entry_of, signer_of};

use crate::{OwnedEntry, OwnedRequest, OwnedSigner, OwnedSigners};
use fw_frame::{Entry, Request, Signer, Signers};
use fw_list::{Bytes, Memory};
use std::alloc::Global;

impl OwnedRequest {
    /// A copy of a frame's request.
    pub fn copy_of(alloc: Global, request: &Request<'_>) -> Result<OwnedRequest, Memory>
        ensures { IfOk result (λ copy. request_of copy ≡ viewed_request (plain_request request.now)) }
    {
        Ok(OwnedRequest {
            client: request.client,
            stamp: request.stamp,
            body: Bytes::copy_of(alloc, request.body)?,
            sig: Bytes::copy_of(alloc, request.sig)?,
        })
    }

    /// A copy.
    pub fn copy(&self, alloc: Global) -> Result<OwnedRequest, Memory>
        ensures { IfOk result (λ copy. copy ≡ self.now) }
    {
        Ok(OwnedRequest {
            client: self.client,
            stamp: self.stamp,
            body: Bytes::copy_of(alloc, self.body.items())?,
            sig: Bytes::copy_of(alloc, self.sig.items())?,
        })
    }

    /// The same, lent to a frame.
    pub fn lent(&self) -> Request<'_>
        ensures { viewed_request (plain_request result) ≡ request_of self.now }
    {
        Request {
            client: self.client,
            stamp: self.stamp,
            body: self.body.items(),
            sig: self.sig.items(),
        }
    }
}

impl OwnedEntry {
    /// A copy of a frame's entry.
    pub fn copy_of(alloc: Global, entry: &Entry<'_>) -> Result<OwnedEntry, Memory>
        ensures { IfOk result (λ copy. entry_of copy ≡ viewed_entry (plain_entry entry.now)) }
    {
        match entry {
            Entry::Null => Ok(OwnedEntry::Null),
            Entry::Request(request) => {
                Ok(OwnedEntry::Request(OwnedRequest::copy_of(alloc, request)?))
            }
        }
    }

    /// A copy.
    pub fn copy(&self, alloc: Global) -> Result<OwnedEntry, Memory>
        ensures { IfOk result (λ copy. copy ≡ self.now) }
    {
        match self {
            OwnedEntry::Null => Ok(OwnedEntry::Null),
            OwnedEntry::Request(request) => Ok(OwnedEntry::Request(request.copy(alloc)?)),
        }
    }

    /// The same, lent to a frame.
    pub fn lent(&self) -> Entry<'_>
        ensures { viewed_entry (plain_entry result) ≡ entry_of self.now }
    {
        match self {
            OwnedEntry::Null => Entry::Null,
            OwnedEntry::Request(request) => Entry::Request(request.lent()),
        }
    }
}

impl OwnedSigner {
    /// A copy.
    pub fn copy(&self, alloc: Global) -> Result<OwnedSigner, Memory>
        ensures { IfOk result (λ copy. copy ≡ self.now) }
    {
        Ok(OwnedSigner {
            agree: self.agree,
            sig: Bytes::copy_of(alloc, self.sig.items())?,
        })
    }

    /// The same, lent to a frame.
    pub fn lent(&self) -> Signer<'_>
        ensures { viewed_signer (plain_signer result) ≡ signer_of self.now }
    {
        Signer {
            agree: self.agree,
            sig: self.sig.items(),
        }
    }
}

/// A copy of these signers.
pub fn copy_signers(alloc: Global, signers: &OwnedSigners) -> Result<OwnedSigners, Memory>
    ensures { IfOk result (λ copy. copy ≡ signers.now) }
{
    let mut copy = OwnedSigners::new(alloc);
    for signer in signers.items() {
        copy.push(signer.copy(alloc)?)?;
    }
    Ok(copy)
}

/// These signers, lent to a frame.
pub fn lent_signers(alloc: Global, signers: &OwnedSigners) -> Result<Signers<'_>, Memory>
    ensures same { IfOk result (λ lent. map viewed_signer (map plain_signer lent) ≡ map signer_of signers.now) }
    ensures few { IfOk result IsCountable }
{
    let mut lent = Signers::new(alloc);
    for signer in signers.items() {
        lent.push(signer.lent())?;
    }
    Ok(lent)
}

/// A frame's signers, copied.
pub fn owned_signers(alloc: Global, signers: &[Signer<'_>]) -> Result<OwnedSigners, Memory>
    requires { IsCountable signers.now }
    ensures { IfOk result (λ copy. map signer_of copy ≡ map viewed_signer (map plain_signer signers.now)) }
{
    let mut copy = OwnedSigners::new(alloc);
    for signer in signers {
        copy.push(OwnedSigner {
            agree: signer.agree,
            sig: Bytes::copy_of(alloc, signer.sig)?,
        })?;
    }
    Ok(copy)
}
