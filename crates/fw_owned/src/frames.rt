//! The frames of what is kept.

ghost use Rattle.std.specs.Prelude.{◌≡◌, [], IfOk};
ghost use Rattle.fw_frame.specs.View.{Proposes, Votes, Changes, Begins, Agrees, Replies};
ghost use Rattle.fw_means.specs.Means.{written};
ghost use Rattle.fw_owned.specs.Pieces.{propose_of, vote_of, change_of, new_view_of, agreed_of, reply_of};

use crate::lent::lent_signers;
use crate::proofs::lent_changes;
use crate::{OwnedAgreed, OwnedChange, OwnedNewView, OwnedPropose, OwnedReply, OwnedVote};
use fw_frame::Frame;
use fw_list::{BODY_LEN, Bytes, Memory};
use std::alloc::Global;

impl OwnedPropose {
    /// Its frame.
    pub fn frame(&self, alloc: Global) -> Result<Bytes, Memory>
        ensures { IfOk result (λ bytes. bytes ≡ written (Proposes (propose_of self.now))) }
    {
        Frame::Propose {
            view: self.view,
            number: self.number,
            entry: self.entry.lent(),
            sig: self.sig.items(),
        }
        .write(alloc)
    }
}

impl OwnedVote {
    /// Its frame.
    pub fn frame(&self, alloc: Global) -> Result<Bytes, Memory>
        ensures { IfOk result (λ bytes. bytes ≡ written (Votes (vote_of self.now))) }
    {
        Frame::Vote {
            phase: self.phase,
            view: self.view,
            number: self.number,
            agree: self.agree,
            digest: &self.digest,
            sig: self.sig.items(),
        }
        .write(alloc)
    }
}

impl OwnedChange {
    /// Its frame.
    pub fn frame(&self, alloc: Global) -> Result<Bytes, Memory>
        ensures { IfOk result (λ bytes. bytes ≡ written (Changes (change_of self.now))) }
    {
        self.lent(alloc)?.write(alloc)
    }
}

impl OwnedNewView {
    /// Its frame.
    pub fn frame(&self, alloc: Global) -> Result<Bytes, Memory>
        ensures { IfOk result (λ bytes. bytes ≡ written (Begins (new_view_of self.now))) }
    {
        Frame::NewView {
            view: self.view,
            changes: lent_changes(alloc, &self.changes)?,
            sig: self.sig.items(),
        }
        .write(alloc)
    }
}

impl OwnedAgreed {
    /// Its frame.
    pub fn frame(&self, alloc: Global) -> Result<Bytes, Memory>
        ensures { IfOk result (λ bytes. bytes ≡ written (Agrees (agreed_of self.now))) }
    {
        Frame::Agreed {
            view: self.view,
            number: self.number,
            entry: self.entry.lent(),
            signers: lent_signers(alloc, &self.signers)?,
        }
        .write(alloc)
    }
}

/// The frame of a reply without an answer: its client is 0, and its body is zeros.
#[tactic(auto, unfolding(fw_frame::specs::View::null_body))]
fn null_frame(alloc: Global, number: u32, values: &[u8]) -> Result<Bytes, Memory>
    ensures { IfOk result (λ bytes. bytes ≡ written (Replies (record { number = number; answers = []; values = values.now }))) }
{
    Frame::Reply {
        number,
        client: 0,
        stamp: 0,
        body: &[0; BODY_LEN],
        secrets: values,
    }
    .write(alloc)
}

impl OwnedReply {
    /// Its frame.
    pub fn frame(&self, alloc: Global) -> Result<Bytes, Memory>
        ensures { IfOk result (λ bytes. bytes ≡ written (Replies (reply_of self.now))) }
    {
        if self.stamp == 0 {
            return null_frame(alloc, self.number, self.values.items());
        }
        Frame::Reply {
            number: self.number,
            client: self.client,
            stamp: self.stamp,
            body: self.body.items(),
            secrets: self.values.items(),
        }
        .write(alloc)
    }
}
