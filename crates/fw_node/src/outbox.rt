//! What a node sends.

ghost use Rattle.std.specs.Prelude.{◌≡◌, ◌∷◌, ◌++◌, [], length, map, take, OnOk, OnErr};
ghost use Rattle.fw_trace.specs.Client as clients;
ghost use Rattle.fw_node.specs.Histories.{out_of};

use fw_base::Seat;
use fw_list::{Bytes, Memory};
use std::alloc::Global;
use std::marker::Model;

/// A frame on its way to a seat.
#[derive(Debug, Drop)]
pub struct Sent {
    pub to: Seat,
    pub bytes: Bytes,
}

/// Adds a frame to each of these seats.
#[tactic(auto, using(crate::proofs::Sending::begins_more))]
fn add_all(alloc: Global, to: &[Seat], bytes: &[u8], out: &mut Outbox) -> Result<(), Memory>
    ensures sent { OnOk result (out.new ≡ out.old ++ clients.to_all to.now bytes.now) }
    ensures err { OnErr result (take (length out.old) out.new ≡ out.old) }
{
    for seat in to {
        out.push(Sent {
            to: *seat,
            bytes: Bytes::copy_of(alloc, bytes)?,
        })?;
    }
    Ok(())
}

/// Frames that a node sends, in order.
#[derive(Debug, Drop)]
pub struct Outbox {
    sent: Vec<Sent>,
}

impl Model for Outbox {
    ghost use Rattle.std.specs.Prelude.{map};
    ghost use Rattle.fw_node.specs.Histories.{Out, out_of};

    ghost Value = { Out };

    ghost view = { λ o. map out_of o.sent.items };
}

impl Outbox {
    /// Nothing is sent.
    pub fn new(alloc: Global) -> Self
        ensures { result ≡ [] }
    {
        Outbox {
            sent: Vec::new(alloc),
        }
    }

    /// The frames.
    pub fn sent(&self) -> &[Sent]
        ensures { map out_of result.now ≡ self.now }
    {
        self.sent.as_slice()
    }

    /// Adds a frame. After want of memory the outbox is as before.
    pub fn push(&mut self, sent: Sent) -> Result<(), Memory>
        ensures ok { OnOk result (self.new ≡ self.old ++ (sent.to, sent.bytes) ∷ []) }
        ensures err { OnErr result (self.new ≡ self.old) }
    {
        self.sent.push(sent)?;
        Ok(())
    }

    /// Adds a frame to each of these seats. After want of memory the outbox is as before.
    pub fn send_to_all(&mut self, alloc: Global, to: &[Seat], bytes: &[u8]) -> Result<(), Memory>
        ensures ok { OnOk result (self.new ≡ self.old ++ clients.to_all to.now bytes.now) }
        ensures err { OnErr result (self.new ≡ self.old) }
    {
        let len = self.sent.len();
        let sent = add_all(alloc, to, bytes, self);
        if sent.is_err() {
            self.cut(len);
        }
        sent
    }

    /// Keeps the first so many frames; of fewer all.
    pub fn cut(&mut self, len: usize)
        ensures { self.new ≡ take len self.old }
    {
        self.sent.truncate(len)
    }
}
