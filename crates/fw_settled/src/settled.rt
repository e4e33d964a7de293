//! The numbers that are agreed or answered.

ghost use Rattle.std.specs.Prelude.{◌≡◌, ◌∷◌, [], ◌&&◌, ℕ, None, Some, not, is_some, nat_eq, map, reverse, IfOk, OnOk, OnErr, IsTrue, if◌then◌else◌};
ghost use Rattle.std.specs.List.{find};
ghost use Rattle.std.specs.Option.{option_copied, option_map};
ghost use Rattle.fw_base.specs.Sizes.{accepted};
ghost use Rattle.fw_frame.specs.View.{Agrees, Replies};
ghost use Rattle.fw_means.specs.Means.{written};
ghost use Rattle.fw_owned.specs.Pieces.{agreed_of, reply_of};
ghost use Rattle.fw_settled.specs.Queued.{agreed_in, reply_in, replied_in, next_up, again};

use fw_base::Params;
use fw_list::Memory;
use fw_owned::{OwnedAgreed, OwnedReply};
use fw_queue::Queue;
use std::alloc::Global;
use std::marker::Model;

/// What is agreed and what is answered, number by number, with the queue of their frames.
#[derive(Drop)]
pub struct Settled {
    alloc: Global,
    queue: Queue,
    committed: Vec<OwnedAgreed>,
    held: Vec<OwnedReply>,
}

impl Model for Settled {
    ghost use Rattle.std.specs.Prelude.{IsTrue, reverse};
    ghost use Rattle.fw_base.specs.Sizes.{accepted};
    ghost use Rattle.fw_settled.specs.Queued.{SettledNumbers, AreQueued};

    ghost Value = { SettledNumbers };

    ghost view = { λ s. record { params = s.queue.params; committed = reverse s.committed.items; held = reverse s.held.items; up = s.queue.gone } };

    ghost invariant = { λ s. IsTrue (accepted s.queue.params) × AreQueued s.queue (reverse s.committed.items) (reverse s.held.items) };
}

/// The last of these that is of a number.
fn last_agreed(committed: &[OwnedAgreed], number: u32) -> Option<&OwnedAgreed>
    ensures { option_copied result ≡ agreed_in (reverse committed.now) number }
{
    committed
        .iter()
        .rev()
        .find(|agreed| agreed.number == number)
}

/// The last of these that is of a number.
fn last_reply(held: &[OwnedReply], number: u32) -> Option<&OwnedReply>
    ensures { option_copied result ≡ reply_in (reverse held.now) number }
{
    held.iter().rev().find(|reply| reply.number == number)
}

impl Settled {
    /// Nothing is agreed, answered or gone up.
    pub fn new(alloc: Global, params: &Params) -> Result<Settled, Memory>
        requires { IsTrue (accepted params.now) }
        ensures { IfOk result (λ settled. settled ≡ record { params = params.now; committed = []; held = []; up = 0 }) }
    {
        Ok(Settled {
            alloc,
            queue: Queue::new(alloc, params)?,
            committed: Vec::new(alloc),
            held: Vec::new(alloc),
        })
    }

    /// What is agreed, the oldest first.
    pub fn committed(&self) -> &[OwnedAgreed]
        ensures { result.now ≡ reverse self.now.committed }
    {
        self.committed.as_slice()
    }

    /// The replies that are held, the oldest first.
    pub fn held(&self) -> &[OwnedReply]
        ensures { result.now ≡ reverse self.now.held }
    {
        self.held.as_slice()
    }

    /// What is agreed at a number, if something is.
    pub fn agreed_at(&self, number: u32) -> Option<&OwnedAgreed>
        ensures { option_copied result ≡ agreed_in self.now.committed number }
    {
        last_agreed(self.committed.as_slice(), number)
    }

    /// The reply of a number, if one is held.
    pub fn reply_at(&self, number: u32) -> Option<&OwnedReply>
        ensures { option_copied result ≡ reply_in self.now.held number }
    {
        last_reply(self.held.as_slice(), number)
    }

    /// Keeps what is agreed at a number, where nothing was. After want of memory all is as before.
    pub fn commit(&mut self, agreed: OwnedAgreed) -> Result<(), Memory>
        requires { agreed_in self.old.committed agreed.number ≡ None }
        ensures ok { OnOk result (self.new ≡ record self.old { committed = agreed ∷ self.old.committed }) }
        ensures err { OnErr result (self.new ≡ self.old) }
    {
        let number = agreed.number;
        let frame = agreed.frame(self.alloc)?;
        let len = self.committed.len();
        self.committed.push(agreed)?;
        let queued = self.queue.agreed(number, frame.items());
        if queued.is_err() {
            self.committed.truncate(len);
        }
        queued?;
        Ok(())
    }

    /// Holds a reply where none of its number is held; the answer says whether it does. After want of memory all is as before.
    pub fn hold(&mut self, reply: OwnedReply) -> Result<bool, Memory>
        ensures first { IfOk result (λ first. first ≡ not (is_some (reply_in self.old.held reply.number))) }
        ensures ok { OnOk result (self.new ≡ (if is_some (reply_in self.old.held reply.number) then self.old else record self.old { held = reply ∷ self.old.held })) }
        ensures err { OnErr result (self.new ≡ self.old) }
    {
        if self.reply_at(reply.number).is_some() {
            return Ok(false);
        }
        let number = reply.number;
        let frame = reply.frame(self.alloc)?;
        let len = self.held.len();
        self.held.push(reply)?;
        let queued = self.queue.reply(number, frame.items());
        if queued.is_err() {
            self.held.truncate(len);
        }
        queued
    }

    /// The greatest number such that the replies of 1 up to it are held.
    pub fn replied(&self) -> u32
        ensures { result ≡ replied_in self.now }
    {
        self.queue.replied()
    }

    /// The number that may go up: the one after the last that has gone, exactly where it is agreed and at most `pipe` above the replies.
    pub fn next_up(&self) -> Option<u32>
        ensures { result ≡ next_up self.now }
    {
        self.queue.ready()
    }

    /// The number that may go up has gone.
    pub fn goes_up(&mut self, number: u32)
        requires { next_up self.old ≡ Some number }
        ensures { self.new ≡ record self.old { up = number } }
    {
        self.queue.gone(number);
    }

    /// The first number without a reply, exactly where it has gone up.
    pub fn again(&self) -> Option<u32>
        ensures { result ≡ again self.now }
    {
        self.queue.again()
    }

    /// The frame of what is agreed at a number, if something is.
    pub fn agreed_frame(&self, number: u32) -> Option<&[u8]>
        ensures { option_copied result ≡ option_map (λ a. written (Agrees (agreed_of a))) (agreed_in self.now.committed number) }
    {
        self.queue.agreed_frame(number)
    }

    /// The frame of the reply of a number, if one is held.
    pub fn reply_frame(&self, number: u32) -> Option<&[u8]>
        ensures { option_copied result ≡ option_map (λ r. written (Replies (reply_of r))) (reply_in self.now.held number) }
    {
        self.queue.reply_frame(number)
    }
}
