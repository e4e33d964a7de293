//! The submissions of a client: one is asked at a time, the others wait, and the replies to them are accepted in order.

ghost use Rattle.std.specs.Prelude.{◌≡◌, ◌≤◌, ◌-◌, ◌∷◌, [], false, Some, IfOk, IfSome, IfNone, length, drop, reverse, nat_lt};
ghost use Rattle.fw_trace.specs.Client as clients;
ghost use Rattle.fw_trace.specs.declared.Input.TheVariants.{Submitted, Tick};
ghost use Rattle.fw_client.specs.Kept.{Speech, IsAskable, after};

use fw_list::{Memory, Newest};
use fw_op::{Op, Reply};
use std::alloc::Global;
use std::collections::VecDeque;
use std::marker::Model;

/// A reply that was accepted: to the request of a stamp, at a number of the list.
pub type Accepted = fw_trace::Told<Reply>;

/// What became of a client's submissions, and how many it takes.
#[derive(Drop)]
pub struct Submissions {
    alloc: Global,
    most: u32,
    asked: Newest<Op>,
    pending: bool,
    waiting: VecDeque<Op>,
    accepted: Newest<Accepted>,
}

impl Model for Submissions {
    ghost use Rattle.std.specs.Prelude.{◌≤◌, ◌+◌, length, All};
    ghost use Rattle.fw_client.specs.Kept.{Kept, IsAskable};

    ghost Value = { Kept };

    ghost view = { λ s. record { most = s.most; keeps = record { asked = s.asked; pending = s.pending; waiting = s.waiting.items; accepted = s.accepted } } };

    ghost invariant = { λ s. (length s.asked + length s.waiting.items ≤ s.most) × All IsAskable s.asked × All IsAskable s.waiting.items };
}

impl Submissions {
    /// None so far.
    pub fn new(alloc: Global, most: u32) -> Submissions
        ensures { result ≡ record { most = most; keeps = record { asked = []; pending = false; waiting = []; accepted = [] } } }
    {
        Submissions {
            alloc,
            most,
            asked: Newest::new(alloc),
            pending: false,
            waiting: VecDeque::new(alloc),
            accepted: Newest::new(alloc),
        }
    }

    /// The replies that were accepted, in the order of acceptance.
    pub fn accepted(&self) -> &[Accepted]
        ensures { result.now ≡ reverse self.now.keeps.accepted }
    {
        self.accepted.oldest_first()
    }

    /// How many were taken and aren't answered.
    pub fn waiting(&self) -> u32
        ensures { result ≡ clients.taken self.now.keeps - length self.now.keeps.accepted }
    {
        // (to have its range: it is above what is counted here)
        let _most = self.most;
        let taken = self.asked.len() + self.waiting.len();
        taken.saturating_sub(self.accepted.oldest_first().len()) as u32
    }

    /// The newest operation that was asked, and its stamp.
    pub fn newest(&self) -> Option<(u32, &Op)>
        ensures found { IfSome result (λ t. (self.now.keeps.asked ≡ t.1.now ∷ drop 1 self.now.keeps.asked) × (t.0 ≡ clients.stamp self.now.keeps)) }
        ensures fits { IfSome result (λ t. (1 ≤ t.0) × (t.0 ≤ self.now.most) × IsAskable t.1.now) }
        ensures none { IfNone result (self.now.keeps.asked ≡ []) }
    {
        // (to have its range: it is above what is counted here)
        let _most = self.most;
        let op = self.asked.at(0)?;
        Some((self.asked.len() as u32, op))
    }

    /// Asks the next operation that waits. Whether there is one.
    fn go_on(&mut self) -> Result<bool, Memory>
        ensures most { self.new.most ≡ self.old.most }
        ensures step { IfOk result (λ asks. (sp : Speech) → clients.go_on sp self.old.keeps self.old.keeps.waiting ≡ after asks sp self.new.keeps) }
    {
        let Some(op) = self.waiting.pop_front() else {
            return Ok(false);
        };
        self.asked.push(op)?;
        self.pending = true;
        Ok(true)
    }

    /// Accepts a reply that has the pending stamp, and asks the next operation that waits. Whether there is one.
    pub fn hear(&mut self, told: Accepted) -> Result<bool, Memory>
        ensures most { self.new.most ≡ self.old.most }
        ensures step { IfOk result (λ asks. (sp : Speech) → clients.hear sp self.old.keeps (Some told) ≡ after asks sp self.new.keeps) }
    {
        if !self.pending {
            return Ok(false);
        }
        if told.stamp as usize != self.asked.len() {
            return Ok(false);
        }
        self.pending = false;
        self.accepted.push(told)?;
        self.go_on()
    }

    /// Whether the newest request is pending, and so asked again.
    pub fn is_pending(&self) -> bool
        ensures { (sp : Speech) → clients.client_next sp self.now.keeps Tick ≡ after result sp self.now.keeps }
    {
        self.pending
    }

    /// Whether one more is taken.
    fn has_room(&self) -> bool
        ensures { result ≡ nat_lt (clients.taken self.now.keeps) self.now.most }
    {
        let most = self.most as usize;
        self.asked.len() + self.waiting.len() < most
    }

    /// Takes an operation: it is asked now, or waits for the reply that is pending. Whether it is asked.
    pub fn submit(&mut self, op: &Op) -> Result<bool, Memory>
        requires { IsAskable op.now }
        ensures most { self.new.most ≡ self.old.most }
        ensures step { IfOk result (λ asks. (sp : Speech) → sp.most ≡ self.old.most → clients.client_next sp self.old.keeps (Submitted op.now) ≡ after asks sp self.new.keeps) }
    {
        if !self.has_room() {
            return Ok(false);
        }
        let op = op.copy(self.alloc)?;
        if self.pending {
            self.waiting.push_back(op)?;
            return Ok(false);
        }
        self.asked.push(op)?;
        self.pending = true;
        Ok(true)
    }
}
