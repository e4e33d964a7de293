//! The link to the other seats, and one to nobody.

ghost use Rattle.std.specs.Prelude.{◌≡◌, ◌≤◌, ℕ, List, Option, Some, None, length, IsNone, IsSome};
ghost use Rattle.fw_base.specs.Faults.{Counts};
ghost use Rattle.fw_base.specs.Link.{Start, HeardDatagram, SentDatagram, longest_datagram, DoneOrRose, HeardOrRose, Starts, IsPeerOf, IsWithin, Hears, Sends, TellsNone};

use std::marker::Model;

/// What a start and a send answer.
#[derive(Clone, Copy, Debug, PartialEq, Eq)]
pub enum Done {
    Done,
    Failed,
}

/// What a receive answers: a datagram and the sender's seat, if it has one.
#[derive(Clone, Copy, Debug, PartialEq, Eq)]
pub enum Heard {
    Got { len: usize, peer: Option<u32> },
    Failed,
}

/// A way to the other seats.
pub trait Link {
    /// The start that was done, if there was one.
    ghost started: { Self → Option Start };

    /// The datagrams received, the oldest first, where it tells them.
    ghost heard: { Self → Option (List HeardDatagram) };

    /// The datagrams sent, the oldest first, where it tells them.
    ghost sent: { Self → Option (List SentDatagram) };

    /// How often it has failed.
    ghost faults: { Self → ℕ };

    /// Opens the link of the own seat, one of so many seats, whose ports follow the base.
    fn start(&mut self, base: u16, own: u32, seats: u32) -> Done
        requires { IsNone (started self.old) }
        ensures counts { Counts (faults self.old) (faults self.new) }
        ensures cause { DoneOrRose (faults self.old) (faults self.new) result }
        ensures started { Starts (base, own, seats) result (started self.new) }
        ensures none_heard { TellsNone (heard self.old) }
        ensures none_sent { TellsNone (sent self.old) }
        ensures heard { heard self.new ≡ heard self.old }
        ensures sent { sent self.new ≡ sent self.old };

    /// Waits for a datagram, and fills the front of the buffer with it.
    fn recv(&mut self, buf: &mut [u8]) -> Heard
        requires { IsSome (started self.old) }
        ensures counts { Counts (faults self.old) (faults self.new) }
        ensures cause { HeardOrRose (faults self.old) (faults self.new) result }
        ensures within { IsWithin (started self.old) buf.old result }
        ensures started { started self.new ≡ started self.old }
        ensures heard { Hears (heard self.old) result buf.new (heard self.new) }
        ensures sent { sent self.new ≡ sent self.old };

    /// Sends a datagram to a seat.
    fn send(&mut self, peer: u32, datagram: &[u8]) -> Done
        requires started { IsSome (started self.old) }
        requires peer { IsPeerOf (started self.old) (Some peer) }
        requires short { length datagram.now ≤ longest_datagram }
        ensures counts { Counts (faults self.old) (faults self.new) }
        ensures cause { DoneOrRose (faults self.old) (faults self.new) result }
        ensures started { started self.new ≡ started self.old }
        ensures heard { heard self.new ≡ heard self.old }
        ensures sent { Sends (sent self.old) (peer, datagram.now) result (sent self.new) };
}

/// A link to nobody: each call fails.
#[derive(Drop)]
pub struct IdleLink {
    faults: u64,
}

impl Model for IdleLink {
    ghost use Rattle.std.specs.Prelude.{ℕ};

    ghost Value = { ℕ };

    ghost view = { λ l. l.faults };
}

impl IdleLink {
    /// A link that has not failed yet.
    pub fn new() -> Self
        ensures { result ≡ 0 }
    {
        IdleLink { faults: 0 }
    }
}

impl Link for IdleLink {
    ghost use Rattle.std.specs.Prelude.{◌≡◌, None, Some, []};
    ghost use Rattle.fw_base.specs.Faults.{Counts, one_more};
    ghost use Rattle.fw_base.specs.declared.link.Done.TheVariants as done;
    ghost use Rattle.fw_base.specs.declared.link.Heard.TheVariants as heard;

    ghost started = { λ _. None };

    ghost heard = { λ _. Some [] };

    ghost sent = { λ _. Some [] };

    ghost faults = { λ l. l };

    fn start(&mut self, _base: u16, _own: u32, _seats: u32) -> Done
        ensures fails { result ≡ done.Failed }
        ensures counts { Counts self.old self.new }
        ensures counted { self.new ≡ one_more self.old }
    {
        self.faults = self.faults.saturating_add(1);
        Done::Failed
    }

    fn recv(&mut self, _buf: &mut [u8]) -> Heard
        ensures fails { result ≡ heard.Failed }
        ensures counts { Counts self.old self.new }
        ensures counted { self.new ≡ one_more self.old }
    {
        self.faults = self.faults.saturating_add(1);
        Heard::Failed
    }

    fn send(&mut self, _peer: u32, _datagram: &[u8]) -> Done
        ensures fails { result ≡ done.Failed }
        ensures counts { Counts self.old self.new }
        ensures counted { self.new ≡ one_more self.old }
    {
        self.faults = self.faults.saturating_add(1);
        Done::Failed
    }
}
