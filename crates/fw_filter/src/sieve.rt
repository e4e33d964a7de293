//! What a filter keeps, and what it does with what it hears.

ghost use Rattle.std.specs.Prelude.{◌≡◌, ◌<◌, ◌||◌, [], not, Some, IfOk, OnOk, OnErr, IsTrue};
ghost use Rattle.std.specs.Option.{option_map};
ghost use Rattle.fw_base.specs.Sizes.{accepted, width};
ghost use Rattle.fw_trace.specs.Filter as filters;
ghost use Rattle.fw_trace.specs.Executor.{sent_before};
ghost use Rattle.fw_frame.specs.Plain.{plain};
ghost use Rattle.fw_frame.specs.View.{viewed};
ghost use Rattle.fw_rules.specs.Roles.{ups, downs};
ghost use Rattle.fw_share.specs.Shares.{IsSeen, share_in};
ghost use Rattle.fw_filter.specs.Sifting.{Speech, SpeaksIn, IsReady, Does};

use crate::lookup::{held_of, was_asked};
use fw_base::{Params, Seat, Seats};
use fw_list::{Bytes, Memory, Newest};
use fw_lookup::was_sent;
use fw_node::{Outbox, agreement_seats, executor_seats, row_seats};
use fw_share::Combiner;
use fw_valid::Checked;
use std::alloc::Global;
use std::marker::Model;

/// What a filter keeps: the first reply of each number, who asked for which number from below, and the shares.
#[derive(Drop)]
pub(crate) struct Sieve {
    alloc: Global,
    params: Params,
    row: u32,
    held: Newest<(u32, Bytes)>,
    asked: Newest<(Seat, u32)>,
    combiner: Combiner,
}

impl Model for Sieve {
    ghost use Rattle.std.specs.Prelude.{◌≡◌, ◌<◌, IsTrue};
    ghost use Rattle.fw_base.specs.Sizes.{accepted, width};
    ghost use Rattle.fw_filter.specs.Sifting.{Sifted};

    ghost Value = { Sifted };

    ghost view = { λ s. record { params = s.params; row = s.row; keeps = record { held = s.held; asked = s.asked; shares = s.combiner.kept } } };

    ghost invariant = { λ s. IsTrue (accepted s.params) × (s.row < width s.params) × (s.combiner.params ≡ s.params) };
}

impl Sieve {
    /// Nothing so far.
    pub fn new(alloc: Global, params: &Params, row: u32) -> Sieve
        requires sizes { IsTrue (accepted params.now) }
        requires row { row < width params.now }
        ensures { result ≡ record { params = params.now; row = row; keeps = record { held = []; asked = []; shares = [] } } }
    {
        Sieve {
            alloc,
            params: *params,
            row,
            held: Newest::new(alloc),
            asked: Newest::new(alloc),
            combiner: Combiner::new(alloc, params),
        }
    }

    /// Its row.
    pub fn row(&self) -> u32
        ensures { result ≡ self.now.row }
    {
        self.row
    }

    /// The seats above it: the filters of the next row, or the executors.
    fn above(&self) -> Result<Seats, Memory>
        ensures { IfOk result (λ seats. seats ≡ ups self.now.params self.now.row) }
    {
        if self.row == self.params.h {
            executor_seats(self.alloc, &self.params)
        } else {
            row_seats(self.alloc, &self.params, self.row + 1)
        }
    }

    /// The seats below it: the filters of the row before, or the agreement nodes.
    fn below(&self) -> Result<Seats, Memory>
        ensures { IfOk result (λ seats. seats ≡ downs self.now.params self.now.row) }
    {
        if self.row == 0 {
            agreement_seats(self.alloc, &self.params)
        } else {
            row_seats(self.alloc, &self.params, self.row - 1)
        }
    }

    /// Whether the agreed frame of a number goes up: it is new, or its seat asks again.
    fn goes_up(&self, from: Seat, number: u32) -> bool
        ensures { result ≡ (not (filters.asked_at_all self.now.keeps.asked number) || sent_before self.now.keeps.asked from number) }
    {
        !was_asked(&self.asked, number) || was_sent(&self.asked, from, number)
    }

    /// Hears an agreed frame from below: it is answered with the reply that is held, or goes up. After want of memory the outbox is
    /// as before.
    pub fn hear_agreed(
        &mut self,
        from: Seat,
        number: u32,
        bytes: &[u8],
        out: &mut Outbox,
    ) -> Result<(), Memory>
        ensures params { self.new.params ≡ self.old.params }
        ensures row { self.new.row ≡ self.old.row }
        ensures step { OnOk result ((sp : Speech) → SpeaksIn self.old.params self.old.row sp → Does self.new.keeps out.old out.new (filters.hear_agreed sp self.old.keeps from bytes.now (Some number))) }
        ensures err { OnErr result (out.new ≡ out.old) }
    {
        let goes_up = self.goes_up(from, number);
        self.asked.push((from, number))?;
        if let Some(reply) = held_of(&self.held, number) {
            return out.send_to_all(self.alloc, &[from], reply.items());
        }
        if goes_up {
            let above = self.above()?;
            return out.send_to_all(self.alloc, above.items(), bytes);
        }
        Ok(())
    }

    /// Holds the first reply of a number, which goes down where it was asked for. After want of memory the outbox is as before.
    pub fn hold(&mut self, number: u32, reply: &[u8], out: &mut Outbox) -> Result<(), Memory>
        ensures params { self.new.params ≡ self.old.params }
        ensures row { self.new.row ≡ self.old.row }
        ensures step { OnOk result ((sp : Speech) → SpeaksIn self.old.params self.old.row sp → Does self.new.keeps out.old out.new (filters.hold sp self.old.keeps number reply.now)) }
        ensures err { OnErr result (out.new ≡ out.old) }
    {
        if held_of(&self.held, number).is_some() {
            return Ok(());
        }
        let copy = Bytes::copy_of(self.alloc, reply)?;
        self.held.push((number, copy))?;
        if was_asked(&self.asked, number) {
            let below = self.below()?;
            return out.send_to_all(self.alloc, below.items(), reply);
        }
        Ok(())
    }

    /// Hears a share of a number from its executor: the reply that is made with it is held. After want of memory the outbox is as
    /// before.
    pub fn hear_share(
        &mut self,
        number: u32,
        share: &Checked<'_>,
        out: &mut Outbox,
    ) -> Result<(), Memory>
        requires seen { IsSeen self.old.params (viewed (plain share.now)) }
        requires number { option_map (λ s. s.number) (share_in (viewed (plain share.now))) ≡ Some number }
        ensures params { self.new.params ≡ self.old.params }
        ensures row { self.new.row ≡ self.old.row }
        ensures step { OnOk result ((sp : Speech) → SpeaksIn self.old.params self.old.row sp → IsReady sp self.old.keeps → Does self.new.keeps out.old out.new (filters.hear_share sp self.old.keeps (share_in (viewed (plain share.now))))) }
        ensures err { OnErr result (out.new ≡ out.old) }
    {
        match self.combiner.add(share)? {
            Some(reply) => self.hold(number, reply.items(), out),
            None => Ok(()),
        }
    }
}
