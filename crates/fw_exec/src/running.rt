//! What an executor keeps, and what it does with a frame and at a tick.

ghost use Rattle.std.specs.Prelude.{◌≡◌, ◌∷◌, ◌++◌, ◌+◌, ◌&&◌, [], suc, length, take, is_some, Some, None, IfOk, OnOk, OnErr, nat_le, if◌then◌else◌};
ghost use Rattle.fw_frame.specs.Plain.{plain_entry};
ghost use Rattle.fw_frame.specs.View.{viewed_entry};
ghost use Rattle.fw_trace.specs.Executor as executors;
ghost use Rattle.fw_trace.specs.Lists.{first_at};
ghost use Rattle.fw_trace.specs.declared.Input.TheVariants.{Tick};
ghost use Rattle.fw_rules.specs.Roles.{is_filter};
ghost use Rattle.fw_exec.specs.Kept.{IsEntryAt, IsRunning, next};
ghost use Rattle.fw_exec.specs.Executors.{IsOwn, speech_by};

use crate::kept::{Agreements, Shares, entry_at, frame_at, keep, keeps_above};
use crate::own::{Own, execute, other_executors};
use fw_base::Seat;
use fw_directory::Directory;
use fw_frame::{Entry, Frame};
use fw_list::{Bytes, Memory, Newest};
use fw_lookup::{bytes_at, was_sent};
use fw_node::{Outbox, Sent, row_seats};
use fw_ref::{Replica, Service};
use std::alloc::Global;
use std::marker::Model;

/// What an executor keeps: the agreed frames, which filters sent them, the replica, and the shares.
#[derive(Drop)]
pub struct Running<S: Service> {
    kept: Agreements,
    from: Newest<(Seat, u32)>,
    replica: Replica<S>,
    shares: Shares,
}

impl<S: Service> Model for Running<S> {
    ghost use Rattle.fw_exec.specs.Kept.{Keeps};

    ghost Value = { Keeps };

    ghost view = { λ x. record { kept = x.kept; from = x.from; done = x.replica.done; state = x.replica.reference; shares = x.shares } };
}

/// Whether it is a filter's seat.
fn is_of_filter(seat: Seat) -> bool
    ensures { result ≡ is_filter seat }
{
    matches!(seat, Seat::Filter(..))
}

impl<S: Service> Running<S> {
    /// Nothing is kept, and this replica has answered nothing.
    pub(crate) fn new(alloc: Global, replica: Replica<S>) -> Running<S>
        ensures { result ≡ record { kept = []; from = []; done = replica.done; state = replica.reference; shares = [] } }
    {
        Running {
            kept: Newest::new(alloc),
            from: Newest::new(alloc),
            replica,
            shares: Newest::new(alloc),
        }
    }

    /// How many numbers were executed.
    pub(crate) fn done(&self) -> u32
        ensures { result ≡ self.now.done }
    {
        self.replica.done()
    }

    /// Executes the next number if it is kept, and sends its share. Whether it was kept.
    fn execute_next(
        &mut self,
        own: &Own,
        directory: &Directory,
        out: &mut Outbox,
    ) -> Result<bool, Memory>
        requires own { IsOwn own.now }
        requires sizes { directory.now.params ≡ own.now.params }
        requires running { IsRunning own.now.params self.old }
        ensures done { IfOk result (λ done. done ≡ is_some (executors.entry_of self.old.kept (self.old.done + 1))) }
        ensures keeps { OnOk result (self.new ≡ (executors.execute_on (speech_by own.now directory.now) 1 self.old).0) }
        ensures sent { OnOk result (out.new ≡ out.old ++ (executors.execute_on (speech_by own.now directory.now) 1 self.old).1) }
        ensures running { OnOk result (IsRunning own.now.params self.new) }
        ensures err { OnErr result (out.new ≡ out.old) }
    {
        let number = self.replica.done() + 1;
        let Some(entry) = entry_at(&self.kept, number) else {
            return Ok(false);
        };
        let share = execute(own, &mut self.replica, number, entry)?;
        let copy = Bytes::copy_of(own.alloc, share.items())?;
        self.shares.push((number, copy))?;
        let params = directory.params();
        let filters = row_seats(own.alloc, params, params.h)?;
        out.send_to_all(own.alloc, filters.items(), share.items())?;
        Ok(true)
    }

    /// Executes from the next number on, as far as the numbers are kept.
    fn execute_all(
        &mut self,
        own: &Own,
        directory: &Directory,
        out: &mut Outbox,
    ) -> Result<(), Memory>
        requires own { IsOwn own.now }
        requires sizes { directory.now.params ≡ own.now.params }
        requires running { IsRunning own.now.params self.old }
        ensures keeps { OnOk result (self.new ≡ (executors.execute_on (speech_by own.now directory.now) (suc (length self.old.kept)) self.old).0) }
        ensures sent { OnOk result (out.new ≡ out.old ++ (executors.execute_on (speech_by own.now directory.now) (suc (length self.old.kept)) self.old).1) }
        ensures running { OnOk result (IsRunning own.now.params self.new) }
        ensures err { OnErr result (take (length out.old) out.new ≡ out.old) }
    {
        for _ in 0..self.kept.len() {
            if !self.execute_next(own, directory, out)? {
                return Ok(());
            }
        }
        self.execute_next(own, directory, out)?;
        Ok(())
    }

    /// The share of a number that was executed, where the seat is a filter's that told of it before.
    fn share_again(&self, alloc: Global, seat: Seat, number: u32) -> Result<Option<Bytes>, Memory>
        ensures { IfOk result (λ share. share ≡ (if is_filter seat && nat_le number self.now.done && executors.sent_before self.now.from seat number then first_at (λ s. Some s) self.now.shares number else None)) }
    {
        if !is_of_filter(seat) {
            return Ok(None);
        }
        if number > self.replica.done() {
            return Ok(None);
        }
        if !was_sent(&self.from, seat, number) {
            return Ok(None);
        }
        match bytes_at(&self.shares, number) {
            None => Ok(None),
            Some(share) => Ok(Some(Bytes::copy_of(alloc, share.items())?)),
        }
    }

    /// Keeps an agreed frame, where none is kept of its number, and notes which filter sent it.
    fn note(
        &mut self,
        own: &Own,
        seat: Seat,
        number: u32,
        entry: &Entry<'_>,
        bytes: &[u8],
    ) -> Result<(), Memory>
        requires running { IsRunning own.now.params self.old }
        requires entry { IsEntryAt own.now.params number (viewed_entry (plain_entry entry.now)) }
        ensures keeps { OnOk result (self.new ≡ record self.old { kept = executors.keep self.old.kept (number, viewed_entry (plain_entry entry.now), bytes.now); from = if is_filter seat then (seat, number) ∷ self.old.from else self.old.from }) }
        ensures running { OnOk result (IsRunning own.now.params self.new) }
    {
        keep(own.alloc, &mut self.kept, number, entry, bytes)?;
        if is_of_filter(seat) {
            self.from.push((seat, number))?;
        }
        Ok(())
    }

    /// Hears an agreed frame: keeps the first of its number, executes what can be executed, and sends the share of the number
    /// again where a filter asks again.
    pub(crate) fn hear(
        &mut self,
        own: &Own,
        directory: &Directory,
        seat: Seat,
        number: u32,
        entry: &Entry<'_>,
        bytes: &[u8],
        out: &mut Outbox,
    ) -> Result<(), Memory>
        requires own { IsOwn own.now }
        requires sizes { directory.now.params ≡ own.now.params }
        requires running { IsRunning own.now.params self.old }
        requires entry { IsEntryAt own.now.params number (viewed_entry (plain_entry entry.now)) }
        ensures keeps { OnOk result (self.new ≡ (executors.hear_agreed (speech_by own.now directory.now) self.old seat bytes.now (Some (number, viewed_entry (plain_entry entry.now)))).0) }
        ensures sent { OnOk result (out.new ≡ out.old ++ (executors.hear_agreed (speech_by own.now directory.now) self.old seat bytes.now (Some (number, viewed_entry (plain_entry entry.now)))).1) }
        ensures running { OnOk result (IsRunning own.now.params self.new) }
        ensures err { OnErr result (take (length out.old) out.new ≡ out.old) }
    {
        let again = self.share_again(own.alloc, seat, number)?;
        self.note(own, seat, number, entry, bytes)?;
        self.execute_all(own, directory, out)?;
        if let Some(bytes) = again {
            out.push(Sent { to: seat, bytes })?;
        }
        Ok(())
    }

    /// Sends the agreed frame of a number to the executor that wants it, where it is kept.
    pub(crate) fn answer_want(
        &self,
        alloc: Global,
        seat: Seat,
        number: u32,
        out: &mut Outbox,
    ) -> Result<(), Memory>
        ensures sent { OnOk result (out.new ≡ out.old ++ executors.hear_want self.now seat (Some number)) }
        ensures err { OnErr result (out.new ≡ out.old) }
    {
        let Some(frame) = frame_at(&self.kept, number) else {
            return Ok(());
        };
        let bytes = Bytes::copy_of(alloc, frame.items())?;
        out.push(Sent { to: seat, bytes })
    }

    /// Wants the next number of the other executors, where it isn't kept but a greater one is.
    pub(crate) fn tick(
        &self,
        own: &Own,
        directory: &Directory,
        out: &mut Outbox,
    ) -> Result<(), Memory>
        requires own { IsOwn own.now }
        requires sizes { directory.now.params ≡ own.now.params }
        requires running { IsRunning own.now.params self.now }
        ensures sent { OnOk result (out.new ≡ out.old ++ (next (speech_by own.now directory.now) self.now Tick).1) }
        ensures err { OnErr result (out.new ≡ out.old) }
    {
        let number = self.replica.done() + 1;
        if entry_at(&self.kept, number).is_some() {
            return Ok(());
        }
        if !keeps_above(&self.kept, number) {
            return Ok(());
        }
        let want = Frame::Want { number }.write(own.alloc)?;
        let others = other_executors(own.alloc, directory.params(), own.exec)?;
        out.send_to_all(own.alloc, others.items(), want.items())
    }
}
