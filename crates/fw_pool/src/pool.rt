//! The pool of frames and the log of a world.

use crate::counts::submissions;
use crate::due::{first_due, rests};
use crate::frames::{extend, mark, room};
use crate::note::Note;
use fw_base::{Params, Seat};
use fw_list::{Bytes, Items, Memory, Newest};
use fw_node::Outbox;
use fw_op::Op;
use fw_rules::Which;
use fw_trace::Sent;
use std::alloc::Global;
use std::marker::Model;

/// What the seats of a deployment sent and took. The bytes of a frame are kept once.
#[derive(Drop)]
pub struct Pool {
    alloc: Global,
    params: Params,
    faulty: Items<Seat>,
    frames: Vec<Sent<Bytes>>,
    marks: Vec<bool>,
    log: Newest<Note>,
    due: usize,
    bytes: usize,
}

impl Model for Pool {
    ghost use Rattle.fw_pool.specs.Notes.{log_of};
    ghost use Rattle.fw_pool.specs.Pooled.{Pooled, Holds};

    ghost Value = { Pooled };

    ghost view = { λ p. record { params = p.params; faulty = p.faulty; trace = record { pool = p.frames.items; log = log_of p.frames.items p.log } } };

    ghost invariant = { λ p. Holds p.params p.faulty p.frames.items p.marks.items p.log p.due p.bytes };
}

impl Pool {
    ghost use Rattle.std.specs.Prelude.{◌≡◌, ◌≤◌, ◌<◌, ◌↔◌, length, slice_get, OnOk, OnErr, IsTrue};
    ghost use Rattle.fw_base.specs.Sizes.{accepted};
    ghost use Rattle.fw_base.specs.declared.seat.Seat.{Seat};
    ghost use Rattle.fw_trace.specs.Trace.{nothing, next_frame, rests_from, IsAtRest};
    ghost use Rattle.fw_node.specs.Histories.{History, Out};
    ghost use Rattle.fw_fair.specs.Hostile.{rules_among};
    ghost use Rattle.fw_rules.specs.declared.limits.TheConstants.{MOST_FRAMES};
    ghost use Rattle.fw_pool.specs.Notes.{logged, delivery, ticked, submitted, IsWithin};
    ghost use Rattle.fw_pool.specs.Pooled.{correct_in, enters, over_of, HasRoom};
    ghost use Rattle.fw_pool.specs.Counts.{submissions};

    /// Nothing was sent or taken, in a deployment with these faulty seats.
    pub fn new(alloc: Global, params: Params, faulty: Items<Seat>) -> Self
        requires { IsTrue (accepted params) }
        ensures { result ≡ record { params = params; faulty = faulty; trace = nothing } }
    {
        Pool {
            alloc,
            params,
            faulty,
            frames: Vec::new(alloc),
            marks: Vec::new(alloc),
            log: Newest::new(alloc),
            due: 0,
            bytes: 0,
        }
    }

    /// The faulty seats of the deployment.
    pub fn faulty(&self) -> &[Seat]
        ensures { result.now ≡ self.now.faulty }
    {
        self.faulty.items()
    }

    /// All that was sent, in order.
    pub fn frames(&self) -> &[Sent<Bytes>]
        ensures frames { result.now ≡ self.now.trace.pool }
        ensures few { length result.now ≤ MOST_FRAMES }
    {
        self.frames.as_slice()
    }

    /// How many inputs were taken.
    pub fn events(&self) -> usize
        ensures { result ≡ length self.now.trace.log }
    {
        self.log.len()
    }

    /// How many submissions to correct clients were taken.
    pub fn submissions(&self) -> usize
        ensures { result ≡ submissions (correct_in self.now) self.now.trace.log }
    {
        submissions(&self.params, self.faulty.items(), &self.log)
    }

    /// The place of the first frame to a correct seat that was never delivered.
    pub fn next_due(&mut self) -> Option<usize>
        ensures same { self.new ≡ self.old }
        ensures next { (rule : Seat → History → Out) → result ≡ next_frame (rules_among self.old.params self.old.faulty rule) self.old.trace.log 0 self.old.trace.pool }
    {
        self.due = first_due(
            &self.params,
            self.faulty.items(),
            &self.marks,
            &self.frames,
            self.due,
        );
        if self.due < self.frames.len() {
            Some(self.due)
        } else {
            None
        }
    }

    /// Whether each frame between correct seats was delivered.
    pub fn is_at_rest(&self) -> bool
        ensures test { (rule : Seat → History → Out) → result ≡ rests_from (rules_among self.now.params self.now.faulty rule) self.now.trace.log 0 self.now.trace.pool }
        ensures rest { (rule : Seat → History → Out) → IsTrue result ↔ IsAtRest (rules_among self.now.params self.now.faulty rule) self.now.trace }
    {
        rests(&self.params, self.faulty.items(), &self.marks, &self.frames)
    }

    /// Which limit the first of these frames would pass that passes one, whichever seat sends them.
    pub fn over(&self, out: &Outbox) -> Option<Which>
        ensures { (seat : Seat) → result ≡ over_of self.now.trace seat out.now }
    {
        room(self.frames.len(), self.bytes, out.sent()).err()
    }

    /// Logs an input of a seat, and pools what the seat sends.
    fn take(&mut self, note: Note, from: Seat, out: &Outbox) -> Result<(), Memory>
        requires within { IsWithin (length self.old.trace.pool) note }
        requires from { from ≡ (logged self.old.trace.pool note).seat }
        requires room { HasRoom self.old.trace out.now }
        ensures params { self.new.params ≡ self.old.params }
        ensures faulty { self.new.faulty ≡ self.old.faulty }
        ensures ok { OnOk result (self.new.trace ≡ enters self.old.trace (logged self.old.trace.pool note) out.now) }
        ensures err { OnErr result (self.new ≡ self.old) }
    {
        let Ok(bytes) = room(self.frames.len(), self.bytes, out.sent()) else {
            unreachable!();
        };
        let place = note.place();
        extend(
            self.alloc,
            &mut self.frames,
            &mut self.marks,
            &mut self.log,
            note,
            from,
            out.sent(),
        )?;
        mark(&mut self.marks, place);
        self.bytes = bytes;
        Ok(())
    }

    /// Logs that the frame at a place came to its addressee, and pools what the addressee sends. After want of memory the pool is
    /// as before.
    pub fn log_frame(&mut self, place: usize, out: &Outbox) -> Result<(), Memory>
        requires place { place < length self.old.trace.pool }
        requires room { HasRoom self.old.trace out.now }
        ensures params { self.new.params ≡ self.old.params }
        ensures faulty { self.new.faulty ≡ self.old.faulty }
        ensures ok { OnOk result (self.new.trace ≡ enters self.old.trace (delivery place (slice_get self.old.trace.pool place)) out.now) }
        ensures err { OnErr result (self.new ≡ self.old) }
    {
        let to = self.frames[place].to;
        self.take(Note::Delivery { place }, to, out)
    }

    /// Logs a tick of a seat, and pools what the seat sends. After want of memory the pool is as before.
    pub fn log_tick(&mut self, seat: Seat, out: &Outbox) -> Result<(), Memory>
        requires { HasRoom self.old.trace out.now }
        ensures params { self.new.params ≡ self.old.params }
        ensures faulty { self.new.faulty ≡ self.old.faulty }
        ensures ok { OnOk result (self.new.trace ≡ enters self.old.trace (ticked seat) out.now) }
        ensures err { OnErr result (self.new ≡ self.old) }
    {
        self.take(Note::Tick { seat }, seat, out)
    }

    /// Logs that a seat's user submitted an operation, and pools what the seat sends. After want of memory the pool is as before.
    pub fn log_submit(&mut self, seat: Seat, op: &Op, out: &Outbox) -> Result<(), Memory>
        requires { HasRoom self.old.trace out.now }
        ensures params { self.new.params ≡ self.old.params }
        ensures faulty { self.new.faulty ≡ self.old.faulty }
        ensures ok { OnOk result (self.new.trace ≡ enters self.old.trace (submitted seat op.now) out.now) }
        ensures err { OnErr result (self.new ≡ self.old) }
    {
        let op = op.copy(self.alloc)?;
        self.take(Note::Submission { seat, op }, seat, out)
    }
}
