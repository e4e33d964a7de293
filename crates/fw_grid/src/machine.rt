//! Nodes at work.

ghost use Rattle.std.specs.Prelude.{◌≡◌, IsTrue, slice_get};
ghost use Rattle.fw_base.specs.Sizes.{accepted};
ghost use Rattle.fw_grid.specs.Schedule.{can_deliver};

use crate::Grid;
use crate::cause::Cause;
use crate::entering::take_in;
use fw_base::{Params, Seat};
use fw_digest::Steps;
use fw_directory::Directory;
use fw_list::{Bytes, Items, Memory};
use fw_node::Node;
use fw_pool::Pool;
use fw_rules::Which;
use fw_step::{Step, is_correct};
use fw_trace::Sent;
use std::alloc::Global;
use std::marker::Model;
use std::sync::ledger::Ledger;

/// Why an event didn't happen.
#[derive(Clone, Copy, Debug, PartialEq, Eq)]
pub enum Halt {
    /// Too much would have been sent.
    Limit(Which),
    Memory,
}

impl From<Memory> for Halt {
    ghost use Rattle.std.specs.Prelude.{◌≡◌};
    ghost use Rattle.fw_grid.specs.declared.machine.Halt.TheVariants as halts;

    ghost from_gives = { λ _ h. h ≡ halts.Memory };

    fn from(_: Memory) -> Self {
        Halt::Memory
    }
}

/// Whether there is a frame at a place, and it goes to a correct seat.
fn can_deliver(params: &Params, faulty: &[Seat], frames: &[Sent<Bytes>], place: usize) -> bool
    requires { IsTrue (accepted params.now) }
    ensures { result ≡ can_deliver params.now faulty.now (slice_get frames.now place) }
{
    match frames.get(place) {
        Some(sent) => is_correct(params, faulty, sent.to),
        None => false,
    }
}

/// A node for each correct seat, and what they sent and took.
#[derive(Drop)]
pub struct Machine<A: Node, E: Node, F: Node, C: Node> {
    alloc: Global,
    directory: Directory,
    grid: Grid<A, E, F, C>,
    pool: Pool,
    failed: bool,
}

impl<A: Node, E: Node, F: Node, C: Node> Model for Machine<A, E, F, C> {
    ghost use Rattle.fw_grid.specs.GridNodes.{nodes_of};
    ghost use Rattle.fw_grid.specs.Seen.{Seen, Holds};

    ghost Value = { Seen A E F C };

    ghost view = { λ m. record { directory = m.directory; faulty = m.pool.faulty; nodes = nodes_of m.grid; trace = m.pool.trace; failed = m.failed } };

    ghost invariant = { λ m. Holds A.params A.own A.stands_for A.is_stopped E.params E.own E.stands_for E.is_stopped F.params F.own F.stands_for F.is_stopped C.params C.own C.stands_for C.is_stopped m.directory m.pool.faulty (nodes_of m.grid) m.pool.params m.pool.trace.log m.failed };
}

impl<A: Node, E: Node, F: Node, C: Node> Machine<A, E, F, C> {
    ghost use Rattle.std.specs.Prelude.{◌≡◌, ◌≤◌, ◌∷◌, [], ℕ, List, Ok, Err, OnOk, OnErr, IfErr, IsTrue, true, false};
    ghost use Rattle.fw_base.specs.declared.seat.Seat.{Seat};
    ghost use Rattle.fw_step.specs.Fitting.{is_correct, is_honest, step_fits};
    ghost use Rattle.fw_trace.specs.Trace.{Delivers, nothing, next_frame};
    ghost use Rattle.fw_trace.specs.Run.{happens, flushes, does};
    ghost use Rattle.fw_grid.specs.Nodes.{AllSeated, AllStanding};
    ghost use Rattle.fw_grid.specs.GridNodes.{nodes_of};
    ghost use Rattle.fw_grid.specs.Causes.{logged_by, event_of, CanCome};
    ghost use Rattle.fw_grid.specs.Schedule.{step_of_run};
    ghost use Rattle.fw_grid.specs.Seen.{hands_in, rule_in, world_of, histories};
    ghost use Rattle.fw_grid.specs.Fronts.{Move, IfLimit, flush_end, step_end, IsFront};

    /// New nodes, which have taken nothing.
    pub(crate) fn new(
        alloc: Global,
        directory: Directory,
        faulty: Items<Seat>,
        grid: Grid<A, E, F, C>,
    ) -> Self
        requires seated { AllSeated A.params A.own E.params E.own F.params F.own C.params C.own directory.params faulty (nodes_of grid) }
        requires fresh { AllStanding A.stands_for A.is_stopped E.stands_for E.is_stopped F.stands_for F.is_stopped C.stands_for C.is_stopped directory faulty (λ seat. []) (nodes_of grid) }
        ensures { result ≡ record { directory = directory; faulty = faulty; nodes = nodes_of grid; trace = nothing; failed = false } }
    {
        let params = *directory.params();
        Machine {
            alloc,
            directory,
            grid,
            pool: Pool::new(alloc, params, faulty),
            failed: false,
        }
    }

    pub(crate) fn failed(&self) -> bool
        ensures { result ≡ self.now.failed }
    {
        self.failed
    }

    /// What was sent and taken.
    pub(crate) fn pool(&self) -> &Pool
        ensures trace { result.now.trace ≡ self.now.trace }
        ensures params { result.now.params ≡ self.now.directory.params }
        ensures faulty { result.now.faulty ≡ self.now.faulty }
    {
        &self.pool
    }

    /// The nodes.
    pub(crate) fn grid(&self) -> &Grid<A, E, F, C>
        requires { self.now.failed ≡ false }
        ensures nodes { nodes_of result.now ≡ self.now.nodes }
        ensures seated { AllSeated A.params A.own E.params E.own F.params F.own C.params C.own self.now.directory.params self.now.faulty (nodes_of result.now) }
        ensures standing { AllStanding A.stands_for A.is_stopped E.stands_for E.is_stopped F.stands_for F.is_stopped C.stands_for C.is_stopped self.now.directory self.now.faulty (histories self.now.trace.log) (nodes_of result.now) }
    {
        &self.grid
    }

    pub(crate) fn directory(&self) -> &Directory
        ensures { result.now ≡ self.now.directory }
    {
        &self.directory
    }

    /// A seat takes what befalls it.
    fn take<L: Ledger>(&mut self, cause: Cause<'_>, steps: &mut Steps<L>) -> Result<(), Halt>
        requires going { self.old.failed ≡ false }
        requires come { CanCome self.old.trace.pool cause }
        requires seat { IsTrue (is_correct self.old.directory.params self.old.faulty (logged_by self.old.trace.pool cause).seat) }
        ensures directory { self.new.directory ≡ self.old.directory }
        ensures faulty { self.new.faulty ≡ self.old.faulty }
        ensures hands { hands_in A.hand E.hand F.hand C.hand self.new ≡ hands_in A.hand E.hand F.hand C.hand self.old }
        ensures rule { rule_in A.rule E.rule F.rule C.rule self.new ≡ rule_in A.rule E.rule F.rule C.rule self.old }
        ensures going { OnOk result (self.new.failed ≡ false) }
        ensures failed { OnErr result (self.new.failed ≡ true) }
        ensures ok { OnOk result (happens (world_of A.rule E.rule F.rule C.rule self.old) self.old.trace (event_of cause.entry) ≡ Ok self.new.trace) }
        ensures limit { IfErr result (λ halt. IfLimit halt (λ which. happens (world_of A.rule E.rule F.rule C.rule self.old) self.old.trace (event_of cause.entry) ≡ Err which)) }
        ensures err { OnErr result (self.new.trace ≡ self.old.trace) }
    {
        self.failed = true;
        let taken = take_in(
            self.alloc,
            &mut self.grid,
            &self.directory,
            &mut self.pool,
            cause,
            steps,
        );
        match taken {
            Ok(()) => {
                self.failed = false;
                Ok(())
            }
            Err(halt) => Err(halt),
        }
    }

    /// The frame at a place of the pool comes to its addressee.
    fn deliver<L: Ledger>(&mut self, place: usize, steps: &mut Steps<L>) -> Result<(), Halt>
        requires going { self.old.failed ≡ false }
        ensures directory { self.new.directory ≡ self.old.directory }
        ensures faulty { self.new.faulty ≡ self.old.faulty }
        ensures hands { hands_in A.hand E.hand F.hand C.hand self.new ≡ hands_in A.hand E.hand F.hand C.hand self.old }
        ensures rule { rule_in A.rule E.rule F.rule C.rule self.new ≡ rule_in A.rule E.rule F.rule C.rule self.old }
        ensures going { OnOk result (self.new.failed ≡ false) }
        ensures failed { OnErr result (self.new.failed ≡ true) }
        ensures ok { OnOk result (happens (world_of A.rule E.rule F.rule C.rule self.old) self.old.trace (Delivers place) ≡ Ok self.new.trace) }
        ensures limit { IfErr result (λ halt. IfLimit halt (λ which. happens (world_of A.rule E.rule F.rule C.rule self.old) self.old.trace (Delivers place) ≡ Err which)) }
        ensures err { OnErr result (self.new.trace ≡ self.old.trace) }
    {
        if !can_deliver(
            self.directory.params(),
            self.pool.faulty(),
            self.pool.frames(),
            place,
        ) {
            return Ok(());
        }
        self.take(Cause::Frame(place), steps)
    }

    /// The place of the first frame that is due.
    fn next_due(&mut self) -> Option<usize>
        ensures same { self.new ≡ self.old }
        ensures next { result ≡ next_frame (world_of A.rule E.rule F.rule C.rule self.old).rules self.old.trace.log 0 self.old.trace.pool }
    {
        self.pool.next_due()
    }

    /// Up to this many frames that are due are delivered, the oldest first.
    fn flush<L: Ledger>(&mut self, most: u32, steps: &mut Steps<L>) -> Result<(), Halt>
        requires going { self.old.failed ≡ false }
        ensures directory { self.new.directory ≡ self.old.directory }
        ensures faulty { self.new.faulty ≡ self.old.faulty }
        ensures hands { hands_in A.hand E.hand F.hand C.hand self.new ≡ hands_in A.hand E.hand F.hand C.hand self.old }
        ensures rule { rule_in A.rule E.rule F.rule C.rule self.new ≡ rule_in A.rule E.rule F.rule C.rule self.old }
        ensures going { OnOk result (self.new.failed ≡ false) }
        ensures failed { OnErr result (self.new.failed ≡ true) }
        ensures ok { OnOk result (flushes (world_of A.rule E.rule F.rule C.rule self.old) most self.old.trace ≡ Ok self.new.trace) }
        ensures limit { IfErr result (λ halt. IfLimit halt (λ which. (flushes (world_of A.rule E.rule F.rule C.rule self.old) most self.old.trace ≡ Err which) × (self.new.trace ≡ flush_end (world_of A.rule E.rule F.rule C.rule self.old) most self.old.trace))) }
        ensures front { OnErr result ((fewer : ℕ) × (fewer ≤ most) × (flushes (world_of A.rule E.rule F.rule C.rule self.old) fewer self.old.trace ≡ Ok self.new.trace)) }
    {
        for _ in 0..most {
            let Some(place) = self.next_due() else {
                return Ok(());
            };
            if let Err(halt) = self.deliver(place, steps) {
                return Err(halt);
            }
        }
        Ok(())
    }

    /// One step of a schedule.
    pub(crate) fn step<L: Ledger>(&mut self, step: &Step, steps: &mut Steps<L>) -> Result<(), Halt>
        requires going { self.old.failed ≡ false }
        requires fit { IsTrue (step_fits self.old.directory.params self.old.faulty step.now) }
        requires honest { IsTrue (is_honest step.now) }
        ensures directory { self.new.directory ≡ self.old.directory }
        ensures faulty { self.new.faulty ≡ self.old.faulty }
        ensures hands { hands_in A.hand E.hand F.hand C.hand self.new ≡ hands_in A.hand E.hand F.hand C.hand self.old }
        ensures rule { rule_in A.rule E.rule F.rule C.rule self.new ≡ rule_in A.rule E.rule F.rule C.rule self.old }
        ensures going { OnOk result (self.new.failed ≡ false) }
        ensures failed { OnErr result (self.new.failed ≡ true) }
        ensures ok { OnOk result (does (world_of A.rule E.rule F.rule C.rule self.old) self.old.trace (step_of_run step.now) ≡ Ok self.new.trace) }
        ensures limit { IfErr result (λ halt. IfLimit halt (λ which. (does (world_of A.rule E.rule F.rule C.rule self.old) self.old.trace (step_of_run step.now) ≡ Err which) × (self.new.trace ≡ step_end (world_of A.rule E.rule F.rule C.rule self.old) self.old.trace (step_of_run step.now)))) }
        ensures front { OnErr result ((rest : List Move) → IsFront (world_of A.rule E.rule F.rule C.rule self.old) self.old.trace (step_of_run step.now ∷ rest) self.new.trace) }
    {
        // (to know that the sizes are those of a deployment)
        let _ = &self.alloc;
        match step {
            Step::Submit { client, op } => {
                self.take(Cause::Submit(Seat::Client(*client), op), steps)
            }
            Step::Deliver { frame } => self.deliver(*frame as usize, steps),
            Step::Flush { most } => self.flush(*most, steps),
            Step::Tick { seat } => self.take(Cause::Tick(*seat), steps),
            Step::Lie { .. } => unreachable!(),
        }
    }
}
