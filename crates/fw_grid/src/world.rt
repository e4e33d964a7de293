//! A world: nodes at work, and the schedule that they go by.

use crate::machine::{Halt, Machine};
use crate::places::place_of;
use crate::{Grid, RunFault};
use fw_base::Seat;
use fw_digest::Steps;
use fw_directory::Directory;
use fw_list::{Bytes, Items, Memory};
use fw_node::Node;
use fw_step::{Step, is_correct};
use fw_trace::Sent;
use std::alloc::Global;
use std::marker::Model;
use std::sync::ledger::Ledger;

/// A node for each correct seat of a deployment, what they sent and took, and the steps of a schedule in which no lie is told.
#[derive(Drop)]
pub struct World<A: Node, E: Node, F: Node, C: Node> {
    machine: Machine<A, E, F, C>,
    steps: Items<Step>,
    done: u32,
}

impl<A: Node, E: Node, F: Node, C: Node> Model for World<A, E, F, C> {
    ghost use Rattle.std.specs.Prelude.{drop};
    ghost use Rattle.fw_grid.specs.Staged.{Staged, AreSteps};

    ghost Value = { Staged A E F C };

    ghost view = { λ w. record { seen = w.machine; done = w.done; left = drop w.done w.steps } };

    ghost invariant = { λ w. AreSteps w.machine.directory.params w.machine.faulty w.steps w.done };
}

impl<A: Node + Drop, E: Node + Drop, F: Node + Drop, C: Node + Drop> World<A, E, F, C> {
    ghost use Rattle.std.specs.Prelude.{◌≡◌, [], IfOk, IsTrue, false};
    ghost use Rattle.std.specs.List.{list_all};
    ghost use Rattle.fw_step.specs.Fitting.{is_correct, is_honest, step_fits};
    ghost use Rattle.fw_trace.specs.Trace.{nothing};
    ghost use Rattle.fw_grid.specs.Nodes.{AllSeated, AllStanding};
    ghost use Rattle.fw_grid.specs.GridNodes.{nodes_of};

    /// A world of new nodes, which has all steps before it. There are fewer than 2^32 of them, else memory is wanted.
    pub fn new(
        alloc: Global,
        directory: Directory,
        faulty: Items<Seat>,
        steps: Items<Step>,
        grid: Grid<A, E, F, C>,
    ) -> Result<Self, Memory>
        requires steps { IsTrue (list_all (step_fits directory.params faulty) steps) }
        requires honest { IsTrue (list_all is_honest steps) }
        requires seated { AllSeated A.params A.own E.params E.own F.params F.own C.params C.own directory.params faulty (nodes_of grid) }
        requires fresh { AllStanding A.stands_for A.is_stopped E.stands_for E.is_stopped F.stands_for F.is_stopped C.stands_for C.is_stopped directory faulty (λ seat. []) (nodes_of grid) }
        ensures { IfOk result (λ w. w ≡ record { seen = record { directory = directory; faulty = faulty; nodes = nodes_of grid; trace = nothing; failed = false }; done = 0; left = steps }) }
    {
        if steps.len() > u32::MAX as usize {
            return Err(Memory);
        }
        Ok(World {
            machine: Machine::new(alloc, directory, faulty, grid),
            steps,
            done: 0,
        })
    }
}

impl<A: Node, E: Node, F: Node, C: Node> World<A, E, F, C> {
    ghost use Rattle.std.specs.Prelude.{◌≡◌, ◌<◌, ◌≤◌, ◌+◌, ◌↔◌, [], length, take, drop, slice_get, Some, Ok, OnOk, OnErr, IfOk, IfErr, IfSome, IfNone, IsTrue, true, false};
    ghost use Rattle.std.specs.List.{list_all};
    ghost use Rattle.fw_base.specs.declared.seat.Seat.TheVariants as seats;
    ghost use Rattle.fw_step.specs.Fitting.{is_correct, is_honest, step_fits};
    ghost use Rattle.fw_base.specs.declared.seat.Seat.{Seat};
    ghost use Rattle.fw_trace.specs.Trace.{history, rests_from, IsAtRest};
    ghost use Rattle.fw_node.specs.Histories.{History, Out};
    ghost use Rattle.fw_fair.specs.Hostile.{rules_among};
    ghost use Rattle.fw_fair.specs.Correct.{count_below, correct_at, place_of};
    ghost use Rattle.fw_rules.specs.declared.limits.TheConstants.{MOST_FRAMES};
    ghost use Rattle.fw_pool.specs.Counts.{submissions};
    ghost use Rattle.fw_trace.specs.Run.{run_from};
    ghost use Rattle.fw_grid.specs.Nodes.{AllSeated, AllStanding, AreSeated, AreStanding};
    ghost use Rattle.fw_grid.specs.GridNodes.{nodes_of};
    ghost use Rattle.fw_grid.specs.Schedule.{schedule};
    ghost use Rattle.fw_grid.specs.Seen.{hands_in, rule_in, world_of};
    ghost use Rattle.fw_grid.specs.Fronts.{IsFront, IsFault};
    ghost use Rattle.fw_grid.specs.Staged.{IsNodeOf};

    /// The directory of the deployment.
    pub fn directory(&self) -> &Directory
        ensures { result.now ≡ self.now.seen.directory }
    {
        self.machine.directory()
    }

    /// The faulty seats of the deployment.
    pub fn faulty(&self) -> &[Seat]
        ensures { result.now ≡ self.now.seen.faulty }
    {
        self.machine.pool().faulty()
    }

    /// How many steps aren't done yet.
    pub fn left(&self) -> u32
        ensures { result ≡ length self.now.left }
    {
        self.steps.len() as u32 - self.done
    }

    /// Whether a step failed.
    pub fn failed(&self) -> bool
        ensures { result ≡ self.now.seen.failed }
    {
        self.machine.failed()
    }

    /// All that was sent, in order.
    pub fn frames(&self) -> &[Sent<Bytes>]
        ensures frames { result.now ≡ self.now.seen.trace.pool }
        ensures few { length result.now ≤ MOST_FRAMES }
    {
        self.machine.pool().frames()
    }

    /// How many inputs were taken.
    pub fn events(&self) -> usize
        ensures { result ≡ length self.now.seen.trace.log }
    {
        self.machine.pool().events()
    }

    /// How many submissions to correct clients were taken.
    pub fn submissions(&self) -> usize
        ensures { result ≡ submissions (is_correct self.now.seen.directory.params self.now.seen.faulty) self.now.seen.trace.log }
    {
        self.machine.pool().submissions()
    }

    /// All correct clients, ascending by seat.
    pub fn clients(&self) -> &[C]
        requires { self.now.seen.failed ≡ false }
        ensures nodes { result.now ≡ self.now.seen.nodes.clients }
        ensures seated { AreSeated C.params C.own self.now.seen.directory.params (correct_at self.now.seen.faulty seats.Client self.now.seen.directory.params.clients) (count_below self.now.seen.faulty seats.Client self.now.seen.directory.params.clients) result.now }
        ensures standing { AreStanding C.stands_for C.is_stopped self.now.seen.directory (λ k. history (correct_at self.now.seen.faulty seats.Client self.now.seen.directory.params.clients k) self.now.seen.trace.log) result.now }
    {
        self.machine.grid().clients.items()
    }

    /// The place of a seat's node among those of its kind; none where there is no such seat, or it is faulty.
    fn place_of(&self, seat: Seat) -> Option<usize>
        ensures found { IfSome result (λ place. IsTrue (is_correct self.now.seen.directory.params self.now.seen.faulty seat) × (place ≡ place_of self.now.seen.directory.params self.now.seen.faulty seat)) }
        ensures none { IfNone result (is_correct self.now.seen.directory.params self.now.seen.faulty seat ≡ false) }
    {
        let params = self.machine.directory().params();
        let faulty = self.machine.pool().faulty();
        if !is_correct(params, faulty, seat) {
            return None;
        }
        Some(place_of(params, faulty, seat))
    }

    /// The agreement node of a number; none where there is no such seat, or it is faulty.
    pub fn agree(&self, i: u32) -> Option<&A>
        requires { self.now.seen.failed ≡ false }
        ensures found { IfSome result (λ node. IsNodeOf A.params A.own A.stands_for A.is_stopped self.now.seen.directory self.now.seen.faulty self.now.seen.trace.log (seats.Agree i) node.now) }
        ensures place { IfSome result (λ node. slice_get self.now.seen.nodes.agree (place_of self.now.seen.directory.params self.now.seen.faulty (seats.Agree i)) ≡ Some node.now) }
        ensures none { IfNone result (is_correct self.now.seen.directory.params self.now.seen.faulty (seats.Agree i) ≡ false) }
    {
        let place = self.place_of(Seat::Agree(i))?;
        self.machine.grid().agree.at(place)
    }

    /// The executor of a number; none where there is no such seat, or it is faulty.
    pub fn exec(&self, j: u32) -> Option<&E>
        requires { self.now.seen.failed ≡ false }
        ensures found { IfSome result (λ node. IsNodeOf E.params E.own E.stands_for E.is_stopped self.now.seen.directory self.now.seen.faulty self.now.seen.trace.log (seats.Exec j) node.now) }
        ensures place { IfSome result (λ node. slice_get self.now.seen.nodes.exec (place_of self.now.seen.directory.params self.now.seen.faulty (seats.Exec j)) ≡ Some node.now) }
        ensures none { IfNone result (is_correct self.now.seen.directory.params self.now.seen.faulty (seats.Exec j) ≡ false) }
    {
        let place = self.place_of(Seat::Exec(j))?;
        self.machine.grid().exec.at(place)
    }

    /// The filter of a row and a column; none where there is no such seat, or it is faulty.
    pub fn filter(&self, row: u32, column: u32) -> Option<&F>
        requires { self.now.seen.failed ≡ false }
        ensures found { IfSome result (λ node. IsNodeOf F.params F.own F.stands_for F.is_stopped self.now.seen.directory self.now.seen.faulty self.now.seen.trace.log (seats.Filter row column) node.now) }
        ensures place { IfSome result (λ node. slice_get self.now.seen.nodes.filters (place_of self.now.seen.directory.params self.now.seen.faulty (seats.Filter row column)) ≡ Some node.now) }
        ensures none { IfNone result (is_correct self.now.seen.directory.params self.now.seen.faulty (seats.Filter row column) ≡ false) }
    {
        let place = self.place_of(Seat::Filter(row, column))?;
        self.machine.grid().filters.at(place)
    }

    /// The client of a number; none where there is no such seat, or it is faulty.
    pub fn client(&self, c: u32) -> Option<&C>
        requires { self.now.seen.failed ≡ false }
        ensures found { IfSome result (λ node. IsNodeOf C.params C.own C.stands_for C.is_stopped self.now.seen.directory self.now.seen.faulty self.now.seen.trace.log (seats.Client c) node.now) }
        ensures place { IfSome result (λ node. slice_get self.now.seen.nodes.clients (place_of self.now.seen.directory.params self.now.seen.faulty (seats.Client c)) ≡ Some node.now) }
        ensures none { IfNone result (is_correct self.now.seen.directory.params self.now.seen.faulty (seats.Client c) ≡ false) }
    {
        let place = self.place_of(Seat::Client(c))?;
        self.machine.grid().clients.at(place)
    }

    /// Whether each frame between correct seats was delivered.
    pub fn is_at_rest(&self) -> bool
        ensures test { (rule : Seat → History → Out) → result ≡ rests_from (rules_among self.now.seen.directory.params self.now.seen.faulty rule) self.now.seen.trace.log 0 self.now.seen.trace.pool }
        ensures rest { (rule : Seat → History → Out) → IsTrue result ↔ IsAtRest (rules_among self.now.seen.directory.params self.now.seen.faulty rule) self.now.seen.trace }
    {
        self.machine.pool().is_at_rest()
    }

    /// Does the next step. After a fault the world has failed: its trace is the one before the event that would have sent too
    /// much, or before one for which memory was wanted.
    pub fn step<L: Ledger>(&mut self, steps: &mut Steps<L>) -> Result<(), RunFault>
        requires going { self.old.seen.failed ≡ false }
        requires left { 0 < length self.old.left }
        ensures directory { self.new.seen.directory ≡ self.old.seen.directory }
        ensures faulty { self.new.seen.faulty ≡ self.old.seen.faulty }
        ensures hands { hands_in A.hand E.hand F.hand C.hand self.new.seen ≡ hands_in A.hand E.hand F.hand C.hand self.old.seen }
        ensures rule { rule_in A.rule E.rule F.rule C.rule self.new.seen ≡ rule_in A.rule E.rule F.rule C.rule self.old.seen }
        ensures going { OnOk result (self.new.seen.failed ≡ false) }
        ensures failed { OnErr result (self.new.seen.failed ≡ true) }
        ensures done { OnOk result (self.new.done ≡ self.old.done + 1) }
        ensures left { OnOk result (self.new.left ≡ drop 1 self.old.left) }
        ensures ok { OnOk result (run_from (world_of A.rule E.rule F.rule C.rule self.old.seen) self.old.done self.old.seen.trace (schedule (take 1 self.old.left)) ≡ Ok self.new.seen.trace) }
        ensures fault { IfErr result (λ fault. IsFault (world_of A.rule E.rule F.rule C.rule self.old.seen) self.old.done self.old.seen.trace (schedule self.old.left) self.new.seen.trace fault) }
        ensures front { OnErr result (IsFront (world_of A.rule E.rule F.rule C.rule self.old.seen) self.old.seen.trace (schedule self.old.left) self.new.seen.trace) }
    {
        let k = self.done;
        let step = &self.steps.items()[k as usize];
        match self.machine.step(step, steps) {
            Ok(()) => {
                self.done = k + 1;
                Ok(())
            }
            Err(Halt::Limit(which)) => Err(RunFault::Limit { step: k, which }),
            Err(Halt::Memory) => Err(RunFault::Memory),
        }
    }

    /// Does all steps that are left, in order. After a fault as a step.
    pub fn run<L: Ledger>(&mut self, steps: &mut Steps<L>) -> Result<(), RunFault>
        requires going { self.old.seen.failed ≡ false }
        ensures directory { self.new.seen.directory ≡ self.old.seen.directory }
        ensures faulty { self.new.seen.faulty ≡ self.old.seen.faulty }
        ensures hands { hands_in A.hand E.hand F.hand C.hand self.new.seen ≡ hands_in A.hand E.hand F.hand C.hand self.old.seen }
        ensures rule { rule_in A.rule E.rule F.rule C.rule self.new.seen ≡ rule_in A.rule E.rule F.rule C.rule self.old.seen }
        ensures going { OnOk result (self.new.seen.failed ≡ false) }
        ensures failed { OnErr result (self.new.seen.failed ≡ true) }
        ensures left { OnOk result (self.new.left ≡ []) }
        ensures ok { OnOk result (run_from (world_of A.rule E.rule F.rule C.rule self.old.seen) self.old.done self.old.seen.trace (schedule self.old.left) ≡ Ok self.new.seen.trace) }
        ensures fault { IfErr result (λ fault. IsFault (world_of A.rule E.rule F.rule C.rule self.old.seen) self.old.done self.old.seen.trace (schedule self.old.left) self.new.seen.trace fault) }
        ensures front { OnErr result (IsFront (world_of A.rule E.rule F.rule C.rule self.old.seen) self.old.seen.trace (schedule self.old.left) self.new.seen.trace) }
    {
        let count = self.left();
        for _ in 0..count {
            if let Err(fault) = self.step(steps) {
                return Err(fault);
            }
        }
        Ok(())
    }
}
