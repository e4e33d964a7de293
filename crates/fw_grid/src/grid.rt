//! The nodes of a deployment.

ghost use Rattle.std.specs.Prelude.{◌≡◌, ◌∷◌, ◌++◌, IsTrue, OnOk, OnErr};
ghost use Rattle.fw_base.specs.declared.seat.Seat.{Seat};
ghost use Rattle.fw_base.specs.Sizes.{accepted};
ghost use Rattle.fw_step.specs.Fitting.{is_correct};
ghost use Rattle.fw_node.specs.Histories.{History, taken, IsGiven};
ghost use Rattle.fw_grid.specs.Nodes.{node_hand, rule_of, AllSeated, AllStanding, with_input};
ghost use Rattle.fw_grid.specs.GridNodes.{nodes_of};

use crate::Nodes;
use crate::places::place_of;
use fw_base::Seat;
use fw_digest::Steps;
use fw_directory::Directory;
use fw_list::Memory;
use fw_node::{Input, Node, Outbox};
use std::sync::ledger::Ledger;

/// A node for each correct seat of a deployment: those of each kind ascending by seat, filters row by row.
#[derive(Drop)]
pub struct Grid<A, E, F, C> {
    pub agree: Nodes<A>,
    pub exec: Nodes<E>,
    pub filters: Nodes<F>,
    pub clients: Nodes<C>,
}

/// Gives an input to the node of a correct seat. After want of memory the outbox is as before.
pub(crate) fn give<A: Node, E: Node, F: Node, C: Node, L: Ledger>(
    grid: &mut Grid<A, E, F, C>,
    directory: &Directory,
    faulty: &[Seat],
    seat: Seat,
    input: Input<'_>,
    out: &mut Outbox,
    steps: &mut Steps<L>,
) -> Result<(), Memory>
    requires sizes { IsTrue (accepted directory.now.params) }
    requires seat { IsTrue (is_correct directory.now.params faulty.now seat) }
    requires seated { AllSeated A.params A.own E.params E.own F.params F.own C.params C.own directory.now.params faulty.now (nodes_of grid.old) }
    requires op { IsGiven input }
    ensures seated { AllSeated A.params A.own E.params E.own F.params F.own C.params C.own directory.now.params faulty.now (nodes_of grid.new) }
    ensures hands { (s : Seat) → node_hand A.hand E.hand F.hand C.hand (nodes_of grid.new) directory.now.params faulty.now s ≡ node_hand A.hand E.hand F.hand C.hand (nodes_of grid.old) directory.now.params faulty.now s }
    ensures rules { (s : Seat) (h : History) → rule_of A.rule E.rule F.rule C.rule (nodes_of grid.new) directory.now faulty.now s h ≡ rule_of A.rule E.rule F.rule C.rule (nodes_of grid.old) directory.now faulty.now s h }
    ensures stand { OnOk result ((hs : Seat → History)
        → AllStanding A.stands_for A.is_stopped E.stands_for E.is_stopped F.stands_for F.is_stopped C.stands_for C.is_stopped directory.now faulty.now hs (nodes_of grid.old)
        → AllStanding A.stands_for A.is_stopped E.stands_for E.is_stopped F.stands_for F.is_stopped C.stands_for C.is_stopped directory.now faulty.now (with_input hs seat (taken input.entry)) (nodes_of grid.new)) }
    ensures sent { OnOk result ((hs : Seat → History)
        → AllStanding A.stands_for A.is_stopped E.stands_for E.is_stopped F.stands_for F.is_stopped C.stands_for C.is_stopped directory.now faulty.now hs (nodes_of grid.old)
        → out.new ≡ out.old ++ rule_of A.rule E.rule F.rule C.rule (nodes_of grid.old) directory.now faulty.now seat (taken input.entry ∷ hs seat)) }
    ensures err { OnErr result (out.new ≡ out.old) }
{
    let place = place_of(directory.params(), faulty, seat);
    match seat {
        Seat::Agree(_) => grid.agree.give(place, directory, input, out, steps),
        Seat::Exec(_) => grid.exec.give(place, directory, input, out, steps),
        Seat::Filter(_, _) => grid.filters.give(place, directory, input, out, steps),
        Seat::Client(_) => grid.clients.give(place, directory, input, out, steps),
    }
}
