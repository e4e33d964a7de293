//! A seat takes what befalls it.

ghost use Rattle.std.specs.Prelude.{◌≡◌, ◌∷◌, ◌++◌, Ok, Err, IsTrue, OnOk, OnErr, IfErr};
ghost use Rattle.fw_base.specs.declared.seat.Seat.{Seat};
ghost use Rattle.fw_base.specs.Sizes.{accepted};
ghost use Rattle.fw_step.specs.Fitting.{is_correct};
ghost use Rattle.fw_trace.specs.Run.{happens};
ghost use Rattle.fw_node.specs.Histories.{History};
ghost use Rattle.fw_fair.specs.Hostile.{silent_among};
ghost use Rattle.fw_pool.specs.Pooled.{enters, HasRoom};
ghost use Rattle.fw_grid.specs.Nodes.{node_hand, rule_of, AllSeated, AllStanding, with_input};
ghost use Rattle.fw_grid.specs.GridNodes.{nodes_of};
ghost use Rattle.fw_grid.specs.Causes.{logged_by, event_of, CanCome};
ghost use Rattle.fw_grid.specs.Seen.{histories};
ghost use Rattle.fw_grid.specs.Fronts.{IfLimit};

use crate::cause::Cause;
use crate::grid::{Grid, give};
use crate::machine::Halt;
use fw_digest::Steps;
use fw_directory::Directory;
use fw_list::Memory;
use fw_node::{Input, Node, Outbox};
use fw_pool::Pool;
use std::alloc::Global;
use std::sync::ledger::Ledger;

/// Gives a node what befalls its seat.
fn feed<A: Node, E: Node, F: Node, C: Node, L: Ledger>(
    grid: &mut Grid<A, E, F, C>,
    directory: &Directory,
    pool: &Pool,
    cause: Cause<'_>,
    out: &mut Outbox,
    steps: &mut Steps<L>,
) -> Result<(), Memory>
    requires sizes { IsTrue (accepted directory.now.params) }
    requires come { CanCome pool.now.trace.pool cause }
    requires seat { IsTrue (is_correct directory.now.params pool.now.faulty (logged_by pool.now.trace.pool cause).seat) }
    requires seated { AllSeated A.params A.own E.params E.own F.params F.own C.params C.own directory.now.params pool.now.faulty (nodes_of grid.old) }
    ensures seated { AllSeated A.params A.own E.params E.own F.params F.own C.params C.own directory.now.params pool.now.faulty (nodes_of grid.new) }
    ensures hands { (s : Seat) → node_hand A.hand E.hand F.hand C.hand (nodes_of grid.new) directory.now.params pool.now.faulty s ≡ node_hand A.hand E.hand F.hand C.hand (nodes_of grid.old) directory.now.params pool.now.faulty s }
    ensures rules { (s : Seat) (h : History) → rule_of A.rule E.rule F.rule C.rule (nodes_of grid.new) directory.now pool.now.faulty s h ≡ rule_of A.rule E.rule F.rule C.rule (nodes_of grid.old) directory.now pool.now.faulty s h }
    ensures stand { OnOk result ((hs : Seat → History)
        → AllStanding A.stands_for A.is_stopped E.stands_for E.is_stopped F.stands_for F.is_stopped C.stands_for C.is_stopped directory.now pool.now.faulty hs (nodes_of grid.old)
        → AllStanding A.stands_for A.is_stopped E.stands_for E.is_stopped F.stands_for F.is_stopped C.stands_for C.is_stopped directory.now pool.now.faulty (with_input hs (logged_by pool.now.trace.pool cause.entry).seat (logged_by pool.now.trace.pool cause.entry).input) (nodes_of grid.new)) }
    ensures sent { OnOk result ((hs : Seat → History)
        → AllStanding A.stands_for A.is_stopped E.stands_for E.is_stopped F.stands_for F.is_stopped C.stands_for C.is_stopped directory.now pool.now.faulty hs (nodes_of grid.old)
        → out.new ≡ out.old ++ rule_of A.rule E.rule F.rule C.rule (nodes_of grid.old) directory.now pool.now.faulty (logged_by pool.now.trace.pool cause.entry).seat ((logged_by pool.now.trace.pool cause.entry).input ∷ hs (logged_by pool.now.trace.pool cause.entry).seat)) }
{
    match cause {
        Cause::Frame(k) => {
            let sent = &pool.frames()[k];
            let input = Input::Frame {
                from: sent.from,
                bytes: sent.message.items(),
            };
            give(grid, directory, pool.faulty(), sent.to, input, out, steps)
        }
        Cause::Tick(seat) => give(
            grid,
            directory,
            pool.faulty(),
            seat,
            Input::Tick,
            out,
            steps,
        ),
        Cause::Submit(seat, op) => give(
            grid,
            directory,
            pool.faulty(),
            seat,
            Input::Submit(op),
            out,
            steps,
        ),
    }
}

/// Logs what befell a seat, and pools what the seat sends. After want of memory the pool is as before.
fn log(pool: &mut Pool, cause: Cause<'_>, out: &Outbox) -> Result<(), Memory>
    requires come { CanCome pool.old.trace.pool cause }
    requires room { HasRoom pool.old.trace out.now }
    ensures params { pool.new.params ≡ pool.old.params }
    ensures faulty { pool.new.faulty ≡ pool.old.faulty }
    ensures ok { OnOk result (pool.new.trace ≡ enters pool.old.trace (logged_by pool.old.trace.pool cause.entry) out.now) }
    ensures err { OnErr result (pool.new ≡ pool.old) }
{
    match cause {
        Cause::Frame(k) => pool.log_frame(k, out),
        Cause::Tick(seat) => pool.log_tick(seat, out),
        Cause::Submit(seat, op) => pool.log_submit(seat, op, out),
    }
}

/// A seat takes what befalls it: the event happens, or would send too much. Else the pool is as before.
pub(crate) fn take_in<A: Node, E: Node, F: Node, C: Node, L: Ledger>(
    alloc: Global,
    grid: &mut Grid<A, E, F, C>,
    directory: &Directory,
    pool: &mut Pool,
    cause: Cause<'_>,
    steps: &mut Steps<L>,
) -> Result<(), Halt>
    requires sizes { IsTrue (accepted directory.now.params) }
    requires come { CanCome pool.old.trace.pool cause }
    requires seat { IsTrue (is_correct directory.now.params pool.old.faulty (logged_by pool.old.trace.pool cause).seat) }
    requires seated { AllSeated A.params A.own E.params E.own F.params F.own C.params C.own directory.now.params pool.old.faulty (nodes_of grid.old) }
    ensures seated { AllSeated A.params A.own E.params E.own F.params F.own C.params C.own directory.now.params pool.old.faulty (nodes_of grid.new) }
    ensures hands { (s : Seat) → node_hand A.hand E.hand F.hand C.hand (nodes_of grid.new) directory.now.params pool.old.faulty s ≡ node_hand A.hand E.hand F.hand C.hand (nodes_of grid.old) directory.now.params pool.old.faulty s }
    ensures rules { (s : Seat) (h : History) → rule_of A.rule E.rule F.rule C.rule (nodes_of grid.new) directory.now pool.old.faulty s h ≡ rule_of A.rule E.rule F.rule C.rule (nodes_of grid.old) directory.now pool.old.faulty s h }
    ensures params { pool.new.params ≡ pool.old.params }
    ensures faulty { pool.new.faulty ≡ pool.old.faulty }
    ensures stand { OnOk result (AllStanding A.stands_for A.is_stopped E.stands_for E.is_stopped F.stands_for F.is_stopped C.stands_for C.is_stopped directory.now pool.old.faulty (histories pool.old.trace.log) (nodes_of grid.old)
        → AllStanding A.stands_for A.is_stopped E.stands_for E.is_stopped F.stands_for F.is_stopped C.stands_for C.is_stopped directory.now pool.old.faulty (histories pool.new.trace.log) (nodes_of grid.new)) }
    ensures ok { OnOk result (AllStanding A.stands_for A.is_stopped E.stands_for E.is_stopped F.stands_for F.is_stopped C.stands_for C.is_stopped directory.now pool.old.faulty (histories pool.old.trace.log) (nodes_of grid.old)
        → happens (silent_among directory.now.params pool.old.faulty (rule_of A.rule E.rule F.rule C.rule (nodes_of grid.old) directory.now pool.old.faulty)) pool.old.trace (event_of cause.entry) ≡ Ok pool.new.trace) }
    ensures limit { IfErr result (λ halt. IfLimit halt (λ which. AllStanding A.stands_for A.is_stopped E.stands_for E.is_stopped F.stands_for F.is_stopped C.stands_for C.is_stopped directory.now pool.old.faulty (histories pool.old.trace.log) (nodes_of grid.old)
        → happens (silent_among directory.now.params pool.old.faulty (rule_of A.rule E.rule F.rule C.rule (nodes_of grid.old) directory.now pool.old.faulty)) pool.old.trace (event_of cause.entry) ≡ Err which)) }
    ensures err { OnErr result (pool.new ≡ pool.old) }
{
    let mut out = Outbox::new(alloc);
    feed(grid, directory, pool, cause, &mut out, steps)?;
    if let Some(which) = pool.over(&out) {
        return Err(Halt::Limit(which));
    }
    log(pool, cause, &out)?;
    Ok(())
}
