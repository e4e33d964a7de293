//! The schedule that a line asks.

ghost use Rattle.std.specs.Prelude.{◌≤◌, [], OnOk, IfOk, IsTrue};
ghost use Rattle.std.specs.List.{list_all};
ghost use Rattle.fw_step.specs.Fitting.{is_honest, step_fits};
ghost use Rattle.fw_step.specs.declared.limits.TheConstants.{MOST_FLUSHED};
ghost use Rattle.try_limits.specs.declared.cast.TheConstants.{PARAMS};

use crate::asked::Kind;
use fw_base::Seat;
use fw_list::{Items, Memory};
use fw_op::Op;
use fw_step::Step;
use std::alloc::Global;

/// The one client's user submits an operation.
fn submission() -> Step
    ensures fit { IsTrue (step_fits PARAMS [] result) }
    ensures honest { IsTrue (is_honest result) }
{
    Step::Submit {
        client: 0,
        op: Op::Count,
    }
}

/// The step of a kind that is done again and again, or once where it is a flush of so many frames.
fn step_of(kind: Kind, count: u32) -> Step
    requires least { 1 ≤ count }
    requires most { count ≤ MOST_FLUSHED }
    ensures fit { IsTrue (step_fits PARAMS [] result) }
    ensures honest { IsTrue (is_honest result) }
{
    match kind {
        Kind::Frames => submission(),
        Kind::Ticks => Step::Tick {
            seat: Seat::Agree(0),
        },
        Kind::Deliveries => Step::Deliver { frame: 0 },
        Kind::Flush => Step::Flush { most: count },
    }
}

/// How often that step is done.
fn times_of(kind: Kind, count: u32) -> u32 {
    match kind {
        Kind::Flush => 1,
        _ => count,
    }
}

/// Adds a step so many times.
#[tactic(auto, using(crate::proofs::Casting::steps_more, crate::proofs::Casting::honest_more))]
fn add(steps: &mut Items<Step>, kind: Kind, count: u32) -> Result<(), Memory>
    requires least { 1 ≤ count }
    requires most { count ≤ MOST_FLUSHED }
    requires fit { IsTrue (list_all (step_fits PARAMS []) steps.old) }
    requires honest { IsTrue (list_all is_honest steps.old) }
    ensures fit { OnOk result (IsTrue (list_all (step_fits PARAMS []) steps.new)) }
    ensures honest { OnOk result (IsTrue (list_all is_honest steps.new)) }
{
    for _ in 0..times_of(kind, count) {
        steps.push(step_of(kind, count))?;
    }
    Ok(())
}

/// The first steps of a kind: none, or a submission where a frame must come before the others.
#[tactic(auto, using(crate::proofs::Casting::steps_more, crate::proofs::Casting::honest_more))]
fn begun(alloc: Global, kind: Kind) -> Result<Items<Step>, Memory>
    ensures fit { IfOk result (λ steps. IsTrue (list_all (step_fits PARAMS []) steps)) }
    ensures honest { IfOk result (λ steps. IsTrue (list_all is_honest steps)) }
{
    let mut steps = Items::new(alloc);
    if matches!(kind, Kind::Frames | Kind::Ticks) {
        return Ok(steps);
    }
    steps.push(submission())?;
    Ok(steps)
}

/// The steps of a kind.
pub fn schedule(alloc: Global, kind: Kind, count: u32) -> Result<Items<Step>, Memory>
    requires least { 1 ≤ count }
    requires most { count ≤ MOST_FLUSHED }
    ensures fit { IfOk result (λ steps. IsTrue (list_all (step_fits PARAMS []) steps)) }
    ensures honest { IfOk result (λ steps. IsTrue (list_all is_honest steps)) }
{
    let mut steps = begun(alloc, kind)?;
    add(&mut steps, kind, count)?;
    Ok(steps)
}
