//! A run, event by event.

ghost use Rattle.std.specs.Prelude.{◌≡◌, [], All, IfOk, IfSome, OnOk, IsTrue};
ghost use Rattle.std.specs.List.{list_all};
ghost use Rattle.fw_base.specs.Sizes.{accepted};
ghost use Rattle.fw_record.specs.Records.{starts_fit};
ghost use Rattle.fw_step.specs.Fitting.{is_honest, step_fits};
ghost use Rattle.fw_plain.specs.Kept.{CanBeTaken};
ghost use Rattle.fw_call.specs.Reasons.{IsPlan};
ghost use Rattle.try_plain.specs.Turns.{IsAskable, WasTaken};

use crate::singles::singles_of;
use fw_base::{Seat, Seats};
use fw_cores::cores;
use fw_deal::Deal;
use fw_digest::Steps;
use fw_grid::World;
use fw_list::{Bytes, Items, Memory};
use fw_node::Node;
use fw_plain::Kept;
use fw_sched::{Plan, StepList};
use fw_step::Step;
use fw_trace::Sent;
use fw_world::Cast;
use std::alloc::Global;
use std::sync::ledger::Ledger;

/// What befalls a seat: the place of the frame that comes to it, if one does, and its input.
#[derive(Drop)]
pub struct Cause {
    pub seat: Seat,
    pub place: Option<usize>,
    pub input: Kept,
}

/// What befell a seat in a run, and what it sent on it: the frames of the pool from a place up to another.
#[derive(Drop)]
pub struct Turn {
    pub cause: Cause,
    pub from: usize,
    pub to: usize,
}

/// All that befell seats in a run, in order.
pub type Turns = Items<Turn>;

/// The schedule of a plan in which nobody is faulty, in single steps.
pub fn singles_of_plan(alloc: Global, plan: &Plan) -> Result<StepList, Memory>
    requires plan { IsPlan plan.now }
    requires nobody { plan.now.faulty ≡ [] }
    ensures fit { IfOk result (λ singles. IsTrue (list_all (step_fits plan.now.params []) singles)) }
    ensures honest { IfOk result (λ singles. IsTrue (list_all is_honest singles)) }
    ensures askable { IfOk result (λ singles. All IsAskable singles) }
{
    let singles = singles_of(alloc, plan.steps.items())?;
    Ok(singles)
}

/// A new world of a deal's deployment, which has these steps before it.
pub fn world_of(alloc: Global, deal: Deal, singles: StepList) -> Result<Cast, Memory>
    requires sizes { IsTrue (accepted deal.origin.params) }
    requires starts { IsTrue (starts_fit deal.origin.params.clients deal.starts) }
    requires steps { IsTrue (list_all (step_fits deal.origin.params []) singles) }
    requires honest { IsTrue (list_all is_honest singles) }
{
    let nobody = Seats::new(alloc);
    let grid = cores(alloc, &deal, nobody.items())?;
    World::new(alloc, deal.into_directory(), nobody, singles, grid)
}

/// The frame at a place comes to its addressee.
fn delivery(alloc: Global, frames: &[Sent<Bytes>], place: usize) -> Result<Option<Cause>, Memory>
    ensures { IfOk result (λ found. IfSome found (λ cause. CanBeTaken cause.input)) }
{
    let Some(sent) = frames.get(place) else {
        return Ok(None);
    };
    let input = Kept::Frame {
        from: sent.from,
        bytes: Bytes::copy_of(alloc, sent.message.items())?,
    };
    Ok(Some(Cause {
        seat: sent.to,
        place: Some(place),
        input,
    }))
}

/// The place of the oldest frame that didn't come to its addressee so far, or behind all.
fn oldest(frames: &[Sent<Bytes>], turns: &[Turn]) -> usize {
    for place in 0..frames.len() {
        let came = turns.iter().any(|turn| turn.cause.place == Some(place));
        if !came {
            return place;
        }
    }
    frames.len()
}

/// What befalls which seat by a single step, or nothing.
fn cause_of(
    alloc: Global,
    frames: &[Sent<Bytes>],
    turns: &[Turn],
    step: &Step,
) -> Result<Option<Cause>, Memory>
    requires { IsAskable step.now }
    ensures { IfOk result (λ found. IfSome found (λ cause. CanBeTaken cause.input)) }
{
    match step {
        Step::Submit { client, op } => Ok(Some(Cause {
            seat: Seat::Client(*client),
            place: None,
            input: Kept::Submit(op.copy(alloc)?),
        })),
        Step::Deliver { frame } => delivery(alloc, frames, *frame as usize),
        Step::Flush { .. } => delivery(alloc, frames, oldest(frames, turns)),
        Step::Tick { seat } => Ok(Some(Cause {
            seat: *seat,
            place: None,
            input: Kept::Tick,
        })),
        Step::Lie { .. } => Ok(None),
    }
}

/// Adds what befell a seat.
fn add_turn(turns: &mut Turns, turn: Turn) -> Result<(), Memory>
    requires before { All WasTaken turns.old }
    requires turn { WasTaken turn }
    ensures { OnOk result (All WasTaken turns.new) }
{
    turns.push(turn)?;
    Ok(())
}

/// Does the next step of a world, where one is left: whether it was done.
fn does<A: Node, E: Node, F: Node, C: Node, L: Ledger>(
    world: &mut World<A, E, F, C>,
    steps: &mut Steps<L>,
) -> bool {
    !world.failed() && world.left() > 0 && world.step(steps).is_ok()
}

/// Runs a world through these single steps, which it has before it: all that befell its seats.
pub fn watched<A: Node, E: Node, F: Node, C: Node, L: Ledger>(
    alloc: Global,
    world: &mut World<A, E, F, C>,
    singles: &[Step],
    steps: &mut Steps<L>,
) -> Result<Turns, Memory>
    requires { All IsAskable singles.now }
    ensures { IfOk result (λ turns. All WasTaken turns) }
{
    let mut turns = Turns::new(alloc);
    for step in singles {
        let from = world.frames().len();
        let found = cause_of(alloc, world.frames(), turns.items(), step)?;
        if !does(world, steps) {
            return Ok(turns);
        }
        let to = world.frames().len();
        if let Some(cause) = found {
            add_turn(&mut turns, Turn { cause, from, to })?;
        }
    }
    Ok(turns)
}
