//! The answer to a case.

ghost use Rattle.std.specs.Prelude.{◌≡◌, ◌<◌, All, IfOk, IsTrue};
ghost use Rattle.fw_base.specs.Sizes.{accepted};
ghost use Rattle.fw_record.specs.Records.{starts_fit};
ghost use Rattle.fw_call.specs.Reasons.{IsPlan};
ghost use Rattle.try_plain.specs.Turns.{IsAskable, WasTaken};

use crate::certificates::{LetDown, let_down};
use crate::compared::{Tally, compared};
use crate::run::{Turn, singles_of_plan, watched, world_of};
use crate::seeing::add_shown;
use fw_base::Seat;
use fw_deal::Deal;
use fw_digest::Steps;
use fw_grid::World;
use fw_list::{Bytes, Memory};
use fw_node::Node;
use fw_op::Op;
use fw_sched::{Plan, read_plan};
use fw_step::Step;
use fw_store::Store;
use fw_trace::Sent;
use std::alloc::Global;
use std::sync::ledger::{Blank, Ledger};

/// These very words.
fn said(alloc: Global, text: &str) -> Result<Bytes, Memory> {
    Bytes::copy_of(alloc, text.as_bytes())
}

/// Adds the line of a seat.
fn add_seat(alloc: Global, text: &mut Bytes, seat: Seat, told: Tally) -> Result<(), Memory> {
    text.append(seat.name(alloc)?.items())?;
    text.append(b": ")?;
    text.append_number(told.inputs)?;
    text.append(b" inputs, ")?;
    text.append_number(told.frames)?;
    text.append(b" frames, ")?;
    if told.same {
        text.append(b"the same\n")
    } else {
        text.append(b"others on the last\n")
    }
}

/// Adds the lines of all seats of a deal.
fn add_seats<L: Ledger>(
    alloc: Global,
    text: &mut Bytes,
    deal: &Deal,
    pool: &[Sent<Bytes>],
    turns: &[Turn],
    steps: &mut Steps<L>,
) -> Result<(), Memory>
    requires sizes { IsTrue (accepted deal.now.origin.params) }
    requires starts { IsTrue (starts_fit deal.now.origin.params.clients deal.now.starts) }
    requires turns { All WasTaken turns.now }
{
    let params = deal.directory().params();
    for k in 0..params.seats() {
        if let Some(seat) = Seat::from_index(params, k) {
            let told = compared(alloc, deal, seat, pool, turns, steps)?;
            add_seat(alloc, text, seat, told)?;
        }
    }
    Ok(())
}

/// Adds the line of what the filters let down.
fn add_let_down(text: &mut Bytes, told: LetDown) -> Result<(), Memory> {
    text.append(b"certificates: ")?;
    text.append_number(told.frames)?;
    if told.permitted {
        text.append(b" frames, all permitted\n")
    } else {
        text.append(b" frames, then one that isn't permitted\n")
    }
}

/// Adds a line for each record that is asked for: to whom it is shown at the start.
fn add_asked(alloc: Global, text: &mut Bytes, plan: &Plan) -> Result<(), Memory>
    requires { IsPlan plan.now }
{
    let store = Store::new(alloc, plan.starts.items())?;
    for step in plan.steps.items() {
        if let Step::Submit {
            op: Op::Get { owner, key },
            ..
        } = step
        {
            add_shown(text, &store, plan.params.clients, *owner, key)?;
        }
    }
    Ok(())
}

/// What is told of a run of these single steps, which a world of a plan's deal has before it.
fn told_of_world<A: Node, E: Node, F: Node, C: Node, L: Ledger>(
    alloc: Global,
    plan: &Plan,
    deal: &Deal,
    world: &mut World<A, E, F, C>,
    singles: &[Step],
    steps: &mut Steps<L>,
) -> Result<Bytes, Memory>
    requires plan { IsPlan plan.now }
    requires sizes { IsTrue (accepted deal.now.origin.params) }
    requires starts { IsTrue (starts_fit deal.now.origin.params.clients deal.now.starts) }
    requires same { IsTrue (starts_fit deal.now.origin.params.clients plan.now.starts) }
    requires askable { All IsAskable singles.now }
{
    let turns = watched(alloc, world, singles, steps)?;
    if world.failed() || world.left() > 0 || world.events() != turns.len() {
        return said(alloc, "fault\n");
    }
    let mut text = Bytes::new(alloc);
    let pool = world.frames();
    add_seats(alloc, &mut text, deal, pool, turns.items(), steps)?;
    let down = let_down(alloc, deal, plan.starts.items(), pool)?;
    add_let_down(&mut text, down)?;
    add_asked(alloc, &mut text, plan)?;
    Ok(text)
}

/// The deal of a plan.
fn deal_of(alloc: Global, plan: &Plan) -> Result<Deal, Memory>
    requires { IsPlan plan.now }
    ensures sizes { IfOk result (λ deal. IsTrue (accepted deal.origin.params)) }
    ensures starts { IfOk result (λ deal. IsTrue (starts_fit deal.origin.params.clients deal.starts)) }
    ensures same { IfOk result (λ deal. IsTrue (starts_fit deal.origin.params.clients plan.now.starts)) }
    ensures steps { IfOk result (λ deal. deal.origin.params ≡ plan.now.params) }
{
    let deal = Deal::new(alloc, &plan.params, &plan.seed, plan.starts.items())?;
    Ok(deal)
}

/// What is told of a plan's run.
fn told_of_plan<L: Ledger>(
    alloc: Global,
    plan: &Plan,
    steps: &mut Steps<L>,
) -> Result<Bytes, Memory>
    requires { IsPlan plan.now }
{
    if plan.faulty.len() > 0 {
        return said(alloc, "later\n");
    }
    let singles = singles_of_plan(alloc, plan)?;
    let dealt = deal_of(alloc, plan)?;
    let mut world = world_of(alloc, dealt, singles)?;
    let again = singles_of_plan(alloc, plan)?;
    let deal = deal_of(alloc, plan)?;
    told_of_world(alloc, plan, &deal, &mut world, again.items(), steps)
}

/// What is told of the run of the plan that a document is.
pub fn told_of<L: Ledger>(alloc: Global, document: &[u8], blank: Blank) -> Result<Bytes, Memory>
    requires name { blank.name ≡ L.name }
    requires parts { blank.parts ≡ L.parts }
    requires some { 0 < blank.parts }
{
    let mut steps = Steps::<L>::new(blank);
    match read_plan(alloc, document)? {
        Ok(plan) => told_of_plan(alloc, &plan, &mut steps),
        Err(_) => said(alloc, "no document\n"),
    }
}
