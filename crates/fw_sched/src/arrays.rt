//! The arrays of a document: records, faulty seats and steps, each item read behind those before it.

ghost use Rattle.std.specs.Prelude.{◌≡◌, ◌≤◌, ◌<◌, ℕ, List, [], length, slice_index, IfOk, IfSome, IfNone, IsTrue};
ghost use Rattle.std.specs.List.{list_all};
ghost use Rattle.fw_base.specs.Seats.{fits};
ghost use Rattle.fw_base.specs.Sizes.{accepted};
ghost use Rattle.fw_op.specs.declared.start.Start.{Start};
ghost use Rattle.fw_step.specs.declared.step.Step.{Step};
ghost use Rattle.fw_sched.specs.declared.limits.TheConstants.{MOST_STEPS};
ghost use Rattle.fw_sched.specs.Document.{IsRecord, IsFaultySeat, IsStep};
ghost use Rattle.fw_sched.specs.Stages.{texts_in, has_counter, Found, AreCounts};

use crate::members::text_in;
use crate::seats::seat_after;
use crate::tally::{count, is_free};
use crate::{Step, StepList};
use fw_base::{Params, Seat, Seats};
use fw_list::Memory;
use fw_op::{Start, Starts};
use fw_record::{is_new, start_of};
use fw_step::step_of;
use std::alloc::Global;
use toml::Value;

/// The record that the text spells, behind those before it.
fn record_after(
    alloc: Global,
    params: &Params,
    before: &[Start],
    text: &str,
) -> Result<Option<Start>, Memory>
    requires { IsTrue (accepted params.now) }
    ensures found { IfOk result (λ found. IfSome found (λ s. IsRecord params.now before.now text.now s)) }
    ensures none { IfOk result (λ found. IfNone found ((s : Start) → ¬ IsRecord params.now before.now text.now s)) }
{
    let Some(start) = start_of(alloc, params.clients, text)? else {
        return Ok(None);
    };
    if is_new(before, &start) {
        Ok(Some(start))
    } else {
        Ok(None)
    }
}

/// The records that the items spell, or the place of the first that spells none.
pub(crate) fn starts_in(
    alloc: Global,
    params: &Params,
    values: &[Value],
) -> Result<Result<Starts, u32>, Memory>
    requires few { length values.now ≤ MOST_STEPS }
    requires sizes { IsTrue (accepted params.now) }
    ensures { IfOk result (λ read. Found (IsRecord params.now) (texts_in values.now) read) }
{
    let mut starts = Starts::new(alloc);
    for value in values {
        match record_after(alloc, params, starts.items(), text_in(value))? {
            Some(start) => starts.push(start)?,
            None => return Ok(Err(starts.len() as u32)),
        }
    }
    Ok(Ok(starts))
}

/// The faulty seats that the items name, or the place of the first that names none.
pub(crate) fn faulty_in(
    alloc: Global,
    params: &Params,
    values: &[Value],
) -> Result<Result<Seats, u32>, Memory>
    requires sizes { IsTrue (accepted params.now) }
    ensures { IfOk result (λ read. Found (IsFaultySeat params.now) (texts_in values.now) read) }
{
    let mut seats = Seats::new(alloc);
    for value in values {
        match seat_after(params, seats.items(), text_in(value)) {
            Some(seat) => seats.push(seat)?,
            None => return Ok(Err(seats.len() as u32)),
        }
    }
    Ok(Ok(seats))
}

/// The step that the text spells, behind those of which these are the counts.
fn step_after(
    alloc: Global,
    params: &Params,
    faulty: &[Seat],
    counts: &[u32; 8],
    text: &str,
) -> Result<Option<Step>, Memory>
    requires { IsTrue (accepted params.now) }
    ensures counter { IfOk result (λ found. IfSome found (λ s. IsTrue (has_counter s))) }
    ensures found { (before : List Step) → AreCounts counts.now before → IfOk result (λ found. IfSome found (λ s. IsStep params.now faulty.now before text.now s)) }
    ensures none { (before : List Step) → AreCounts counts.now before → IfOk result (λ found. IfNone found ((s : Step) → ¬ IsStep params.now faulty.now before text.now s)) }
{
    match step_of(alloc, params, faulty, text)? {
        Some(step) if is_free(params, counts, &step) => Ok(Some(step)),
        _ => Ok(None),
    }
}

/// The steps that the items spell, or the place of the first that spells none.
pub(crate) fn steps_in(
    alloc: Global,
    params: &Params,
    faulty: &[Seat],
    values: &[Value],
) -> Result<Result<StepList, u32>, Memory>
    requires few { length values.now ≤ MOST_STEPS }
    requires sizes { IsTrue (accepted params.now) }
    ensures { IfOk result (λ read. Found (IsStep params.now faulty.now) (texts_in values.now) read) }
{
    let mut steps = StepList::new(alloc);
    let mut counts = [0; 8];
    for value in values {
        match step_after(alloc, params, faulty, &counts, text_in(value))? {
            Some(step) => {
                count(&mut counts, &step);
                steps.push(step)?;
            }
            None => return Ok(Err(steps.len() as u32)),
        }
    }
    Ok(Ok(steps))
}
