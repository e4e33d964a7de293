//! The reader of a document.

ghost use Rattle.std.specs.Prelude.{◌≡◌, ◌≤◌, List, length, None, Ok, Err, IfOk, IfErr, OnErr, IsTrue};
ghost use Rattle.toml.specs.View.{table_view};
ghost use Rattle.fw_base.specs.Checks.{fault_of};
ghost use Rattle.fw_base.specs.Sizes.{accepted};
ghost use Rattle.fw_sched.specs.declared.limits.TheConstants.{MOST_STEPS};
ghost use Rattle.fw_sched.specs.declared.plan.Plan.{Plan};
ghost use Rattle.fw_sched.specs.declared.fault.InputFault.{InputFault};
ghost use Rattle.fw_sched.specs.Document.{IsDocument};
ghost use Rattle.fw_sched.specs.Faults.{IsFault, MayWant};
ghost use Rattle.fw_sched.specs.Stages.{said, FromFaulty, FromRecords, FromSizes, IsVerdict};

use crate::arrays::{faulty_in, starts_in, steps_in};
use crate::fields::{Head, head_of};
use crate::{InputFault, Plan};
use fw_base::{ParamFault, Seats};
use fw_list::{Bytes, Memory};
use fw_op::Starts;
use std::alloc::Global;
use toml::Table;

/// The plan behind the records and the faulty seats, or the first step that isn't one.
fn from_faulty(
    alloc: Global,
    head: &Head<'_>,
    starts: Starts,
    faulty: Seats,
) -> Result<Result<Plan, InputFault>, Memory>
    requires few { length head.now.steps.now ≤ MOST_STEPS }
    requires sizes { IsTrue (accepted head.now.params) }
    ensures { IfOk result (λ verdict. FromFaulty (said head.now) starts (Ok faulty) verdict) }
{
    match steps_in(alloc, &head.params, faulty.items(), head.steps)? {
        Ok(steps) => Ok(Ok(Plan {
            params: head.params,
            seed: head.seed,
            faulty,
            starts,
            steps,
        })),
        Err(index) => Ok(Err(InputFault::Step { index })),
    }
}

/// The plan behind the records, or the first faulty seat or step that isn't one.
fn from_records(
    alloc: Global,
    head: &Head<'_>,
    starts: Starts,
) -> Result<Result<Plan, InputFault>, Memory>
    requires few { length head.now.steps.now ≤ MOST_STEPS }
    requires sizes { IsTrue (accepted head.now.params) }
    ensures { IfOk result (λ verdict. FromRecords (said head.now) (Ok starts) verdict) }
{
    match faulty_in(alloc, &head.params, head.faulty)? {
        Ok(faulty) => from_faulty(alloc, head, starts, faulty),
        Err(index) => Ok(Err(InputFault::Faulty { index })),
    }
}

/// The plan behind the sizes, or the first record, faulty seat or step that isn't one.
fn from_sizes(alloc: Global, head: &Head<'_>) -> Result<Result<Plan, InputFault>, Memory>
    requires records { length head.now.records.now ≤ MOST_STEPS }
    requires steps { length head.now.steps.now ≤ MOST_STEPS }
    requires sizes { IsTrue (accepted head.now.params) }
    ensures { IfOk result (λ verdict. FromSizes (said head.now) None verdict) }
{
    match starts_in(alloc, &head.params, head.records)? {
        Ok(starts) => from_records(alloc, head, starts),
        Err(index) => Ok(Err(InputFault::Record { index })),
    }
}

/// The plan behind the head, or its first fault.
fn from_head(alloc: Global, head: &Head<'_>) -> Result<Result<Plan, InputFault>, Memory>
    requires records { length head.now.records.now ≤ MOST_STEPS }
    requires steps { length head.now.steps.now ≤ MOST_STEPS }
    ensures { IfOk result (λ verdict. FromSizes (said head.now) (fault_of head.now.params) verdict) }
{
    match head.params.check() {
        Ok(_) => from_sizes(alloc, head),
        Err(ParamFault::Field(_)) => Ok(Err(InputFault::Field {
            name: Bytes::copy_of(alloc, b"numbers")?,
        })),
        Err(ParamFault::TooManyKeys(keys)) => Ok(Err(InputFault::Keys { keys })),
    }
}

/// The plan that a document's members say, or their first fault.
fn plan_of(alloc: Global, table: &Table) -> Result<Result<Plan, InputFault>, Memory>
    ensures { IfOk result (λ verdict. IsVerdict (table_view table.now) verdict) }
{
    match head_of(table) {
        Ok(head) => from_head(alloc, &head),
        Err(name) => Ok(Err(InputFault::Field {
            name: Bytes::copy_of(alloc, name.as_bytes())?,
        })),
    }
}

/// Reads the plan of which the bytes are a document, or names their first fault. Memory is wanted only for a text: the reader of
/// TOML doesn't tell more than that.
pub fn read_plan(alloc: Global, bytes: &[u8]) -> Result<Result<Plan, InputFault>, Memory>
    ensures plan { IfOk result (λ read. IfOk read (λ p. IsDocument bytes.now p)) }
    ensures fault { IfOk result (λ read. IfErr read (λ f. IsFault bytes.now f)) }
    ensures only { IfOk result (λ read. (p : Plan) → IsDocument bytes.now p → read ≡ Ok p) }
    ensures first { IfOk result (λ read. (f : InputFault) → IsFault bytes.now f → read ≡ Err f) }
    ensures memory { OnErr result (MayWant bytes.now) }
{
    let Ok(text) = str::from_utf8(bytes) else {
        return Ok(Err(InputFault::NotToml));
    };
    match toml::table_from_str(alloc, text) {
        Ok(table) => plan_of(alloc, &table),
        Err(error) => {
            if error.is_memory() {
                Err(Memory)
            } else {
                Ok(Err(InputFault::NotToml))
            }
        }
    }
}
