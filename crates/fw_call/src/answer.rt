//! What a command answers to an input.

ghost use Rattle.std.specs.Prelude.{◌≡◌, ◌+◌, ◌⊎◌, ◌≤◌, ℕ, List, [], Some, IsTrue, IfSome, IfOk, IfErr, IsErrOf, length, false};
ghost use Rattle.fw_base.specs.Faults.{Rose};
ghost use Rattle.fw_io.specs.Source.{ReadsUpTo};
ghost use Rattle.fw_sched.specs.declared.fault.InputFault.TheVariants as input;
ghost use Rattle.fw_sched.specs.Replayed.{can_replay};
ghost use Rattle.fw_rules.specs.declared.limits.Which.{Which};
ghost use Rattle.fw_deal.specs.Deals.{IsDealtFile};
ghost use Rattle.fw_world.specs.Plans.{deal_of, FailsAt, IsWithin};
ghost use Rattle.fw_world.specs.Replay.{IsReportOf};
ghost use Rattle.fw_call.specs.declared.limits.TheConstants.{LONGEST_INPUT};
ghost use Rattle.fw_call.specs.declared.status.Status.{Status};
ghost use Rattle.fw_call.specs.Answer.{has_seat, CanDo, IsOutputOf, IsOutput, IsRight, Outputs};
ghost use Rattle.fw_call.specs.Reasons.{IsPlan, IsReason, IsRightOr, IsOrMemory, HasRead};

use crate::LONGEST_INPUT;
use fw_base::Seat;
use fw_command::Command;
use fw_deal::deal_file;
use fw_io::{ReadAll, Source, read_all};
use fw_list::{Bytes, Memory};
use fw_rules::Which;
use fw_sched::{InputFault, Plan, read_plan};
use fw_world::{RunFault, replay};
use std::alloc::Global;

/// Why there is no output.
#[derive(Debug, Drop)]
pub(crate) enum NoOutput {
    Fault,
    TooLong,
    Input(InputFault),
    Later,
    Limit { step: u32, which: Which },
    Memory,
}

impl From<Memory> for NoOutput {
    ghost use Rattle.std.specs.Prelude.{◌≡◌};
    ghost use Rattle.fw_call.specs.declared.answer.NoOutput.TheVariants as error;

    ghost from_gives = { λ _ e. e ≡ error.Memory };

    fn from(_: Memory) -> Self {
        NoOutput::Memory
    }
}

/// The report of a plan, if its schedule can be replayed so far.
fn report_of(alloc: Global, plan: Plan) -> Result<Bytes, NoOutput>
    requires { IsPlan plan }
    ensures ok { IfOk result (λ text. (IsTrue (can_replay plan) × IsWithin plan) × IsReportOf plan text) }
    ensures err { IfErr result (λ why. ((why ≡ NoOutput.Later) × (can_replay plan ≡ false))
        ⊎ ((step : ℕ) × (which : Which) × (why ≡ NoOutput.Limit step which) × IsTrue (can_replay plan) × FailsAt plan step which)
        ⊎ (why ≡ NoOutput.Memory)) }
{
    if !plan.can_replay() {
        return Err(NoOutput::Later);
    }
    match replay(alloc, plan) {
        Ok(text) => Ok(text),
        Err(RunFault::Limit { step, which }) => Err(NoOutput::Limit { step, which }),
        Err(RunFault::Memory) => Err(NoOutput::Memory),
    }
}

/// Whether the deployment has the seat. A public file is nobody's.
fn has_seat(plan: &Plan, seat: Option<Seat>) -> bool
    requires { IsPlan plan.now }
    ensures { result ≡ has_seat plan.now.params seat }
{
    match seat {
        Some(seat) => seat.fits(&plan.params),
        None => true,
    }
}

/// The hand file of a plan's deal, if its deployment has the seat.
fn file_of(alloc: Global, plan: &Plan, seat: Option<Seat>) -> Result<Bytes, NoOutput>
    requires { IsPlan plan.now }
    ensures ok { IfOk result (λ text. IsTrue (has_seat plan.now.params seat) × IsDealtFile (deal_of plan.now) seat text) }
    ensures err { IfErr result (λ why. ((why ≡ NoOutput.Input input.Seat) × (has_seat plan.now.params seat ≡ false)) ⊎ (why ≡ NoOutput.Memory)) }
{
    if !has_seat(plan, seat) {
        return Err(NoOutput::Input(InputFault::Seat));
    }
    let starts = plan.starts.items();
    Ok(deal_file(alloc, &plan.params, &plan.seed, starts, seat)?)
}

/// The output of a command for a plan.
fn output_of(alloc: Global, command: Command, plan: Plan) -> Result<Bytes, NoOutput>
    requires { IsPlan plan }
    ensures ok { IfOk result (λ text. CanDo command plan × IsOutputOf command plan text) }
    ensures err { IfErr result (λ why. IsReason command plan why) }
{
    match command {
        Command::Replay => report_of(alloc, plan),
        Command::Deal { seat } => file_of(alloc, &plan, seat),
    }
}

/// The output of a command for the document that these bytes are.
fn answer_of(alloc: Global, command: Command, bytes: &[u8]) -> Result<Bytes, NoOutput>
    requires { length bytes.now ≤ LONGEST_INPUT }
    ensures ok { IfOk result (λ text. IsOutput command bytes.now text) }
    ensures right { IsRightOr command bytes.now result }
    ensures only { (s : Status) → IsRight command bytes.now s → IsOrMemory result s }
    ensures fault { ¬ IsErrOf result NoOutput.Fault }
{
    match read_plan(alloc, bytes)? {
        Ok(plan) => output_of(alloc, command, plan),
        Err(fault) => Err(NoOutput::Input(fault)),
    }
}

/// The output of a command for the document that the source gives.
pub(crate) fn answer_from<S: Source>(
    alloc: Global,
    command: Command,
    source: &mut S,
) -> Result<Bytes, NoOutput>
    ensures ok { IfOk result (λ text. Outputs command (S.left source.old) text) }
    ensures right { IfSome (S.left source.old) (λ bytes. IsRightOr command bytes result) }
    ensures only { (bytes : List ℕ) (s : Status) → S.left source.old ≡ Some bytes → IsRight command bytes s → ¬ Rose (S.faults source.old) (S.faults source.new) → IsOrMemory result s }
    ensures end { HasRead result → IfSome (S.left source.old) (λ _. S.left source.new ≡ Some []) }
    ensures fault { IsErrOf result NoOutput.Fault → Rose (S.faults source.old) (S.faults source.new) }
    ensures most { IfSome (S.left source.old) (λ all. ReadsUpTo (LONGEST_INPUT + 1) all (S.left source.new)) }
    ensures up_to { ¬ IsErrOf result NoOutput.TooLong → IfSome (S.left source.old) (λ all. ReadsUpTo LONGEST_INPUT all (S.left source.new)) }
    ensures quiet { ¬ IsErrOf result NoOutput.Fault → S.faults source.new ≡ S.faults source.old }
    ensures counts { S.faults source.old ≤ S.faults source.new }
{
    match read_all(alloc, source, LONGEST_INPUT) {
        Ok(bytes) => answer_of(alloc, command, bytes.items()),
        Err(ReadAll::Fault) => Err(NoOutput::Fault),
        Err(ReadAll::TooLong) => Err(NoOutput::TooLong),
        Err(ReadAll::Memory) => Err(NoOutput::Memory),
    }
}
