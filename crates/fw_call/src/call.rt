//! The call, and what it answers.

ghost use Rattle.std.specs.Prelude.{◌≡◌, ◌+◌, ◌⊎◌, [], ◌≤◌, ℕ, List, Option, Some, IfSome, map};
ghost use Rattle.std.specs.String.{string_bytes};
ghost use Rattle.fw_base.specs.Faults.{Rose};
ghost use Rattle.fw_base.specs.declared.seat.Seat.{Seat};
ghost use Rattle.fw_io.specs.Source.{ReadsUpTo};
ghost use Rattle.fw_command.specs.declared.command.Command.{Command};
ghost use Rattle.fw_command.specs.Commands.{IsCommand};
ghost use Rattle.fw_sched.specs.declared.fault.InputFault.{InputFault};
ghost use Rattle.fw_rules.specs.declared.limits.Which.{Which};
ghost use Rattle.fw_call.specs.declared.limits.TheConstants.{LONGEST_INPUT};
ghost use Rattle.fw_call.specs.declared.status.Status.TheVariants as status;
ghost use Rattle.fw_call.specs.Lines.{usage_line, read_line, too_long_line, later_line, limit_line, input_line};
ghost use Rattle.fw_call.specs.Answer.{IsReplay, IsDeal, HasCommand, AcceptsOnlyAnswers, LetsDownOnlyCertificates, IsRight, Appends, AppendsPart, Reports, Deals, IsOutcomeText};

use crate::Status;
use crate::answer::{NoOutput, answer_from};
use crate::line::{input_line, limit_line};
use fw_base::Link;
use fw_command::command_of;
use fw_io::{Sink, Source, write_all};
use std::alloc::Global;

/// Writes the text of an outcome. The status is the outcome's where all of it was written.
fn written<K: Sink>(sink: &mut K, status: Status, text: &[u8]) -> Status
    requires { ¬ (status ≡ Status.WriteFault) }
    ensures which { (result ≡ status) ⊎ (result ≡ Status.WriteFault) }
    ensures all { result ≡ status → Appends (K.written sink.old) text.now (K.written sink.new) }
    ensures part { result ≡ Status.WriteFault → AppendsPart (K.written sink.old) text.now (K.written sink.new) }
    ensures fault { result ≡ Status.WriteFault → Rose (K.faults sink.old) (K.faults sink.new) }
    ensures quiet { ¬ (result ≡ Status.WriteFault) → K.faults sink.new ≡ K.faults sink.old }
    ensures counts { K.faults sink.old ≤ K.faults sink.new }
{
    match write_all(sink, text) {
        Ok(()) => status,
        Err(_) => Status::WriteFault,
    }
}

/// Answers the words of the program, at a source, a sink and a link that wasn't started. `replay` reads a document from the
/// source, runs its schedule over the nodes, and writes the report to the sink. `deal public` and `deal SEAT` read a document
/// and write the public file of its deployment, or the hand file of the seat. Every other outcome but want of memory writes one
/// line that names it. The link isn't used.
pub fn firewall<S: Source, K: Sink, L: Link>(
    alloc: Global,
    words: &[String],
    source: &mut S,
    sink: &mut K,
    link: &mut L,
) -> Status
    // With Ok for `replay`, all that the source had left is the document of a plan, and the text appended is the report of
    // the run of that plan under the rules of the four roles.
    ensures replayed { result ≡ Status.Ok → IsReplay (map string_bytes words.now) → (text : List ℕ) × Reports (S.left source.old) text × Appends (K.written sink.old) text (K.written sink.new) }

    // What holds of that run, where one agreement node decides and nobody is faulty.
    ensures accepted { result ≡ Status.Ok → IsReplay (map string_bytes words.now) → IfSome (S.left source.old) AcceptsOnlyAnswers }
    ensures certificates { result ≡ Status.Ok → IsReplay (map string_bytes words.now) → IfSome (S.left source.old) LetsDownOnlyCertificates }

    // With Ok for `deal`, all that the source had left is the document of a plan, and the text appended is the hand file of
    // that plan's sizes, seed and records for the seat that is named, or the public file.
    ensures dealt { result ≡ Status.Ok → (seat : Option Seat) → IsDeal (map string_bytes words.now) seat → (text : List ℕ) × Deals seat (S.left source.old) text × Appends (K.written sink.old) text (K.written sink.new) }

    ensures read_to_the_end { result ≡ Status.Ok → IfSome (S.left source.old) (λ _. S.left source.new ≡ Some []) }
    ensures read_when_wrong { (fault : InputFault) → result ≡ Status.Input fault → IfSome (S.left source.old) (λ _. S.left source.new ≡ Some []) }
    ensures read_when_later { result ≡ Status.Later → IfSome (S.left source.old) (λ _. S.left source.new ≡ Some []) }
    ensures read_when_limit { (step : ℕ) (which : Which) → result ≡ Status.Limit step which → IfSome (S.left source.old) (λ _. S.left source.new ≡ Some []) }
    ensures commands { result ≡ Status.Ok → HasCommand (map string_bytes words.now) }

    // Each answer where nothing failed is the right one for the words and for all that the source had left.
    ensures right { (command : Command) → IsCommand (map string_bytes words.now) command → ((result ≡ status.Ok) ⊎ (result ≡ status.TooLong) ⊎ (result ≡ status.Later)) → IfSome (S.left source.old) (λ bytes. IsRight command bytes result) }
    ensures input { (fault : InputFault) → result ≡ Status.Input fault → (command : Command) × IsCommand (map string_bytes words.now) command × IfSome (S.left source.old) (λ bytes. IsRight command bytes (Status.Input fault)) }

    ensures limit { (step : ℕ) (which : Which) → result ≡ Status.Limit step which → (command : Command) × IsCommand (map string_bytes words.now) command × IfSome (S.left source.old) (λ bytes. IsRight command bytes (Status.Limit step which)) }

    ensures usage { result ≡ Status.Usage → ¬ HasCommand (map string_bytes words.now) }
    ensures other_words { ¬ HasCommand (map string_bytes words.now) → (source.new ≡ source.old) × ((result ≡ Status.Usage) ⊎ (result ≡ Status.WriteFault)) }
    ensures usage_text { result ≡ Status.Usage → Appends (K.written sink.old) usage_line (K.written sink.new) }
    ensures read_fault { result ≡ Status.ReadFault → Rose (S.faults source.old) (S.faults source.new) }
    ensures read_fault_text { result ≡ Status.ReadFault → Appends (K.written sink.old) read_line (K.written sink.new) }
    ensures too_long_text { result ≡ Status.TooLong → Appends (K.written sink.old) too_long_line (K.written sink.new) }
    ensures input_text { (fault : InputFault) → result ≡ Status.Input fault → Appends (K.written sink.old) (input_line fault) (K.written sink.new) }
    ensures later_text { result ≡ Status.Later → Appends (K.written sink.old) later_line (K.written sink.new) }

    ensures limit_text { (step : ℕ) (which : Which) → result ≡ Status.Limit step which → Appends (K.written sink.old) (limit_line step which) (K.written sink.new) }

    ensures write_fault { result ≡ Status.WriteFault → Rose (K.faults sink.old) (K.faults sink.new) }
    ensures write_fault_text { result ≡ Status.WriteFault → (text : List ℕ)
        × IsOutcomeText (map string_bytes words.now) (S.left source.old) (S.faults source.old) (S.faults source.new) text
        × AppendsPart (K.written sink.old) text (K.written sink.new) }

    // Want of memory writes nothing, and comes before an input is known to be too long.
    ensures memory { result ≡ Status.Memory → K.written sink.new ≡ K.written sink.old }
    ensures memory_read { result ≡ Status.Memory → IfSome (S.left source.old) (λ all. ReadsUpTo LONGEST_INPUT all (S.left source.new)) }

    // No fault is passed over: a count rises only where the answer says so.
    ensures quiet { result ≡ Status.Ok → (S.faults source.new ≡ S.faults source.old) × (K.faults sink.new ≡ K.faults sink.old) }
    ensures quiet_source { ¬ (result ≡ Status.ReadFault) → ¬ (result ≡ Status.WriteFault) → S.faults source.new ≡ S.faults source.old }
    ensures quiet_sink { ¬ (result ≡ Status.WriteFault) → K.faults sink.new ≡ K.faults sink.old }

    // Where no count rose, the answer is the right one for the words and the input, unless memory ran out: of a document and a
    // command that can be done with it, Ok.
    ensures complete { (command : Command) (bytes : List ℕ) (s : Status) → IsCommand (map string_bytes words.now) command → S.left source.old ≡ Some bytes → IsRight command bytes s
        → ¬ Rose (S.faults source.old) (S.faults source.new) → ¬ Rose (K.faults sink.old) (K.faults sink.new)
        → (result ≡ s) ⊎ (result ≡ Status.Memory) }

    ensures most { IfSome (S.left source.old) (λ all. ReadsUpTo (LONGEST_INPUT + 1) all (S.left source.new)) }
    ensures source_counts { S.faults source.old ≤ S.faults source.new }
    ensures sink_counts { K.faults sink.old ≤ K.faults sink.new }
    ensures link { link.new ≡ link.old }
{
    let Some(command) = command_of(words) else {
        return written(sink, Status::Usage, b"fault usage\n");
    };
    match answer_from(alloc, command, source) {
        Ok(text) => written(sink, Status::Ok, text.items()),
        Err(NoOutput::Fault) => written(sink, Status::ReadFault, b"fault read\n"),
        Err(NoOutput::TooLong) => written(sink, Status::TooLong, b"fault too-long\n"),
        Err(NoOutput::Later) => written(sink, Status::Later, b"fault later\n"),
        Err(NoOutput::Input(fault)) => match input_line(alloc, &fault) {
            Ok(line) => written(sink, Status::Input(fault), line.items()),
            Err(_) => Status::Memory,
        },
        Err(NoOutput::Limit { step, which }) => match limit_line(alloc, step, which) {
            Ok(line) => written(sink, Status::Limit { step, which }, line.items()),
            Err(_) => Status::Memory,
        },
        Err(NoOutput::Memory) => Status::Memory,
    }
}
