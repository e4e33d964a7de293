//! The lines that name what is wrong with an input, and what a run would send too much of.

ghost use Rattle.std.specs.Prelude.{◌≡◌, ◌++◌, IfOk, OnOk};
ghost use Rattle.fw_call.specs.Lines.{input_words, input_line, which_word, limit_line};

use fw_list::{Bytes, Memory};
use fw_rules::Which;
use fw_sched::InputFault;
use std::alloc::Global;

/// Adds what is wrong, and where.
fn add_words(line: &mut Bytes, fault: &InputFault) -> Result<(), Memory>
    ensures { OnOk result (line.new ≡ line.old ++ input_words fault.now) }
{
    match fault {
        InputFault::NotToml => line.append(b"not-toml"),
        InputFault::Field { name } => {
            line.append(b"field ")?;
            line.append(name.items())
        }
        InputFault::Keys { keys } => {
            line.append(b"keys ")?;
            line.append_number(*keys)
        }
        InputFault::Record { index } => {
            line.append(b"record ")?;
            line.append_number(*index)
        }
        InputFault::Faulty { index } => {
            line.append(b"faulty ")?;
            line.append_number(*index)
        }
        InputFault::Step { index } => {
            line.append(b"step ")?;
            line.append_number(*index)
        }
        InputFault::Seat => line.append(b"seat"),
        InputFault::Hand => line.append(b"hand"),
    }
}

/// The line of an input that is wrong.
pub(crate) fn input_line(alloc: Global, fault: &InputFault) -> Result<Bytes, Memory>
    ensures { IfOk result (λ line. line ≡ input_line fault.now) }
{
    let mut line = Bytes::copy_of(alloc, b"fault input ")?;
    add_words(&mut line, fault)?;
    line.append(b"\n")?;
    Ok(line)
}

/// The word of what would be too much.
fn which_word(which: Which) -> &'static [u8]
    ensures { result.now ≡ which_word which }
{
    match which {
        Which::Frames => b"frames",
        Which::Bytes => b"bytes",
    }
}

/// The line of a run that would send too much at a step.
pub(crate) fn limit_line(alloc: Global, step: u32, which: Which) -> Result<Bytes, Memory>
    ensures { IfOk result (λ line. line ≡ limit_line step which) }
{
    let mut line = Bytes::copy_of(alloc, b"fault limit ")?;
    line.append_number(step)?;
    line.append(b" ")?;
    line.append(which_word(which))?;
    line.append(b"\n")?;
    Ok(line)
}
