//! Why a line has no answer.

ghost use Rattle.std.specs.Prelude.{◌≤◌, IfOk};

use fw_list::Memory;
use fw_op::{Words, number_of};

/// Why a line has no answer.
#[derive(Clone, Copy, Debug, PartialEq, Eq)]
pub enum Fault {
    Memory,
    /// It is no such line.
    NoLine,
}

impl From<Memory> for Fault {
    ghost use Rattle.std.specs.Prelude.{◌≡◌};
    ghost use Rattle.try_nodes.specs.declared.fault.Fault.TheVariants as error;

    ghost from_gives = { λ _ e. e ≡ error.Memory };

    fn from(_: Memory) -> Self {
        Fault::Memory
    }
}

/// The next word.
pub fn word<'a>(words: &mut Words<'a>) -> Result<&'a str, Fault> {
    words.next().ok_or(Fault::NoLine)
}

/// The number from 0 to 65,535 that the next word is.
pub fn number(words: &mut Words<'_>) -> Result<u32, Fault>
    ensures { IfOk result (λ number. number ≤ 65535) }
{
    match words.next() {
        Some(word) => number_of(word, 0, 65535).ok_or(Fault::NoLine),
        None => Err(Fault::NoLine),
    }
}
