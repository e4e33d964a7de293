//! Operations in words and in bytes.

ghost use Rattle.std.specs.Prelude.{IsTrue};
ghost use Rattle.fw_op.specs.Ops.{op_fits};

use crate::spelling::{Spelling, digits, shown};
use fw_list::Memory;
use fw_op::{Op, Words};
use std::alloc::Global;

/// The words of an operation's copy.
fn words_of(alloc: Global, op: &Op) -> Result<String, Memory> {
    let copy = op.copy(alloc)?;
    shown(alloc, &copy.words(alloc)?)
}

/// The digits of an operation.
fn digits_of(alloc: Global, op: &Op) -> Result<String, Memory>
    requires { IsTrue (op_fits 8 op.now) }
{
    digits(alloc, &op.bytes(alloc)?)
}

/// An operation in words and in digits.
fn spelling(alloc: Global, op: &Op) -> Result<Option<Spelling>, Memory>
    requires { IsTrue (op_fits 8 op.now) }
{
    Ok(Some(Spelling {
        words: words_of(alloc, op)?,
        digits: digits_of(alloc, op)?,
    }))
}

/// The operation of this text.
pub fn of_text(alloc: Global, text: &str) -> Result<Option<Spelling>, Memory> {
    match Op::read_words(alloc, text)? {
        Some(op) => spelling(alloc, &op),
        None => Ok(None),
    }
}

/// The operation of these bytes.
pub fn of_bytes(alloc: Global, bytes: &[u8]) -> Result<Option<Spelling>, Memory> {
    match Op::read_bytes(alloc, bytes)? {
        Some(op) => spelling(alloc, &op),
        None => Ok(None),
    }
}

/// The operation of these words, read where there are so many clients.
pub fn of_clients(alloc: Global, clients: u32, text: &str) -> Result<Option<String>, Memory> {
    let mut words = Words::of(text);
    match Op::from_words(alloc, clients, &mut words)? {
        Some(op) => Ok(Some(words_of(alloc, &op)?)),
        None => Ok(None),
    }
}
