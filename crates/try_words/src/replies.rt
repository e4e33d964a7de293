//! Replies in words and in bytes.

ghost use Rattle.std.specs.Prelude.{IsTrue};
ghost use Rattle.fw_op.specs.Replies.{reply_fits};

use crate::spelling::{Spelling, digits, said, shown};
use fw_list::Memory;
use fw_op::{Reply, Words};
use std::alloc::Global;

/// The words of a reply's copy.
fn words_of(alloc: Global, reply: &Reply) -> Result<String, Memory> {
    let copy = reply.copy(alloc)?;
    shown(alloc, &copy.words(alloc)?)
}

/// The digits of a reply.
fn digits_of(alloc: Global, reply: &Reply) -> Result<String, Memory>
    requires { IsTrue (reply_fits 8 reply.now) }
{
    if matches!(reply, Reply::Null) {
        return said(alloc, "without bytes");
    }
    digits(alloc, &reply.bytes(alloc)?)
}

/// A reply in words and in digits.
fn spelling(alloc: Global, reply: &Reply) -> Result<Option<Spelling>, Memory>
    requires { IsTrue (reply_fits 8 reply.now) }
{
    Ok(Some(Spelling {
        words: words_of(alloc, reply)?,
        digits: digits_of(alloc, reply)?,
    }))
}

/// The reply of this text.
pub fn of_text(alloc: Global, text: &str) -> Result<Option<Spelling>, Memory> {
    match Reply::read_words(alloc, text)? {
        Some(reply) => spelling(alloc, &reply),
        None => Ok(None),
    }
}

/// The reply of these bytes.
pub fn of_bytes(alloc: Global, bytes: &[u8]) -> Result<Option<Spelling>, Memory> {
    match Reply::read_bytes(alloc, bytes)? {
        Some(reply) => spelling(alloc, &reply),
        None => Ok(None),
    }
}

/// The reply of these words, read where there are so many clients.
pub fn of_clients(alloc: Global, clients: u32, text: &str) -> Result<Option<String>, Memory> {
    let mut words = Words::of(text);
    match Reply::from_words(alloc, clients, &mut words)? {
        Some(reply) => Ok(Some(words_of(alloc, &reply)?)),
        None => Ok(None),
    }
}
