//! Answers as text.

use crate::stage::Named;
use fw_client::Accepted;
use fw_digest::digest;
use fw_list::{Bytes, Memory};
use fw_node::Sent;
use fw_op::{add_number, add_word};
use std::alloc::Global;

/// These very words.
pub fn said(alloc: Global, text: &str) -> Result<Bytes, Memory> {
    Bytes::copy_of(alloc, text.as_bytes())
}

/// A word and a number.
pub fn shown_count(alloc: Global, word: &str, count: u32) -> Result<Bytes, Memory> {
    let mut text = said(alloc, word)?;
    add_number(&mut text, count)?;
    Ok(text)
}

/// The kind of a frame, by its first byte.
fn kind_of(bytes: &[u8]) -> &'static str {
    match bytes.first() {
        Some(1) => "request",
        Some(2) => "propose",
        Some(3) => "vote",
        Some(4) => "change",
        Some(5) => "newview",
        Some(6) => "agreed",
        Some(7) => "share",
        Some(8) => "reply",
        Some(9) => "want",
        _ => "other",
    }
}

/// Adds the digest of bytes, in hexadecimal digits.
fn add_digest(alloc: Global, text: &mut Bytes, bytes: &[u8]) -> Result<(), Memory> {
    // (the digest is of a tag byte and the rest)
    let Some((tag, rest)) = bytes.split_first() else {
        return Ok(());
    };
    text.push(b' ')?;
    for byte in digest(*tag, rest, &[]).iter() {
        let digits = format!(in alloc; "{byte:02x}")?;
        text.append(digits.as_bytes())?;
    }
    Ok(())
}

/// Adds a frame: its kind, length and digest.
pub fn add_frame(alloc: Global, text: &mut Bytes, bytes: &[u8]) -> Result<(), Memory> {
    add_word(text, kind_of(bytes).as_bytes())?;
    add_number(text, u32::try_from(bytes.len()).unwrap_or(u32::MAX))?;
    add_digest(alloc, text, bytes)
}

/// Adds a frame by the name that it has, or else by its kind, length and digest.
fn add_known(
    alloc: Global,
    text: &mut Bytes,
    frames: &[Named],
    bytes: &[u8],
) -> Result<(), Memory> {
    for named in frames {
        if named.bytes.items() == bytes {
            return add_word(text, named.name.items());
        }
    }
    add_frame(alloc, text, bytes)
}

/// Adds the frames that were sent, each after a bar: whom to, one seat after another where it is the same frame, and which it is.
pub fn add_sent(
    alloc: Global,
    text: &mut Bytes,
    frames: &[Named],
    sent: &[Sent],
) -> Result<(), Memory> {
    let mut before: Option<&[u8]> = None;
    for one in sent {
        let bytes = one.bytes.items();
        if before != Some(bytes) {
            if let Some(last) = before {
                add_known(alloc, text, frames, last)?;
            }
            text.append(b" |")?;
        }
        add_word(text, one.to.name(alloc)?.items())?;
        before = Some(bytes);
    }
    match before {
        Some(last) => add_known(alloc, text, frames, last),
        None => Ok(()),
    }
}

/// The replies that were accepted, each after a bar: stamp, number and words.
pub fn shown_accepted(alloc: Global, accepted: &[Accepted]) -> Result<Bytes, Memory> {
    let mut text = said(alloc, "accepted")?;
    for told in accepted {
        text.append(b" |")?;
        add_number(&mut text, told.stamp)?;
        add_number(&mut text, told.number)?;
        add_word(&mut text, told.reply.words(alloc)?.items())?;
    }
    Ok(text)
}
