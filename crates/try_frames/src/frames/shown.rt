//! What a frame has, as a line: its texts, its slots, and what it carries.

ghost use Rattle.std.specs.Prelude.{IsTrue};
ghost use Rattle.fw_base.specs.Sizes.{accepted};

use fw_base::{Params, Slot};
use fw_digest::digest;
use fw_frame::{Carried, Entry, Frame, Shown, entry_digest};
use fw_list::{Bytes, Memory};
use std::alloc::Global;

/// The first four bytes of a digest.
fn front(alloc: Global, digest: &[u8; 32]) -> Result<String, Memory> {
    Ok(hex::encode(alloc, &digest[..4])?)
}

/// The front of an entry's digest.
pub fn entry(alloc: Global, entry: &Entry<'_>) -> Result<Option<String>, Memory> {
    Ok(Some(front(alloc, &entry_digest(entry))?))
}

/// Adds a blank between words.
fn add_blank(line: &mut String) -> Result<(), Memory> {
    if !line.is_empty() {
        line.push(' ')?;
    }
    Ok(())
}

/// The tag of each text of a frame, and the front of its digest.
pub fn texts(alloc: Global, frame: &Frame<'_>) -> Result<Option<String>, Memory> {
    let texts = frame.texts(alloc)?;
    let mut line = String::new(alloc);
    for text in texts.items() {
        add_blank(&mut line)?;
        let tag = text.text.at(0).copied().unwrap_or(0);
        let front = front(alloc, &text.digest)?;
        line.push_str(format!(in alloc; "{tag}:{front}")?.as_str())?;
    }
    Ok(Some(line))
}

/// Adds a sign and a number.
fn add_number(alloc: Global, line: &mut String, sign: char, number: u32) -> Result<(), Memory> {
    line.push(sign)?;
    line.push_str(format!(in alloc; "{number}")?.as_str())?;
    Ok(())
}

/// A name, numbers and a point.
fn named(alloc: Global, name: &str, numbers: &[u32], point: u32) -> Result<String, Memory> {
    let mut text = String::from_str(alloc, name)?;
    for number in numbers {
        add_number(alloc, &mut text, '-', *number)?;
    }
    add_number(alloc, &mut text, ':', point)?;
    Ok(text)
}

/// A slot as its kind and its numbers, and a point.
fn slot_text(alloc: Global, slot: Slot, point: u32) -> Result<String, Memory> {
    match slot {
        Slot::Prepare {
            view,
            number,
            agree,
        } => named(alloc, "prepare", &[view, number, agree], point),
        Slot::Commit {
            view,
            number,
            agree,
        } => named(alloc, "commit", &[view, number, agree], point),
        Slot::Change { view, agree } => named(alloc, "change", &[view, agree], point),
        Slot::NewView { view, agree } => named(alloc, "new-view", &[view, agree], point),
        Slot::Request { client, stamp } => named(alloc, "request", &[client, stamp], point),
        Slot::Reply { number } => named(alloc, "reply", &[number], point),
    }
}

/// The slot and the point of each part of a frame.
pub fn slots(alloc: Global, params: &Params, frame: &Frame<'_>) -> Result<Option<String>, Memory>
    requires { IsTrue (accepted params.now) }
{
    let parts = frame.parts(alloc, params)?;
    let mut line = String::new(alloc);
    for part in parts.items() {
        add_blank(&mut line)?;
        line.push_str(slot_text(alloc, part.slot, part.point)?.as_str())?;
    }
    Ok(Some(line))
}

/// Adds the slot and the point of a value, where it is for bit 0, and its side.
fn add_value(alloc: Global, line: &mut String, shown: &Shown) -> Result<(), Memory> {
    let place = shown.place;
    if place.bit == 0 {
        add_blank(line)?;
        line.push_str(slot_text(alloc, place.slot, place.point)?.as_str())?;
        line.push(' ')?;
    }
    line.push(if place.side == 0 { '0' } else { '1' })?;
    Ok(())
}

/// What a frame carries: for each 256 values their slot, point and sides; and the front of the digest of all values and bits.
pub fn carried(alloc: Global, carried: &Carried) -> Result<Option<String>, Memory> {
    let mut line = String::new(alloc);
    let mut values = Bytes::new(alloc);
    for shown in carried.items() {
        add_value(alloc, &mut line, shown)?;
        values.append(&shown.place.bit.to_be_bytes())?;
        values.append(&shown.value)?;
    }
    line.push(' ')?;
    line.push_str(front(alloc, &digest(0, values.items(), &[]))?.as_str())?;
    Ok(Some(line))
}
