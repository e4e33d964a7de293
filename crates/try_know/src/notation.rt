//! Words, numbers and places of a line. A place is `SLOT/BIT/SIDE/POINT`, and a slot its kind and its numbers: `prepare:VIEW:NUMBER:AGREE`,
//! `commit:VIEW:NUMBER:AGREE`, `change:VIEW:AGREE`, `new-view:VIEW:AGREE`, `request:CLIENT:STAMP` or `reply:NUMBER`.

use fw_base::{Place, Slot};
use fw_list::Memory;
use std::alloc::Global;

/// The words of a text.
pub fn words_of<'a>(alloc: Global, text: &'a str) -> Result<Vec<&'a str>, Memory> {
    let mut words = Vec::new(alloc);
    for word in text.split_whitespace() {
        words.push(word)?;
    }
    Ok(words)
}

/// A number in decimal digits.
pub fn number(word: &str) -> Option<u32> {
    word.parse::<u32>().ok()
}

/// These very words.
pub fn said(alloc: Global, text: &str) -> Result<String, Memory> {
    Ok(String::from_str(alloc, text)?)
}

/// Two numbers.
fn two(text: &str) -> Option<(u32, u32)> {
    let (first, second) = text.split_once(':')?;
    Some((number(first)?, number(second)?))
}

/// Three numbers.
fn three(text: &str) -> Option<(u32, u32, u32)> {
    let (first, rest) = text.split_once(':')?;
    let first = number(first)?;
    let (second, third) = two(rest)?;
    Some((first, second, third))
}

/// The slot that a word names.
fn slot_of(word: &str) -> Option<Slot> {
    let (kind, rest) = word.split_once(':')?;
    match kind {
        "prepare" => {
            let (view, number, agree) = three(rest)?;
            Some(Slot::Prepare {
                view,
                number,
                agree,
            })
        }
        "commit" => {
            let (view, number, agree) = three(rest)?;
            Some(Slot::Commit {
                view,
                number,
                agree,
            })
        }
        "change" => {
            let (view, agree) = two(rest)?;
            Some(Slot::Change { view, agree })
        }
        "new-view" => {
            let (view, agree) = two(rest)?;
            Some(Slot::NewView { view, agree })
        }
        "request" => {
            let (client, stamp) = two(rest)?;
            Some(Slot::Request { client, stamp })
        }
        "reply" => {
            let number = number(rest)?;
            Some(Slot::Reply { number })
        }
        _ => None,
    }
}

/// The place that a word names.
pub fn place_of(word: &str) -> Option<Place> {
    let (slot, rest) = word.split_once('/')?;
    let (bit, rest) = rest.split_once('/')?;
    let (side, point) = rest.split_once('/')?;
    Some(Place {
        slot: slot_of(slot)?,
        bit: number(bit)?,
        side: number(side)?,
        point: number(point)?,
    })
}
