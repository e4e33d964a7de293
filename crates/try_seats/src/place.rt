//! The index of a place, such as `commit 0 3 2 bit 7 side 1 point 0`.

ghost use Rattle.std.specs.Prelude.{IsTrue};
ghost use Rattle.fw_base.specs.Sizes.{accepted};

use crate::answer::number;
use fw_base::{Params, Place, Slot, place_index};
use std::alloc::{AllocError, Global};

/// The slot of a kind and its numbers.
fn slot_of(kind: &str, a: u32, b: u32, c: u32) -> Option<Slot> {
    match kind {
        "prepare" => Some(Slot::Prepare {
            view: a,
            number: b,
            agree: c,
        }),
        "commit" => Some(Slot::Commit {
            view: a,
            number: b,
            agree: c,
        }),
        "change" => Some(Slot::Change { view: a, agree: b }),
        "new-view" => Some(Slot::NewView { view: a, agree: b }),
        "request" => Some(Slot::Request {
            client: a,
            stamp: b,
        }),
        "reply" => Some(Slot::Reply { number: a }),
        _ => None,
    }
}

/// The number at a place of the words, or 0.
fn word_at(words: &str, k: usize) -> u32 {
    number(words.split(' ').nth(k))
}

/// The index of the place that a slot and the words behind `bit` name, or none where the deployment has no such place.
pub fn place_text(alloc: Global, params: &Params, words: &str) -> Result<String, AllocError>
    requires { IsTrue (accepted params.now) }
{
    let (slot, place) = words.split_once(" bit ").unwrap_or((words, ""));
    let kind = slot.split(' ').next().unwrap_or("");
    let Some(slot) = slot_of(kind, word_at(slot, 1), word_at(slot, 2), word_at(slot, 3)) else {
        return String::from_str(alloc, "unknown");
    };
    let place = Place {
        slot,
        bit: word_at(place, 0),
        side: word_at(place, 2),
        point: word_at(place, 4),
    };
    if !place.fits(params) {
        return String::from_str(alloc, "none");
    }
    let index = place_index(params, &place);
    format!(in alloc; "{index}")
}
