//! The answer to a line on sizes, a seat or a link.

ghost use Rattle.std.specs.Prelude.{IsTrue};
ghost use Rattle.fw_base.specs.Sizes.{accepted};

use crate::place::place_text;
use fw_base::{ParamFault, Params, Seat, linked};
use std::alloc::{AllocError, Global};
use std::str;

/// The number that a word spells, or 0.
pub fn number(word: Option<&str>) -> u32 {
    match word {
        Some(word) => word.parse::<u32>().unwrap_or(0),
        None => 0,
    }
}

/// Takes these sizes, and says how many seats they make, or what is wrong with them.
fn sizes(alloc: Global, params: &mut Params, words: &str) -> Result<String, AllocError> {
    let mut words = words.split(' ');
    *params = Params {
        f: number(words.next()),
        g: number(words.next()),
        h: number(words.next()),
        numbers: number(words.next()),
        views: number(words.next()),
        clients: number(words.next()),
        stamps: number(words.next()),
        pipe: number(words.next()),
    };
    match params.check() {
        Ok(sizes) => {
            let seats = sizes.seats();
            format!(in alloc; "{seats} seats")
        }
        Err(ParamFault::Field(field)) => format!(in alloc; "field {field}"),
        Err(ParamFault::TooManyKeys(keys)) => format!(in alloc; "{keys} keys"),
    }
}

/// The index and the name of a seat.
fn named(alloc: Global, params: &Params, seat: Option<Seat>) -> Result<String, AllocError>
    requires { IsTrue (accepted params.now) }
{
    let Some(seat) = seat else {
        return String::from_str(alloc, "none");
    };
    if !seat.fits(params) {
        return String::from_str(alloc, "none");
    }
    let index = seat.index(params);
    let Ok(name) = seat.name(alloc) else {
        return Err(AllocError);
    };
    let name = str::from_utf8(name.items()).unwrap_or("");
    format!(in alloc; "{index} {name}")
}

/// What stands between two quotes.
fn quoted(text: &str) -> &str {
    let Some(rest) = text.strip_prefix('"') else {
        return text;
    };
    rest.strip_suffix('"').unwrap_or(text)
}

/// Whether two seats are linked, in both directions.
fn links(params: &Params, names: &str) -> &'static str
    requires { IsTrue (accepted params.now) }
{
    let Some((one, other)) = names.split_once(' ') else {
        return "no seats";
    };
    let (Some(one), Some(other)) = (Seat::read(params, one), Seat::read(params, other)) else {
        return "no seats";
    };
    match (linked(params, one, other), linked(params, other, one)) {
        (true, true) => "yes",
        (false, false) => "no",
        _ => "one way",
    }
}

/// The answer to a line.
pub fn answer(alloc: Global, params: &mut Params, line: &str) -> Result<String, AllocError> {
    let (kind, rest) = line.split_once(' ').unwrap_or((line, ""));
    if kind.is_empty() || kind.starts_with('#') {
        return String::from_str(alloc, line);
    }
    if kind == "sizes" {
        return sizes(alloc, params, rest);
    }
    if !params.are_accepted() {
        return String::from_str(alloc, "no deployment");
    }
    match kind {
        "seat" => named(alloc, params, Seat::read(params, quoted(rest))),
        "seat-at" => named(alloc, params, Seat::from_index(params, number(Some(rest)))),
        "linked" => String::from_str(alloc, links(params, rest)),
        "place" => place_text(alloc, params, rest),
        _ => String::from_str(alloc, "unknown"),
    }
}
