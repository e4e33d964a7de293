//! The names of seats, written and read.

ghost use Rattle.std.specs.Prelude.{◌≡◌, ◌≢◌, ◌<◌, ◌≤◌, ◌+◌, ℕ, [], ◌∷◌, IsTrue, IfOk, IfSome, MatchOption, Some};
ghost use Rattle.fw_base.specs.Sizes.{accepted};
ghost use Rattle.fw_base.specs.Seats.{fits};
ghost use Rattle.fw_base.specs.Names.{seat_name, short_name};
ghost use Rattle.fw_base.specs.declared.seat.Seat.{Seat};

use crate::{Params, Seat};
use fw_list::{Bytes, Memory};
use std::alloc::Global;

impl Seat {
    /// The seat's name, as `a0`, `e0`, `x0.1` or `c0`.
    pub fn name(self, alloc: Global) -> Result<Bytes, Memory>
        ensures { IfOk result (λ name. name ≡ seat_name self) }
    {
        let mut name = Bytes::new(alloc);
        match self {
            Seat::Agree(i) => name.append_lettered(b'a', i)?,
            Seat::Exec(j) => name.append_lettered(b'e', j)?,
            Seat::Filter(r, c) => {
                name.append_lettered(b'x', r)?;
                name.append_lettered(b'.', c)?;
            }
            Seat::Client(c) => name.append_lettered(b'c', c)?,
        }
        Ok(name)
    }

    /// The seat of the deployment that the text names, or none where it names no such seat.
    pub fn read(params: &Params, text: &str) -> Option<Seat>
        requires { IsTrue (accepted params.now) }
        ensures found { IfSome result (λ seat. IsTrue (fits params.now seat) × (text.now ≡ seat_name seat)) }
        ensures each { (seat : Seat) → IsTrue (fits params.now seat) → text.now ≡ seat_name seat → result ≡ Some seat }
    {
        named(params, text.as_bytes())
    }
}

/// The number below this one of which the byte is the digit.
fn digit_of(byte: u8, below: u32) -> Option<u32>
    requires { below ≤ 10 }
    ensures { MatchOption result ((n : ℕ) → n < below → byte ≢ 48 + n) (λ n. (n < below) × (byte ≡ 48 + n)) }
{
    if byte < b'0' {
        return None;
    }
    let digit = u32::from(byte - b'0');
    if digit < below { Some(digit) } else { None }
}

/// The seat that a letter and one digit name.
fn lettered(params: &Params, letter: u8, digit: u8) -> Option<Seat>
    requires { IsTrue (accepted params.now) }
    ensures { MatchOption result ((seat : Seat) → IsTrue (fits params.now seat) → letter ∷ digit ∷ [] ≢ short_name seat) (λ seat. IsTrue (fits params.now seat) × (letter ∷ digit ∷ [] ≡ short_name seat)) }
{
    if letter == b'a' {
        return match digit_of(digit, params.agreements()) {
            Some(i) => Some(Seat::Agree(i)),
            None => None,
        };
    }
    if letter == b'e' {
        return match digit_of(digit, params.executors()) {
            Some(j) => Some(Seat::Exec(j)),
            None => None,
        };
    }
    if letter == b'c' {
        return match digit_of(digit, params.clients) {
            Some(c) => Some(Seat::Client(c)),
            None => None,
        };
    }
    None
}

/// The filter that a letter, two digits and the point between them name.
fn gridded(params: &Params, letter: u8, row: u8, point: u8, column: u8) -> Option<Seat>
    requires { IsTrue (accepted params.now) }
    ensures { MatchOption result ((seat : Seat) → IsTrue (fits params.now seat) → letter ∷ row ∷ point ∷ column ∷ [] ≢ short_name seat) (λ seat. IsTrue (fits params.now seat) × (letter ∷ row ∷ point ∷ column ∷ [] ≡ short_name seat)) }
{
    if letter != b'x' {
        return None;
    }
    if point != b'.' {
        return None;
    }
    let Some(row) = digit_of(row, params.width()) else {
        return None;
    };
    let Some(column) = digit_of(column, params.width()) else {
        return None;
    };
    Some(Seat::Filter(row, column))
}

/// The seat of a short name: all numbers of seats have one digit.
fn named(params: &Params, name: &[u8]) -> Option<Seat>
    requires { IsTrue (accepted params.now) }
    ensures { MatchOption result ((seat : Seat) → IsTrue (fits params.now seat) → name.now ≢ short_name seat) (λ seat. IsTrue (fits params.now seat) × (name.now ≡ short_name seat)) }
{
    if name.len() == 2 {
        return lettered(params, name[0], name[1]);
    }
    if name.len() == 4 {
        return gridded(params, name[0], name[1], name[2], name[3]);
    }
    None
}
