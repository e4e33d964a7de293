//! The head of a hand file: the letters, the sizes, and whose it is.

ghost use Rattle.std.specs.Prelude.{◌≡◌, ◌↔◌, ◌++◌, List, ℕ, codes, IsTrue};
ghost use Rattle.fw_list.specs.Numbers.{u32};
ghost use Rattle.fw_base.specs.Sizes.{accepted};
ghost use Rattle.fw_hand.specs.Files.{params_bytes};
ghost use Rattle.fw_wire.specs.Reading.{Finds};
ghost use Rattle.fw_hand.specs.Reading.{IsWord, two_bytes, AreTwo, four_bytes, AreFour, AreWords, lettered_bytes, AreAccepted, mark_bytes, IsSeatOf, head_bytes, IsHead};

use crate::file::PUBLIC;
use fw_base::{Params, Seat};
use fw_wire::Reader;

/// A number.
fn number_in(reader: &mut Reader<'_>) -> Option<u32>
    ensures { Finds u32 IsWord reader.old result reader.new }
{
    reader.u32()
}

/// Two numbers.
fn two_in(reader: &mut Reader<'_>) -> Option<(u32, u32)>
    ensures { Finds two_bytes AreTwo reader.old result reader.new }
{
    let Some(first) = number_in(reader) else {
        return None;
    };
    let Some(second) = number_in(reader) else {
        return None;
    };
    Some((first, second))
}

/// Four numbers.
fn four_in(reader: &mut Reader<'_>) -> Option<((u32, u32), (u32, u32))>
    ensures { Finds four_bytes AreFour reader.old result reader.new }
{
    let Some(first) = two_in(reader) else {
        return None;
    };
    let Some(second) = two_in(reader) else {
        return None;
    };
    Some((first, second))
}

/// The eight sizes in order.
fn sizes_in(reader: &mut Reader<'_>) -> Option<Params>
    ensures { Finds params_bytes AreWords reader.old result reader.new }
{
    let Some(((f, g), (h, numbers))) = four_in(reader) else {
        return None;
    };
    let Some(((views, clients), (stamps, pipe))) = four_in(reader) else {
        return None;
    };
    Some(Params {
        f,
        g,
        h,
        numbers,
        views,
        clients,
        stamps,
        pipe,
    })
}

/// Sizes that a deployment may have.
fn accepted_in(reader: &mut Reader<'_>) -> Option<Params>
    ensures { Finds params_bytes AreAccepted reader.old result reader.new }
{
    let Some(params) = sizes_in(reader) else {
        return None;
    };
    if !params.are_accepted() {
        return None;
    }
    Some(params)
}

/// Whether both have the same bytes.
pub(crate) fn are_same(one: &[u8], other: &[u8]) -> bool
    ensures { IsTrue result ↔ (one.now ≡ other.now) }
{
    one == other
}

/// Whether the letters stand there, which are taken.
fn has_letters(reader: &mut Reader<'_>) -> bool
    ensures yes { IsTrue result → reader.old ≡ codes "fwh1" ++ reader.new }
    ensures no { (rest : List ℕ) → reader.old ≡ codes "fwh1" ++ rest → IsTrue result }
{
    match reader.fixed(4) {
        Some(letters) => are_same(letters, b"fwh1"),
        None => false,
    }
}

/// The letters and the sizes.
fn params_in(reader: &mut Reader<'_>) -> Option<Params>
    ensures { Finds lettered_bytes AreAccepted reader.old result reader.new }
{
    if !has_letters(reader) {
        return None;
    }
    accepted_in(reader)
}

/// Whose it is.
fn mark_in(params: &Params, reader: &mut Reader<'_>) -> Option<Option<Seat>>
    requires { IsTrue (accepted params.now) }
    ensures { Finds (mark_bytes params.now) (IsSeatOf params.now) reader.old result reader.new }
{
    let Some(mark) = number_in(reader) else {
        return None;
    };
    if mark == PUBLIC {
        return Some(None);
    }
    let Some(seat) = Seat::from_index(params, mark) else {
        return None;
    };
    Some(Some(seat))
}

/// The letters, the sizes, and whose it is.
pub(crate) fn head_in(reader: &mut Reader<'_>) -> Option<(Params, Option<Seat>)>
    ensures { Finds head_bytes IsHead reader.old result reader.new }
{
    let Some(params) = params_in(reader) else {
        return None;
    };
    let Some(seat) = mark_in(&params, reader) else {
        return None;
    };
    Some((params, seat))
}
