//! The bytes of a place, as they stand in front of a value when it is hashed.

ghost use Rattle.std.specs.Prelude.{◌≡◌, ◌++◌, length, take};
ghost use Rattle.std.specs.List.{flat_map};
ghost use Rattle.fw_list.specs.Numbers.{u32};
ghost use Rattle.fw_base.specs.Places.{slot_name};
ghost use Rattle.fw_text.specs.Texts.{place_bytes};

use fw_base::{Place, Slot};

/// The kind of a slot.
fn kind_of(slot: Slot) -> u8
    ensures { result ≡ (slot_name slot).kind }
{
    match slot {
        Slot::Prepare { .. } => 1,
        Slot::Commit { .. } => 2,
        Slot::Change { .. } => 3,
        Slot::NewView { .. } => 4,
        Slot::Request { .. } => 5,
        Slot::Reply { .. } => 6,
    }
}

/// The three numbers that name a slot beside its kind.
fn numbers_of(slot: Slot) -> (u32, u32, u32)
    ensures a { result.0 ≡ (slot_name slot).a }
    ensures b { result.1 ≡ (slot_name slot).b }
    ensures c { result.2 ≡ (slot_name slot).c }
{
    match slot {
        Slot::Prepare {
            view,
            number,
            agree,
        }
        | Slot::Commit {
            view,
            number,
            agree,
        } => (view, number, agree),
        Slot::Change { view, agree } | Slot::NewView { view, agree } => (view, agree, 0),
        Slot::Request { client, stamp } => (client, stamp, 0),
        Slot::Reply { number } => (number, 0, 0),
    }
}

/// Writes the numbers behind the first byte.
fn put_numbers(out: &mut [u8], numbers: &[u32; 6])
    requires { length out.old ≡ 25 }
    ensures { out.new ≡ take 1 out.old ++ flat_map u32 numbers.now }
{
    for k in 0..6 {
        out[4 * k + 1..4 * k + 5].copy_from_slice(&bytes_of(numbers[k]));
    }
}

/// A number in four bytes.
#[tactic(auto, unfolding(fw_list::specs::Numbers::u32))]
fn bytes_of(number: u32) -> [u8; 4]
    ensures value { result ≡ u32 number }
    ensures len { length result ≡ 4 }
{
    number.to_be_bytes()
}

/// The place as bytes.
pub(crate) fn place_bytes(place: &Place) -> [u8; 25]
    ensures { result ≡ place_bytes place.now }
{
    let (a, b, c) = numbers_of(place.slot);
    let mut out = [kind_of(place.slot); 25];
    put_numbers(
        out.as_mut_slice(),
        &[a, b, c, place.bit, place.side, place.point],
    );
    out
}
