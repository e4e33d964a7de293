//! Verifies signatures, value by value, each by one digest that is counted.

ghost use Rattle.std.specs.Prelude.{◌≡◌, ◌↔◌, ◌<◌, ◌≤◌, ◌+◌, ◌*◌, ℕ, length, true, IsTrue};
ghost use Rattle.fw_text.specs.Bits.{place_on, value_at};
ghost use Rattle.fw_text.specs.Texts.{hash, Value};
ghost use Rattle.fw_lamport.specs.Signature.{side_of, IsShown, IsValid, IsFirstWrong};
ghost use Rattle.fw_list.specs.declared.limits.TheConstants.{ROW_LEN, SIGNATURE_LEN};

use crate::place::place_bytes;
use fw_base::{Place, Slot};
use fw_digest::{Steps, counted_digest, digest};
use fw_text::bit_of;
use std::sync::ledger::Ledger;

/// Whether the signature's values at a slot's point have, with their places, the digests that the directory's rows have on
/// the sides of the digest's bits. It takes a step for each value that it compares, in order of the bits, and stops at the
/// first that hasn't.
pub fn verify<L: Ledger>(
    rows: &[u8],
    slot: Slot,
    point: u32,
    digest: &[u8; 32],
    sig: &[u8],
    steps: &mut Steps<L>,
) -> bool
    requires rows { length rows.now ≡ ROW_LEN }
    requires sig { length sig.now ≡ SIGNATURE_LEN }
    ensures valid { IsTrue result ↔ IsValid rows.now slot point digest.now sig.now }
    ensures all { result ≡ true → steps.new ≡ steps.old + 256 }
    ensures most { steps.new ≤ steps.old + 256 }
    ensures first { (b : ℕ) → IsFirstWrong rows.now slot point digest.now sig.now b → steps.new ≡ steps.old + b + 1 }
{
    for b in 0..256 {
        if !is_shown(rows, slot, point, digest, sig, b, steps) {
            return false;
        }
    }
    true
}

/// Whether value b of the signature has its row's digest. It is one step.
fn is_shown<L: Ledger>(
    rows: &[u8],
    slot: Slot,
    point: u32,
    digest: &[u8; 32],
    sig: &[u8],
    b: usize,
    steps: &mut Steps<L>,
) -> bool
    requires rows { length rows.now ≡ ROW_LEN }
    requires sig { length sig.now ≡ SIGNATURE_LEN }
    requires bit { b < 256 }
    ensures shown { IsTrue result ↔ IsShown rows.now slot point digest.now sig.now b }
    ensures step { steps.new ≡ steps.old + 1 }
{
    let side = bit_of(digest, b);
    let place = Place {
        slot,
        bit: b as u32,
        side: u32::from(side),
        point,
    };
    let row = 2 * b + usize::from(side);
    let found = counted_value_digest(&place, value_at(sig, b), steps);
    are_same(&found, value_at(rows, row))
}

/// The value at a place of a list of values of 32 bytes.
pub(crate) fn value_at(values: &[u8], k: usize) -> &[u8]
    requires { 32 * k + 32 ≤ length values.now }
    ensures value { result.now ≡ value_at values.now k }
    ensures len { length result.now ≡ 32 }
{
    &values[32 * k..32 * k + 32]
}

/// Whether both have the same bytes.
fn are_same(one: &[u8], other: &[u8]) -> bool
    ensures { IsTrue result ↔ (one.now ≡ other.now) }
{
    one == other
}

/// The digest of a value with its place. It is one step.
#[tactic(auto, unfolding(fw_text::specs::Texts::hash, fw_text::specs::Texts::text_bytes))]
fn counted_value_digest<L: Ledger>(place: &Place, value: &[u8], steps: &mut Steps<L>) -> [u8; 32]
    ensures digest { result ≡ hash (Value place.now value.now) }
    ensures step { steps.new ≡ steps.old + 1 }
{
    counted_digest(1, &place_bytes(place), value, steps)
}

/// The digest of a value with its place, as a directory lists it. It is no step of a caller's.
#[tactic(auto, unfolding(fw_text::specs::Texts::hash, fw_text::specs::Texts::text_bytes))]
pub fn value_digest(place: &Place, value: &[u8]) -> [u8; 32]
    ensures { result ≡ hash (Value place.now value.now) }
{
    digest(1, &place_bytes(place), value)
}
