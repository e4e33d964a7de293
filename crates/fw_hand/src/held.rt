//! The values of slots, read and compared with their digests.

ghost use Rattle.std.specs.Prelude.{◌≡◌, ◌≤◌, ◌<◌, ◌+◌, ◌*◌, ◌↔◌, ℕ, length, flat_map, IfOk, IsTrue};
ghost use Rattle.fw_list.specs.declared.limits.TheConstants.{ROW_LEN};
ghost use Rattle.fw_base.specs.Places.{slot_fits, last_point};
ghost use Rattle.fw_base.specs.Seats.{fits};
ghost use Rattle.fw_base.specs.Sizes.{accepted};
ghost use Rattle.fw_text.specs.Bits.{value_at};
ghost use Rattle.fw_text.specs.Texts.{hash, Value};
ghost use Rattle.fw_lamport.specs.Signature.{place_at};
ghost use Rattle.fw_directory.specs.Directories.{digest_at};
ghost use Rattle.fw_hand.specs.Hands.{point_of, AreListed};
ghost use Rattle.fw_wire.specs.Reading.{Finds};
ghost use Rattle.fw_hand.specs.Reading.{IsHeldAt, AreHeldBy};

use crate::Held;
use crate::sizes::are_same;
use crate::slots::slots_of;
use fw_base::{Params, Place, Seat, Slot};
use fw_directory::Directory;
use fw_lamport::value_digest;
use fw_list::{Bytes, Items, Memory, ROW_LEN};
use fw_wire::Reader;
use std::alloc::Global;

/// Whether value k of a slot has its digest in the directory.
fn is_listed(directory: &Directory, slot: Slot, point: u32, values: &[u8], k: u32) -> bool
    requires fits { IsTrue (slot_fits directory.now.params slot) }
    requires point { point ≤ last_point directory.now.params slot }
    requires whole { length values.now ≡ ROW_LEN }
    requires inside { k < 512 }
    ensures { IsTrue result ↔ (hash (Value (place_at slot point k) (value_at values.now k)) ≡ digest_at directory.now (place_at slot point k)) }
{
    let place = Place {
        slot,
        bit: k / 2,
        side: k % 2,
        point,
    };
    let from = 32 * k as usize;
    are_same(
        &value_digest(&place, &values[from..from + 32]),
        &directory.row(&place),
    )
}

/// Whether each of a slot's values has its digest.
fn are_listed(directory: &Directory, slot: Slot, point: u32, values: &[u8]) -> bool
    requires fits { IsTrue (slot_fits directory.now.params slot) }
    requires point { point ≤ last_point directory.now.params slot }
    requires whole { length values.now ≡ ROW_LEN }
    ensures { IsTrue result ↔ AreListed directory.now slot point values.now }
{
    for k in 0..512 {
        if !is_listed(directory, slot, point, values, k) {
            return false;
        }
    }
    true
}

/// The values of a slot, each with its digest.
fn one_in(
    alloc: Global,
    directory: &Directory,
    slot: Slot,
    point: u32,
    reader: &mut Reader<'_>,
) -> Result<Option<Held>, Memory>
    requires fits { IsTrue (slot_fits directory.now.params slot) }
    requires point { point ≤ last_point directory.now.params slot }
    ensures { IfOk result (λ found. Finds (λ h. h.values) (IsHeldAt directory.now point slot) reader.old found reader.new) }
{
    let Some(values) = reader.fixed(ROW_LEN) else {
        return Ok(None);
    };
    if !are_listed(directory, slot, point, values) {
        return Ok(None);
    }
    let values = Bytes::copy_of(alloc, values)?;
    Ok(Some(Held { slot, values }))
}

/// The point at which a seat has the values of its slots.
pub fn point_of(params: &Params, seat: Seat) -> u32
    requires sizes { IsTrue (accepted params.now) }
    requires fits { IsTrue (fits params.now seat) }
    ensures { result ≡ point_of seat }
{
    match seat {
        Seat::Exec(j) => j + 1,
        _ => 0,
    }
}

/// The values of a seat's slots.
pub(crate) fn held_in(
    alloc: Global,
    directory: &Directory,
    seat: Seat,
    reader: &mut Reader<'_>,
) -> Result<Option<Items<Held>>, Memory>
    requires { IsTrue (fits directory.now.params seat) }
    ensures { IfOk result (λ found. Finds (flat_map (λ h. h.values)) (AreHeldBy directory.now seat) reader.old found reader.new) }
{
    let slots = slots_of(alloc, directory.params(), seat)?;
    let point = point_of(directory.params(), seat);
    let mut held = Items::new(alloc);
    for slot in slots.items() {
        let Some(one) = one_in(alloc, directory, *slot, point, reader)? else {
            return Ok(None);
        };
        held.push(one)?;
    }
    Ok(Some(held))
}
