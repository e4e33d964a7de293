//! Marks for the places of a deployment, one for each by its index.

ghost use Rattle.std.specs.Prelude.{◌≡◌, ◌≤◌, ◌<◌, ◌*◌, ◌||◌, ℕ, false, nat_eq, length, get_or, All, IsTrue, IfOk, OnOk};
ghost use Rattle.std.specs.List.{list_any};
ghost use Rattle.fw_base.specs.Sizes.{accepted};
ghost use Rattle.fw_base.specs.Seats.{fits};
ghost use Rattle.fw_base.specs.Places.{slot_fits, place_fits, last_point};
ghost use Rattle.fw_deal.specs.Deals.{HasValues};
ghost use Rattle.fw_know.specs.Known.{marked, place_eq, dealt_to, is_shown_in};
ghost use Rattle.fw_know.specs.Marks.{AreMarks, Marks, is_of, is_at, is_of_any};

use fw_base::{Params, Place, Seat, Slot, place_index};
use fw_directory::row_count;
use fw_frame::Shown;
use fw_hand::{point_of, slots_of};
use fw_list::Memory;
use std::alloc::Global;

/// A mark for each place, none of which is set.
pub(crate) fn no_marks(alloc: Global, params: &Params) -> Result<Vec<bool>, Memory>
    requires { IsTrue (accepted params.now) }
    ensures whole { IfOk result (λ marks. AreMarks params.now marks.items) }
    ensures none { IfOk result (λ marks. (k : ℕ) → get_or marks.items k false ≡ false) }
{
    let mut marks = Vec::new(alloc);
    for _ in 0..512 * row_count(params) {
        marks.push(false)?;
    }
    Ok(marks)
}

/// Sets the mark at an index.
fn set_mark(marks: &mut Vec<bool>, index: usize)
    requires { index < length marks.old.items }
    ensures count { length marks.new.items ≡ length marks.old.items }
    ensures marked { (k : ℕ) → get_or marks.new.items k false ≡ (nat_eq k index || get_or marks.old.items k false) }
{
    marks[index] = true;
}

/// Whether the mark at an index is set.
fn mark_at(marks: &Vec<bool>, index: usize) -> bool
    requires { index < length marks.now.items }
    ensures { result ≡ get_or marks.now.items index false }
{
    marks[index]
}

/// Whether a place is marked.
pub(crate) fn is_set(params: &Params, marks: &Vec<bool>, place: &Place) -> bool
    requires marks { AreMarks params.now marks.now.items }
    requires fits { IsTrue (place_fits params.now place.now) }
    ensures { result ≡ marked params.now marks.now.items place.now }
{
    mark_at(marks, place_index(params, place) as usize)
}

/// Marks a place.
fn mark(params: &Params, marks: &mut Vec<bool>, place: &Place)
    requires marks { AreMarks params.now marks.old.items }
    requires fits { IsTrue (place_fits params.now place.now) }
    ensures marks { AreMarks params.now marks.new.items }
    ensures marked { Marks params.now (place_eq place.now) marks.old.items marks.new.items }
{
    set_mark(marks, place_index(params, place) as usize);
}

/// Marks both sides of a bit of a slot at a point.
fn mark_bit(params: &Params, marks: &mut Vec<bool>, slot: Slot, point: u32, bit: u32)
    requires marks { AreMarks params.now marks.old.items }
    requires fits { IsTrue (slot_fits params.now slot) }
    requires point { point ≤ last_point params.now slot }
    requires bit { bit < 256 }
    ensures marks { AreMarks params.now marks.new.items }
    ensures marked { Marks params.now (is_at slot point bit) marks.old.items marks.new.items }
{
    let zero = Place {
        slot,
        bit,
        side: 0,
        point,
    };
    let one = Place {
        slot,
        bit,
        side: 1,
        point,
    };
    mark(params, marks, &zero);
    mark(params, marks, &one);
}

/// Marks a slot at a point.
fn mark_slot(params: &Params, marks: &mut Vec<bool>, slot: Slot, point: u32)
    requires marks { AreMarks params.now marks.old.items }
    requires fits { IsTrue (slot_fits params.now slot) }
    requires point { point ≤ last_point params.now slot }
    ensures marks { AreMarks params.now marks.new.items }
    ensures marked { Marks params.now (is_of slot point) marks.old.items marks.new.items }
{
    for bit in 0..256u32 {
        mark_bit(params, marks, slot, point, bit);
    }
}

/// Marks slots at a point.
fn mark_slots(params: &Params, marks: &mut Vec<bool>, slots: &[Slot], point: u32)
    requires marks { AreMarks params.now marks.old.items }
    requires slots { All (HasValues params.now point) slots.now }
    ensures marks { AreMarks params.now marks.new.items }
    ensures marked { Marks params.now (is_of_any slots.now point) marks.old.items marks.new.items }
{
    for slot in slots {
        mark_slot(params, marks, *slot, point);
    }
}

/// Marks what a seat is dealt.
fn mark_seat(
    alloc: Global,
    params: &Params,
    marks: &mut Vec<bool>,
    seat: Seat,
) -> Result<(), Memory>
    requires marks { AreMarks params.now marks.old.items }
    requires fits { IsTrue (fits params.now seat) }
    ensures marks { OnOk result (AreMarks params.now marks.new.items) }
    ensures marked { OnOk result (Marks params.now (λ place. dealt_to place seat) marks.old.items marks.new.items) }
{
    let slots = slots_of(alloc, params, seat)?;
    mark_slots(params, marks, slots.items(), point_of(params, seat));
    Ok(())
}

/// Marks what seats are dealt.
pub(crate) fn mark_seats(
    alloc: Global,
    params: &Params,
    marks: &mut Vec<bool>,
    seats: &[Seat],
) -> Result<(), Memory>
    requires marks { AreMarks params.now marks.old.items }
    requires fits { All (λ seat. IsTrue (fits params.now seat)) seats.now }
    ensures marks { OnOk result (AreMarks params.now marks.new.items) }
    ensures marked { OnOk result (Marks params.now (λ place. list_any (dealt_to place) seats.now) marks.old.items marks.new.items) }
{
    for seat in seats {
        mark_seat(alloc, params, marks, *seat)?;
    }
    Ok(())
}

/// Marks what is shown.
pub(crate) fn mark_shown(params: &Params, marks: &mut Vec<bool>, pairs: &[Shown])
    requires marks { AreMarks params.now marks.old.items }
    requires fits { All (λ pair. IsTrue (place_fits params.now pair.place)) pairs.now }
    ensures marks { AreMarks params.now marks.new.items }
    ensures marked { Marks params.now (is_shown_in pairs.now) marks.old.items marks.new.items }
{
    for pair in pairs {
        mark(params, marks, &pair.place);
    }
}
