//! Faulty seats, read in order.

ghost use Rattle.std.specs.Prelude.{◌≡◌, ◌≤◌, ◌^◌, ◌<◌, length, nat_lt, IfSome, IfNone, IsTrue};
ghost use Rattle.std.specs.List.{list_all};
ghost use Rattle.fw_base.specs.declared.seat.Seat.{Seat};
ghost use Rattle.fw_base.specs.Seats.{fits, seat_index};
ghost use Rattle.fw_base.specs.Sizes.{accepted};
ghost use Rattle.fw_sched.specs.Document.{same_kind, count_of, may_fail, IsFaultySeat};

use fw_base::{Params, Seat};

/// Whether the seat is behind all of these in the order of all seats.
fn is_above(params: &Params, before: &[Seat], seat: Seat) -> bool
    requires sizes { IsTrue (accepted params.now) }
    requires fit { IsTrue (list_all (fits params.now) before.now) }
    requires fits { IsTrue (fits params.now seat) }
    ensures { result ≡ list_all (λ s. nat_lt (seat_index params.now s) (seat_index params.now seat)) before.now }
{
    let index = seat.index(params);
    for other in before {
        if other.index(params) >= index {
            return false;
        }
    }
    true
}

fn same_kind(one: Seat, other: Seat) -> bool
    ensures { result ≡ same_kind one other }
{
    match (one, other) {
        (Seat::Agree(_), Seat::Agree(_)) => true,
        (Seat::Exec(_), Seat::Exec(_)) => true,
        (Seat::Filter(_, _), Seat::Filter(_, _)) => true,
        _ => false,
    }
}

/// How many of the seats are of the kind of this one.
fn count_of(seats: &[Seat], seat: Seat) -> usize
    ensures { result ≡ count_of seat seats.now }
{
    let mut count = 0;
    for other in seats {
        if same_kind(seat, *other) {
            count += 1;
        }
    }
    count
}

/// Whether one more of the seat's kind may be faulty.
fn may_fail(params: &Params, before: &[Seat], seat: Seat) -> bool
    ensures { result ≡ may_fail params.now before.now seat }
{
    match seat {
        Seat::Agree(_) => count_of(before, seat) < params.f as usize,
        Seat::Exec(_) => count_of(before, seat) < params.g as usize,
        Seat::Filter(_, _) => count_of(before, seat) < params.h as usize,
        Seat::Client(_) => true,
    }
}

/// The faulty seat that the text names, behind those before it.
pub(crate) fn seat_after(params: &Params, before: &[Seat], text: &str) -> Option<Seat>
    requires sizes { IsTrue (accepted params.now) }
    requires fit { IsTrue (list_all (fits params.now) before.now) }
    ensures found { IfSome result (λ s. IsFaultySeat params.now before.now text.now s) }
    ensures none { IfNone result ((s : Seat) → ¬ IsFaultySeat params.now before.now text.now s) }
{
    let seat = Seat::read(params, text)?;
    if !is_above(params, before, seat) {
        return None;
    }
    if !may_fail(params, before, seat) {
        return None;
    }
    Some(seat)
}
