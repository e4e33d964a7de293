//! The place of a correct seat among those of its kind.

ghost use Rattle.std.specs.Prelude.{◌≡◌, ◌≤◌, ◌+◌, IsTrue};
ghost use Rattle.fw_base.specs.Sizes.{accepted};
ghost use Rattle.fw_base.specs.Seats.{fits};
ghost use Rattle.fw_fair.specs.Correct.{kind_of, number_of, count_below, place_of};

use fw_base::{Params, Seat};
use fw_step::is_faulty;

/// The number of a seat of the deployment among all of its kind: filters row by row.
fn number_of(params: &Params, seat: Seat) -> u32
    requires sizes { IsTrue (accepted params.now) }
    requires seat { IsTrue (fits params.now seat) }
    ensures { result ≡ number_of params.now seat }
{
    match seat {
        Seat::Agree(i) => i,
        Seat::Exec(j) => j,
        Seat::Filter(row, column) => row * params.width() + column,
        Seat::Client(c) => c,
    }
}

/// The seat of a number that is of the kind of a seat.
fn at_number(params: &Params, seat: Seat, k: u32) -> Seat
    requires { IsTrue (accepted params.now) }
    ensures { result ≡ kind_of params.now seat k }
{
    match seat {
        Seat::Agree(_) => Seat::Agree(k),
        Seat::Exec(_) => Seat::Exec(k),
        Seat::Filter(_, _) => Seat::Filter(k / params.width(), k % params.width()),
        Seat::Client(_) => Seat::Client(k),
    }
}

/// One where the seat of a number that is of the kind of a seat is correct, else none.
fn one_if_correct(params: &Params, faulty: &[Seat], seat: Seat, k: u32) -> usize
    requires { IsTrue (accepted params.now) }
    ensures one { result ≤ 1 }
    ensures more { count_below faulty.now (kind_of params.now seat) (k + 1) ≡ count_below faulty.now (kind_of params.now seat) k + result }
{
    if is_faulty(faulty, at_number(params, seat, k)) {
        return 0;
    }
    1
}

/// How many correct seats of the kind of a seat stand below a number.
fn correct_below(params: &Params, faulty: &[Seat], seat: Seat, count: u32) -> usize
    requires { IsTrue (accepted params.now) }
    ensures count { result ≡ count_below faulty.now (kind_of params.now seat) count }
    ensures few { result ≤ count }
{
    let mut below = 0;
    for k in 0..count {
        below += one_if_correct(params, faulty, seat, k);
    }
    below
}

/// The place of a correct seat among those of its kind: behind as many as there are below it.
pub(crate) fn place_of(params: &Params, faulty: &[Seat], seat: Seat) -> usize
    requires sizes { IsTrue (accepted params.now) }
    requires seat { IsTrue (fits params.now seat) }
    ensures { result ≡ place_of params.now faulty.now seat }
{
    correct_below(params, faulty, seat, number_of(params, seat))
}
