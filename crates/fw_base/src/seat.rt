//! Seats: which a deployment has, their order, and which of them are linked.

ghost use Rattle.std.specs.Prelude.{◌≡◌, ◌≤◌, ◌<◌, ◌+◌, ◌*◌, IsTrue, IfSome, IfNone};
ghost use Rattle.fw_base.specs.Sizes.{accepted};
ghost use Rattle.fw_base.specs.Seats.{fits, seat_eq, below, seat_index, seats, linked};

use crate::Params;
use fw_list::Items;

/// A node of a deployment, or a client.
#[derive(Clone, Copy, Debug, PartialEq, Eq)]
pub enum Seat {
    Agree(u32),
    Exec(u32),
    Filter(u32, u32),
    Client(u32),
}

/// Seats, ascending by index.
pub type Seats = Items<Seat>;

impl Seat {
    /// Whether the deployment has this seat.
    pub fn fits(self, params: &Params) -> bool
        requires { IsTrue (accepted params.now) }
        ensures { result ≡ fits params.now self }
    {
        match self {
            Seat::Agree(i) => i < params.agreements(),
            Seat::Exec(j) => j < params.executors(),
            Seat::Filter(r, c) => r < params.width() && c < params.width(),
            Seat::Client(c) => c < params.clients,
        }
    }

    /// Whether two seats are one.
    pub fn is(self, other: Seat) -> bool
        ensures { result ≡ seat_eq self other }
    {
        match (self, other) {
            (Seat::Agree(i), Seat::Agree(j)) => i == j,
            (Seat::Exec(i), Seat::Exec(j)) => i == j,
            (Seat::Filter(r, c), Seat::Filter(s, d)) => r == s && c == d,
            (Seat::Client(i), Seat::Client(j)) => i == j,
            _ => false,
        }
    }

    /// Whether the other seat is below this one, which is a filter.
    pub fn is_above(self, other: Seat) -> bool
        ensures { result ≡ below self other }
    {
        match (self, other) {
            (Seat::Filter(r, _), Seat::Agree(_)) => r == 0,
            (Seat::Filter(r, _), Seat::Filter(s, _)) => u64::from(r) == u64::from(s) + 1,
            _ => false,
        }
    }

    /// The seat's place in the order of all seats, from 0: agreement nodes, executors, filters row by row, clients.
    pub fn index(self, params: &Params) -> u32
        requires sizes { IsTrue (accepted params.now) }
        requires fits { IsTrue (fits params.now self) }
        ensures { result ≡ seat_index params.now self }
    {
        let filters = params.agreements() + params.executors();
        let width = params.width();
        match self {
            Seat::Agree(i) => i,
            Seat::Exec(j) => params.agreements() + j,
            Seat::Filter(r, c) => filters + r * width + c,
            Seat::Client(c) => filters + width * width + c,
        }
    }

    /// The seat at a place of that order, or none where there are no more seats than that.
    pub fn from_index(params: &Params, index: u32) -> Option<Seat>
        requires { IsTrue (accepted params.now) }
        ensures found { IfSome result (λ seat. IsTrue (fits params.now seat) × (seat_index params.now seat ≡ index)) }
        ensures none { IfNone result (seats params.now ≤ index) }
    {
        let width = params.width();
        if index < params.agreements() {
            return Some(Seat::Agree(index));
        }
        let index = index - params.agreements();
        if index < params.executors() {
            return Some(Seat::Exec(index));
        }
        let index = index - params.executors();
        if index < width * width {
            let (row, column) = in_rows(index, width);
            return Some(Seat::Filter(row, column));
        }
        let index = index - width * width;
        if index < params.clients {
            return Some(Seat::Client(index));
        }
        None
    }
}

/// The row and the column of a place in rows of a width.
fn in_rows(place: u32, width: u32) -> (u32, u32)
    requires { place < width * width }
    ensures row { result.0 < width }
    ensures column { result.1 < width }
    ensures place { result.0 * width + result.1 ≡ place }
{
    (place / width, place % width)
}

/// Whether frames may pass between two seats: a client and an agreement node, two agreement nodes, an agreement node and a
/// filter of row 0, filters of rows side by side, a filter of the last row and an executor, two executors. Row 0 is the
/// filters' row next to the agreement nodes, the last row the one next to the executors.
pub fn linked(params: &Params, one: Seat, other: Seat) -> bool
    requires { IsTrue (accepted params.now) }
    ensures value { result ≡ linked params.now one other }
    ensures symmetric { linked params.now other one ≡ result }
{
    match (one, other) {
        (Seat::Agree(i), Seat::Agree(j)) => i != j,
        (Seat::Exec(i), Seat::Exec(j)) => i != j,
        (Seat::Client(_), Seat::Agree(_)) => true,
        (Seat::Agree(_), Seat::Client(_)) => true,
        (Seat::Agree(_), Seat::Filter(r, _)) => r == 0,
        (Seat::Filter(r, _), Seat::Agree(_)) => r == 0,
        (Seat::Filter(r, _), Seat::Filter(s, _)) => {
            u64::from(r) + 1 == u64::from(s) || u64::from(s) + 1 == u64::from(r)
        }
        (Seat::Filter(r, _), Seat::Exec(_)) => r == params.h,
        (Seat::Exec(_), Seat::Filter(r, _)) => r == params.h,
        _ => false,
    }
}
