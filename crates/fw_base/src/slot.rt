//! Slots, which are signed at most once, and the places of the secrets that sign them.

ghost use Rattle.std.specs.Prelude.{◌≡◌, ◌<◌, ◌≤◌, ◌^◌, IsTrue};
ghost use Rattle.fw_base.specs.Places.{slot_fits, place_fits, row_index, place_index};
ghost use Rattle.fw_base.specs.Sizes.{accepted};
ghost use Rattle.fw_base.specs.declared.slot.Place.{Place};

use crate::Params;

/// What is signed at most once: each slot has 512 secrets of its own.
#[derive(Clone, Copy, Debug, PartialEq, Eq)]
pub enum Slot {
    /// An agreement node's prepare vote for a number, in a view.
    Prepare { view: u32, number: u32, agree: u32 },
    /// Its commit vote.
    Commit { view: u32, number: u32, agree: u32 },
    /// Its change to a view.
    Change { view: u32, agree: u32 },
    /// Its start of a new view.
    NewView { view: u32, agree: u32 },
    /// A client's request under a stamp.
    Request { client: u32, stamp: u32 },
    /// The reply to a number, whose secrets are shared among the executors.
    Reply { number: u32 },
}

/// Where a secret or a share stands: its slot, the bit of a digest that it signs, and on which side (0 or 1). Point 0 is the
/// secret itself; the others are the shares of a reply.
#[derive(Clone, Copy, Debug, PartialEq, Eq)]
pub struct Place {
    pub slot: Slot,
    pub bit: u32,
    pub side: u32,
    pub point: u32,
}

impl Slot {
    /// Whether the deployment has this slot.
    pub fn fits(self, params: &Params) -> bool
        requires { IsTrue (accepted params.now) }
        ensures { result ≡ slot_fits params.now self }
    {
        match self {
            Slot::Prepare {
                view,
                number,
                agree,
            }
            | Slot::Commit {
                view,
                number,
                agree,
            } => {
                view < params.views
                    && 1 <= number
                    && number <= params.numbers
                    && agree < params.agreements()
            }
            Slot::Change { view, agree } | Slot::NewView { view, agree } => {
                view < params.views && agree < params.agreements()
            }
            Slot::Request { client, stamp } => {
                client < params.clients && 1 <= stamp && stamp <= params.stamps
            }
            Slot::Reply { number } => 1 <= number && number <= params.numbers,
        }
    }
}

impl Place {
    /// Whether the deployment has this place.
    pub fn fits(&self, params: &Params) -> bool
        requires { IsTrue (accepted params.now) }
        ensures { result ≡ place_fits params.now self.now }
    {
        let last = match self.slot {
            Slot::Reply { .. } => params.executors(),
            _ => 0,
        };
        self.slot.fits(params) && self.bit < 256 && self.side < 2 && self.point <= last
    }
}

/// The row of a slot at a point: the slots in order, and behind them those of replies.
fn row_of(params: &Params, slot: Slot, point: u32) -> u32
    requires sizes { IsTrue (accepted params.now) }
    requires fits { IsTrue (slot_fits params.now slot) }
    requires few { point ≤ 7 }
    ensures value { result ≡ row_index params.now slot point }
    ensures few { result < 2 ^ 22 }
{
    let agreements = params.agreements();
    let votes = params.views * params.numbers * agreements;
    let changes = params.views * agreements;
    match slot {
        Slot::Prepare {
            view,
            number,
            agree,
        } => (view * params.numbers + (number - 1)) * agreements + agree,
        Slot::Commit {
            view,
            number,
            agree,
        } => votes + (view * params.numbers + (number - 1)) * agreements + agree,
        Slot::Change { view, agree } => 2 * votes + view * agreements + agree,
        Slot::NewView { view, agree } => 2 * votes + changes + view * agreements + agree,
        Slot::Request { client, stamp } => {
            2 * votes + 2 * changes + client * params.stamps + (stamp - 1)
        }
        Slot::Reply { number } => {
            params.keys() + (number - 1) * (params.executors() + 1) + point
        }
    }
}

/// The place's index among all places of the deployment. No other place has it.
pub fn place_index(params: &Params, place: &Place) -> u32
    requires sizes { IsTrue (accepted params.now) }
    requires fits { IsTrue (place_fits params.now place.now) }
    ensures value { result ≡ place_index params.now place.now }
    ensures one { (other : Place) → IsTrue (place_fits params.now other) → place_index params.now other ≡ result → other ≡ place.now }
{
    row_of(params, place.slot, place.point) * 512 + 2 * place.bit + place.side
}
