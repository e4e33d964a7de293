//! The hand of a seat.

ghost use Rattle.std.specs.Prelude.{◌≡◌, option_map};
ghost use Rattle.fw_hand.specs.Hands.{slot_eq, values_in, key_in};

use fw_base::{Seat, Slot};
use fw_list::{Bytes, Items};
use fw_op::{Start, Starts};
use fw_seal::BodyKey;
use std::marker::Model;

/// The 512 values of a slot, 32 bytes each.
#[derive(Debug, Drop)]
pub struct Held {
    pub slot: Slot,
    pub values: Bytes,
}

/// The keys of a client's bodies.
#[derive(Drop)]
pub struct HeldKey {
    pub client: u32,
    pub key: BodyKey,
}

/// What one seat is dealt: the values of its slots, the keys that it has, and of an executor the records to start with.
#[derive(Drop)]
pub struct Hand {
    seat: Seat,
    held: Items<Held>,
    keys: Items<HeldKey>,
    starts: Starts,
}

impl Model for Hand {
    ghost use Rattle.fw_hand.specs.Hands.{PlainHand};

    ghost Value = { PlainHand };

    ghost view = { λ h. record { seat = h.seat; held = h.held; keys = h.keys; starts = h.starts } };
}

impl Hand {
    /// The hand of these parts.
    pub fn new(seat: Seat, held: Items<Held>, keys: Items<HeldKey>, starts: Starts) -> Hand
        ensures { result ≡ record { seat = seat; held = held; keys = keys; starts = starts } }
    {
        Hand {
            seat,
            held,
            keys,
            starts,
        }
    }

    /// Whose it is.
    pub fn seat(&self) -> Seat
        ensures { result ≡ self.now.seat }
    {
        self.seat
    }

    /// The values of all its slots, in their order.
    pub(crate) fn held(&self) -> &[Held]
        ensures { result.now ≡ self.now.held }
    {
        self.held.items()
    }

    /// All keys that it has.
    pub(crate) fn keys(&self) -> &[HeldKey]
        ensures { result.now ≡ self.now.keys }
    {
        self.keys.items()
    }

    /// The 512 values of a slot, or none exactly where the hand doesn't have them.
    pub fn secrets(&self, slot: Slot) -> Option<&[u8]>
        ensures { option_map (λ values. values.now) result ≡ values_in self.now.held slot }
    {
        values_of(self.held.items(), slot)
    }

    /// The keys of a client's bodies, or none exactly where the hand doesn't have them.
    pub fn key(&self, client: u32) -> Option<&BodyKey>
        ensures { option_map (λ key. key.now) result ≡ key_in self.now.keys client }
    {
        key_of(self.keys.items(), client)
    }

    /// The records to start with.
    pub fn starts(&self) -> &[Start]
        ensures { result.now ≡ self.now.starts }
    {
        self.starts.items()
    }
}

/// Whether two slots are one.
fn is_slot(one: Slot, other: Slot) -> bool
    ensures { result ≡ slot_eq one other }
{
    match (one, other) {
        (
            Slot::Prepare {
                view: v,
                number: n,
                agree: i,
            },
            Slot::Prepare {
                view: w,
                number: m,
                agree: j,
            },
        ) => v == w && n == m && i == j,
        (
            Slot::Commit {
                view: v,
                number: n,
                agree: i,
            },
            Slot::Commit {
                view: w,
                number: m,
                agree: j,
            },
        ) => v == w && n == m && i == j,
        (Slot::Change { view: v, agree: i }, Slot::Change { view: w, agree: j }) => v == w
            && i == j,
        (Slot::NewView { view: v, agree: i }, Slot::NewView { view: w, agree: j }) => v == w
            && i == j,
        (
            Slot::Request {
                client: c,
                stamp: s,
            },
            Slot::Request {
                client: d,
                stamp: t,
            },
        ) => c == d && s == t,
        (Slot::Reply { number: n }, Slot::Reply { number: m }) => n == m,
        _ => false,
    }
}

/// The values of a slot.
fn values_of(held: &[Held], slot: Slot) -> Option<&[u8]>
    ensures { option_map (λ values. values.now) result ≡ values_in held.now slot }
{
    for one in held {
        if is_slot(one.slot, slot) {
            return Some(one.values.items());
        }
    }
    None
}

/// The keys of a client.
fn key_of(keys: &[HeldKey], client: u32) -> Option<&BodyKey>
    ensures { option_map (λ key. key.now) result ≡ key_in keys.now client }
{
    for one in keys {
        if one.client == client {
            return Some(&one.key);
        }
    }
    None
}
