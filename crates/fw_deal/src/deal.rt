//! A deal, and its hands.

ghost use Rattle.std.specs.Prelude.{◌≡◌, ◌<◌, ℕ, List, None, Some, false, true, ◌&&◌, IfOk, IsTrue, IfSome};
ghost use Rattle.fw_base.specs.Sizes.{accepted};
ghost use Rattle.fw_base.specs.Seats.{fits};
ghost use Rattle.fw_base.specs.Places.{place_fits, slot_fits};
ghost use Rattle.fw_base.specs.declared.slot.Slot.{Slot};
ghost use Rattle.fw_record.specs.Records.{starts_fit};
ghost use Rattle.fw_secret.specs.Dealt.{dealt, slot_values, body_key};
ghost use Rattle.fw_hand.specs.Hands.{IsHandIn, is_own, point_of, values_in};
ghost use Rattle.fw_deal.specs.Deals.{IsDirectoryOf, IsDealtFile, hand_of};

use crate::digests::digests_of;
use crate::hands::{all_keys, copy_starts, held_of, keys_of, starts_of};
use fw_base::{Params, Place, Seat};
use fw_directory::Directory;
use fw_hand::{Hand, HeldKey, clients_of, point_of, slots_of, write_hand};
use fw_list::{Bytes, Items, Memory};
use fw_op::{Start, Starts};
use fw_seal::BodyKey;
use std::alloc::Global;
use std::marker::Model;

/// A deal. The values are made anew from the seed where they are asked for; the digests and the keys are kept.
#[derive(Drop)]
pub struct Deal {
    seed: [u8; 32],
    starts: Starts,
    directory: Directory,
    keys: Items<HeldKey>,
}

impl Model for Deal {
    ghost use Rattle.fw_deal.specs.Deals.{PlainDeal, IsDealt};

    ghost Value = { PlainDeal };

    ghost view = { λ d. record { origin = record { params = d.directory.params; seed = d.seed }; starts = d.starts } };

    ghost invariant = { λ d. IsDealt (record { origin = record { params = d.directory.params; seed = d.seed }; starts = d.starts }) d.directory d.keys };
}

impl Deal {
    /// The deal of sizes, a seed, and the records that executors start with.
    pub fn new(
        alloc: Global,
        params: &Params,
        seed: &[u8; 32],
        starts: &[Start],
    ) -> Result<Deal, Memory>
        requires sizes { IsTrue (accepted params.now) }
        requires starts { IsTrue (starts_fit params.now.clients starts.now) }
        ensures { IfOk result (λ deal. deal ≡ record { origin = record { params = params.now; seed = seed.now }; starts = starts.now }) }
    {
        let digests = digests_of(alloc, params, seed)?;
        let keys = all_keys(alloc, params, seed)?;
        let starts = copy_starts(alloc, starts)?;
        Ok(Deal {
            seed: *seed,
            starts,
            directory: Directory::new(*params, digests),
            keys,
        })
    }

    /// The digests of all that is dealt.
    pub fn directory(&self) -> &Directory
        ensures { IsDirectoryOf self.now.origin result.now }
    {
        &self.directory
    }

    /// The same, where nothing else of the deal is needed any more.
    pub fn into_directory(self) -> Directory
        ensures { IsDirectoryOf self.origin result }
    {
        self.directory
    }

    /// The value that is dealt for a place.
    pub fn dealt(&self, place: &Place) -> [u8; 32]
        requires { IsTrue (place_fits self.now.origin.params place.now) }
        ensures { result ≡ dealt self.now.origin place.now }
    {
        fw_secret::dealt(self.directory.params(), &self.seed, place)
    }

    /// The keys of a client's bodies.
    pub fn key(&self, client: u32) -> &BodyKey
        requires { client < self.now.origin.params.clients }
        ensures { result.now ≡ body_key self.now.origin client }
    {
        &self.keys.items()[client as usize].key
    }

    /// The hand of a seat: its slots' values and its keys, and no others.
    pub fn hand(&self, alloc: Global, seat: Seat) -> Result<Hand, Memory>
        requires { IsTrue (fits self.now.origin.params seat) }
        ensures hand { IfOk result (λ hand. hand ≡ hand_of self.now seat) }
        ensures own { IfOk result (λ hand. (slot : Slot) → IsTrue (slot_fits self.now.origin.params slot) → IsTrue (is_own seat slot)
            → values_in hand.held slot ≡ Some (slot_values self.now.origin slot (point_of seat))) }
        ensures others { IfOk result (λ hand. (slot : Slot) → (slot_fits self.now.origin.params slot && is_own seat slot) ≡ false → values_in hand.held slot ≡ None) }
    {
        let params = self.directory.params();
        let slots = slots_of(alloc, params, seat)?;
        let held = held_of(
            alloc,
            params,
            &self.seed,
            slots.items(),
            point_of(params, seat),
        )?;
        let clients = clients_of(alloc, params, seat)?;
        let keys = keys_of(alloc, params, &self.seed, clients.items())?;
        let starts = starts_of(alloc, seat, self.starts.items())?;
        Ok(Hand::new(seat, held, keys, starts))
    }
}

/// The hand file of a seat, or the public file.
pub fn deal_file(
    alloc: Global,
    params: &Params,
    seed: &[u8; 32],
    starts: &[Start],
    seat: Option<Seat>,
) -> Result<Bytes, Memory>
    requires sizes { IsTrue (accepted params.now) }
    requires starts { IsTrue (starts_fit params.now.clients starts.now) }
    requires fits { IfSome seat (λ s. IsTrue (fits params.now s)) }
    ensures { IfOk result (λ text. IsDealtFile (record { origin = record { params = params.now; seed = seed.now }; starts = starts.now }) seat text) }
{
    let deal = Deal::new(alloc, params, seed, starts)?;
    match seat {
        None => write_hand(alloc, deal.directory(), None),
        Some(seat) => {
            let hand = deal.hand(alloc, seat)?;
            write_hand(alloc, deal.directory(), Some(&hand))
        }
    }
}
