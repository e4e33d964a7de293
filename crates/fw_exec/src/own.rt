//! Which executor it is, and what it makes of an entry.

ghost use Rattle.std.specs.Prelude.{◌≡◌, ◌+◌, ◌<◌, ◌≤◌, ◌++◌, ◌∷◌, [], not, Some, nat_eq, length, map, filter, IfOk, OnOk, IsTrue};
ghost use Rattle.fw_list.specs.Lists.{numbers_from};
ghost use Rattle.fw_base.specs.Sizes.{accepted, executors};
ghost use Rattle.fw_base.specs.declared.seat.Seat.TheVariants as seats;
ghost use Rattle.fw_base.specs.declared.slot.Slot.TheVariants as slots;
ghost use Rattle.fw_text.specs.Texts.{hash, Answered};
ghost use Rattle.fw_frame.specs.Frames as frames;
ghost use Rattle.fw_frame.specs.Ranges.{number_fits};
ghost use Rattle.fw_frame.specs.Spelling.{frame_bytes};
ghost use Rattle.fw_directory.specs.Directories.{PlainDirectory};
ghost use Rattle.fw_hand.specs.Hands.{key_in};
ghost use Rattle.fw_means.specs.Means.{signed_by};
ghost use Rattle.fw_rules.specs.Deployed.{bodies_of};
ghost use Rattle.fw_rules.specs.Roles.{step_all};
ghost use Rattle.fw_exec.specs.Kept.{IsEntryAt, IsReached};
ghost use Rattle.fw_exec.specs.Standing.{IsExecutors};
ghost use Rattle.fw_exec.specs.Executors.{AreKeysOf, IsOwn, speech_by};

use crate::entries::OwnEntry;
use fw_base::{Params, Seat, Seats, Slot};
use fw_digest::digest;
use fw_frame::{Frame, three_numbers};
use fw_hand::Hand;
use fw_list::{Bytes, Items, Memory, SIGNATURE_LEN};
use fw_means::signed;
use fw_ref::{Answer, Keys, Replica, Service};
use fw_seal::BodyKey;
use std::alloc::Global;

/// An executor: its deployment's sizes, its number, its hand, and the keys of all clients in order.
#[derive(Drop)]
pub struct Own {
    pub(crate) alloc: Global,
    pub(crate) params: Params,
    pub(crate) exec: u32,
    pub(crate) hand: Hand,
    pub(crate) keys: Keys,
}

/// The keys of a client, of a hand that has those of so many.
fn key_at(hand: &Hand, count: u32, client: u32) -> &BodyKey
    requires hand { map (λ k. k.client) hand.now.keys ≡ numbers_from 0 count }
    requires client { client < count }
    ensures { key_in hand.now.keys client ≡ Some result.now }
{
    // (it says in the contract alone whose keys the hand has)
    let _count = count;
    match hand.key(client) {
        Some(key) => key,
        None => unreachable!(),
    }
}

/// The keys of so many clients, in order.
fn keys_of(alloc: Global, hand: &Hand, count: u32) -> Result<Keys, Memory>
    requires { map (λ k. k.client) hand.now.keys ≡ numbers_from 0 count }
    ensures { IfOk result (λ keys. AreKeysOf hand.now.keys count keys) }
{
    let mut keys = Items::new(alloc);
    for client in 0..count {
        keys.push(*key_at(hand, count, client))?;
    }
    Ok(keys)
}

/// The executor of a hand.
pub(crate) fn own_of(alloc: Global, params: &Params, exec: u32, hand: Hand) -> Result<Own, Memory>
    requires { IsExecutors params.now exec hand }
    ensures own { IfOk result IsOwn }
    ensures same { IfOk result (λ own. (own.params ≡ params.now) × (own.exec ≡ exec) × (own.hand ≡ hand)) }
{
    let keys = keys_of(alloc, &hand, params.clients)?;
    Ok(Own {
        alloc,
        params: *params,
        exec,
        hand,
        keys,
    })
}

/// Adds an executor, unless it is this one.
fn add_other(others: &mut Seats, k: u32, exec: u32) -> Result<(), Memory>
    ensures { OnOk result (others.new ≡ others.old ++ map seats.Exec (filter (λ i. not (nat_eq i exec)) (k ∷ []))) }
{
    if k == exec {
        return Ok(());
    }
    others.push(Seat::Exec(k))
}

/// The executors but one.
pub(crate) fn other_executors(alloc: Global, params: &Params, exec: u32) -> Result<Seats, Memory>
    requires { IsTrue (accepted params.now) }
    ensures { IfOk result (λ others. others ≡ map seats.Exec (filter (λ i. not (nat_eq i exec)) (numbers_from 0 (executors params.now)))) }
{
    let mut others = Items::new(alloc);
    for k in 0..params.executors() {
        add_other(&mut others, k, exec)?;
    }
    Ok(others)
}

/// The digest of a reply's text.
#[tactic(auto, unfolding(fw_text::specs::Texts::hash, fw_text::specs::Texts::text_bytes))]
fn digest_of(number: u32, answer: &Answer) -> [u8; 32]
    ensures { result ≡ hash (Answered number answer.now.client answer.now.stamp answer.now.body.bytes) }
{
    let head = three_numbers(number, answer.client, answer.stamp);
    digest(22, &head, &answer.body.bytes)
}

/// The executor's values of a number's reply on a digest.
fn values_on(own: &Own, number: u32, digest: &[u8; 32]) -> [u8; SIGNATURE_LEN]
    requires own { IsOwn own.now }
    requires number { IsTrue (number_fits own.now.params number) }
    ensures { result ≡ signed_by own.now.hand (slots.Reply number) digest.now }
{
    match signed(&own.hand, Slot::Reply { number }, digest) {
        Some(values) => values,
        None => unreachable!(),
    }
}

/// The frame of the share of an answer.
fn share_of(own: &Own, number: u32, answer: &Answer) -> Result<Bytes, Memory>
    requires own { IsOwn own.now }
    requires number { IsTrue (number_fits own.now.params number) }
    ensures { IfOk result (λ bytes. let a = answer.now in bytes ≡ frame_bytes (frames.Share number own.now.exec a.client a.stamp a.body.bytes (signed_by own.now.hand (slots.Reply number) (hash (Answered number a.client a.stamp a.body.bytes))))) }
{
    let digest = digest_of(number, answer);
    let values = values_on(own, number, &digest);
    let share = Frame::Share {
        number,
        exec: own.exec,
        client: answer.client,
        stamp: answer.stamp,
        body: &answer.body.bytes,
        shares: &values,
    };
    share.write(own.alloc)
}

/// Executes the entry of the next number, and gives the frame of its share.
pub(crate) fn execute<S: Service>(
    own: &Own,
    replica: &mut Replica<S>,
    number: u32,
    entry: &OwnEntry,
) -> Result<Bytes, Memory>
    requires own { IsOwn own.now }
    requires next { number ≡ replica.old.done + 1 }
    requires entry { IsEntryAt own.now.params number entry.now }
    requires reached { IsReached replica.old.done replica.old.reference }
    ensures share { IfOk result (λ bytes. (d : PlainDirectory) → bytes ≡ (speech_by own.now d).share number (step_all (bodies_of own.now.hand) replica.old.reference entry.now).0) }
    ensures after { OnOk result (replica.new ≡ record { done = number; reference = (step_all (bodies_of own.now.hand) replica.old.reference entry.now).1 }) }
    ensures reached { OnOk result (IsReached replica.new.done replica.new.reference) }
{
    let answer = replica.execute(&own.keys, number, &entry.entry())?;
    share_of(own, number, &answer)
}
