//! The digests of the texts that are signed, made of the pieces of a frame without memory. Each is a step of the caller's.

ghost use Rattle.std.specs.Prelude.{◌≡◌, ◌≤◌, ◌+◌, ◌*◌, ◌++◌, length, take, map, All};
ghost use Rattle.std.specs.List.{flat_map};
ghost use Rattle.fw_list.specs.Numbers.{u32};
ghost use Rattle.fw_base.specs.declared.limits.TheConstants.{MOST_NUMBERS};
ghost use Rattle.fw_text.specs.Texts.{Voted, Answered, hash, heading_bytes, listed_bytes};
ghost use Rattle.fw_frame.specs.Plain.{plain_request, plain_proof, plain_change};
ghost use Rattle.fw_frame.specs.Parts.{request_text, change_text, new_view_text, listed, heading};

use fw_digest::{Steps, counted_digest};
use fw_frame::{Change, Proof, Request, entry_digest, three_numbers, two_numbers};
use std::sync::ledger::Ledger;

/// The bytes of what a view change says of its proofs, at most: 40 for each of 64 numbers.
const MOST_OF_PROOFS: usize = 64 * 40;

/// The bytes of what a new view says of its view changes, at most: 36 for each node of a quorum of 7.
const MOST_OF_CHANGES: usize = 7 * 36;

/// The reply to a number: whom it is for, and its body.
#[derive(Clone, Copy)]
pub struct Answer<'a> {
    pub number: u32,
    pub client: u32,
    pub stamp: u32,
    pub body: &'a [u8],
}

/// What a client signs for its request.
#[tactic(auto, unfolding(fw_text::specs::Texts::hash, fw_text::specs::Texts::text_bytes))]
pub fn request_digest<L: Ledger>(request: &Request<'_>, steps: &mut Steps<L>) -> [u8; 32]
    ensures digest { result ≡ hash (request_text (plain_request request.now)) }
    ensures step { steps.new ≡ steps.old + 1 }
{
    let head = two_numbers(request.client, request.stamp);
    counted_digest(16, &head, request.body, steps)
}

/// What an agreement node signs for its vote for the entry of a digest: prepare (phase 0) or commit.
#[tactic(auto, unfolding(fw_text::specs::Texts::hash, fw_text::specs::Texts::text_bytes))]
pub fn vote_digest<L: Ledger>(
    phase: u32,
    view: u32,
    number: u32,
    entry: &[u8],
    steps: &mut Steps<L>,
) -> [u8; 32]
    ensures digest { result ≡ hash (Voted phase view number entry.now) }
    ensures step { steps.new ≡ steps.old + 1 }
{
    let tag = if phase == 0 { 18 } else { 19 };
    counted_digest(tag, &two_numbers(view, number), entry, steps)
}

/// What is signed for the reply to a number.
#[tactic(auto, unfolding(fw_text::specs::Texts::hash, fw_text::specs::Texts::text_bytes))]
pub fn answer_digest<L: Ledger>(answer: &Answer<'_>, steps: &mut Steps<L>) -> [u8; 32]
    ensures digest { result ≡ hash (Answered answer.now.number answer.now.client answer.now.stamp answer.now.body.now) }
    ensures step { steps.new ≡ steps.old + 1 }
{
    let head = three_numbers(answer.number, answer.client, answer.stamp);
    counted_digest(22, &head, answer.body, steps)
}

/// Two numbers, and a digest.
#[tactic(auto, unfolding(fw_list::specs::Numbers::u32))]
fn numbers_and_digest(first: u32, second: u32, digest: &[u8; 32]) -> [u8; 40]
    ensures value { result ≡ u32 first ++ u32 second ++ digest.now }
    ensures len { length result ≡ 40 }
{
    let mut bytes = [0; 40];
    bytes[..4].copy_from_slice(&first.to_be_bytes());
    bytes[4..8].copy_from_slice(&second.to_be_bytes());
    bytes[8..].copy_from_slice(digest);
    bytes
}

/// What a view change says of a proof: its view, its number, and its entry's digest.
fn bytes_of_proof(proof: &Proof<'_>) -> [u8; 40]
    ensures value { result ≡ listed_bytes (listed hash (plain_proof proof.now)) }
    ensures len { length result ≡ 40 }
{
    numbers_and_digest(proof.view, proof.number, &entry_digest(&proof.entry))
}

/// What a new view says of a view change: its signer, and its text's digest. It is one step.
fn bytes_of_change<L: Ledger>(change: &Change<'_>, steps: &mut Steps<L>) -> [u8; 36]
    requires { length change.now.proofs ≤ MOST_NUMBERS }
    ensures value { result ≡ heading_bytes (heading hash (plain_change change.now)) }
    ensures len { length result ≡ 36 }
    ensures step { steps.new ≡ steps.old + 1 }
{
    number_and_digest(change.agree, &change_digest(change, steps))
}

/// Writes what a view change says of its proofs at the front. How many bytes that is.
fn put_proofs(out: &mut [u8], proofs: &[Proof<'_>]) -> usize
    requires { 40 * length proofs.now ≤ length out.old }
    ensures written { take result out.new ≡ flat_map listed_bytes (map (listed hash) (map plain_proof proofs.now)) }
    ensures within { result ≤ length out.new }
{
    let mut at = 0;
    for proof in proofs {
        let bytes = bytes_of_proof(proof);
        out[at..at + 40].copy_from_slice(&bytes);
        at += 40;
    }
    at
}

/// What an agreement node signs for its change to a view.
#[tactic(auto, unfolding(fw_text::specs::Texts::hash, fw_text::specs::Texts::text_bytes))]
pub fn change_digest<L: Ledger>(change: &Change<'_>, steps: &mut Steps<L>) -> [u8; 32]
    requires { length change.now.proofs ≤ MOST_NUMBERS }
    ensures digest { result ≡ hash (change_text hash (plain_change change.now)) }
    ensures step { steps.new ≡ steps.old + 1 }
{
    let proofs = change.proofs.items();
    let mut block = [0; MOST_OF_PROOFS];
    let len = put_proofs(&mut block, proofs);
    let head = three_numbers(change.view, change.agree, proofs.len() as u32);
    counted_digest(20, &head, &block[..len], steps)
}

/// A number, and a digest.
#[tactic(auto, unfolding(fw_list::specs::Numbers::u32))]
fn number_and_digest(number: u32, digest: &[u8; 32]) -> [u8; 36]
    ensures value { result ≡ u32 number ++ digest.now }
    ensures len { length result ≡ 36 }
{
    let mut bytes = [0; 36];
    bytes[..4].copy_from_slice(&number.to_be_bytes());
    bytes[4..].copy_from_slice(digest);
    bytes
}

/// Writes what a new view says of its view changes at the front, which takes a step for each. How many bytes that is.
fn put_changes<L: Ledger>(out: &mut [u8], changes: &[Change<'_>], steps: &mut Steps<L>) -> usize
    requires room { 36 * length changes.now ≤ length out.old }
    requires proofs { All (λ change. length change.proofs ≤ MOST_NUMBERS) changes.now }
    ensures written { take result out.new ≡ flat_map heading_bytes (map (heading hash) (map plain_change changes.now)) }
    ensures within { result ≤ length out.new }
    ensures step { steps.new ≡ steps.old + length changes.now }
{
    let mut at = 0;
    for change in changes {
        let bytes = bytes_of_change(change, steps);
        out[at..at + 36].copy_from_slice(&bytes);
        at += 36;
    }
    at
}

/// What the primary of a view signs for its start. It takes a step more for each view change.
#[tactic(auto, unfolding(fw_text::specs::Texts::hash, fw_text::specs::Texts::text_bytes))]
pub fn new_view_digest<L: Ledger>(
    view: u32,
    changes: &[Change<'_>],
    steps: &mut Steps<L>,
) -> [u8; 32]
    requires few { length changes.now ≤ 7 }
    requires proofs { All (λ change. length change.proofs ≤ MOST_NUMBERS) changes.now }
    ensures digest { result ≡ hash (new_view_text hash view (map plain_change changes.now)) }
    ensures step { steps.new ≡ steps.old + length changes.now + 1 }
{
    let mut block = [0; MOST_OF_CHANGES];
    let len = put_changes(&mut block, changes, steps);
    let head = two_numbers(view, changes.len() as u32);
    counted_digest(21, &head, &block[..len], steps)
}
