//! The texts that are hashed, made of the pieces of a frame.

ghost use Rattle.std.specs.Prelude.{◌≡◌, ◌++◌, ◌<◌, length, map, IfOk, OnOk};
ghost use Rattle.std.specs.List.{flat_map};
ghost use Rattle.fw_list.specs.Numbers.{u32};
ghost use Rattle.fw_text.specs.Texts.{Nothing, Voted, Answered, hash, text_bytes, heading_bytes, listed_bytes};
ghost use Rattle.fw_frame.specs.Plain.{plain_request, plain_entry, plain_proof, plain_change};
ghost use Rattle.fw_frame.specs.Gathered.{IsFinished};
ghost use Rattle.fw_frame.specs.Parts.{with_digest, entry_digest, request_text, entry_text, change_text, new_view_text, listed, heading};

use crate::{Change, Entry, Proof, Request, Text};
use fw_digest::digest;
use fw_list::{Bytes, Memory};
use fw_wire::Writer;
use std::alloc::Global;

/// Adds how many items a list has, in four bytes.
fn add_count(text: &mut Writer, count: usize) -> Result<(), Memory>
    ensures { OnOk result (text.new ≡ text.old ++ u32 count) }
{
    if count > u32::MAX as usize {
        return Err(Memory);
    }
    text.u32(count as u32)
}

/// The text with its digest; its first byte is its tag.
#[tactic(auto, unfolding(fw_text::specs::Texts::hash))]
fn finished(text: Bytes) -> Text
    requires { 0 < length text }
    ensures { IsFinished text result }
{
    let bytes = text.items();
    let digest = digest(bytes[0], &bytes[1..], &[]);
    Text { digest, text }
}

/// What a client signs for its request.
#[tactic(auto, unfolding(fw_text::specs::Texts::text_bytes))]
pub fn text_of_request(alloc: Global, request: &Request<'_>) -> Result<Text, Memory>
    ensures { IfOk result (λ text. text ≡ with_digest hash (request_text (plain_request request.now))) }
{
    let mut text = Writer::new(alloc);
    text.u8(16)?;
    text.u32(request.client)?;
    text.u32(request.stamp)?;
    text.fixed(request.body)?;
    Ok(finished(text.finish()))
}

/// Two numbers, in four bytes each.
#[tactic(auto, unfolding(fw_list::specs::Numbers::u32))]
pub fn two_numbers(first: u32, second: u32) -> [u8; 8]
    ensures value { result ≡ u32 first ++ u32 second }
    ensures len { length result ≡ 8 }
{
    let mut bytes = [0; 8];
    bytes[..4].copy_from_slice(&first.to_be_bytes());
    bytes[4..].copy_from_slice(&second.to_be_bytes());
    bytes
}

/// Three numbers, in four bytes each.
#[tactic(auto, unfolding(fw_list::specs::Numbers::u32))]
pub fn three_numbers(first: u32, second: u32, third: u32) -> [u8; 12]
    ensures { result ≡ u32 first ++ u32 second ++ u32 third }
{
    let mut bytes = [0; 12];
    bytes[..4].copy_from_slice(&first.to_be_bytes());
    bytes[4..8].copy_from_slice(&second.to_be_bytes());
    bytes[8..].copy_from_slice(&third.to_be_bytes());
    bytes
}

/// The digest of an entry, which votes name.
#[tactic(auto, unfolding(fw_text::specs::Texts::hash, fw_text::specs::Texts::text_bytes))]
pub fn entry_digest(entry: &Entry<'_>) -> [u8; 32]
    ensures { result ≡ entry_digest hash (plain_entry entry.now) }
{
    match entry {
        Entry::Null => digest(17, &[], &[]),
        Entry::Request(request) => digest(
            16,
            &two_numbers(request.client, request.stamp),
            request.body,
        ),
    }
}

/// What stands for the null entry.
#[tactic(auto, unfolding(fw_text::specs::Texts::text_bytes))]
pub fn text_of_nothing(alloc: Global) -> Result<Text, Memory>
    ensures { IfOk result (λ text. text ≡ with_digest hash Nothing) }
{
    let mut text = Writer::new(alloc);
    text.u8(17)?;
    Ok(finished(text.finish()))
}

/// What an agreement node signs for its vote: prepare (phase 0) or commit.
#[tactic(auto, unfolding(fw_text::specs::Texts::text_bytes))]
pub fn text_of_vote(
    alloc: Global,
    phase: u32,
    view: u32,
    number: u32,
    entry: &[u8],
) -> Result<Text, Memory>
    ensures { IfOk result (λ text. text ≡ with_digest hash (Voted phase view number entry.now)) }
{
    let tag = if phase == 0 { 18 } else { 19 };
    let mut text = Writer::new(alloc);
    text.u8(tag)?;
    text.u32(view)?;
    text.u32(number)?;
    text.fixed(entry)?;
    Ok(finished(text.finish()))
}

/// What is signed for the reply to a number.
#[tactic(auto, unfolding(fw_text::specs::Texts::text_bytes))]
pub fn text_of_answer(
    alloc: Global,
    number: u32,
    client: u32,
    stamp: u32,
    body: &[u8],
) -> Result<Text, Memory>
    ensures { IfOk result (λ text. text ≡ with_digest hash (Answered number client stamp body.now)) }
{
    let mut text = Writer::new(alloc);
    text.u8(22)?;
    text.u32(number)?;
    text.u32(client)?;
    text.u32(stamp)?;
    text.fixed(body)?;
    Ok(finished(text.finish()))
}

/// Adds what a view change says of its proofs.
fn add_listed(text: &mut Writer, proofs: &[Proof<'_>]) -> Result<(), Memory>
    ensures { OnOk result (text.new ≡ text.old ++ flat_map listed_bytes (map (listed hash) (map plain_proof proofs.now))) }
{
    for proof in proofs {
        text.u32(proof.view)?;
        text.u32(proof.number)?;
        text.fixed(&entry_digest(&proof.entry))?;
    }
    Ok(())
}

/// What an agreement node signs for its change to a view.
#[tactic(auto, unfolding(fw_text::specs::Texts::text_bytes))]
pub fn text_of_change(alloc: Global, change: &Change<'_>) -> Result<Text, Memory>
    ensures { IfOk result (λ text. text ≡ with_digest hash (change_text hash (plain_change change.now))) }
{
    let mut text = Writer::new(alloc);
    text.u8(20)?;
    text.u32(change.view)?;
    text.u32(change.agree)?;
    let proofs = change.proofs.items();
    add_count(&mut text, proofs.len())?;
    add_listed(&mut text, proofs)?;
    Ok(finished(text.finish()))
}

/// Adds what a new view says of its view changes.
fn add_headings(alloc: Global, text: &mut Writer, changes: &[Change<'_>]) -> Result<(), Memory>
    ensures { OnOk result (text.new ≡ text.old ++ flat_map heading_bytes (map (heading hash) (map plain_change changes.now))) }
{
    for change in changes {
        let signed = text_of_change(alloc, change)?;
        text.u32(change.agree)?;
        text.fixed(&signed.digest)?;
    }
    Ok(())
}

/// What the primary of a view signs for its start.
#[tactic(auto, unfolding(fw_text::specs::Texts::text_bytes))]
pub fn text_of_new_view(alloc: Global, view: u32, changes: &[Change<'_>]) -> Result<Text, Memory>
    ensures { IfOk result (λ text. text ≡ with_digest hash (new_view_text hash view (map plain_change changes.now))) }
{
    let mut text = Writer::new(alloc);
    text.u8(21)?;
    text.u32(view)?;
    add_count(&mut text, changes.len())?;
    add_headings(alloc, &mut text, changes)?;
    Ok(finished(text.finish()))
}
