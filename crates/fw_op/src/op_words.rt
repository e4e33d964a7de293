//! Operations read from words.

ghost use Rattle.std.specs.Prelude.{◌≡◌, ◌≢◌, ◌<◌, ◌≤◌, ◌+◌, List, ℕ, [], ◌∷◌, length, codes, IfOk, OnErr, IfSome, IfNone, IsTrue};
ghost use Rattle.fw_op.specs.Keys.{is_key, is_value};
ghost use Rattle.fw_op.specs.Words.{client_word};
ghost use Rattle.fw_op.specs.Ops.{op_words, op_fits, AreOfKeyedOp};
ghost use Rattle.fw_op.specs.Parts.{plain_op};

use crate::Op;
use crate::keys::{is_key, is_value};
use crate::parts::OpParts;
use crate::words::{Words, client_of};
use fw_list::Memory;
use std::alloc::Global;

/// The key that is left.
fn only_key<'a>(words: &mut Words<'a>) -> Option<&'a [u8]>
    ensures found { IfSome result (λ k. (words.old ≡ k.now ∷ []) × IsTrue (is_key k.now)) }
    ensures none { IfNone result ((k : List ℕ) → IsTrue (is_key k) → words.old ≢ k ∷ []) }
{
    let key = words.only_word()?.as_bytes();
    if is_key(key) { Some(key) } else { None }
}

/// The key and the value that are left.
fn key_and_value<'a>(words: &mut Words<'a>) -> Option<(&'a [u8], &'a [u8])>
    ensures found { IfSome result (λ p. (words.old ≡ p.0.now ∷ p.1.now ∷ []) × IsTrue (is_key p.0.now) × IsTrue (is_value p.1.now)) }
    ensures none { IfNone result ((k v : List ℕ) → IsTrue (is_key k) → IsTrue (is_value v) → words.old ≢ k ∷ v ∷ []) }
{
    let (key, value) = words.two_words()?;
    if !is_key(key.as_bytes()) {
        return None;
    }
    if !is_value(value.as_bytes()) {
        return None;
    }
    Some((key.as_bytes(), value.as_bytes()))
}

/// The key and the two values that are left, if an operation can have them.
fn key_and_values<'a>(words: &mut Words<'a>) -> Option<(&'a [u8], &'a [u8], &'a [u8])>
    ensures found { IfSome result (λ p. (words.old ≡ p.0.now ∷ p.1.now ∷ p.2.now ∷ []) × IsTrue (is_key p.0.now) × IsTrue (is_value p.1.now) × IsTrue (is_value p.2.now) × (length p.0.now + length p.1.now + length p.2.now ≤ 504)) }
    ensures none { IfNone result ((k v w : List ℕ) → IsTrue (is_key k) → IsTrue (is_value v) → IsTrue (is_value w) → length k + length v + length w ≤ 504 → words.old ≢ k ∷ v ∷ w ∷ []) }
{
    let (key, old, new) = words.three_words()?;
    if !is_key(key.as_bytes()) {
        return None;
    }
    if !is_value(old.as_bytes()) {
        return None;
    }
    if !is_value(new.as_bytes()) {
        return None;
    }
    if key.len() + old.len() + new.len() > 504 {
        return None;
    }
    Some((key.as_bytes(), old.as_bytes(), new.as_bytes()))
}

/// The client and the key that are left.
fn client_and_key<'a>(words: &mut Words<'a>, clients: u32) -> Option<(u32, &'a [u8])>
    ensures found { IfSome result (λ p. (words.old ≡ client_word p.0 ∷ p.1.now ∷ []) × (p.0 < clients) × IsTrue (is_key p.1.now)) }
    ensures none { IfNone result ((c : ℕ) (k : List ℕ) → c < clients → IsTrue (is_key k) → words.old ≢ client_word c ∷ k ∷ []) }
{
    let (owner, key) = words.two_words()?;
    let owner = client_of(owner, clients)?;
    if is_key(key.as_bytes()) {
        Some((owner, key.as_bytes()))
    } else {
        None
    }
}

/// The key and the client that are left.
fn key_and_client<'a>(words: &mut Words<'a>, clients: u32) -> Option<(&'a [u8], u32)>
    ensures found { IfSome result (λ p. (words.old ≡ p.0.now ∷ client_word p.1 ∷ []) × IsTrue (is_key p.0.now) × (p.1 < clients)) }
    ensures none { IfNone result ((k : List ℕ) (c : ℕ) → IsTrue (is_key k) → c < clients → words.old ≢ k ∷ client_word c ∷ []) }
{
    let (key, client) = words.two_words()?;
    let client = client_of(client, clients)?;
    if is_key(key.as_bytes()) {
        Some((key.as_bytes(), client))
    } else {
        None
    }
}

/// The operation whose first word is `put`.
fn put_of<'a>(clients: u32, words: &mut Words<'a>) -> Option<OpParts<'a>>
    ensures found { IfSome result (λ parts. (codes "put" ∷ words.old ≡ op_words (plain_op parts)) × IsTrue (op_fits clients (plain_op parts))) }
    ensures none { IfNone result ((op : Op) → IsTrue (op_fits clients op) → codes "put" ∷ words.old ≢ op_words op) }
{
    let Some((key, value)) = key_and_value(words) else {
        return None;
    };
    Some(OpParts::Put { key, value })
}

/// The operation whose first word is `get`.
fn get_of<'a>(clients: u32, words: &mut Words<'a>) -> Option<OpParts<'a>>
    ensures found { IfSome result (λ parts. (codes "get" ∷ words.old ≡ op_words (plain_op parts)) × IsTrue (op_fits clients (plain_op parts))) }
    ensures none { IfNone result ((op : Op) → IsTrue (op_fits clients op) → codes "get" ∷ words.old ≢ op_words op) }
{
    let Some((owner, key)) = client_and_key(words, clients) else {
        return None;
    };
    Some(OpParts::Get { owner, key })
}

/// The operation whose first word is `del`.
fn del_of<'a>(clients: u32, words: &mut Words<'a>) -> Option<OpParts<'a>>
    ensures found { IfSome result (λ parts. (codes "del" ∷ words.old ≡ op_words (plain_op parts)) × IsTrue (op_fits clients (plain_op parts))) }
    ensures none { IfNone result ((op : Op) → IsTrue (op_fits clients op) → codes "del" ∷ words.old ≢ op_words op) }
{
    let Some(key) = only_key(words) else {
        return None;
    };
    Some(OpParts::Del { key })
}

/// The operation whose first word is `cas`.
fn cas_of<'a>(clients: u32, words: &mut Words<'a>) -> Option<OpParts<'a>>
    ensures found { IfSome result (λ parts. (codes "cas" ∷ words.old ≡ op_words (plain_op parts)) × IsTrue (op_fits clients (plain_op parts))) }
    ensures none { IfNone result ((op : Op) → IsTrue (op_fits clients op) → codes "cas" ∷ words.old ≢ op_words op) }
{
    let Some((key, old, new)) = key_and_values(words) else {
        return None;
    };
    Some(OpParts::Cas { key, old, new })
}

/// The operation whose first word is `grant`.
fn grant_of<'a>(clients: u32, words: &mut Words<'a>) -> Option<OpParts<'a>>
    ensures found { IfSome result (λ parts. (codes "grant" ∷ words.old ≡ op_words (plain_op parts)) × IsTrue (op_fits clients (plain_op parts))) }
    ensures none { IfNone result ((op : Op) → IsTrue (op_fits clients op) → codes "grant" ∷ words.old ≢ op_words op) }
{
    let Some((key, client)) = key_and_client(words, clients) else {
        return None;
    };
    Some(OpParts::Grant { key, client })
}

/// The operation whose first word is `revoke`.
fn revoke_of<'a>(clients: u32, words: &mut Words<'a>) -> Option<OpParts<'a>>
    ensures found { IfSome result (λ parts. (codes "revoke" ∷ words.old ≡ op_words (plain_op parts)) × IsTrue (op_fits clients (plain_op parts))) }
    ensures none { IfNone result ((op : Op) → IsTrue (op_fits clients op) → codes "revoke" ∷ words.old ≢ op_words op) }
{
    let Some((key, client)) = key_and_client(words, clients) else {
        return None;
    };
    Some(OpParts::Revoke { key, client })
}

/// The operation that the words are, where there are so many clients.
fn parts_of<'a>(clients: u32, words: &mut Words<'a>) -> Option<OpParts<'a>>
    ensures found { IfSome result (λ parts. (words.old ≡ op_words (plain_op parts)) × IsTrue (op_fits clients (plain_op parts))) }
    ensures none { IfNone result ((op : Op) → IsTrue (op_fits clients op) → words.old ≢ op_words op) }
{
    match words.next() {
        Some("put") => put_of(clients, words),
        Some("get") => get_of(clients, words),
        Some("del") => del_of(clients, words),
        Some("cas") => cas_of(clients, words),
        Some("grant") => grant_of(clients, words),
        Some("revoke") => revoke_of(clients, words),
        Some("count") => words.end_with(OpParts::Count),
        Some("keys") => words.end_with(OpParts::Keys),
        _ => None,
    }
}

/// The operation that the words are, where there are so many clients.
pub(crate) fn op_of(alloc: Global, clients: u32, mut words: Words<'_>) -> Result<Option<Op>, Memory>
    ensures found { IfOk result (λ found. IfSome found (λ op. (words.entry ≡ op_words op) × IsTrue (op_fits clients op))) }
    ensures none { IfOk result (λ found. IfNone found ((op : Op) → IsTrue (op_fits clients op) → words.entry ≢ op_words op)) }
    ensures memory { OnErr result (AreOfKeyedOp clients words.entry) }
{
    let Some(parts) = parts_of(clients, &mut words) else {
        return Ok(None);
    };
    Ok(Some(parts.own(alloc)?))
}
