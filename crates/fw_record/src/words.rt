//! A record in words.

ghost use Rattle.std.specs.Prelude.{◌≡◌, ◌≢◌, ◌<◌, ◌↔◌, ◌∷◌, ℕ, List, IfOk, OnErr, IfSome, IfNone, IsTrue};
ghost use Rattle.fw_op.specs.declared.start.Start.{Start};
ghost use Rattle.fw_op.specs.Keys.{is_key, is_value};
ghost use Rattle.fw_op.specs.Words.{client_word, words_of};
ghost use Rattle.fw_record.specs.Records.{start_words, start_text, start_fits};
ghost use Rattle.fw_record.specs.Parts.{IsStart};

use crate::readers::{are_readers, read_readers};
use fw_list::{Bytes, Memory};
use fw_op::{Start, Words, client_of, is_key, is_value};
use std::alloc::Global;

/// What stands before the readers.
#[derive(Clone, Copy)]
struct Head<'a> {
    owner: u32,
    key: &'a [u8],
    value: &'a [u8],
}

/// Takes the owner, the key and the value.
fn head_of<'a>(clients: u32, words: &mut Words<'a>) -> Option<Head<'a>>
    ensures found { IfSome result (λ h. (words.old ≡ client_word h.owner ∷ h.key.now ∷ h.value.now ∷ words.new) × (h.owner < clients) × IsTrue (is_key h.key.now) × IsTrue (is_value h.value.now)) }
    ensures none { IfNone result ((c : ℕ) (k v : List ℕ) (rest : List (List ℕ)) → c < clients → IsTrue (is_key k) → IsTrue (is_value v) → words.old ≢ client_word c ∷ k ∷ v ∷ rest) }
{
    let Some(owner) = words.next() else {
        return None;
    };
    let Some(owner) = client_of(owner, clients) else {
        return None;
    };
    let Some(key) = words.next() else {
        return None;
    };
    if !is_key(key.as_bytes()) {
        return None;
    }
    let Some(value) = words.next() else {
        return None;
    };
    if !is_value(value.as_bytes()) {
        return None;
    }
    Some(Head {
        owner,
        key: key.as_bytes(),
        value: value.as_bytes(),
    })
}

/// Whether the text spells a record.
fn is_start(clients: u32, text: &str) -> bool
    ensures { IsTrue result ↔ IsStart clients (words_of text.now) }
{
    let mut words = Words::of(text);
    match head_of(clients, &mut words) {
        Some(_) => are_readers(clients, &mut words),
        None => false,
    }
}

/// The record that the text spells.
fn read_start(alloc: Global, clients: u32, text: &str) -> Result<Option<Start>, Memory>
    ensures found { IfOk result (λ found. IfSome found (λ s. (words_of text.now ≡ start_words s) × IsTrue (start_fits clients s))) }
    ensures none { IfOk result (λ found. IfNone found ((s : Start) → IsTrue (start_fits clients s) → words_of text.now ≢ start_words s)) }
{
    let mut words = Words::of(text);
    let Some(head) = head_of(clients, &mut words) else {
        return Ok(None);
    };
    let Some(readers) = read_readers(alloc, clients, &mut words)? else {
        return Ok(None);
    };
    Ok(Some(Start {
        owner: head.owner,
        key: Bytes::copy_of(alloc, head.key)?,
        value: Bytes::copy_of(alloc, head.value)?,
        readers,
    }))
}

/// The record that the text spells, if it is one where there are so many clients. All is looked at before anything is copied.
pub fn start_of(alloc: Global, clients: u32, text: &str) -> Result<Option<Start>, Memory>
    ensures found { IfOk result (λ found. IfSome found (λ s. (text.now ≡ start_text s) × IsTrue (start_fits clients s))) }
    ensures none { IfOk result (λ found. IfNone found ((s : Start) → IsTrue (start_fits clients s) → text.now ≢ start_text s)) }
    ensures memory { OnErr result ((s : Start) × (text.now ≡ start_text s) × IsTrue (start_fits clients s)) }
{
    if !is_start(clients, text) {
        return Ok(None);
    }
    read_start(alloc, clients, text)
}
