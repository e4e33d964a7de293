//! Replies read from words.

ghost use Rattle.std.specs.Prelude.{◌≡◌, ◌≢◌, ◌↔◌, ◌<◌, ◌^◌, ◌++◌, List, ℕ, [], ◌∷◌, codes, map, IfOk, OnErr, IfSome, IfNone, MatchOption, IsTrue};
ghost use Rattle.fw_op.specs.Keys.{is_value};
ghost use Rattle.fw_op.specs.Words.{client_word};
ghost use Rattle.fw_op.specs.Replies.{name_word, name_fits, names_fit, reply_words, reply_fits, AreNameWords, AreOfTellingReply};
ghost use Rattle.fw_op.specs.Parts.{plain_name};

use crate::keys::{is_key, is_value};
use crate::parts::NameParts;
use crate::words::{Words, client_of, number_of};
use crate::{MOST_NAMES, Name, Names, Reply};
use fw_list::{Bytes, Memory};
use std::alloc::Global;

/// The parts before and after the first slash.
fn parts_of(word: &str) -> Option<(&str, &str)>
    ensures cut { IfSome result (λ p. word.now ≡ p.0.now ++ 47 ∷ p.1.now) }
    ensures each { (c : ℕ) (key : List ℕ) → c < 2 ^ 32 → word.now ≡ client_word c ++ 47 ∷ key → MatchOption result ⊥ (λ p. (p.0.now ≡ client_word c) × (p.1.now ≡ key)) }
{
    word.split_once('/')
}

/// The name of a record that the word is.
fn name_of<'a>(clients: u32, word: &'a str) -> Option<NameParts<'a>>
    ensures found { IfSome result (λ n. (word.now ≡ name_word (plain_name n)) × IsTrue (name_fits clients (plain_name n))) }
    ensures none { IfNone result ((n : Name) → IsTrue (name_fits clients n) → word.now ≢ name_word n) }
{
    let Some((owner, key)) = parts_of(word) else {
        return None;
    };
    let Some(owner) = client_of(owner, clients) else {
        return None;
    };
    if !is_key(key.as_bytes()) {
        return None;
    }
    Some(NameParts {
        owner,
        key: key.as_bytes(),
    })
}

/// Whether the words that are left are names.
fn are_names(clients: u32, words: &mut Words<'_>) -> bool
    ensures { IsTrue result ↔ AreNameWords clients words.old }
{
    let mut count: usize = 0;
    while let Some(word) = words.next() {
        if count == MOST_NAMES {
            return false;
        }
        match name_of(clients, word) {
            Some(_) => count += 1,
            None => return false,
        }
    }
    true
}

/// The names that are left.
fn read_names(alloc: Global, clients: u32, words: &mut Words<'_>) -> Result<Option<Names>, Memory>
    ensures found { IfOk result (λ found. IfSome found (λ names. (words.old ≡ map name_word names) × IsTrue (names_fit clients names))) }
    ensures none { IfOk result (λ found. IfNone found ((names : List Name) → IsTrue (names_fit clients names) → words.old ≢ map name_word names)) }
{
    let mut names = Names::new(alloc);
    while let Some(word) = words.next() {
        if names.len() == MOST_NAMES {
            return Ok(None);
        }
        match name_of(clients, word) {
            Some(name) => names.push(name.own(alloc)?)?,
            None => return Ok(None),
        }
    }
    Ok(Some(names))
}

/// The names that are left, of which all are looked at before anything is copied.
fn names_of(alloc: Global, clients: u32, words: &mut Words<'_>) -> Result<Option<Names>, Memory>
    ensures found { IfOk result (λ found. IfSome found (λ names. (words.old ≡ map name_word names) × IsTrue (names_fit clients names))) }
    ensures none { IfOk result (λ found. IfNone found ((names : List Name) → IsTrue (names_fit clients names) → words.old ≢ map name_word names)) }
    ensures memory { OnErr result (AreNameWords clients words.old) }
{
    if !are_names(clients, &mut words.again()) {
        return Ok(None);
    }
    read_names(alloc, clients, words)
}

/// The value that is left.
fn value_of<'a>(words: &mut Words<'a>) -> Option<&'a [u8]>
    ensures found { IfSome result (λ v. (words.old ≡ v.now ∷ []) × IsTrue (is_value v.now)) }
    ensures none { IfNone result ((v : List ℕ) → IsTrue (is_value v) → words.old ≢ v ∷ []) }
{
    let value = words.only_word()?.as_bytes();
    if is_value(value) { Some(value) } else { None }
}

/// The reply whose first word is `value`.
fn given(alloc: Global, clients: u32, words: &mut Words<'_>) -> Result<Option<Reply>, Memory>
    ensures found { IfOk result (λ found. IfSome found (λ reply. (codes "value" ∷ words.old ≡ reply_words reply) × IsTrue (reply_fits clients reply))) }
    ensures none { IfOk result (λ found. IfNone found ((reply : Reply) → IsTrue (reply_fits clients reply) → codes "value" ∷ words.old ≢ reply_words reply)) }
    ensures memory { OnErr result (AreOfTellingReply clients (codes "value" ∷ words.old)) }
{
    let Some(value) = value_of(words) else {
        return Ok(None);
    };
    Ok(Some(Reply::Value {
        value: Bytes::copy_of(alloc, value)?,
    }))
}

/// The reply whose first word is `count`.
fn counted(clients: u32, words: &mut Words<'_>) -> Option<Reply>
    ensures found { IfSome result (λ reply. (codes "count" ∷ words.old ≡ reply_words reply) × IsTrue (reply_fits clients reply)) }
    ensures none { IfNone result ((reply : Reply) → IsTrue (reply_fits clients reply) → codes "count" ∷ words.old ≢ reply_words reply) }
{
    let word = words.only_word()?;
    let count = number_of(word, 0, u32::MAX)?;
    Some(Reply::Count { count })
}

/// The reply whose first word is `keys`.
fn listed(alloc: Global, clients: u32, words: &mut Words<'_>) -> Result<Option<Reply>, Memory>
    ensures found { IfOk result (λ found. IfSome found (λ reply. (codes "keys" ∷ words.old ≡ reply_words reply) × IsTrue (reply_fits clients reply))) }
    ensures none { IfOk result (λ found. IfNone found ((reply : Reply) → IsTrue (reply_fits clients reply) → codes "keys" ∷ words.old ≢ reply_words reply)) }
    ensures memory { OnErr result (AreOfTellingReply clients (codes "keys" ∷ words.old)) }
{
    match names_of(alloc, clients, words)? {
        Some(names) => Ok(Some(Reply::Keys { names })),
        None => Ok(None),
    }
}

/// The reply that the words are, where there are so many clients.
pub(crate) fn reply_of(
    alloc: Global,
    clients: u32,
    words: &mut Words<'_>,
) -> Result<Option<Reply>, Memory>
    ensures found { IfOk result (λ found. IfSome found (λ reply. (words.old ≡ reply_words reply) × IsTrue (reply_fits clients reply))) }
    ensures none { IfOk result (λ found. IfNone found ((reply : Reply) → IsTrue (reply_fits clients reply) → words.old ≢ reply_words reply)) }
    ensures memory { OnErr result (AreOfTellingReply clients words.old) }
{
    match words.next() {
        Some("done") => Ok(words.end_with(Reply::Done)),
        Some("value") => given(alloc, clients, words),
        Some("none") => Ok(words.end_with(Reply::Absent)),
        Some("differs") => Ok(words.end_with(Reply::Differs)),
        Some("count") => Ok(counted(clients, words)),
        Some("keys") => listed(alloc, clients, words),
        Some("bad") => Ok(words.end_with(Reply::Bad)),
        Some("old") => Ok(words.end_with(Reply::Old)),
        Some("null") => Ok(words.end_with(Reply::Null)),
        _ => Ok(None),
    }
}
