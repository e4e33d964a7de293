//! The readers of a record in words.

ghost use Rattle.std.specs.Prelude.{◌≡◌, ◌≢◌, ◌≤◌, ◌<◌, ◌↔◌, ℕ, map, IfOk, IfSome, IfNone, IsTrue};
ghost use Rattle.fw_op.specs.Words.{client_word};
ghost use Rattle.fw_record.specs.Parts.{rising, AreReaders};

use fw_list::Memory;
use fw_op::{Clients, Words, client_of};
use std::alloc::Global;

/// The client that the word names, from one on and below so many.
fn reader_of(word: &str, least: u32, clients: u32) -> Option<u32>
    ensures found { IfSome result (λ c. (word.now ≡ client_word c) × (least ≤ c) × (c < clients)) }
    ensures none { IfNone result ((c : ℕ) → least ≤ c → c < clients → word.now ≢ client_word c) }
{
    let Some(client) = client_of(word, clients) else {
        return None;
    };
    if client < least {
        return None;
    }
    Some(client)
}

/// Whether the words that are left are clients below so many, ascending.
pub(crate) fn are_readers(clients: u32, words: &mut Words<'_>) -> bool
    ensures { IsTrue result ↔ AreReaders clients 0 words.old }
{
    let mut least = 0;
    while let Some(word) = words.next() {
        match reader_of(word, least, clients) {
            Some(client) => least = client + 1,
            None => return false,
        }
    }
    true
}

/// The clients below so many, ascending, that the words that are left are.
pub(crate) fn read_readers(
    alloc: Global,
    clients: u32,
    words: &mut Words<'_>,
) -> Result<Option<Clients>, Memory>
    ensures found { IfOk result (λ found. IfSome found (λ cs. (words.old ≡ map client_word cs) × IsTrue (rising clients 0 cs))) }
    ensures none { IfOk result (λ found. IfNone found (¬ AreReaders clients 0 words.old)) }
{
    let mut readers = Clients::new(alloc);
    let mut least = 0;
    while let Some(word) = words.next() {
        match reader_of(word, least, clients) {
            Some(client) => {
                least = client + 1;
                readers.push(client)?;
            }
            None => return Ok(None),
        }
    }
    Ok(Some(readers))
}
