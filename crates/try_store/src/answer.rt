//! What is answered to a line.

use crate::shown::said;
use crate::state::{CLIENTS, State};
use fw_list::{Bytes, Memory};
use fw_op::{Clients, Op, Start, Words, client_of};
use std::alloc::Global;

/// The answer to a line: a comment and a blank line are their own.
pub fn answer(alloc: Global, state: &mut State, line: &str) -> Result<Bytes, Memory> {
    if line.is_empty() || line.starts_with('#') {
        return said(alloc, line);
    }
    let mut words = Words::of(line);
    let Some(first) = word(&mut words) else {
        return said(alloc, "?");
    };
    match answered(alloc, state, first, &mut words)? {
        Some(text) => Ok(text),
        None => said(alloc, "?"),
    }
}

/// The answer to the words of a line, or none where they are no such line.
fn answered(
    alloc: Global,
    state: &mut State,
    first: &str,
    words: &mut Words<'_>,
) -> Result<Option<Bytes>, Memory> {
    match first {
        "new" => Ok(Some(state.renew(alloc)?)),
        "start" => start(alloc, state, words),
        "open" => Ok(Some(state.open(alloc)?)),
        "visible" => visible(alloc, state, words),
        name => apply(alloc, state, name, words),
    }
}

/// The next word.
fn word<'a>(words: &mut Words<'a>) -> Option<&'a str> {
    words.next()
}

/// The client that the next word names.
fn client(words: &mut Words<'_>) -> Option<u32> {
    client_of(word(words)?, CLIENTS)
}

/// The operation that the words are that are left.
fn op(alloc: Global, words: &mut Words<'_>) -> Result<Option<Op>, Memory> {
    Op::from_words(alloc, 8, words)
}

/// The clients that are left, or none where a word is none; no more are read than a line may name.
fn clients(alloc: Global, words: &mut Words<'_>) -> Result<Option<Clients>, Memory> {
    let mut all = Clients::new(alloc);
    for _ in 0..CLIENTS {
        let Some(word) = word(words) else {
            return Ok(Some(all));
        };
        match client_of(word, CLIENTS) {
            Some(client) => all.push(client)?,
            None => return Ok(None),
        }
    }
    Ok(None)
}

/// An owner, a key and a value.
fn front<'a>(words: &mut Words<'a>) -> Option<(u32, &'a str, &'a str)> {
    Some((client(words)?, word(words)?, word(words)?))
}

/// A record.
fn record(
    alloc: Global,
    owner: u32,
    key: &str,
    value: &str,
    readers: Clients,
) -> Result<Start, Memory> {
    Ok(Start {
        owner,
        key: Bytes::copy_of(alloc, key.as_bytes())?,
        value: Bytes::copy_of(alloc, value.as_bytes())?,
        readers,
    })
}

/// A record for the next store: its owner, key, value and readers.
fn start(alloc: Global, state: &mut State, words: &mut Words<'_>) -> Result<Option<Bytes>, Memory> {
    let Some((owner, key, value)) = front(words) else {
        return Ok(None);
    };
    let Some(readers) = clients(alloc, words)? else {
        return Ok(None);
    };
    state
        .starts
        .push(record(alloc, owner, key, value, readers)?)?;
    Ok(Some(said(alloc, "start")?))
}

/// The records that a client is shown.
fn visible(alloc: Global, state: &State, words: &mut Words<'_>) -> Result<Option<Bytes>, Memory> {
    match client(words) {
        Some(client) => Ok(Some(state.visible(alloc, client)?)),
        None => Ok(None),
    }
}

/// The reply of the store to a client's operation.
fn apply(
    alloc: Global,
    state: &mut State,
    name: &str,
    words: &mut Words<'_>,
) -> Result<Option<Bytes>, Memory> {
    let Some(client) = client_of(name, CLIENTS) else {
        return Ok(None);
    };
    match op(alloc, words)? {
        Some(op) => Ok(Some(state.apply(alloc, client, &op)?)),
        None => Ok(None),
    }
}
