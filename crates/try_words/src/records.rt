//! Records.

use crate::spelling::shown;
use fw_list::{Bytes, Memory};
use fw_op::{Clients, Start, add_client, add_word};
use std::alloc::Global;

/// A record of client 1.
fn record(alloc: Global, key: &str, value: &str, readers: Clients) -> Result<Start, Memory> {
    Ok(Start {
        owner: 1,
        key: Bytes::copy_of(alloc, key.as_bytes())?,
        value: Bytes::copy_of(alloc, value.as_bytes())?,
        readers,
    })
}

/// A record of client 1 with a reader, client 3, and its copy.
fn copied(alloc: Global, key: &str, value: &str) -> Result<Start, Memory> {
    let mut readers = Clients::new(alloc);
    readers.push(3)?;
    record(alloc, key, value, readers)?.copy(alloc)
}

/// Adds the owner, the key, the value and the readers.
fn add_record(text: &mut Bytes, start: &Start) -> Result<(), Memory> {
    text.push(b'c')?;
    text.append_number(start.owner)?;
    add_word(text, start.key.items())?;
    add_word(text, start.value.items())?;
    for reader in start.readers.items() {
        add_client(text, *reader)?;
    }
    Ok(())
}

/// The copy of a record of client 1 that client 3 reads: `KEY VALUE`.
pub fn start(alloc: Global, line: &str) -> Result<String, Memory> {
    let (key, value) = line.split_once(' ').unwrap_or((line, ""));
    let copy = copied(alloc, key, value)?;
    let mut text = Bytes::new(alloc);
    add_record(&mut text, &copy)?;
    shown(alloc, &text)
}
