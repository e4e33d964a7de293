//! Answers as text.

use fw_list::{Bytes, Memory};
use fw_op::{Start, add_client, add_word};
use std::alloc::Global;

/// These very words.
pub fn said(alloc: Global, text: &str) -> Result<Bytes, Memory> {
    Bytes::copy_of(alloc, text.as_bytes())
}

/// How many records there are.
pub fn shown_count(alloc: Global, count: usize) -> Result<Bytes, Memory> {
    let mut text = said(alloc, "records ")?;
    text.append_number(u32::try_from(count).unwrap_or(u32::MAX))?;
    Ok(text)
}

/// A client's view: each record after a bar, in the words of a line that starts with it.
pub fn shown_view(alloc: Global, records: &[Start]) -> Result<Bytes, Memory> {
    let mut text = said(alloc, "view")?;
    for shown in records {
        text.append(b" |")?;
        add_record(&mut text, shown)?;
    }
    Ok(text)
}

/// Adds the owner, the key, the value and the readers.
fn add_record(text: &mut Bytes, shown: &Start) -> Result<(), Memory> {
    add_client(text, shown.owner)?;
    add_word(text, shown.key.items())?;
    add_word(text, shown.value.items())?;
    for reader in shown.readers.items() {
        add_client(text, *reader)?;
    }
    Ok(())
}
