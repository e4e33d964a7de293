//! What an operation or a reply is spelled as, and the answers that compare it with a line.

use fw_list::{Bytes, Memory};
use std::alloc::Global;

/// One operation or reply in words, and in hexadecimal digits.
#[derive(Drop)]
pub struct Spelling {
    pub words: String,
    pub digits: String,
}

/// These very words.
pub fn said(alloc: Global, text: &str) -> Result<String, Memory> {
    Ok(String::from_str(alloc, text)?)
}

/// A text, which is all of it letters that this program was given.
pub fn shown(alloc: Global, bytes: &Bytes) -> Result<String, Memory> {
    Ok(String::from_utf8_lossy(alloc, bytes.items())?)
}

/// The digits of bytes.
pub fn digits(alloc: Global, bytes: &Bytes) -> Result<String, Memory> {
    Ok(hex::encode(alloc, bytes.items())?)
}

/// An answer, and whether what was read is written again as it was read.
fn marked(answer: String, is_same: bool) -> Result<String, Memory> {
    let mut text = answer;
    text.push_str(if is_same { " same" } else { " OTHER" })?;
    Ok(text)
}

/// The digits of what these words spell.
pub fn of_words(alloc: Global, found: Option<Spelling>, words: &str) -> Result<String, Memory> {
    match found {
        Some(found) => marked(found.digits, found.words.as_str() == words),
        None => said(alloc, "none"),
    }
}

/// The words of what these digits spell.
pub fn of_digits(alloc: Global, found: Option<Spelling>, digits: &str) -> Result<String, Memory> {
    match found {
        Some(found) => marked(found.words, found.digits.as_str() == digits),
        None => said(alloc, "none"),
    }
}
