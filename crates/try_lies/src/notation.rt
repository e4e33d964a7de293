//! Words, numbers and bytes of a line.

use fw_list::Memory;
use sha2::{Digest, Sha256};
use std::alloc::Global;

/// The words of a text.
pub fn words_of<'a>(alloc: Global, text: &'a str) -> Result<Vec<&'a str>, Memory> {
    let mut words = Vec::new(alloc);
    for word in text.split_whitespace() {
        words.push(word)?;
    }
    Ok(words)
}

/// A number in decimal digits.
pub fn number(word: &str) -> Option<u32> {
    word.parse::<u32>().ok()
}

/// These very words.
pub fn said(alloc: Global, text: &str) -> Result<String, Memory> {
    Ok(String::from_str(alloc, text)?)
}

/// A word, how many bytes there are, and their SHA-256.
pub fn shown(alloc: Global, word: &str, bytes: &[u8]) -> Result<String, Memory> {
    let mut hasher = Sha256::new();
    hasher.update(bytes);
    let digest = hex::encode(alloc, &hasher.finalize())?;
    let count = bytes.len();
    Ok(format!(in alloc; "{word} {count} {digest}")?)
}
