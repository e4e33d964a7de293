//! Words, numbers and bytes of a line. Bytes are pieces of hexadecimal digits with `+` between them: `0aff`, and `0aff*3` for three times
//! that.

use fw_list::{Bytes, Memory};
use std::alloc::Global;

/// The words of a text.
pub fn words_of<'a>(alloc: Global, text: &'a str) -> Result<Vec<&'a str>, Memory> {
    let mut words = Vec::new(alloc);
    for word in text.split_whitespace() {
        words.push(word)?;
    }
    Ok(words)
}

/// The parts of a text that `|` divides.
pub fn parts_of<'a>(alloc: Global, text: &'a str) -> Result<Vec<&'a str>, Memory> {
    let mut parts = Vec::new(alloc);
    for part in text.split('|') {
        parts.push(part)?;
    }
    Ok(parts)
}

/// A number in decimal digits.
pub fn number(word: &str) -> Option<u32> {
    word.parse::<u32>().ok()
}

/// Two words that are numbers.
pub fn two_numbers(words: &[&str]) -> Option<(u32, u32)> {
    let [first, second] = words else {
        return None;
    };
    Some((number(first)?, number(second)?))
}

/// Adds the bytes of a piece, if it is one.
fn add_piece(alloc: Global, out: &mut Bytes, piece: &str) -> Result<bool, Memory> {
    let (digits, times) = piece.split_once('*').unwrap_or((piece, "1"));
    let Some(times) = number(times) else {
        return Ok(false);
    };
    let Ok(part) = hex::decode(alloc, digits) else {
        return Ok(false);
    };
    for _ in 0..times {
        out.append(part.as_slice())?;
    }
    Ok(true)
}

/// The bytes of a word, if it is of pieces.
pub fn bytes_of(alloc: Global, word: &str) -> Result<Option<Bytes>, Memory> {
    let mut out = Bytes::new(alloc);
    for piece in word.split('+') {
        if !add_piece(alloc, &mut out, piece)? {
            return Ok(None);
        }
    }
    Ok(Some(out))
}

/// These very words.
pub fn said(alloc: Global, text: &str) -> Result<String, Memory> {
    Ok(String::from_str(alloc, text)?)
}

/// A number, or `none`.
pub fn number_or_none(alloc: Global, number: Option<u32>) -> Result<String, Memory> {
    match number {
        Some(number) => Ok(format!(in alloc; "{number}")?),
        None => said(alloc, "none"),
    }
}
