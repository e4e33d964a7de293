//! Bytes and numbers of a line. Bytes are `-` for none, or pieces with `+` between them: `0aff`, `0aff*3` for three times that,
//! `00..ff` for each byte of a range, and `00..ff*32` for each of them 32 times.

use fw_list::{Bytes, Memory};
use hex::FromHex;
use std::alloc::Global;

/// A number in decimal digits.
pub fn number(word: &str) -> Option<u32> {
    word.parse::<u32>().ok()
}

/// Two hexadecimal digits.
pub fn byte(word: &str) -> Option<u8> {
    let [byte] = <[u8; 1] as FromHex>::from_hex(word).ok()?;
    Some(byte)
}

/// 64 hexadecimal digits.
pub fn digest(word: &str) -> Option<[u8; 32]> {
    <[u8; 32] as FromHex>::from_hex(word).ok()
}

/// Adds a part so many times.
fn add_times(out: &mut Bytes, part: &[u8], times: u32) -> Result<(), Memory> {
    for _ in 0..times {
        out.append(part)?;
    }
    Ok(())
}

/// Adds each byte of a range so many times.
fn add_range(out: &mut Bytes, first: u8, last: u8, times: u32) -> Result<(), Memory> {
    for byte in first..=last {
        add_times(out, &[byte], times)?;
    }
    Ok(())
}

/// Adds the bytes of a piece, if it is one.
fn add_piece(alloc: Global, out: &mut Bytes, piece: &str) -> Result<bool, Memory> {
    let (what, times) = piece.split_once('*').unwrap_or((piece, "1"));
    let Some(times) = number(times) else {
        return Ok(false);
    };
    if let Some((first, last)) = what.split_once("..") {
        let (Some(first), Some(last)) = (byte(first), byte(last)) else {
            return Ok(false);
        };
        add_range(out, first, last, times)?;
        return Ok(true);
    }
    let Ok(part) = hex::decode(alloc, what) else {
        return Ok(false);
    };
    add_times(out, part.as_slice(), times)?;
    Ok(true)
}

/// The bytes of a word, if it is of pieces.
pub fn bytes_of(alloc: Global, word: &str) -> Result<Option<Bytes>, Memory> {
    let mut out = Bytes::new(alloc);
    if word == "-" {
        return Ok(Some(out));
    }
    for piece in word.split('+') {
        if !add_piece(alloc, &mut out, piece)? {
            return Ok(None);
        }
    }
    Ok(Some(out))
}

/// An answer of bytes.
pub fn shown(alloc: Global, bytes: &[u8]) -> Result<Option<String>, Memory> {
    Ok(Some(hex::encode(alloc, bytes)?))
}

/// An answer of a number and words.
pub fn counted(alloc: Global, count: usize, text: &str) -> Result<Option<String>, Memory> {
    let mut answer = format!(in alloc; "{count}")?;
    answer.push_str(text)?;
    Ok(Some(answer))
}

/// An answer of words.
pub fn said(alloc: Global, text: &str) -> Result<Option<String>, Memory> {
    Ok(Some(String::from_str(alloc, text)?))
}
