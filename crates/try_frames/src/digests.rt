//! Digests and codes.

use crate::notation::{byte, bytes_of, said, shown};
use fw_digest::{digest, hmac};
use fw_list::Memory;
use std::alloc::Global;

/// `digest TAG HEAD TAIL`: the digest of the three.
pub fn digest_of(alloc: Global, words: &[&str]) -> Result<Option<String>, Memory> {
    let [tag, head, tail] = words else {
        return Ok(None);
    };
    let (Some(tag), Some(head), Some(tail)) = (
        byte(tag),
        bytes_of(alloc, head)?,
        bytes_of(alloc, tail)?,
    ) else {
        return Ok(None);
    };
    shown(alloc, &digest(tag, head.items(), tail.items()))
}

/// The code of a text, if it is the same wherever the text is cut in two.
fn code(key: &[u8], text: &[u8]) -> Option<[u8; 32]> {
    if key.len() > 64 {
        return None;
    }
    let code = hmac(key, text, &[]);
    let is_one = (0..=text.len()).all(|cut| hmac(key, &text[..cut], &text[cut..]) == code);
    if is_one { Some(code) } else { None }
}

/// `hmac KEY TEXT`: the code of the text, cut in two anywhere.
pub fn code_of(alloc: Global, words: &[&str]) -> Result<Option<String>, Memory> {
    let [key, text] = words else {
        return Ok(None);
    };
    let (Some(key), Some(text)) = (bytes_of(alloc, key)?, bytes_of(alloc, text)?) else {
        return Ok(None);
    };
    match code(key.items(), text.items()) {
        Some(code) => shown(alloc, &code),
        None => said(alloc, "no code"),
    }
}
