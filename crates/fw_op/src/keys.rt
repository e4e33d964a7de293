//! Which bytes are a key, and which a value.

ghost use Rattle.std.specs.Prelude.{◌≡◌};
ghost use Rattle.std.specs.List.{list_all};
ghost use Rattle.fw_op.specs.Keys.{is_key_byte, is_key, is_value_byte, is_value};

use crate::{LONGEST_KEY, LONGEST_VALUE};

fn is_key_byte(byte: u8) -> bool
    ensures { result ≡ is_key_byte byte }
{
    matches!(byte, b'a'..=b'z' | b'0'..=b'9' | b'-')
}

fn has_key_bytes(word: &[u8]) -> bool
    ensures { result ≡ list_all is_key_byte word.now }
{
    word.iter().all(|byte| is_key_byte(*byte))
}

/// Whether the bytes are a key.
pub fn is_key(word: &[u8]) -> bool
    ensures { result ≡ is_key word.now }
{
    let len = word.len();
    len >= 1 && len <= LONGEST_KEY && has_key_bytes(word)
}

fn has_value_bytes(word: &[u8]) -> bool
    ensures { result ≡ list_all is_value_byte word.now }
{
    word.iter().all(|byte| *byte >= 0x21 && *byte <= 0x7e)
}

/// Whether the bytes are a value.
pub fn is_value(word: &[u8]) -> bool
    ensures { result ≡ is_value word.now }
{
    let len = word.len();
    len >= 1 && len <= LONGEST_VALUE && has_value_bytes(word)
}
