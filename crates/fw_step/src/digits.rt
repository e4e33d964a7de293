//! Raw bytes in hexadecimal digits.

ghost use Rattle.std.specs.Prelude.{◌≡◌, ◌≢◌, ℕ, List, length, Ok, IfOk, OnErr, IfSome, IfNone, IsTrue};
ghost use Rattle.std.specs.List.{list_all};
ghost use Rattle.hex.specs.Hex.{decode_of, is_hex_digit};
ghost use Rattle.fw_list.specs.Numbers.{within};
ghost use Rattle.fw_list.specs.declared.limits.TheConstants.{LONGEST_FRAME};
ghost use Rattle.fw_step.specs.Parts.{are_frame_digits, AreBytesOf};

use fw_list::{Bytes, LONGEST_FRAME, Memory};
use std::alloc::Global;

/// Whether the byte is a digit, of either case.
fn is_digit(byte: u8) -> bool
    ensures { result ≡ is_hex_digit byte }
{
    matches!(byte, b'0'..=b'9' | b'a'..=b'f' | b'A'..=b'F')
}

fn are_digits(text: &[u8]) -> bool
    ensures { result ≡ list_all is_hex_digit text.now }
{
    text.iter().all(|byte| is_digit(*byte))
}

/// Whether the text is the digits of a frame: two for each byte, within the limit.
fn are_frame_digits(text: &[u8]) -> bool
    ensures { result ≡ are_frame_digits text.now }
{
    let len = text.len();
    len % 2 == 0 && len >= 2 && len <= 2 * LONGEST_FRAME && are_digits(text)
}

/// The bytes of a frame that the digits spell. All digits are looked at before anything is decoded.
pub(crate) fn frame_of(alloc: Global, digits: &[u8]) -> Result<Option<Bytes>, Memory>
    ensures found { IfOk result (λ found. IfSome found (λ bytes. AreBytesOf digits.now bytes)) }
    ensures none { IfOk result (λ found. IfNone found ((bytes : List ℕ) → ¬ AreBytesOf digits.now bytes)) }
    ensures memory { OnErr result ((bytes : List ℕ) × AreBytesOf digits.now bytes) }
{
    if !are_frame_digits(digits) {
        return Ok(None);
    }
    let Ok(bytes) = hex::decode(alloc, digits) else {
        return Err(Memory);
    };
    Ok(Some(Bytes::copy_of(alloc, bytes.as_slice())?))
}
