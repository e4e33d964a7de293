//! The block of a text: its length in two bytes, the text, and zeros.

ghost use Rattle.std.specs.Prelude.{◌≡◌, ◌≤◌, ◌↔◌, length, take, drop, IfSome, IsNone, IsTrue, Any, ◌≢◌};
ghost use Rattle.fw_list.specs.declared.limits.TheConstants.{LONGEST_TEXT};
ghost use Rattle.fw_seal.specs.Seal.{block_of, length_in, IsSpoiled};

use fw_list::LONGEST_TEXT;

/// The block of a text.
pub(crate) fn block_of(text: &[u8]) -> [u8; 512]
    requires { length text.now ≤ LONGEST_TEXT }
    ensures { result ≡ block_of text.now }
{
    let len = text.len();
    let mut block = [0; 512];
    block[..2].copy_from_slice(&(len as u16).to_be_bytes());
    block[2..2 + len].copy_from_slice(text);
    block
}

/// The length of the text whose block this is.
pub(crate) fn text_len(block: &[u8]) -> Option<u16>
    requires { length block.now ≡ 512 }
    ensures found { IfSome result (λ len. (len ≤ LONGEST_TEXT) × (block.now ≡ block_of (take len (drop 2 block.now)))) }
    ensures spoiled { IsNone result ↔ IsSpoiled block.now }
{
    let len = u16::from_be_bytes([block[0], block[1]]);
    if len as usize > LONGEST_TEXT {
        return None;
    }
    if has_other_than_zero(&block[2 + len as usize..]) {
        return None;
    }
    Some(len)
}

fn has_other_than_zero(part: &[u8]) -> bool
    ensures { IsTrue result ↔ Any (λ b. b ≢ 0) part.now }
{
    part.iter().any(|byte| *byte != 0)
}
