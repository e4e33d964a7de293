//! Sealed bodies: a text of at most `LONGEST_TEXT` bytes under a client's two keys, so that only who has them can read or make it.
//! A body is a block of 512 bytes under a stream of ChaCha20 (RFC 8439), and its authentication code (HMAC of RFC 2104).
#![tactic(auto)]

ghost use Rattle.std.specs.Prelude.{◌≡◌, ◌≤◌, ◌<◌, ◌-◌, ◌^◌, ◌↔◌, List, ℕ, Some, length, take, drop, replicate, IfSome, IfNone, IsNone, option_map};
ghost use Rattle.fw_list.specs.declared.limits.TheConstants.{LONGEST_TEXT};
ghost use Rattle.fw_seal.specs.Seal.{sealed, Opens, IsRefused, opened};

mod block;
mod masked;
mod tag;
mod types;

use block::{block_of, text_len};
use fw_list::{BODY_LEN, LONGEST_TEXT};
use masked::masked;
use tag::{are_same, tag_of};
pub use types::{Body, BodyKey, Direction};

/// The body of a text: a request with this stamp, or the reply of this number of the agreed list.
pub fn seal(key: &BodyKey, way: Direction, client: u32, number: u32, text: &[u8]) -> Body
    requires short { length text.now ≤ LONGEST_TEXT }
    requires number { number < 2 ^ 31 }
    ensures { result.bytes ≡ sealed key.now way client number text.now }
{
    let cipher = masked(key, way, number, &block_of(text));
    let tag = tag_of(key, way, client, number, &cipher);
    let mut bytes = [0; BODY_LEN];
    bytes[..512].copy_from_slice(&cipher);
    bytes[512..].copy_from_slice(&tag);
    Body { bytes }
}

/// Opens a body: the text goes to the front of `out`, zeros behind it, and its length is the answer. Each text has one
/// body, and a body of no text is refused.
pub fn unseal(
    key: &BodyKey,
    way: Direction,
    client: u32,
    number: u32,
    body: &Body,
    out: &mut [u8; LONGEST_TEXT],
) -> Option<u16>
    requires { number < 2 ^ 31 }
    ensures found { IfSome result (λ len.
        Opens key.now way client number body.now.bytes (take len out.new)) }
    ensures len { IfSome result (λ len. len ≤ LONGEST_TEXT) }
    ensures rest { IfSome result (λ len. drop len out.new ≡ replicate (LONGEST_TEXT - len) 0) }
    ensures only { (text : List ℕ) → Opens key.now way client number body.now.bytes text →
        (result ≡ Some (length text)) × (take (length text) out.new ≡ text) }

    ensures value { opened key.now way client number body.now.bytes ≡ option_map (λ len. take len out.new) result }

    ensures none { IfNone result
        ((text : List ℕ) → ¬ Opens key.now way client number body.now.bytes text) }
    ensures blank { IfNone result (out.new ≡ replicate LONGEST_TEXT 0) }
    ensures cause { IsNone result ↔ IsRefused key.now way client number body.now.bytes }
{
    *out = [0; LONGEST_TEXT];
    let cipher = &body.bytes[..512];
    let tag = tag_of(key, way, client, number, cipher);
    if !are_same(&body.bytes[512..], &tag) {
        return None;
    }
    let block = masked(key, way, number, cipher);
    let len = text_len(&block)?;
    out.copy_from_slice(&block[2..]);
    Some(len)
}
