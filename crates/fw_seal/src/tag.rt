//! The tag of a masked block.

ghost use Rattle.std.specs.Prelude.{◌≡◌, ◌↔◌, ◌∷◌, ◌++◌, length, IsTrue};
ghost use Rattle.std.specs.Int.{w32, to_be_bytes};
ghost use Rattle.fw_seal.specs.Seal.{tag_of, way_byte};

use crate::{BodyKey, Direction};
use fw_digest::hmac;

fn way_byte(way: Direction) -> u8
    ensures { result ≡ way_byte way }
{
    match way {
        Direction::Request => 0,
        Direction::Reply => 1,
    }
}

/// What stands before the masked block in the text of a tag.
fn head_of(way: Direction, client: u32, number: u32) -> [u8; 9]
    ensures { result ≡ way_byte way ∷ to_be_bytes w32 client ++ to_be_bytes w32 number }
{
    let [a, b, c, d] = client.to_be_bytes();
    let [e, f, g, h] = number.to_be_bytes();
    [way_byte(way), a, b, c, d, e, f, g, h]
}

/// The tag of a masked block.
#[tactic(auto, unfolding(crate::specs::Seal::tag_of))]
pub(crate) fn tag_of(
    key: &BodyKey,
    way: Direction,
    client: u32,
    number: u32,
    cipher: &[u8],
) -> [u8; 32]
    ensures { result ≡ tag_of key.now way client number cipher.now }
{
    hmac(&key.mac_key, &head_of(way, client, number), cipher)
}

/// Whether two tags are the same. It looks at all bytes, also where the first ones differ; nothing is claimed of time.
pub(crate) fn are_same(a: &[u8], b: &[u8; 32]) -> bool
    requires { length a.now ≡ 32 }
    ensures { IsTrue result ↔ (a.now ≡ b.now) }
{
    let mut difference = 0;
    for k in 0..32 {
        difference |= a[k] ^ b[k];
    }
    difference == 0
}
