//! The stream that masks a block.

ghost use Rattle.std.specs.Prelude.{◌≡◌, length};
ghost use Rattle.fw_seal.specs.Seal.{masked, stream_of, stream_bytes, xor_bytes};

use crate::{BodyKey, Direction};
use rand_chacha::ChaCha20Rng;
use rand_core::{Rng, SeedableRng};

fn stream_of(way: Direction, number: u32) -> u64
    ensures { result ≡ stream_of way number }
{
    match way {
        Direction::Request => 2 * u64::from(number),
        Direction::Reply => 2 * u64::from(number) + 1,
    }
}

/// The first 128 words of a stream, each low byte first.
fn stream_bytes(key: [u8; 32], stream: u64) -> [u8; 512]
    ensures { result ≡ stream_bytes key stream 128 }
{
    let mut rng = ChaCha20Rng::from_seed(key);
    rng.set_stream(stream);
    rng.set_word_pos(0);
    let mut bytes = [0; 512];
    rng.fill_bytes(&mut bytes);
    bytes
}

fn xor_bytes(block: &[u8], mask: &[u8; 512]) -> [u8; 512]
    requires { length block.now ≡ 512 }
    ensures { result ≡ xor_bytes block.now mask.now }
{
    let mut bytes = [0; 512];
    for k in 0..512 {
        bytes[k] = block[k] ^ mask[k];
    }
    bytes
}

/// The block under its stream, or what is under its stream as the block again.
pub(crate) fn masked(key: &BodyKey, way: Direction, number: u32, block: &[u8]) -> [u8; 512]
    requires { length block.now ≡ 512 }
    ensures { result ≡ masked key.now way number block.now }
{
    xor_bytes(block, &stream_bytes(key.stream_key, stream_of(way, number)))
}
