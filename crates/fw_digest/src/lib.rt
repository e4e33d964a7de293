//! Digests of a tag byte and two parts (SHA-256 of FIPS 180-4), and authentication codes of two parts under a key
//! (HMAC of RFC 2104 over it). The parts are taken as they stand, and copied nowhere.
#![tactic(auto)]

ghost use Rattle.std.specs.Prelude.{◌≡◌, ◌≤◌, ◌+◌, ◌∷◌, ◌++◌, length};
ghost use Rattle.sha2.specs.Sha256.{sha256};
ghost use Rattle.fw_digest.specs.Hmac.{hmac_sha256, key_block, masked};

use sha2::{Digest, Sha256};
use std::sync::ledger::Ledger;

mod steps;

pub use steps::Steps;

const INNER_MASK: u8 = 0x36;

const OUTER_MASK: u8 = 0x5c;

/// The digest of the tag byte, the head and the tail.
pub fn digest(tag: u8, head: &[u8], tail: &[u8]) -> [u8; 32]
    ensures { result ≡ sha256 (tag ∷ head.now ++ tail.now) }
{
    let mut hasher = Sha256::new();
    hasher.update([tag]);
    hasher.update(head);
    hasher.update(tail);
    hasher.finalize()
}

/// The same digest, made for a caller who counts: it is one step of the counter, and nothing else is a step.
pub fn counted_digest<L: Ledger>(
    tag: u8,
    head: &[u8],
    tail: &[u8],
    steps: &mut Steps<L>,
) -> [u8; 32]
    ensures digest { result ≡ sha256 (tag ∷ head.now ++ tail.now) }
    ensures step { steps.new ≡ steps.old + 1 }
{
    steps.tick();
    digest(tag, head, tail)
}

/// The authentication code of the head and the tail under a key of at most one block.
pub fn hmac(key: &[u8], head: &[u8], tail: &[u8]) -> [u8; 32]
    requires { length key.now ≤ 64 }
    ensures { result ≡ hmac_sha256 key.now (head.now ++ tail.now) }
{
    let mut inner = Sha256::new();
    inner.update(masked_block(key, INNER_MASK));
    inner.update(head);
    inner.update(tail);
    let mut outer = Sha256::new();
    outer.update(masked_block(key, OUTER_MASK));
    outer.update(inner.finalize());
    outer.finalize()
}

/// A block of the key's bytes and zeros, each byte with the mask.
fn masked_block(key: &[u8], mask: u8) -> [u8; 64]
    requires { length key.now ≤ 64 }
    ensures { result ≡ masked mask (key_block key.now) }
{
    let mut block = [0; 64];
    for k in 0..64 {
        block[k] = if k < key.len() { key[k] ^ mask } else { mask };
    }
    block
}
