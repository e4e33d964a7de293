//! The texts that are hashed: which there are, how each is spelled, and its digest; and the bits of a digest, which the
//! values that sign it stand beside.
#![tactic(auto)]

ghost use Rattle.std.specs.Prelude.{◌≡◌, ◌<◌};
ghost use Rattle.fw_text.specs.Bits.{bit_of};

/// Bit b of a digest: bit 0 is the highest bit of its first byte.
#[inline]
pub fn bit_of(digest: &[u8; 32], b: usize) -> u8
    requires { b < 256 }
    ensures value { result ≡ bit_of digest.now b }
    ensures bit { result < 2 }
{
    (digest[b / 8] >> (7 - b % 8)) % 2
}
