//! Pieces of the streams of a seed.

ghost use Rattle.std.specs.Prelude.{◌≡◌, ◌<◌, ◌*◌, ◌^◌, ℕ, length};
ghost use Rattle.fw_secret.specs.Streams.{chunk, words_from};

use rand_chacha::ChaCha20Rng;
use rand_core::{Rng, SeedableRng};

/// Fills a whole number of words from a chunk of a stream on.
pub(crate) fn fill(seed: &[u8; 32], stream: u64, first: u64, out: &mut [u8])
    requires first { first < 2 ^ 60 }
    requires short { length out.old < 2 ^ 60 }
    ensures { (n : ℕ) → length out.old ≡ 4 * n → out.new ≡ words_from seed.now stream (8 * first) n }
{
    let mut rng = ChaCha20Rng::from_seed(*seed);
    rng.set_stream(stream);
    rng.set_word_pos(8 * u128::from(first));
    rng.fill_bytes(out);
}

/// A chunk of a stream.
pub(crate) fn chunk(seed: &[u8; 32], stream: u64, k: u64) -> [u8; 32]
    requires { k < 2 ^ 60 }
    ensures { result ≡ chunk seed.now stream k }
{
    let mut out = [0; 32];
    fill(seed, stream, k, &mut out);
    out
}
