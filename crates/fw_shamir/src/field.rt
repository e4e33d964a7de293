//! Products and inverses of the field.

ghost use Rattle.std.specs.Prelude.{◌≡◌, ◌≢◌, ℕ, ◌<◌, slice_index};
ghost use Rattle.fw_shamir.specs.Field.{gf_product};
ghost use Rattle.fw_shamir.specs.Steps.{twice};

use crate::tables::{LOGARITHMS, POWERS};

// The power of 3 that a byte is, and 511 for 0.
#[inline]
fn logarithm(a: u8) -> usize
    ensures { result ≡ slice_index LOGARITHMS a }
{
    LOGARITHMS[a as usize] as usize
}

// 3 to this power up to 510, and 0 from there on.
#[inline]
fn power(k: usize) -> u8
    requires { k < 1023 }
    ensures { result ≡ slice_index POWERS k }
{
    POWERS[k]
}

/// The product, by the sum of logarithms. The logarithm of 0 is past all others, where the powers are 0.
#[inline]
pub fn gf_mul(a: u8, b: u8) -> u8
    ensures { result ≡ gf_product a b }
{
    let sum = logarithm(a) + logarithm(b);
    power(sum)
}

/// The byte whose product with `a` is 1.
#[inline]
pub fn gf_inv(a: u8) -> u8
    requires { a ≢ 0 }
    ensures inverse { gf_product a result ≡ 1 }
    ensures only { (b : ℕ) → b < 256 → gf_product a b ≡ 1 → b ≡ result }
{
    let rest = 255 - logarithm(a);
    power(rest)
}

// The byte times x.
#[inline]
fn twice(a: u8) -> u8
    ensures { result ≡ twice a }
{
    (a % 128 * 2) ^ (a / 128 * 0x1b)
}

// The product again, by steps that are the same for all bytes: a loop over many of them works on many at once.
#[inline]
pub(crate) fn mul_by_steps(a: u8, b: u8) -> u8
    ensures { result ≡ gf_product a b }
{
    let mut sum = 0;
    let mut term = a;
    let mut rest = b;
    for _ in 0..8u32 {
        sum ^= term & (rest % 2 * 255);
        term = twice(term);
        rest /= 2;
    }
    sum
}
