//! Products, combined replies and split bytes, many at a time, for `bench/field`.
#![tactic(auto)]

ghost use Rattle.std.specs.Prelude.{◌≡◌, ◌<◌, ◌≤◌, length, All};
ghost use Rattle.fw_shamir.specs.Polynomial.{AreDistinct};

use fw_args::words;
use fw_shamir::{Weights, gf_mul, split};
use std::io;
use std::process::ExitCode;

/// What the words ask for.
#[derive(Clone, Copy)]
enum Task {
    Multiply(u32),
    CombineTwo(u32),
    CombineFour(u32),
    Split(u32),
}

impl Task {
    /// The task that the words name.
    fn from_words(words: &[String]) -> Option<Task> {
        let count = words.get(1)?.as_str().parse::<u32>().ok()?;
        match words.first()?.as_str() {
            "multiply" => Some(Task::Multiply(count)),
            "combine2" => Some(Task::CombineTwo(count)),
            "combine4" => Some(Task::CombineFour(count)),
            "split" => Some(Task::Split(count)),
            _ => None,
        }
    }
}

/// The sum of all bytes, without carries.
fn sum_of(bytes: &[u8]) -> u8 {
    let mut sum = 0;
    for byte in bytes {
        sum ^= *byte;
    }
    sum
}

/// The products of all bytes by all, so many times, each time in another order, as one byte.
#[inline(never)]
fn multiply(count: u32) -> u8 {
    let mut sum = 0u8;
    for k in 0..count {
        let other = (k % 256) as u8;
        for a in 0..=255u8 {
            for b in 0..=255u8 {
                sum ^= gf_mul(a, b ^ other);
            }
            sum = sum.rotate_left(1);
        }
    }
    sum
}

/// A share whose bytes are the sums of this one with their indices.
fn share_of(byte: u8) -> [u8; 8192] {
    let mut share = [byte; 8192];
    for k in 0..share.len() {
        share[k] ^= (k % 256) as u8;
    }
    share
}

#[inline(never)]
fn combine_once(weights: &Weights, shares: &[&[u8]], out: &mut [u8])
    requires shares { length shares.now ≡ length weights.now }
    requires lengths { All (λ share. length share.now ≡ length out.old) shares.now }
{
    weights.combine_into(shares, out)
}

/// Combines the replies of these places so many times.
fn combine(places: &[u8], count: u32) -> u8
    requires some { 0 < length places.now }
    requires few { length places.now ≤ 4 }
    requires distinct { AreDistinct places.now }
{
    let weights = Weights::of(places);
    let mut first = share_of(7);
    let second = share_of(9);
    let third = share_of(11);
    let fourth = share_of(13);
    let mut out = [0; 8192];
    let mut sum = 0;
    for _ in 0..count {
        first[0] = sum;
        let shares: [&[u8]; 4] = [&first, &second, &third, &fourth];
        combine_once(&weights, &shares[..places.len()], &mut out);
        sum ^= out[0] ^ out[8191];
    }
    sum ^ sum_of(&out)
}

#[inline(never)]
fn split_once(coefficients: &[u8], shares: &mut [u8])
    requires { length shares.old ≤ 255 }
{
    split(coefficients, shares)
}

/// Splits a byte with four coefficients to seven shares so many times.
fn split_many(count: u32) -> u8 {
    let mut shares = [0; 7];
    let mut sum = 0;
    for k in 0..count {
        split_once(&[(k % 256) as u8, sum, 7, 9], &mut shares);
        sum ^= sum_of(&shares);
    }
    sum
}

fn main(rt: HostRuntime) -> io::Result<ExitCode> {
    let Ok(words) = words(&rt) else {
        return Ok(ExitCode::from(10));
    };
    let sum = match Task::from_words(&words) {
        Some(Task::Multiply(count)) => multiply(count),
        Some(Task::CombineTwo(count)) => combine(&[1, 2], count),
        Some(Task::CombineFour(count)) => combine(&[1, 2, 3, 4], count),
        Some(Task::Split(count)) => split_many(count),
        None => {
            println!(rt; "words: multiply, combine2, combine4 or split with a count")?;
            return Ok(ExitCode::FAILURE);
        }
    };
    println!(rt; "{sum}")?;
    Ok(ExitCode::SUCCESS)
}
