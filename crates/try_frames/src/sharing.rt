//! The field, and sharing of bytes.

use crate::notation::{byte, bytes_of, number, said, shown};
use fw_digest::digest;
use fw_list::{Bytes, Memory};
use fw_shamir::{Point, Weights, combine, eval, gf_inv, gf_mul, split, through};
use std::alloc::Global;

/// `AT:VALUE`.
fn point(word: &str) -> Option<Point> {
    let (at, value) = word.split_once(':')?;
    Some(Point {
        at: byte(at)?,
        value: byte(value)?,
    })
}

fn combine_two(a: Point, b: Point) -> Option<u8> {
    if a.at == b.at {
        return None;
    }
    Some(combine(&[a, b]))
}

fn combine_three(a: Point, b: Point, c: Point) -> Option<u8> {
    if a.at == b.at || a.at == c.at || b.at == c.at {
        return None;
    }
    Some(combine(&[a, b, c]))
}

/// `combine AT:VALUE ..`: the value at 0 of the polynomial through one, two or three points.
fn combined(words: &[&str]) -> Option<u8> {
    match words {
        [a] => Some(combine(&[point(a)?])),
        [a, b] => combine_two(point(a)?, point(b)?),
        [a, b, c] => combine_three(point(a)?, point(b)?, point(c)?),
        _ => None,
    }
}

fn through_one(a: Point, value: u8, at: u8) -> Option<u8> {
    if a.at == 0 {
        return None;
    }
    Some(through(&[a], value, at))
}

fn through_two(a: Point, b: Point, value: u8, at: u8) -> Option<u8> {
    if a.at == b.at || a.at == 0 || b.at == 0 {
        return None;
    }
    Some(through(&[a, b], value, at))
}

/// `through VALUE PLACE AT:VALUE ..`: the value at a place of the polynomial with a value at 0 through up to two points.
fn passed(words: &[&str]) -> Option<u8> {
    match words {
        [value, at] => Some(through(&[], byte(value)?, byte(at)?)),
        [value, at, a] => through_one(point(a)?, byte(value)?, byte(at)?),
        [value, at, a, b] => through_two(point(a)?, point(b)?, byte(value)?, byte(at)?),
        _ => None,
    }
}

/// An answer of one byte, with `product`, `inverse`, `combine` or `through` before the words.
fn one_byte(first: &str, words: &[&str]) -> Option<u8> {
    match (first, words) {
        ("product", [a, b]) => Some(gf_mul(byte(a)?, byte(b)?)),
        ("inverse", [a]) => inverse(byte(a)?),
        ("combine", _) => combined(words),
        ("through", _) => passed(words),
        _ => None,
    }
}

fn inverse(a: u8) -> Option<u8> {
    if a == 0 {
        return None;
    }
    Some(gf_inv(a))
}

/// `eval COEFFICIENTS PLACE`: the value there of the polynomial.
fn value(alloc: Global, coefficients: &str, at: &str) -> Result<Option<String>, Memory> {
    let (Some(coefficients), Some(at)) = (bytes_of(alloc, coefficients)?, byte(at)) else {
        return Ok(None);
    };
    shown(alloc, &[eval(coefficients.items(), at)])
}

/// `split COEFFICIENTS COUNT`: so many shares.
fn shares(alloc: Global, coefficients: &str, count: &str) -> Result<Option<String>, Memory> {
    let (Some(coefficients), Some(count)) = (bytes_of(alloc, coefficients)?, number(count)) else {
        return Ok(None);
    };
    let mut shares = [0; 255];
    if count > 255 {
        return Ok(None);
    }
    let shares = &mut shares[..count as usize];
    split(coefficients.items(), shares);
    shown(alloc, shares)
}

/// A place, and the bytes of its share.
fn share(alloc: Global, word: &str) -> Result<Option<(u8, Bytes)>, Memory> {
    let (at, bytes) = word.split_once(':').unwrap_or((word, "-"));
    let (Some(at), Some(bytes)) = (byte(at), bytes_of(alloc, bytes)?) else {
        return Ok(None);
    };
    Ok(Some((at, bytes)))
}

/// The bytes that two shares give.
fn given(
    alloc: Global,
    first_at: u8,
    first: &[u8],
    other_at: u8,
    other: &[u8],
) -> Result<Option<String>, Memory> {
    let mut room = [3; 64];
    if first_at == other_at || first.len() > 64 || first.len() != other.len() {
        return Ok(None);
    }
    let out = &mut room[..first.len()];
    Weights::of(&[first_at, other_at]).combine_into(&[first, other], out);
    shown(alloc, out)
}

/// `shares AT:BYTES AT:BYTES`: the bytes that they give.
fn both(alloc: Global, first: &str, other: &str) -> Result<Option<String>, Memory> {
    let (Some((first_at, first)), Some((other_at, other))) = (
        share(alloc, first)?,
        share(alloc, other)?,
    ) else {
        return Ok(None);
    };
    given(alloc, first_at, first.items(), other_at, other.items())
}

/// `products`: the digest, with the tag 0, of the products of each byte by each.
fn products(alloc: Global) -> Result<Option<String>, Memory> {
    let mut all = Bytes::new(alloc);
    for a in 0..=255 {
        for b in 0..=255 {
            all.push(gf_mul(a, b))?;
        }
    }
    shown(alloc, &digest(0, all.items(), &[]))
}

/// The answer to a case of the field or of sharing.
pub fn answer(alloc: Global, first: &str, words: &[&str]) -> Result<Option<String>, Memory> {
    match (first, words) {
        ("products", []) => products(alloc),
        ("eval", [coefficients, at]) => value(alloc, coefficients, at),
        ("split", [coefficients, count]) => shares(alloc, coefficients, count),
        ("shares", [one, other]) => both(alloc, one, other),
        _ => match one_byte(first, words) {
            Some(byte) => shown(alloc, &[byte]),
            None => said(alloc, "none"),
        },
    }
}
