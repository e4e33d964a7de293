//! Polynomials, their values, and what points of one say of it.

ghost use Rattle.std.specs.Prelude.{◌≡◌, ◌<◌, ◌≤◌, ◌+◌, ◌^◌, ◌∷◌, ℕ, length, slice_index, EachIndex};
ghost use Rattle.fw_shamir.specs.Polynomial.{eval, places_of, IsAbsent, AreDistinct};
ghost use Rattle.fw_shamir.specs.Sharing.{PointsGive, HavePolynomial, FixValue, LeavePossible};
ghost use Rattle.fw_shamir.specs.Steps.{lowered, interpolated, HaveBytes};

use crate::field::{gf_inv, gf_mul};

/// A place, and a polynomial's value there.
#[derive(Clone, Copy, Debug, PartialEq, Eq)]
pub struct Point {
    pub at: u8,
    pub value: u8,
}

impl Point {
    // The same point, of which a caller then knows that it has bytes.
    fn copied(self) -> Point
        ensures same { result ≡ self }
        ensures place { self.at < 2 ^ 8 }
        ensures byte { self.value < 2 ^ 8 }
    {
        let at = self.at;
        let value = self.value;
        Point { at, value }
    }
}

/// The value of a polynomial, coefficient of x^0 first: 0 without coefficients.
#[tactic(auto, unfolding(crate::specs::Polynomial::eval))]
pub fn eval(coefficients: &[u8], at: u8) -> u8
    ensures { result ≡ eval coefficients.now at }
{
    if coefficients.is_empty() {
        return 0;
    }
    let mut k = coefficients.len() - 1;
    let mut value = coefficients[k];
    while k > 0 {
        k -= 1;
        value = coefficients[k] ^ gf_mul(at, value);
    }
    value
}

/// Sets each share to the polynomial's value at the share's index and one.
pub fn split(coefficients: &[u8], shares: &mut [u8])
    requires { length shares.old ≤ 255 }
    ensures { EachIndex shares.new (λ k. slice_index shares.new k ≡ eval coefficients.now (k + 1)) }
{
    for k in 0..shares.len() {
        shares[k] = eval(coefficients, k as u8 + 1);
    }
}

// Makes the points of (P - first.value) / (x - first.at) of those of P.
fn lower(first: Point, rest: &mut [Point])
    requires { IsAbsent first.at (places_of rest.old) }
    ensures { rest.new ≡ lowered first rest.old }
{
    for k in 0..rest.len() {
        let point = rest[k].copied();
        let inverse = gf_inv(point.at ^ first.at);
        rest[k].value = gf_mul(point.value ^ first.value, inverse);
    }
}

// The value of the polynomial through the points, of which it makes others on the way.
pub(crate) fn value_at(points: &mut [Point], at: u8) -> u8
    requires { AreDistinct (places_of points.old) }
    ensures { result ≡ interpolated (length points.old) at points.old }
{
    if points.is_empty() {
        return 0;
    }
    let first = points[0];
    let rest = &mut points[1..];
    lower(first, rest);
    let below = value_at(rest, at);
    first.value ^ gf_mul(at ^ first.at, below)
}

// Copies the points, of which a caller then knows that they have bytes.
fn copy_bytes(points: &[Point], copy: &mut [Point])
    requires { length copy.old ≡ length points.now }
    ensures same { copy.new ≡ points.now }
    ensures bytes { HaveBytes points.now }
{
    for k in 0..points.len() {
        copy[k] = points[k].copied();
    }
}

/// The value at 0 of the one polynomial with a degree below the number of points that goes through them.
pub fn combine(points: &[Point]) -> u8
    requires some { 0 < length points.now }
    requires few { length points.now ≤ 8 }
    requires distinct { AreDistinct (places_of points.now) }
    ensures any { PointsGive points.now result }
    ensures exists { HavePolynomial points.now }
{
    let mut room = [Point { at: 0, value: 0 }; 8];
    let copy = &mut room[..points.len()];
    copy_bytes(points, copy);
    value_at(copy, 0)
}

// Copies the points after one at 0 with this byte.
fn copy_after(points: &[Point], byte: u8, copy: &mut [Point])
    requires { length copy.old ≡ length points.now + 1 }
    ensures same { copy.new ≡ record { at = 0; value = byte } ∷ points.now }
    ensures bytes { HaveBytes points.now }
{
    copy[0] = Point { at: 0, value: byte };
    let rest = &mut copy[1..];
    copy_bytes(points, rest);
}

/// The value at `at` of the one polynomial, of degree at most the number of points, that goes through them and has `byte` at 0.
pub fn through(points: &[Point], byte: u8, at: u8) -> u8
    requires few { length points.now ≤ 7 }
    requires distinct { AreDistinct (places_of points.now) }
    requires away { IsAbsent 0 (places_of points.now) }
    ensures any { FixValue points.now byte at result }
    ensures exists { LeavePossible points.now byte }
{
    let mut room = [Point { at: 0, value: 0 }; 8];
    let all = &mut room[..points.len() + 1];
    copy_after(points, byte, all);
    value_at(all, at)
}
