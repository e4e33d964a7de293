//! Places whose shares are combined many times: what only the places say is computed once.

ghost use Rattle.std.specs.Prelude.{◌≡◌, ◌<◌, ◌≤◌, ℕ, List, length, slice_index, take, nat_eq, bit_xor, All, EachIndex, if◌then◌else◌};
ghost use Rattle.fw_shamir.specs.Field.{gf_product};
ghost use Rattle.fw_shamir.specs.Polynomial.{AreDistinct, column};
ghost use Rattle.fw_shamir.specs.Sharing.{PointsGive, HavePolynomial};
ghost use Rattle.fw_shamir.specs.Steps.{AreWeights, weight_of};

use crate::field::mul_by_steps;
use crate::sharing::{Point, value_at};
use std::marker::Model;

/// The places of some shares, with the weight of each in the byte that they give. Its value is the list of places.
#[derive(Debug, Drop)]
pub struct Weights {
    count: usize,
    places: [u8; 8],
    weights: [u8; 8],
}

impl Model for Weights {
    ghost Value = { List ℕ };

    ghost view = { λ w. take w.count w.places };

    ghost invariant = { λ w. (w.count ≤ 8) × AreWeights (take w.count w.places) w.weights };
}

impl Weights {
    /// The weights of these places.
    pub fn of(places: &[u8]) -> Weights
        requires some { 0 < length places.now }
        requires few { length places.now ≤ 8 }
        requires distinct { AreDistinct places.now }
        ensures { result ≡ places.now }
    {
        let mut copy = [0; 8];
        let mut weights = [0; 8];
        for k in 0..places.len() {
            copy[k] = places[k];
            weights[k] = weight(places, k);
        }
        Weights {
            count: places.len(),
            places: copy,
            weights,
        }
    }

    /// Sets each byte of `out` to the byte that its shares give: the bytes with its index, one of each place.
    pub fn combine_into(&self, shares: &[&[u8]], out: &mut [u8])
        requires shares { length shares.now ≡ length self.now }
        requires lengths { All (λ share. length share.now ≡ length out.old) shares.now }
        ensures any { EachIndex out.new (λ j. PointsGive (column self.now shares.now j) (slice_index out.new j)) }
        ensures exists { EachIndex out.new (λ j. HavePolynomial (column self.now shares.now j)) }
    {
        clear(out);
        for k in 0..shares.len() {
            add_product(self.weights[k], shares[k], out);
        }
    }
}

// 1 at one index, and 0 at the others.
fn unit(k: usize, one: usize) -> u8
    ensures { result ≡ if nat_eq k one then 1 else 0 }
{
    if k == one { 1 } else { 0 }
}

// The value at 0 of the polynomial that is 1 at one place, and 0 at the others.
fn weight(places: &[u8], one: usize) -> u8
    requires few { length places.now ≤ 8 }
    requires distinct { AreDistinct places.now }
    ensures { result ≡ weight_of places.now one }
{
    let mut room = [Point { at: 0, value: 0 }; 8];
    for k in 0..places.len() {
        room[k] = Point {
            at: places[k],
            value: unit(k, one),
        };
    }
    let points = &mut room[..places.len()];
    value_at(points, 0)
}

// Sets each byte to 0.
fn clear(bytes: &mut [u8])
    ensures { EachIndex bytes.new (λ j. slice_index bytes.new j ≡ 0) }
{
    for byte in bytes.iter_mut() {
        *byte = 0;
    }
}

// Adds the product of each byte of the share to the byte at its place.
fn add_product(weight: u8, share: &[u8], out: &mut [u8])
    requires { length share.now ≡ length out.old }
    ensures bytes { EachIndex share.now (λ j. slice_index share.now j < 256) }
    ensures added { EachIndex out.new (λ j.
        slice_index out.new j ≡ bit_xor (slice_index out.old j) (gf_product weight (slice_index share.now j))) }
{
    for j in 0..out.len() {
        out[j] ^= mul_by_steps(weight, share[j]);
    }
}
