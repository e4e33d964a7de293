//! What the faulty seats of a deployment know, with its sizes.

ghost use Rattle.std.specs.Prelude.{All, IsTrue, IfOk, IfSome};
ghost use Rattle.fw_base.specs.Places.{place_fits};
ghost use Rattle.fw_base.specs.Seats.{fits};
ghost use Rattle.fw_base.specs.Sizes.{accepted};

use crate::notation::place_of;
use fw_base::{Params, Place, Seat};
use fw_deal::Deal;
use fw_frame::{Carried, Shown};
use fw_know::Known;
use fw_list::Memory;
use std::alloc::Global;
use std::marker::Model;

/// What is known so far, in the deal of a seed of zeros.
#[derive(Drop)]
pub struct Kept {
    params: Params,
    known: Known,
}

impl Model for Kept {
    ghost use Rattle.std.specs.Prelude.{◌≡◌, IsTrue};
    ghost use Rattle.fw_base.specs.Sizes.{accepted};
    ghost use Rattle.fw_base.specs.declared.params.Params.{Params};

    ghost Value = { Params };

    ghost view = { λ k. k.params };

    ghost invariant = { λ k. IsTrue (accepted k.params) × (k.known.params ≡ k.params) };
}

/// The seats that these words name, or nothing where one names none.
pub fn seats_of(alloc: Global, params: &Params, words: &[&str]) -> Result<Option<Vec<Seat>>, Memory>
    requires { IsTrue (accepted params.now) }
    ensures { IfOk result (λ found. IfSome found (λ seats. All (λ seat. IsTrue (fits params.now seat)) seats.items)) }
{
    let mut seats = Vec::new(alloc);
    for word in words {
        let Some(seat) = Seat::read(params, word) else {
            return Ok(None);
        };
        seats.push(seat)?;
    }
    Ok(Some(seats))
}

/// The place that a word names, with a value of zeros, or nothing where it names no place of the deployment.
fn shown_of(params: &Params, word: &str) -> Option<Shown>
    requires { IsTrue (accepted params.now) }
    ensures { IfSome result (λ pair. IsTrue (place_fits params.now pair.place)) }
{
    let place = place_of(word)?;
    if !place.fits(params) {
        return None;
    }
    Some(Shown {
        place,
        value: [0; 32],
    })
}

/// The places that these words name, each with a value of zeros, or nothing where one names no place of the deployment.
fn carried_of(alloc: Global, params: &Params, words: &[&str]) -> Result<Option<Carried>, Memory>
    requires { IsTrue (accepted params.now) }
    ensures { IfOk result (λ found. IfSome found (λ pairs. All (λ pair. IsTrue (place_fits params.now pair.place)) pairs)) }
{
    let mut pairs = Carried::new(alloc);
    for word in words {
        let Some(shown) = shown_of(params, word) else {
            return Ok(None);
        };
        pairs.push(shown)?;
    }
    Ok(Some(pairs))
}

/// The place of a list that is not known first, from 0.
fn position(words: &[&str], place: &Place) -> Option<usize> {
    words.iter().position(|word| place_of(word) == Some(*place))
}

impl Kept {
    /// What these seats are dealt.
    pub fn new(alloc: Global, params: &Params, faulty: &[Seat]) -> Result<Kept, Memory>
        requires sizes { IsTrue (accepted params.now) }
        requires fits { All (λ seat. IsTrue (fits params.now seat)) faulty.now }
    {
        let deal = Deal::new(alloc, params, &[0; 32], &[])?;
        Ok(Kept {
            params: *params,
            known: Known::new(alloc, &deal, faulty)?,
        })
    }

    /// Adds what a frame shows at these places, or nothing where one of them is no place of the deployment.
    pub fn add(&mut self, alloc: Global, words: &[&str]) -> Result<bool, Memory> {
        let Some(pairs) = carried_of(alloc, &self.params, words)? else {
            return Ok(false);
        };
        self.known.add(&pairs);
        Ok(true)
    }

    /// Whether a place is known, or nothing where it is no place of the deployment.
    pub fn is_known(&self, place: &Place) -> Option<bool> {
        if !place.fits(&self.params) {
            return None;
        }
        Some(self.known.may_show(place))
    }

    /// Which of these places is the first that is not known, from 0; with `Ok(None)` one of them is no place of the deployment.
    pub fn first(&self, alloc: Global, words: &[&str]) -> Result<Option<Option<usize>>, Memory> {
        let Some(pairs) = carried_of(alloc, &self.params, words)? else {
            return Ok(None);
        };
        match self.known.first_unknown(&pairs) {
            Some(place) => Ok(Some(position(words, &place))),
            None => Ok(Some(None)),
        }
    }
}
