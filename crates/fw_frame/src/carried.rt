//! What a frame carries: for each signature or list of shares 256 values, each with its place.

ghost use Rattle.std.specs.Prelude.{◌≡◌, ◌<◌, ◌≤◌, ◌++◌, map, flat_map, IfOk, OnOk, IsTrue, All};
ghost use Rattle.fw_list.specs.Lists.{numbers_from};
ghost use Rattle.fw_base.specs.Sizes.{accepted};
ghost use Rattle.fw_text.specs.Texts.{hash};
ghost use Rattle.fw_frame.specs.Plain.{plain};
ghost use Rattle.fw_frame.specs.Parts.{IsWhole, plain_part, shown_at, shown_of, digested_parts, carried};

use crate::{Carried, Frame, Part, Shown};
use fw_base::{Params, Place};
use fw_list::{Items, Memory};
use fw_text::bit_of;
use std::alloc::Global;

impl Part<'_> {
    /// The value for a bit of the digest, with its place on the side of that bit.
    pub fn shown_at(&self, bit: u32) -> Shown
        requires bit { bit < 256 }
        requires values { IsWhole (plain_part self.now) }
        ensures { result ≡ shown_at (plain_part self.now) bit }
    {
        let at = 32 * bit as usize;
        let mut value = [0; 32];
        value.copy_from_slice(&self.values[at..at + 32]);
        let side = u32::from(bit_of(&self.digest, bit as usize));
        let place = Place {
            slot: self.slot,
            bit,
            side,
            point: self.point,
        };
        Shown { place, value }
    }
}

/// Adds the values for the first bits of a digest.
#[tactic(auto, using(crate::proofs::Rows::map_numbers_more))]
fn add_bits(part: &Part<'_>, bits: u32, out: &mut Carried) -> Result<(), Memory>
    requires bits { bits ≤ 256 }
    requires values { IsWhole (plain_part part.now) }
    ensures { OnOk result (out.new ≡ out.old ++ map (shown_at (plain_part part.now)) (numbers_from 0 bits)) }
{
    for bit in 0..bits {
        out.push(part.shown_at(bit))?;
    }
    Ok(())
}

/// Adds what a part carries.
#[tactic(auto, unfolding(crate::specs::Parts::shown_of))]
fn add_part(part: &Part<'_>, out: &mut Carried) -> Result<(), Memory>
    requires { IsWhole (plain_part part.now) }
    ensures { OnOk result (out.new ≡ out.old ++ shown_of (plain_part part.now)) }
{
    add_bits(part, 256, out)
}

/// Adds what parts carry.
fn add_parts(parts: &[Part<'_>], out: &mut Carried) -> Result<(), Memory>
    requires { All IsWhole (map plain_part parts.now) }
    ensures { OnOk result (out.new ≡ out.old ++ flat_map shown_of (map plain_part parts.now)) }
{
    for part in parts {
        add_part(part, out)?;
    }
    Ok(())
}

impl Frame<'_> {
    /// What the frame carries, in its order: for each signature or list of shares its 256 values, each with its place.
    pub fn carried(&self, alloc: Global, params: &Params) -> Result<Carried, Memory>
        requires params { IsTrue (accepted params.now) }
        requires values { All IsWhole (digested_parts params.now hash (plain self.now)) }
        ensures { IfOk result (λ list. list ≡ carried params.now hash (plain self.now)) }
    {
        let parts = self.parts(alloc, params)?;
        let mut out = Items::new(alloc);
        add_parts(parts.items(), &mut out)?;
        Ok(out)
    }
}
