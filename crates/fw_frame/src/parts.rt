//! The parts of a frame, which are its signatures and lists of shares, and how they are gathered.

ghost use Rattle.std.specs.Prelude.{◌≡◌, IfOk, OnOk};
ghost use Rattle.fw_frame.specs.Parts.{vote_slot};
ghost use Rattle.fw_frame.specs.Gathered.{GathersSigned, GathersUnsigned};

use crate::{Text, TextList};
use fw_base::Slot;
use fw_list::{Bytes, Items, Memory};
use std::alloc::Global;

/// A signature or a list of shares in a frame: 256 values of a slot, at a point, that sign the bits of a digest.
#[derive(Clone, Copy)]
pub struct Part<'a> {
    pub slot: Slot,
    pub point: u32,
    pub digest: [u8; 32],
    pub values: &'a [u8],
}

/// The parts of a frame, in its order.
pub type PartList<'a> = Items<Part<'a>>;

/// What a walk over a frame has gathered.
#[derive(Drop)]
pub struct Gathered<'a> {
    pub parts: PartList<'a>,
    pub texts: TextList,
}

/// Adds a signature or a list of shares, with the text that it signs.
pub fn add_signed<'a>(
    out: &mut Gathered<'a>,
    slot: Slot,
    point: u32,
    text: Text,
    values: &'a [u8],
) -> Result<(), Memory>
    ensures { OnOk result (GathersSigned out.old out.new slot point text values.now) }
{
    let digest = text.digest;
    let part = Part {
        slot,
        point,
        digest,
        values,
    };
    out.parts.push(part)?;
    out.texts.push(text)
}

/// Adds a text that nothing signs.
pub fn add_unsigned(out: &mut Gathered<'_>, text: Text) -> Result<(), Memory>
    ensures { OnOk result (GathersUnsigned out.old out.new text) }
{
    out.texts.push(text)
}

/// The slot of a vote: prepare (phase 0) or commit.
pub fn vote_slot(phase: u32, view: u32, number: u32, agree: u32) -> Slot
    ensures { result ≡ vote_slot phase view number agree }
{
    if phase == 0 {
        Slot::Prepare {
            view,
            number,
            agree,
        }
    } else {
        Slot::Commit {
            view,
            number,
            agree,
        }
    }
}

/// A copy of a text.
pub fn copy_of_text(alloc: Global, text: &Text) -> Result<Text, Memory>
    ensures { IfOk result (λ copy. copy ≡ text.now) }
{
    Ok(Text {
        digest: text.digest,
        text: Bytes::copy_of(alloc, text.text.items())?,
    })
}
