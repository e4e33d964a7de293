//! The frames of a run, as text.

ghost use Rattle.std.specs.Prelude.{◌≡◌, ◌<◌};
ghost use Rattle.fw_call.specs.Reasons.{IsPlan};

use fw_deal::Deal;
use fw_digest::{Steps, digest};
use fw_list::{Bytes, Memory};
use fw_op::{add_number, add_word};
use fw_sched::{Plan, read_plan};
use fw_trace::Sent;
use fw_world::play;
use std::alloc::Global;
use std::sync::ledger::{Blank, Ledger};

/// These very words.
fn said(alloc: Global, text: &str) -> Result<Bytes, Memory> {
    Bytes::copy_of(alloc, text.as_bytes())
}

/// The kind of a frame, by its first byte.
fn kind_of(bytes: &[u8]) -> &'static str {
    match bytes.first() {
        Some(1) => "request",
        Some(2) => "propose",
        Some(3) => "vote",
        Some(4) => "change",
        Some(5) => "newview",
        Some(6) => "agreed",
        Some(7) => "share",
        Some(8) => "reply",
        Some(9) => "want",
        _ => "other",
    }
}

/// Adds the digest of bytes, in hexadecimal digits.
fn add_digest(alloc: Global, text: &mut Bytes, bytes: &[u8]) -> Result<(), Memory> {
    // (the digest is of a tag byte and the rest)
    let Some((tag, rest)) = bytes.split_first() else {
        return Ok(());
    };
    text.push(b' ')?;
    for byte in digest(*tag, rest, &[]).iter() {
        let digits = format!(in alloc; "{byte:02x}")?;
        text.append(digits.as_bytes())?;
    }
    Ok(())
}

/// Adds the line of a frame.
fn add_frame(
    alloc: Global,
    text: &mut Bytes,
    place: usize,
    sent: &Sent<Bytes>,
) -> Result<(), Memory> {
    let bytes = sent.message.items();
    text.append_number(u32::try_from(place).unwrap_or(u32::MAX))?;
    add_word(text, sent.from.name(alloc)?.items())?;
    add_word(text, sent.to.name(alloc)?.items())?;
    add_word(text, kind_of(bytes).as_bytes())?;
    add_number(text, u32::try_from(bytes.len()).unwrap_or(u32::MAX))?;
    add_digest(alloc, text, bytes)?;
    text.push(b'\n')
}

/// A line for each frame, in order.
fn shown(alloc: Global, frames: &[Sent<Bytes>]) -> Result<Bytes, Memory> {
    let mut text = Bytes::new(alloc);
    for (place, sent) in frames.iter().enumerate() {
        add_frame(alloc, &mut text, place, sent)?;
    }
    Ok(text)
}

/// The frames of a plan's run.
fn frames_of_plan<L: Ledger>(alloc: Global, plan: Plan, blank: Blank) -> Result<Bytes, Memory>
    requires plan { IsPlan plan }
    requires name { blank.name ≡ L.name }
    requires parts { blank.parts ≡ L.parts }
    requires some { 0 < blank.parts }
{
    if !plan.can_replay() {
        return said(alloc, "later\n");
    }
    let deal = Deal::new(alloc, &plan.params, &plan.seed, plan.starts.items())?;
    let mut steps = Steps::<L>::new(blank);
    match play(alloc, plan, deal, &mut steps) {
        Ok(world) => shown(alloc, world.frames()),
        Err(_) => said(alloc, "fault\n"),
    }
}

/// The frames of the run of the plan that a document is.
pub fn frames_of<L: Ledger>(alloc: Global, document: &[u8], blank: Blank) -> Result<Bytes, Memory>
    requires name { blank.name ≡ L.name }
    requires parts { blank.parts ≡ L.parts }
    requires some { 0 < blank.parts }
{
    match read_plan(alloc, document)? {
        Ok(plan) => frames_of_plan::<L>(alloc, plan, blank),
        Err(_) => said(alloc, "no document\n"),
    }
}
