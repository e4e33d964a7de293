//! What a seat sent in a run, beside what its role sends.

ghost use Rattle.std.specs.Prelude.{All, IsTrue};
ghost use Rattle.fw_base.specs.Sizes.{accepted};
ghost use Rattle.fw_base.specs.Seats.{fits};
ghost use Rattle.fw_record.specs.Records.{starts_fit};
ghost use Rattle.try_plain.specs.Turns.{WasTaken};

use crate::asking::sent_on;
use crate::run::Turn;
use fw_base::Seat;
use fw_deal::Deal;
use fw_digest::Steps;
use fw_list::{Bytes, Memory};
use fw_plain::History;
use fw_trace::Sent;
use std::alloc::Global;
use std::sync::ledger::Ledger;

/// How many inputs a seat took and how many frames it sent, up to the first input on which its role sends others.
#[derive(Clone, Copy, Debug, PartialEq, Eq)]
pub struct Tally {
    pub inputs: u32,
    pub frames: u32,
    pub same: bool,
}

/// Whether a frame of the pool is the one that the role of a seat sends.
fn is_same(seat: Seat, sent: &fw_node::Sent, frame: &Sent<Bytes>) -> bool {
    frame.from.is(seat) && frame.to.is(sent.to) && frame.message.items() == sent.bytes.items()
}

/// Whether these frames of the pool are what the role of a seat sends.
fn are_same(seat: Seat, out: &[fw_node::Sent], frames: &[Sent<Bytes>]) -> bool {
    out.len() == frames.len()
        && out
            .iter()
            .zip(frames.iter())
            .all(|pair| is_same(seat, pair.0, pair.1))
}

/// The frames of the pool from a place up to another, or none.
fn part(pool: &[Sent<Bytes>], from: usize, to: usize) -> &[Sent<Bytes>] {
    pool.get(from..to).unwrap_or(&[])
}

/// Compares what a seat of a deal sent in a run with what its role sends, on each of its inputs.
pub fn compared<L: Ledger>(
    alloc: Global,
    deal: &Deal,
    seat: Seat,
    pool: &[Sent<Bytes>],
    turns: &[Turn],
    steps: &mut Steps<L>,
) -> Result<Tally, Memory>
    requires sizes { IsTrue (accepted deal.now.origin.params) }
    requires starts { IsTrue (starts_fit deal.now.origin.params.clients deal.now.starts) }
    requires fits { IsTrue (fits deal.now.origin.params seat) }
    requires turns { All WasTaken turns.now }
{
    let mut history = History::new(alloc);
    let mut frames = 0_u32;
    for turn in turns {
        if turn.cause.seat.is(seat) {
            let out = sent_on(alloc, deal, seat, &mut history, &turn.cause.input, steps)?;
            let same = are_same(seat, out.sent(), part(pool, turn.from, turn.to));
            frames = frames.saturating_add(count(out.sent().len()));
            if !same {
                return Ok(tally_of(&history, frames, false));
            }
        }
    }
    Ok(tally_of(&history, frames, true))
}

/// A number of items.
fn count(len: usize) -> u32 {
    u32::try_from(len).unwrap_or(u32::MAX)
}

/// The tally of a history.
fn tally_of(history: &History, frames: u32, same: bool) -> Tally {
    Tally {
        inputs: count(history.len()),
        frames,
        same,
    }
}
