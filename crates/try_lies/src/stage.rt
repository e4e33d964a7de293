//! A deal with its faulty seats, and the answers to lies of theirs.

ghost use Rattle.std.specs.Prelude.{IsTrue};
ghost use Rattle.fw_base.specs.Seats.{fits};
ghost use Rattle.fw_step.specs.Fitting.{lie_fits};

use crate::notation::{number, said, shown};
use fw_base::{Params, Seat};
use fw_deal::Deal;
use fw_lies::lie_bytes;
use fw_list::Memory;
use fw_step::{Lie, Step, step_of};
use std::alloc::Global;

/// A deal of a seed of zeros, with faulty seats.
#[derive(Drop)]
pub struct Stage {
    deal: Deal,
    faulty: Vec<Seat>,
}

/// Eight numbers, from f on, where they may be a deployment's.
fn params_of(words: &[&str]) -> Option<Params> {
    let [f, g, h, numbers, views, clients, stamps, pipe] = words else {
        return None;
    };
    let params = Params {
        f: number(f)?,
        g: number(g)?,
        h: number(h)?,
        numbers: number(numbers)?,
        views: number(views)?,
        clients: number(clients)?,
        stamps: number(stamps)?,
        pipe: number(pipe)?,
    };
    params.check().ok()
}

/// `F G H NUMBERS VIEWS CLIENTS STAMPS PIPE SEAT ..`: the deal of these sizes, with these faulty seats.
pub fn stage_of(alloc: Global, words: &[&str]) -> Result<Option<Stage>, Memory> {
    if words.len() < 8 {
        return Ok(None);
    }
    let Some(params) = params_of(&words[..8]) else {
        return Ok(None);
    };
    if !params.are_accepted() {
        return Ok(None);
    }
    let mut faulty = Vec::new(alloc);
    for word in &words[8..] {
        if let Some(seat) = Seat::read(&params, word) {
            faulty.push(seat)?;
        }
    }
    let deal = Deal::new(alloc, &params, &[0; 32], &[])?;
    Ok(Some(Stage { deal, faulty }))
}

/// The word of a kind of lie.
fn kind_of(lie: &Lie) -> &'static str {
    match lie {
        Lie::Raw { .. } => "raw",
        Lie::Copy { .. } => "copy",
        Lie::Request { .. } => "request",
        Lie::Propose { .. } => "propose",
        Lie::Vote { .. } => "vote",
        Lie::Change { .. } => "change",
        Lie::Share { .. } => "share",
        Lie::Reply { .. } => "reply",
    }
}

/// What a seat sends by a lie.
fn sent(alloc: Global, deal: &Deal, from: Seat, lie: &Lie) -> Result<String, Memory>
    requires from { IsTrue (fits deal.now.origin.params from) }
    requires lie { IsTrue (lie_fits deal.now.origin.params from lie.now) }
{
    match lie_bytes(alloc, deal, from, lie)? {
        Some(bytes) => shown(alloc, kind_of(lie), bytes.items()),
        None => Ok(format!(in alloc; "{} of no bytes without a pool", kind_of(lie))?),
    }
}

impl Stage {
    /// `lie FROM TO ..`: as a step of a schedule.
    pub fn answer(&self, alloc: Global, line: &str) -> Result<String, Memory> {
        let params = self.deal.directory().params();
        match step_of(alloc, params, self.faulty.as_slice(), line)? {
            Some(Step::Lie { from, lie, .. }) => sent(alloc, &self.deal, from, &lie),
            _ => said(alloc, "no lie"),
        }
    }
}
