//! What is answered to a line.

use crate::fault::{Fault, number, word};
use crate::shown::said;
use crate::stage::Stage;
use fw_base::{Params, Seat};
use fw_list::{Bytes, Memory};
use fw_op::Words;
use std::alloc::Global;

/// Nobody was spoken to: the deal of a deployment that bears these faults.
pub fn staged(alloc: Global, f: u32, g: u32, h: u32) -> Result<Stage, Fault> {
    let sizes = Params {
        f,
        g,
        h,
        numbers: 8,
        views: 2,
        clients: 2,
        stamps: 4,
        pipe: 4,
    };
    match sizes.check() {
        Ok(params) => Ok(Stage::new(alloc, &params)?),
        Err(_) => Err(Fault::NoLine),
    }
}

/// The answer to a line: a comment and a blank line are their own.
pub fn answer(alloc: Global, stage: &mut Stage, line: &str) -> Result<Bytes, Memory> {
    if line.is_empty() || line.starts_with('#') {
        return said(alloc, line);
    }
    match answered(alloc, stage, &mut Words::of(line)) {
        Ok(text) => Ok(text),
        Err(Fault::NoLine) => said(alloc, "?"),
        Err(Fault::Memory) => Err(Memory),
    }
}

/// The answer to the words of a line.
fn answered(alloc: Global, stage: &mut Stage, words: &mut Words<'_>) -> Result<Bytes, Fault> {
    let first = word(words)?;
    if let Some(seat) = Seat::read(stage.deal().directory().params(), first) {
        return stage.speak(seat, words);
    }
    match first {
        "deal" => deal(alloc, stage, words),
        "report" => stage.report(words),
        _ => stage.make(first, words),
    }
}

/// `F G H`: all begins anew.
fn deal(alloc: Global, stage: &mut Stage, words: &mut Words<'_>) -> Result<Bytes, Fault> {
    *stage = staged(alloc, number(words)?, number(words)?, number(words)?)?;
    Ok(said(alloc, "dealt")?)
}
