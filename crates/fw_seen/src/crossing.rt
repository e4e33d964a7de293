//! What crossed the rows of filters.

ghost use Rattle.std.specs.Prelude.{◌≡◌, ◌≤◌, ◌<◌, ◌^◌, ◌==◌, ◌++◌, IfOk, OnOk, IsTrue, count_by, length};
ghost use Rattle.fw_list.specs.Lists.{numbers_from};
ghost use Rattle.fw_base.specs.Sizes.{accepted};
ghost use Rattle.fw_frame.specs.Plain.{plain};
ghost use Rattle.fw_trace.specs.Trace.{crossing};
ghost use Rattle.fw_rules.specs.World.{in_row};
ghost use Rattle.fw_fair.specs.Correct.{is_whole, whole_rows};
ghost use Rattle.fw_seen.specs.Summary.{reply_in, reply_number, reply_numbers, line_of_copies, row_lines, cross_lines};
ghost use Rattle.fw_seen.specs.Crossing.{crossing_number, whole_row_lines};

use fw_base::{Params, Seat};
use fw_frame::Frame;
use fw_list::{Bytes, Items, Memory};
use fw_report::CrossLine;
use fw_step::is_faulty;
use fw_trace::Sent;
use std::alloc::Global;

/// Whether a seat is a filter of a row.
fn is_in_row(row: u32, seat: Seat) -> bool
    ensures { result ≡ in_row row seat }
{
    match seat {
        Seat::Filter(r, _) => r == row,
        _ => false,
    }
}

/// The number of a reply.
fn number_of(frame: &Frame<'_>) -> Option<u32>
    ensures { result ≡ reply_in (plain frame.now) }
{
    match frame {
        Frame::Reply { number, .. } => Some(*number),
        _ => None,
    }
}

/// The number of the reply frame that bytes are.
fn reply_number(alloc: Global, params: &Params, bytes: &[u8]) -> Result<Option<u32>, Memory>
    requires { IsTrue (accepted params.now) }
    ensures { IfOk result (λ number. number ≡ reply_number params.now bytes.now) }
{
    match Frame::read(alloc, params, bytes)? {
        Some(frame) => Ok(number_of(&frame)),
        None => Ok(None),
    }
}

/// The number of a reply frame that a row sent downwards.
fn crossing_number(
    alloc: Global,
    params: &Params,
    row: u32,
    sent: &Sent<Bytes>,
) -> Result<Option<u32>, Memory>
    requires { IsTrue (accepted params.now) }
    ensures { IfOk result (λ number. number ≡ crossing_number params.now row sent.now) }
{
    if !is_in_row(row, sent.from) {
        return Ok(None);
    }
    if !sent.from.is_above(sent.to) {
        return Ok(None);
    }
    reply_number(alloc, params, sent.message.items())
}

/// The numbers of the reply frames that a row sent downwards, in order.
fn let_down(
    alloc: Global,
    params: &Params,
    row: u32,
    pool: &[Sent<Bytes>],
) -> Result<Items<u32>, Memory>
    requires { IsTrue (accepted params.now) }
    ensures numbers { IfOk result (λ numbers. numbers ≡ reply_numbers params.now (crossing (in_row row) pool.now)) }
    ensures few { IfOk result (λ numbers. length numbers ≤ length pool.now) }
{
    let mut numbers = Items::new(alloc);
    for sent in pool {
        if let Some(number) = crossing_number(alloc, params, row, sent)? {
            numbers.push(number)?;
        }
    }
    Ok(numbers)
}

/// How often a number stands among these.
fn copies(numbers: &[u32], n: u32) -> u32
    requires { length numbers.now < 2 ^ 32 }
    ensures { result ≡ count_by (λ x. x == n) numbers.now }
{
    numbers.iter().filter(|x| **x == n).count() as u32
}

/// Adds the line of a number, where there are copies.
fn push_line(lines: &mut Items<CrossLine>, row: u32, number: u32, copies: u32) -> Result<(), Memory>
    ensures { OnOk result (lines.new ≡ lines.old ++ line_of_copies row number copies) }
{
    if copies == 0 {
        return Ok(());
    }
    lines.push(CrossLine {
        row,
        number,
        copies,
    })
}

/// Adds the lines of a row, by the numbers that it let down.
fn push_row(
    params: &Params,
    lines: &mut Items<CrossLine>,
    row: u32,
    down: &[u32],
) -> Result<(), Memory>
    requires { length down.now < 2 ^ 32 }
    ensures { OnOk result (lines.new ≡ lines.old ++ row_lines row down.now (numbers_from 1 params.now.numbers)) }
{
    for k in 0..params.numbers {
        push_line(lines, row, k + 1, copies(down, k + 1))?;
    }
    Ok(())
}

/// Whether all filters of a row are correct.
fn is_whole(params: &Params, faulty: &[Seat], row: u32) -> bool
    requires { IsTrue (accepted params.now) }
    ensures { result ≡ is_whole params.now faulty.now row }
{
    for column in 0..params.width() {
        if is_faulty(faulty, Seat::Filter(row, column)) {
            return false;
        }
    }
    true
}

/// Adds the lines of a row, if all its filters are correct.
fn add_row(
    alloc: Global,
    params: &Params,
    faulty: &[Seat],
    pool: &[Sent<Bytes>],
    row: u32,
    lines: &mut Items<CrossLine>,
) -> Result<(), Memory>
    requires sizes { IsTrue (accepted params.now) }
    requires few { length pool.now < 2 ^ 32 }
    ensures { OnOk result (lines.new ≡ lines.old ++ whole_row_lines params.now faulty.now pool.now row) }
{
    if !is_whole(params, faulty, row) {
        return Ok(());
    }
    let down = let_down(alloc, params, row, pool)?;
    push_row(params, lines, row, down.items())
}

/// The lines of all rows whose filters are correct: for each such row and number how many reply frames of that number the row sent
/// downwards, where it sent some.
pub fn cross_lines(
    alloc: Global,
    params: &Params,
    faulty: &[Seat],
    pool: &[Sent<Bytes>],
) -> Result<Items<CrossLine>, Memory>
    requires sizes { IsTrue (accepted params.now) }
    requires few { length pool.now < 2 ^ 32 }
    ensures { IfOk result (λ lines. lines ≡ cross_lines params.now pool.now (whole_rows params.now faulty.now)) }
{
    let mut lines = Items::new(alloc);
    for row in 0..params.width() {
        add_row(alloc, params, faulty, pool, row, &mut lines)?;
    }
    Ok(lines)
}
