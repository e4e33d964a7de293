//! The lines of a report.

ghost use Rattle.std.specs.Prelude.{◌≡◌, ℕ, [], ◌∷◌, ◌++◌, IfOk, OnOk, codes, decimal};
ghost use Rattle.std.specs.List.{flat_map};
ghost use Rattle.fw_report.specs.Report.{line, agreed_line, accept_line, cross_line, yes_or_no, report_text};

use crate::words::{add_reply, add_said, add_yes_or_no};
use crate::{AcceptLine, AgreedLine, CrossLine, Summary};
use fw_list::{Bytes, Memory};
use fw_op::{add_client, add_number, add_word};
use std::alloc::Global;

fn add_agreed(alloc: Global, text: &mut Bytes, agreed: &AgreedLine) -> Result<(), Memory>
    ensures ok { OnOk result (text.new ≡ text.old ++ agreed_line agreed.now) }
{
    text.append(b"agreed")?;
    add_number(text, agreed.number)?;
    add_said(alloc, text, agreed.client, agreed.stamp, &agreed.said)?;
    text.push(b'\n')
}

fn add_accepted(alloc: Global, text: &mut Bytes, accepted: &AcceptLine) -> Result<(), Memory>
    ensures ok { OnOk result (text.new ≡ text.old ++ accept_line accepted.now) }
{
    text.append(b"accept")?;
    add_client(text, accepted.client)?;
    add_number(text, accepted.stamp)?;
    add_number(text, accepted.number)?;
    add_reply(alloc, text, &accepted.reply)?;
    text.push(b'\n')
}

fn add_cross(text: &mut Bytes, cross: &CrossLine) -> Result<(), Memory>
    ensures ok { OnOk result (text.new ≡ text.old ++ cross_line cross.now) }
{
    text.append(b"cross")?;
    add_number(text, cross.row)?;
    add_number(text, cross.number)?;
    add_number(text, cross.copies)?;
    text.push(b'\n')
}

fn add_all_agreed(alloc: Global, text: &mut Bytes, lines: &[AgreedLine]) -> Result<(), Memory>
    ensures ok { OnOk result (text.new ≡ text.old ++ flat_map agreed_line lines.now) }
{
    for agreed in lines {
        add_agreed(alloc, text, agreed)?;
    }
    Ok(())
}

fn add_all_accepted(alloc: Global, text: &mut Bytes, lines: &[AcceptLine]) -> Result<(), Memory>
    ensures ok { OnOk result (text.new ≡ text.old ++ flat_map accept_line lines.now) }
{
    for accepted in lines {
        add_accepted(alloc, text, accepted)?;
    }
    Ok(())
}

fn add_all_cross(text: &mut Bytes, lines: &[CrossLine]) -> Result<(), Memory>
    ensures ok { OnOk result (text.new ≡ text.old ++ flat_map cross_line lines.now) }
{
    for cross in lines {
        add_cross(text, cross)?;
    }
    Ok(())
}

/// A line of a word and a number.
fn add_count(text: &mut Bytes, word: &[u8], count: u32) -> Result<(), Memory>
    ensures ok { OnOk result (text.new ≡ text.old ++ line (word.now ∷ decimal count ∷ [])) }
{
    text.append(word)?;
    add_number(text, count)?;
    text.push(b'\n')
}

fn add_rest(text: &mut Bytes, rest: bool) -> Result<(), Memory>
    ensures ok { OnOk result (text.new ≡ text.old ++ line (codes "rest" ∷ yes_or_no rest ∷ [])) }
{
    text.append(b"rest")?;
    add_yes_or_no(text, rest)?;
    text.push(b'\n')
}

fn add_totals(text: &mut Bytes, events: u32, frames: u32) -> Result<(), Memory>
    ensures ok { OnOk result (text.new ≡ text.old ++ line (codes "events" ∷ decimal events ∷ codes "frames" ∷ decimal frames ∷ [])) }
{
    text.append(b"events")?;
    add_number(text, events)?;
    add_word(text, b"frames")?;
    add_number(text, frames)?;
    text.push(b'\n')
}

/// The report of a run, line by line. The only failure is want of memory.
pub fn report(alloc: Global, summary: &Summary) -> Result<Bytes, Memory>
    ensures { IfOk result (λ text. text ≡ report_text summary.now) }
{
    let mut text = Bytes::new(alloc);
    add_all_agreed(alloc, &mut text, summary.agreed.items())?;
    add_all_accepted(alloc, &mut text, summary.accepted.items())?;
    add_all_cross(&mut text, summary.cross.items())?;
    add_count(&mut text, b"waiting", summary.waiting)?;
    add_rest(&mut text, summary.rest)?;
    add_count(&mut text, b"view", summary.view)?;
    add_totals(&mut text, summary.events, summary.frames)?;
    Ok(text)
}
