//! What a line asks.

ghost use Rattle.std.specs.Prelude.{◌≤◌, IfSome};
ghost use Rattle.fw_list.specs.declared.limits.TheConstants.{LONGEST_FRAME};
ghost use Rattle.fw_step.specs.declared.limits.TheConstants.{MOST_FLUSHED};

use fw_list::LONGEST_FRAME;
use fw_op::{Words, number_of};
use fw_step::MOST_FLUSHED;

/// The most frames that a toy sends on an input.
const MOST_EACH: u32 = 100_000;

/// The steps of a schedule.
#[derive(Clone, Copy)]
pub enum Kind {
    /// Submissions.
    Frames,
    /// Ticks of an agreement node.
    Ticks,
    /// A submission, and then its first frame comes again and again.
    Deliveries,
    /// A submission, and then a flush of up to so many frames.
    Flush,
}

/// A schedule, and how many frames of which length a toy sends on each input.
#[derive(Clone, Copy)]
pub struct Asked {
    pub kind: Kind,
    pub each: u32,
    pub length: u32,
    pub count: u32,
}

/// The kind that a word names.
fn kind_of(word: &str) -> Option<Kind> {
    match word {
        "frames" => Some(Kind::Frames),
        "ticks" => Some(Kind::Ticks),
        "deliveries" => Some(Kind::Deliveries),
        "flush" => Some(Kind::Flush),
        _ => None,
    }
}

/// What a line asks: a kind, how many frames on each input, their length, and how many steps or how many frames are flushed.
pub fn ask_of(line: &str) -> Option<Asked>
    ensures length { IfSome result (λ a. (1 ≤ a.length) × (a.length ≤ LONGEST_FRAME)) }
    ensures count { IfSome result (λ a. (1 ≤ a.count) × (a.count ≤ MOST_FLUSHED)) }
{
    let mut words = Words::of(line);
    let kind = kind_of(words.next()?)?;
    let each = number_of(words.next()?, 0, MOST_EACH)?;
    let length = number_of(words.next()?, 1, LONGEST_FRAME as u32)?;
    let count = number_of(words.only_word()?, 1, MOST_FLUSHED)?;
    Some(Asked {
        kind,
        each,
        length,
        count,
    })
}
