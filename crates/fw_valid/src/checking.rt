//! The check of a frame against a directory.

ghost use Rattle.std.specs.Prelude.{◌≡◌, ◌≤◌, ◌+◌, ◌*◌, length, IsTrue, IsSome, IfSome, IfNone};
ghost use Rattle.fw_text.specs.Texts.{hash};
ghost use Rattle.fw_frame.specs.Plain.{plain};
ghost use Rattle.fw_frame.specs.Parts.{digested_parts};
ghost use Rattle.fw_frame.specs.Ranges.{frame_fits};
ghost use Rattle.fw_valid.specs.Validity.{IsValidFrame};

use crate::pieces::check_frame;
use fw_digest::Steps;
use fw_directory::Directory;
use fw_frame::Frame;
use std::marker::Model;
use std::sync::ledger::Ledger;

/// A frame that is valid in a directory.
#[derive(Drop)]
pub struct Checked<'a> {
    frame: Frame<'a>,
}

impl<'a> Model for Checked<'a> {
    ghost use Rattle.fw_frame.specs.declared.frame.Frame.{Frame};

    ghost Value = { Frame };

    ghost view = { λ c. c.frame };
}

impl<'a> Checked<'a> {
    /// The frame alone.
    pub fn frame(&self) -> &Frame<'a>
        ensures { result.now ≡ self.now }
    {
        &self.frame
    }
}

/// The frame, checked, or none exactly where it is not valid: where a signature or a list of shares has a value without its
/// place's digest. It takes no memory. Each signature or list of shares costs at most 260 steps, the digests that are made: one
/// for each of its values up to the first wrong one, and those of the texts.
pub fn check<'a, L: Ledger>(
    directory: &Directory,
    frame: Frame<'a>,
    steps: &mut Steps<L>,
) -> Option<Checked<'a>>
    requires { IsTrue (frame_fits directory.now.params (plain frame)) }
    ensures found { IfSome result (λ checked. (checked ≡ frame.entry) × IsValidFrame directory.now (plain frame.entry)) }
    ensures none { IfNone result (¬ IsValidFrame directory.now (plain frame.entry)) }
    ensures most { steps.new ≤ steps.old + 260 * length (digested_parts directory.now.params hash (plain frame.entry)) }
    ensures least { IsSome result → steps.old + 256 * length (digested_parts directory.now.params hash (plain frame.entry)) ≤ steps.new }
{
    if check_frame(directory, &frame, steps) {
        Some(Checked { frame })
    } else {
        None
    }
}
