//! How long frames are: each frame of a deployment, and bytes that were admitted as one, have a byte at least, and at most as many
//! as the longest frame. Lemmas over definitions that the node cores share, and a law that says it.
#![tactic(auto)]

ghost use Rattle.std.specs.Prelude.{◌≡◌, ℕ, Some, List, IsTrue};
ghost use Rattle.fw_base.specs.declared.seat.Seat.{Seat};
ghost use Rattle.fw_base.specs.declared.params.Params.{Params};
ghost use Rattle.fw_base.specs.Sizes.{accepted};
ghost use Rattle.fw_frame.specs.Frames.{PlainFrame};
ghost use Rattle.fw_frame.specs.Ranges.{frame_fits};
ghost use Rattle.fw_frame.specs.Spelling.{frame_bytes};
ghost use Rattle.fw_frame.specs.View.{Frame};
ghost use Rattle.fw_directory.specs.Directories.{PlainDirectory};
ghost use Rattle.fw_means.specs.Means.{admitted_by};
ghost use Rattle.fw_lengths.specs.Lengths.{HasFrameLength};

/// Each frame of a deployment can be sent, and so can bytes that were admitted as one.
#[tactic(auto, using(crate::proofs::Short::frame_short))]
pub fn law_short()
    ensures frames { (p : Params) (f : PlainFrame) → IsTrue (accepted p) → IsTrue (frame_fits p f) → HasFrameLength (frame_bytes f) }
    ensures admitted { (d : PlainDirectory) (own from : Seat) (bytes : List ℕ) (f : Frame) → IsTrue (accepted d.params) → admitted_by d own from bytes ≡ Some f → HasFrameLength bytes }
{}
