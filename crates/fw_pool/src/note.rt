//! What the log keeps.

ghost use Rattle.std.specs.Prelude.{◌≡◌};
ghost use Rattle.fw_pool.specs.Notes.{place_of};

use fw_base::Seat;
use fw_op::Op;

/// What the log keeps of an input that was taken.
#[derive(Debug, Drop)]
pub enum Note {
    /// The frame at this place of the pool came to its addressee.
    Delivery { place: usize },
    Tick { seat: Seat },
    Submission { seat: Seat, op: Op },
}

impl Note {
    /// The place of the frame that came.
    pub(crate) fn place(&self) -> Option<usize>
        ensures { result ≡ place_of self.now }
    {
        match self {
            Note::Delivery { place } => Some(*place),
            _ => None,
        }
    }
}
