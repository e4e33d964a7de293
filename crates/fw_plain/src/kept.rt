//! Histories, with their bytes.

ghost use Rattle.std.specs.Prelude.{◌≡◌};
ghost use Rattle.fw_node.specs.Histories.{taken, IsGiven};
ghost use Rattle.fw_plain.specs.Kept.{taken_of, CanBeTaken};

use fw_base::Seat;
use fw_list::{Bytes, Items};
use fw_node::Input;
use fw_op::Op;

/// An input that a node took.
#[derive(Drop)]
pub enum Kept {
    /// A frame from a seat.
    Frame { from: Seat, bytes: Bytes },
    Tick,
    /// An operation from a client's user.
    Submit(Op),
}

/// Inputs in the order in which they were taken.
pub type History = Items<Kept>;

impl Kept {
    /// The same, lent to a node.
    pub(crate) fn lent(&self) -> Input<'_>
        requires { CanBeTaken self.now }
        ensures same { taken result ≡ taken_of self.now }
        ensures given { IsGiven result }
    {
        match self {
            Kept::Frame { from, bytes } => Input::Frame {
                from: *from,
                bytes: bytes.items(),
            },
            Kept::Tick => Input::Tick,
            Kept::Submit(op) => Input::Submit(op),
        }
    }
}
