//! Why a run failed.

use fw_base::Place;
use fw_list::Bytes;
use fw_rules::Which;

/// Why a frame may not be sent.
#[derive(Debug, Drop)]
pub enum Fault {
    /// A lie shows this place, which the faulty seats don't know.
    Unknown(Place),
    /// Two different texts have one digest: this one, which was kept before, and this one of the frame.
    Collision { old: Bytes, new: Bytes },
    /// Too many frames would have been sent, or too many bytes.
    Limit(Which),
}
