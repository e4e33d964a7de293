//! What befalls a seat.

use fw_base::Seat;
use fw_op::Op;

/// What befalls a seat.
#[derive(Clone, Copy)]
pub enum Cause<'a> {
    /// The frame at this place of the pool comes to its addressee.
    Frame(usize),
    /// The seat's clock ticks.
    Tick(Seat),
    /// The seat's user submits an operation.
    Submit(Seat, &'a Op),
}
