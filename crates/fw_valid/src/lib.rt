//! Which frames are valid in a directory, and which of the values that a frame carries are shown.
#![tactic(auto)]

mod checking;
mod digests;
mod pieces;
mod showing;

pub use checking::{Checked, check};
pub use showing::shown;
