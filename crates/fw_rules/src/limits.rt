//! How much a run may send in all.

/// How many frames.
pub const MOST_FRAMES: usize = 65_536;

/// How many bytes their frames have in all.
pub const MOST_BYTES: usize = 1_073_741_824;

/// Which of the two a run would pass.
#[derive(Clone, Copy, Debug, PartialEq, Eq)]
pub enum Which {
    Frames,
    Bytes,
}
