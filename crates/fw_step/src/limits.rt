//! The limits of a step.

/// The last frame that a step can name, counted from 0.
pub const LAST_FRAME: u32 = 65_535;

/// The most frames that one step delivers.
pub const MOST_FLUSHED: u32 = 1_000_000;
