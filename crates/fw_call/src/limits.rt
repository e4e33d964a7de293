//! The limit of an input.

/// The most bytes of an input document.
pub const LONGEST_INPUT: usize = 268_435_456;
