//! The limit of a seat's numbers in words.

/// The greatest number in the name of a seat that a command may have.
pub const GREATEST: u32 = 99;
