//! The statuses.

/// What was asked for is written.
pub const DONE: u8 = 0;

/// The words are wrong: `usage` is written.
pub const USAGE: u8 = 1;

/// The input can't be read, or is too long.
pub const NOT_READ: u8 = 2;

/// The answer can't be written.
pub const NOT_WRITTEN: u8 = 3;

/// The input is no frame: `no frame` is written.
pub const NO_FRAME: u8 = 4;

/// Memory ran out.
pub const NO_MEMORY: u8 = 10;
