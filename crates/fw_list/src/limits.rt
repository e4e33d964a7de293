//! The sizes that several layers share, in bytes.

/// The longest text that a body seals, and so the longest operation or reply in bytes.
pub const LONGEST_TEXT: usize = 510;

/// A sealed body: two bytes of length, the padded text, and a tag of 32.
pub const BODY_LEN: usize = 544;

/// A signature: 256 values of 32 bytes. The shares that sign a reply, and its secrets, are as many.
pub const SIGNATURE_LEN: usize = 8192;

/// The digests of a slot's values in the directory: 512 of 32 bytes.
pub const ROW_LEN: usize = 16384;

/// The longest frame.
pub const LONGEST_FRAME: usize = 33_554_432;
