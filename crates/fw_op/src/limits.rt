//! The limits of operations and replies. The longest of them in bytes is `LONGEST_TEXT` of `fw_list`.

/// The longest key, in bytes.
pub const LONGEST_KEY: usize = 16;

/// The longest value, in bytes.
pub const LONGEST_VALUE: usize = 480;

/// The most names in a reply.
pub const MOST_NAMES: usize = 24;
