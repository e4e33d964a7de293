//! The limit of a list of records.

/// The most records that a service starts with.
pub const MOST_RECORDS: usize = 256;
