//! The limit of a schedule.

/// The most steps of a schedule.
pub const MOST_STEPS: usize = 100_000;
