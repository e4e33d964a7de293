//! The view changes that an agreement node heard: in order as they came, and counted.
#![tactic(auto)]

mod heard;

pub use heard::Heard;
