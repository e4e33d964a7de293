//! The votes that an agreement node knows: in order as they came, and counted.
#![tactic(auto)]

mod known;

pub use known::Known;
