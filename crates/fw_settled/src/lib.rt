//! The numbers that are agreed or answered, with the queue of their frames.
#![tactic(auto)]

mod settled;

pub use settled::Settled;
