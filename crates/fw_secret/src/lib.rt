//! The dealt values of a deployment: every secret, share and key as a function of the seed, by ChaCha20 (RFC 8439). No call
//! takes memory.
#![tactic(auto)]

mod replies;
mod streams;
mod values;

pub use values::{body_key, dealt, slot_values};
