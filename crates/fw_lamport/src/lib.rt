//! One-time signatures (Lamport 1979): a slot has two secrets for each bit of a digest, and a signature is the one on each
//! bit's side. No call takes memory.
#![tactic(auto)]

mod place;
mod signing;
mod verifying;

pub use signing::sign;
pub use verifying::{value_digest, verify};
