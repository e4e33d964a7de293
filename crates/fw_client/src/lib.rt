//! The node of a client over frames: it asks one operation at a time, sealed and signed, and accepts the reply to it.
#![tactic(auto)]

mod asking;
mod client;
mod hearing;
mod submissions;

pub use client::ClientNode;
pub use submissions::Accepted;
