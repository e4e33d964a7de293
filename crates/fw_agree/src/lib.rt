//! The node of an agreement node over frames: it proposes and votes in its view, changes that view where it must, keeps what is agreed,
//! sends it up, and hands replies to their clients.
#![tactic(auto)]

mod agree;
mod hearing;
mod passes;
mod turning;

pub use agree::AgreeNode;
