//! The votes of agreement nodes, counted: who has voted for what, and whether that is a quorum.
#![tactic(auto)]

mod votes;

pub use votes::Votes;
