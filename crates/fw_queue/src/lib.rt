//! The message queue between agreement and execution: what is agreed goes up in order, at most `pipe` numbers above the replies.
#![tactic(auto)]

mod queue;

pub use queue::Queue;
