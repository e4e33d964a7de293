//! The node of an executor over frames: it keeps the agreed entries, executes them in the order of their numbers, and shares the
//! sealed replies, signed by its values.
#![tactic(auto)]

mod entries;
mod hearing;
mod kept;
mod node;
mod own;
mod running;

pub use node::ExecNode;
