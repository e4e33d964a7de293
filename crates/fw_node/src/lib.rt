//! What a seat's node is given and what it sends, and the trait of a node that takes inputs one after another.
#![tactic(auto)]

mod node;
mod outbox;
mod seats;

pub use node::{Input, Node, NodeFault};
pub use outbox::{Outbox, Sent};
pub use seats::{agreement_seats, executor_seats, row_seats};
