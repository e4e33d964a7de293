//! What the report says of a run over frames in bytes: the agreed list, what the clients accepted, what crossed each row of
//! filters, and what still waits.
#![tactic(auto)]

mod accepted;
mod agreed;
mod crossing;
mod entries;
mod whole;

pub use accepted::accept_lines;
pub use agreed::agreed_lines;
pub use crossing::cross_lines;
pub use whole::{Counts, summary};
