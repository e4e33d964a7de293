//! What a lie of a schedule sends: the frame that a faulty seat makes with secrets of the deal, whether or not it was dealt or shown
//! them.
#![tactic(auto)]

mod answers;
mod bodies;
mod lie;
mod requests;
mod signing;
mod votes;

pub use lie::{law_lies_are_signed, lie_bytes};
