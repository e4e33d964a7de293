//! The node of a filter over frames: it lets agreed frames up, joins the replies of shares, and lets down one reply of a number,
//! to whom asked for it.
#![tactic(auto)]

mod filter;
mod hearing;
mod lookup;
mod sieve;

pub use filter::FilterNode;
