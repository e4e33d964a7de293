//! Shares of replies are kept, and the reply is joined where enough of them are equal.
#![tactic(auto)]

mod combiner;
mod joining;
mod kept;

pub use combiner::Combiner;
pub use kept::{Answer, KeptShare};
