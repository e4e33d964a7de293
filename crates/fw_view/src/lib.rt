//! The view changes of agreement nodes, counted, and what a new view is made of.
#![tactic(auto)]

mod changes;
mod chosen;

pub use changes::Changes;
pub use chosen::{Chosen, choice};
