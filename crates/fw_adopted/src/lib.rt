//! The new views that an agreement node has adopted, and what the last of them chooses, which is computed once.
#![tactic(auto)]

mod adoptions;
mod plan;

pub use adoptions::{Adoptions, OwnedAdopted};
