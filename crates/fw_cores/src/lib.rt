//! New nodes of a deal: an agreement node, an executor over the store, a filter or a client for each seat of its deployment, with
//! the seat's hand.
#![tactic(auto)]

mod agreements;
mod clients;
mod dealing;
mod executors;
mod filters;

pub use dealing::{Cores, cores};
