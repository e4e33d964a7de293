//! The service: a store behind sealed bodies that answers each stamp of a client once, number after number.
#![tactic(auto)]

mod bodies;
mod certificates;
mod replica;
mod service;

pub use certificates::{Certs, permitted};
pub use replica::{Answer, Keys, Last, Replica};
pub use service::Service;
