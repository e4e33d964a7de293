//! The store of records: what an operation replies and changes, and what each client sees.
#![tactic(auto)]

mod build;
mod change;
mod law;
mod place;
mod store;
mod view;

pub use build::are_distinct;
pub use law::{law_isolation, law_order};
pub use store::{Store, View};
