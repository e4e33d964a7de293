//! The directory of a deployment: the digest of each dealt value, by its place.
#![tactic(auto)]

mod directory;

pub use directory::{Directory, row_count};
