//! What an agreement node keeps, with its bytes, and the acts that it chooses from it.
#![tactic(auto)]

mod keeps;

pub use keeps::{Act, Cast, Keeps, Pledge};
