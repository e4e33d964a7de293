//! What liars know, and the book of texts that were hashed.
#![tactic(auto)]

mod known;
mod marks;
mod texts;

pub use known::Known;
pub use texts::{TextFault, Texts};
