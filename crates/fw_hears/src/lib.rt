//! What an agreement node keeps of the view changes and new views that it hears.
#![tactic(auto)]

mod hears;

pub use hears::{hears_change, hears_new_view};
