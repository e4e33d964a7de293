//! What an agreement node does on a tick: it counts how long it has waited, starts a view change where that is too long, and sends again
//! what is owed.
#![tactic(auto)]

mod again;
mod tick;

pub use tick::ticks;
