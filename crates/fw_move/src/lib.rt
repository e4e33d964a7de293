//! What an agreement node does to turn its view: it adopts a new view, sends its view change, or makes a new view.
#![tactic(auto)]

mod making;
mod moving;

pub use moving::turns;
