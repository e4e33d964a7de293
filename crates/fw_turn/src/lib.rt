//! How an agreement node turns its view: the new view that it adopts, the view change that it joins, and the new view that it makes as
//! primary, by what it keeps. The choices change nothing.
#![tactic(auto)]

mod choosing;
mod turn;

pub use choosing::{adopts, joins, makes};
pub use turn::Turn;
