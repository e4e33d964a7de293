//! What each role sends on a history, asked of the whole history at once: a new node of the role takes the inputs one after another, and
//! nothing is kept between two calls.
#![tactic(auto)]

mod after;
mod kept;
mod roles;

pub use kept::{History, Kept};
pub use roles::{agree_out, client_out, exec_out, filter_out};
