//! What an agreement node does in its view: the acts that it has chosen, and what it keeps of the frames that it hears.
#![tactic(auto)]

mod acting;
mod hearing;
mod sending;
mod signing;

pub use acting::performs;
pub use hearing::{hears_proposal, hears_reply, hears_vote, remembers_request, resends};
pub use sending::{send_to_others, send_to_row0};
pub use signing::own_vote;
