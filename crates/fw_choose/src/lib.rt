//! The choices of an agreement node in its view, by what it keeps: what it proposes, what it votes for at a number, what is agreed
//! there, and which number goes up. They change nothing.
#![tactic(auto)]

mod done;
mod entries;
mod offers;
mod passes;
mod replies;
mod votes;

pub use offers::{offers_choice, offers_request};
pub use passes::{commits, goes_up, pledges, prepares};
pub use replies::reply_to;
