//! The steps of a schedule: what they are, and how each is read from its text.
#![tactic(auto)]

mod correct;
mod digits;
mod lie;
mod limits;
mod parts;
mod read;
mod step;
mod text;

pub use correct::{is_correct, is_faulty, is_honest};
pub use limits::{LAST_FRAME, MOST_FLUSHED};
pub use read::step_of;
pub use step::{Lie, LieAnswer, LieEntry, LieOp, LieReply, LieRequest, Step};
