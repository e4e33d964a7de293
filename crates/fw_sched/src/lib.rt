//! The input: the document of a deployment and a schedule, the plan that it is, and what is wrong where it is none.
#![tactic(auto)]

mod arrays;
mod fault;
mod fields;
mod limits;
mod members;
mod plan;
mod read;
mod seats;
mod tally;

pub use fault::InputFault;
pub use fw_step::{Lie, LieAnswer, LieEntry, LieOp, LieReply, LieRequest, MOST_FLUSHED, Step};
pub use limits::MOST_STEPS;
pub use plan::{Plan, StepList};
pub use read::read_plan;
