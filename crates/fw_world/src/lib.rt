//! The replay of a plan over the nodes of its deployment, each with its hand of the plan's deal, and the report of the run.
#![tactic(auto)]

mod playing;
mod replaying;
mod reporting;
mod viewing;

pub use fw_grid::RunFault;
pub use playing::{Cast, play};
pub use replaying::replay;
