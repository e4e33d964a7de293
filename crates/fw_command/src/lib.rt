//! The commands of the program, read from its words.
#![tactic(auto)]

mod command;
mod limits;

pub use command::{Command, command_of};
pub use limits::GREATEST;
