//! The report of a run, as text.
#![tactic(auto)]

mod lines;
mod summary;
mod words;

pub use lines::report;
pub use summary::{AcceptLine, AgreedLine, CrossLine, Said, Summary};
