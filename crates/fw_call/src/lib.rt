//! The call `firewall`: words, a source, a sink and a link in, a status out.
#![tactic(auto)]

mod answer;
mod call;
mod limits;
mod line;
mod status;

pub use call::firewall;
pub use fw_rules::Which;
pub use fw_sched::InputFault;
pub use limits::LONGEST_INPUT;
pub use status::Status;
