//! The program `firewall`: it replays a schedule over the nodes of a small deployment, and prints the report.
#![tactic(auto)]

use fw_args::words;
use fw_base::IdleLink;
pub use fw_call::{Status, firewall};
use fw_io::{ReaderSource, WriterSink};
use std::process::ExitCode;

/// Calls `firewall` with the words of the process, its standard input and its standard output, and a link to nobody. What
/// the arguments are, and what the system's streams give and take, no contract can say: that is only tested.
fn main(rt: HostRuntime) -> ExitCode {
    let Ok(words) = words(&rt) else {
        return Status::Memory.exit_code();
    };
    let mut source = ReaderSource::new(rt.stdin());
    let mut sink = WriterSink::new(rt.stdout());
    let mut link = IdleLink::new();
    firewall(rt.alloc(), &words, &mut source, &mut sink, &mut link).exit_code()
}
