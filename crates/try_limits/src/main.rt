//! Runs worlds of toy nodes, each of which sends the same frames on every input, and says how the run ends, so that cases are data:
//! `stdin` says in its head which lines there are. What is sent is counted by the same pool, and the schedule is run by the same
//! world, as where the nodes are real.
#![tactic(auto)]

mod asked;
mod cast;
mod playing;
mod schedule;
mod toy;

use fw_list::Bytes;
use playing::answer;
use std::io;
use std::process::ExitCode;

/// The text that bytes are, or a word for none.
fn text_of(bytes: &Bytes) -> &str {
    str::from_utf8(bytes.items()).unwrap_or("no text")
}

fn main(rt: HostRuntime) -> io::Result<ExitCode> {
    let alloc = rt.alloc();
    for line in rt.lines(alloc) {
        let line = line?;
        let Ok(said) = answer(alloc, line.as_str()) else {
            return Ok(ExitCode::from(10));
        };
        println!(rt; "{}", text_of(&said))?;
    }
    Ok(ExitCode::from(0))
}
