//! Reads lines that speak to the nodes of all four roles, and prints one answer for each, so that cases are data: `stdin` says in
//! its head which lines there are.
#![tactic(auto)]

mod answer;
mod changing;
mod entries;
mod fault;
mod making;
mod node;
mod reporting;
mod sealed;
mod shown;
mod signing;
mod speaking;
mod stage;

use answer::{answer, staged};
use std::io;
use std::process::ExitCode;

fn main(rt: HostRuntime) -> io::Result<ExitCode> {
    let alloc = rt.alloc();
    let Ok(mut stage) = staged(alloc, 0, 0, 0) else {
        return Ok(ExitCode::from(10));
    };
    for line in rt.lines(alloc) {
        let line = line?;
        let Ok(said) = answer(alloc, &mut stage, line.as_str()) else {
            return Ok(ExitCode::from(10));
        };
        let text = str::from_utf8(said.items()).unwrap_or("?");
        println!(rt; "{text}")?;
    }
    Ok(ExitCode::from(0))
}
