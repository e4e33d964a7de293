//! Reads lines that speak to a store of records, and prints one answer for each, so that cases are data:
//! `stdin` says in its head which lines there are.
#![tactic(auto)]

mod answer;
mod shown;
mod state;

use answer::answer;
use state::State;
use std::io;
use std::process::ExitCode;

fn main(rt: HostRuntime) -> io::Result<ExitCode> {
    let alloc = rt.alloc();
    let Ok(mut state) = State::new(alloc) else {
        return Ok(ExitCode::from(10));
    };
    for line in rt.lines(alloc) {
        let line = line?;
        let Ok(said) = answer(alloc, &mut state, line.as_str()) else {
            return Ok(ExitCode::from(10));
        };
        let text = str::from_utf8(said.items()).unwrap_or("?");
        println!(rt; "{text}")?;
    }
    Ok(ExitCode::from(0))
}
