//! Runs schedules over the real nodes, and asks the plain calls of the roles for the same: for each seat, on each of its inputs, what
//! its role sends on its whole history up to that input.
//!
//! `@case NAME` begins a case. The lines behind it are its document, up to `@end`. The answer has a line for each seat: how many
//! inputs it took, how many frames it sent, and that they are the same, or on which of its inputs, from 1, they are not. Then it says
//! whether all that the rows of filters let down is permitted by the agreed list, and of each record that is asked for who of the
//! clients is shown it at the start. Lines outside of cases are written as they are.
#![tactic(auto)]

mod asking;
mod case;
mod certificates;
mod compared;
mod run;
mod seeing;
mod singles;
mod told;

use case::Case;
use fw_list::Bytes;
use std::io;
use std::process::ExitCode;

/// The text that bytes are, or a word for none.
fn text_of(bytes: &Bytes) -> &str {
    str::from_utf8(bytes.items()).unwrap_or("no text")
}

fn main(rt: HostRuntime) -> io::Result<ExitCode> {
    let mut case = Case::new(rt.alloc());
    for line in rt.lines(rt.alloc()) {
        let line = line?;
        match case.take(rt.alloc(), line.as_str()) {
            Ok(said) => print!(rt; "{}", text_of(&said))?,
            Err(_) => return Ok(ExitCode::from(10)),
        }
    }
    Ok(ExitCode::from(0))
}
