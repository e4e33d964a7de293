//! Runs schedules over the real nodes, and prints each frame that was sent.
//!
//! `@case NAME` begins a case. The lines behind it are its document, up to `@end`. The answer has a line for each frame of the pool:
//! its place, whom it is from and to, its kind, how many bytes it has, and their SHA-256. Lines outside of cases are written as they are.
#![tactic(auto)]

mod case;
mod frames;

use case::Case;
use fw_list::Bytes;
use std::io;
use std::process::ExitCode;

/// The text that bytes are, or a word for none.
fn text_of(bytes: &Bytes) -> &str {
    str::from_utf8(bytes.items()).unwrap_or("no text")
}

fn main(rt: HostRuntime) -> io::Result<ExitCode> {
    let mut case = Case::new(rt.alloc());
    for line in rt.lines(rt.alloc()) {
        let line = line?;
        match case.take(rt.alloc(), line.as_str()) {
            Ok(said) => print!(rt; "{}", text_of(&said))?,
            Err(_) => return Ok(ExitCode::from(10)),
        }
    }
    Ok(ExitCode::from(0))
}
