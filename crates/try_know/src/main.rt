//! Reads cases, one a line, and prints what the public calls for what liars know, and for the book of texts, answer to each. A line that
//! is empty or begins with `#` is printed as it is. The head of `stdin` says what a line may be.
#![tactic(auto)]

mod kept;
mod notation;
mod stage;

use fw_list::Memory;
use notation::said;
use stage::Stage;
use std::alloc::Global;
use std::io;

/// What is printed for a line.
fn printed(alloc: Global, stage: &mut Stage, line: &str) -> Result<String, Memory> {
    if line.is_empty() || line.starts_with('#') {
        return said(alloc, line);
    }
    let (first, rest) = line.split_once(' ').unwrap_or((line, ""));
    match stage.answer(alloc, first, rest)? {
        Some(text) => Ok(text),
        None => said(alloc, "no case"),
    }
}

fn main(rt: HostRuntime) -> io::Result<()> {
    let mut stage = Stage::new(rt.alloc());
    for line in rt.lines(rt.alloc()) {
        match printed(rt.alloc(), &mut stage, line?.as_str()) {
            Ok(text) => println!(rt; "{text}")?,
            Err(Memory) => println!(rt; "want of memory")?,
        }
    }
    Ok(())
}
