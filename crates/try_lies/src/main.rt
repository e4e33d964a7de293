//! Reads cases, one a line, and prints of each lie its kind, and how many bytes it sends, with their SHA-256. A line that is empty or
//! begins with `#` is printed as it is. The head of `stdin` says what a line may be.
#![tactic(auto)]

mod notation;
mod stage;

use fw_list::Memory;
use notation::{said, words_of};
use stage::{Stage, stage_of};
use std::alloc::Global;
use std::io;

/// What is printed for a line.
fn printed(alloc: Global, stage: &mut Option<Stage>, line: &str) -> Result<String, Memory> {
    if line.is_empty() || line.starts_with('#') {
        return said(alloc, line);
    }
    if let Some(rest) = line.strip_prefix("deal ") {
        *stage = stage_of(alloc, &words_of(alloc, rest)?)?;
        return said(
            alloc,
            if stage.is_some() {
                "ok"
            } else {
                "no deployment"
            },
        );
    }
    match stage {
        Some(stage) => stage.answer(alloc, line),
        None => said(alloc, "no deployment"),
    }
}

fn main(rt: HostRuntime) -> io::Result<()> {
    let mut stage = None;
    for line in rt.lines(rt.alloc()) {
        match printed(rt.alloc(), &mut stage, line?.as_str()) {
            Ok(text) => println!(rt; "{text}")?,
            Err(Memory) => println!(rt; "want of memory")?,
        }
    }
    Ok(())
}
