//! Grows each list of fw_list by one item after another, and prints how long they are: bench/lists counts what that
//! allocates.
#![tactic(auto)]

use fw_list::{Bytes, Items, Memory, Newest};
use std::alloc::Global;
use std::process::ExitCode;
use std::{env, io};

/// Pushes so many items to a list of each kind, and gives their lengths.
fn grow(alloc: Global, count: u32) -> Result<(usize, usize, usize), Memory> {
    let mut bytes = Bytes::new(alloc);
    let mut items = Items::new(alloc);
    let mut newest = Newest::new(alloc);
    for k in 0..count {
        bytes.push((k % 256) as u8)?;
        items.push(k)?;
        newest.push(k)?;
    }
    Ok((bytes.len(), items.len(), newest.len()))
}

/// Takes one word, how many items.
fn main(rt: HostRuntime) -> io::Result<ExitCode> {
    let mut words = env::args(&rt)?.skip(1);
    let Some(word) = words.next() else {
        return Ok(ExitCode::from(1));
    };
    let Ok(count) = word.as_str().parse::<u32>() else {
        return Ok(ExitCode::from(1));
    };
    match grow(rt.alloc(), count) {
        Ok((bytes, items, newest)) => {
            println!(rt; "{bytes} {items} {newest}")?;
            Ok(ExitCode::from(0))
        }
        Err(Memory) => Ok(ExitCode::from(10)),
    }
}
