//! Times the store: many operations over the records of 512 names, and a sum over the replies.
#![tactic(auto)]

mod generator;
mod sum;
mod work;

use std::process::ExitCode;
use std::{env, io};
use work::work;

/// Takes the words `mixed COUNT` (all eight operations) or `single COUNT` (put and get).
fn main(rt: HostRuntime) -> io::Result<ExitCode> {
    let mut words = env::args(&rt)?.skip(1);
    let (Some(kind), Some(count)) = (words.next(), words.next()) else {
        return Ok(ExitCode::from(1));
    };
    let Ok(count) = count.as_str().parse::<u32>() else {
        return Ok(ExitCode::from(1));
    };
    match work(rt.alloc(), kind.as_str() == "mixed", count) {
        Ok(sum) => {
            println!(rt; "{sum}")?;
            Ok(ExitCode::from(0))
        }
        Err(_) => Ok(ExitCode::from(10)),
    }
}
