//! Answers lines on the sizes, the seats, the links and the places of deployments: one line for each line of its input.
//! Blank lines, and lines that begin with `#`, are written as they are.
#![tactic(auto)]

mod answer;
mod place;

use answer::answer;
use fw_base::Params;
use std::io;

fn main(rt: HostRuntime) -> io::Result<()> {
    let mut params = Params {
        f: 0,
        g: 0,
        h: 0,
        numbers: 1,
        views: 1,
        clients: 1,
        stamps: 1,
        pipe: 1,
    };
    for line in rt.lines(rt.alloc()) {
        let text = answer(rt.alloc(), &mut params, line?.as_str())?;
        println!(rt; "{text}")?;
    }
    Ok(())
}
