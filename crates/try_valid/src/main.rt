//! Reads the frame that the input is, and tells of it what the words ask: WORD SIZES or WORD COUNT SIZES, with the eight sizes of
//! a deployment.
//!
//! | Word | It tells |
//! |---|---|
//! | `again` | the frame, written again: the same bytes |
//! | `texts` | the tag and the digest of each of its texts, a line each |
//! | `read` | how often it was found to be a frame, of COUNT times |
//! | `hash` | how many texts it has, which are hashed COUNT times |
//! | `changed` | whether it is valid in the deal of a seed of zeros, and how many of the frames are that differ from it in the lowest bit of one byte, of each COUNT-th byte from the second on |
//! | `times` | how often it was found valid there, of COUNT times |
//! | `hands` | of how many seats of that deal the hand file is read, and written as the same bytes again; it needs no frame |
//!
//! With no count it is 1. The statuses are those of `statuses`.
#![tactic(auto)]

mod frames;
mod hands;
mod statuses;
mod valid;
mod work;

use fw_args::words;
use fw_io::{ReaderSource, WriterSink, read_all, write_all};
use fw_list::LONGEST_FRAME;
use statuses::{NO_MEMORY, NOT_READ, NOT_WRITTEN};
use std::io;
use std::process::ExitCode;
use work::answer;

fn main(rt: HostRuntime) -> io::Result<ExitCode> {
    let alloc = rt.alloc();
    let Ok(words) = words(&rt) else {
        return Ok(ExitCode::from(NO_MEMORY));
    };
    let mut source = ReaderSource::new(rt.stdin());
    let Ok(bytes) = read_all(alloc, &mut source, LONGEST_FRAME) else {
        return Ok(ExitCode::from(NOT_READ));
    };
    let Ok((written, status)) = answer(alloc, &words, bytes.items()) else {
        return Ok(ExitCode::from(NO_MEMORY));
    };
    let mut sink = WriterSink::new(rt.stdout());
    match write_all(&mut sink, written.items()) {
        Ok(()) => Ok(ExitCode::from(status)),
        Err(_) => Ok(ExitCode::from(NOT_WRITTEN)),
    }
}
