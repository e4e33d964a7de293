//! The call over a source and a sink that fail, over those that never do, and over a source that makes its bytes.

use crate::failing::Endless;
use fw_base::IdleLink;
use fw_call::{LONGEST_INPUT, firewall};
use fw_io::{
    Calls, MemorySink, MemorySource, ReaderSource, Sink, Source, SteadySink, SteadySource,
};
use fw_list::{Bytes, Memory};
use std::alloc::Global;
use std::process::Abort;
use std::test::Fail;

const ONE_PUT: &str =
    "version = 1\nf = 0\ng = 0\nh = 0\nnumbers = 8\nviews = 2\nclients = 2\nstamps = 4\npipe = 4\nseed = \"0000000000000000000000000000000000000000000000000000000000000000\"\nfaulty = []\nrecords = []\nsteps = [\"submit c0 put alpha one\", \"flush 100\"]\n";

/// How a replay ended: the number of its status, and what was written.
#[derive(Drop)]
struct Ending {
    code: u8,
    text: Bytes,
}

/// The list of the one call that fails, or of none.
fn failing(alloc: Global, call: Option<u64>) -> Result<Calls, Memory> {
    let mut fails = Calls::new(alloc);
    if let Some(call) = call {
        fails.push(call)?;
    }
    Ok(fails)
}

/// The document.
fn document(alloc: Global) -> Result<Bytes, Memory> {
    Bytes::copy_of(alloc, ONE_PUT.as_bytes())
}

/// The words of a replay.
fn words(alloc: Global) -> Result<Vec<String>, Memory> {
    let mut words = Vec::new(alloc);
    words.push(String::from_str(alloc, "replay")?)?;
    Ok(words)
}

/// The number of the status of a call with these words.
fn code<S: Source, K: Sink>(alloc: Global, words: &[String], source: &mut S, sink: &mut K) -> u8 {
    let mut link = IdleLink::new();
    firewall(alloc, words, source, sink, &mut link).code()
}

/// How a replay of a source ends, over a sink of so much room that fails at a call, or at none.
fn outcome<S: Source>(
    alloc: Global,
    source: &mut S,
    fails: Option<u64>,
    room: usize,
) -> Result<Ending, Memory> {
    let words = words(alloc)?;
    let mut sink = MemorySink::new(alloc, room, failing(alloc, fails)?)?;
    let code = code(alloc, &words, source, &mut sink);
    Ok(Ending {
        code,
        text: Bytes::copy_of(alloc, sink.written())?,
    })
}

/// How a replay of the document ends, over a source that fails at a call, or at none.
fn replayed(
    alloc: Global,
    source_fails: Option<u64>,
    sink_fails: Option<u64>,
    room: usize,
) -> Result<Ending, Memory> {
    let mut source = MemorySource::new(document(alloc)?, failing(alloc, source_fails)?);
    outcome(alloc, &mut source, sink_fails, room)
}

/// The status of a replay over a source and a sink that never fail.
fn steady(alloc: Global) -> Result<u8, Memory> {
    let words = words(alloc)?;
    let mut source = SteadySource::new(document(alloc)?);
    let mut sink = SteadySink::new();
    Ok(code(alloc, &words, &mut source, &mut sink))
}

/// Compares the answer and what was written.
fn expect(rt: &impl Abort, outcome: &Ending, code: u8, text: &[u8]) {
    assert_eq!(rt; outcome.code, code);
    assert_eq!(rt; outcome.text.items(), text);
}

#[test]
fn a_source_or_a_sink_fails(rt: HostRuntime) -> Result<(), Fail> {
    let alloc = rt.alloc();
    let source = replayed(alloc, Some(1), None, 1000)?;
    expect(&rt, &source, 2, b"fault read\n");
    let sink = replayed(alloc, None, Some(0), 1000)?;
    expect(&rt, &sink, 3, b"");
    let full = replayed(alloc, None, None, 10)?;
    expect(&rt, &full, 3, b"agreed 1 c");
    Ok(())
}

/// The status of a replay of bytes that a reader of the standard library tells.
#[test]
fn a_reader_tells_its_document(rt: HostRuntime) -> Result<(), Fail> {
    let mut source = ReaderSource::telling(ONE_PUT.as_bytes());
    let told = outcome(rt.alloc(), &mut source, None, 1000)?;
    assert_eq!(rt; told.code, 0);
    assert_eq!(rt; told.text.len(), 103);
    Ok(())
}

/// The status of a replay over a source and a sink that never fail.
#[test]
fn nothing_fails(rt: HostRuntime) -> Result<(), Fail> {
    assert_eq!(rt; steady(rt.alloc())?, 0);
    Ok(())
}

/// An input of one byte more than it may have, which its reader makes as it is read.
#[test]
fn an_input_is_too_long(rt: HostRuntime) -> Result<(), Fail> {
    let mut source = ReaderSource::new(Endless {
        left: LONGEST_INPUT + 1,
    });
    let long = outcome(rt.alloc(), &mut source, None, 1000)?;
    expect(&rt, &long, 6, b"fault too-long\n");
    Ok(())
}
