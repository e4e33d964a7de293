//! Reading to the end, and writing all.

use crate::failing::Halting;
use fw_io::{
    Calls, MemorySink, MemorySource, ReadAll, ReaderSource, Source, WriteFault, WriterSink,
    read_all, write_all,
};
use fw_list::{Bytes, Memory};
use std::alloc::Global;
use std::process::Abort;

/// The list of one call.
fn calls(alloc: Global, call: u64) -> Result<Calls, Memory> {
    let mut calls = Calls::new(alloc);
    calls.push(call)?;
    Ok(calls)
}

/// How many bytes are read of a source.
fn count<S: Source>(alloc: Global, source: &mut S, limit: usize) -> Result<usize, ReadAll> {
    let read = read_all(alloc, source, limit)?;
    Ok(read.len())
}

/// How many bytes are read of these, from a source that fails at a call.
fn read_bytes(alloc: Global, bytes: &[u8], fails: u64, limit: usize) -> Result<usize, ReadAll> {
    let bytes = Bytes::copy_of(alloc, bytes)?;
    let mut source = MemorySource::new(bytes, calls(alloc, fails)?);
    count(alloc, &mut source, limit)
}

/// How many bytes are read of a text by a reader of the standard library.
fn read_text(alloc: Global, text: &[u8], limit: usize) -> Result<usize, ReadAll> {
    count(alloc, &mut ReaderSource::new(text), limit)
}

/// The same, of a reader whose bytes are told.
fn read_told(alloc: Global, text: &[u8], limit: usize) -> Result<usize, ReadAll> {
    count(alloc, &mut ReaderSource::telling(text), limit)
}

/// How many bytes are read of a reader that has five, and fails at a call.
fn read_halting(alloc: Global, fails: u32) -> Result<usize, ReadAll> {
    let mut source = ReaderSource::new(Halting {
        left: 5,
        fails,
        calls: 0,
    });
    count(alloc, &mut source, 100)
}

/// Whether six bytes are written by a writer that has room for so many, and fails at a call.
fn write_halting(room: usize, fails: u32) -> Result<(), WriteFault> {
    let mut sink = WriterSink::new(Halting {
        left: room,
        fails,
        calls: 0,
    });
    write_all(&mut sink, b"hello!")
}

/// Whether six bytes are written into a buffer by a writer of the standard library.
fn write_into(buffer: &mut [u8]) -> Result<(), WriteFault> {
    let mut sink = WriterSink::new(buffer);
    write_all(&mut sink, b"hello!")
}

/// How many bytes are written of two texts of six bytes, to a sink that fails at a call, and whether all were.
fn write_two(alloc: Global, fails: u64, room: usize) -> Result<(usize, bool), Memory> {
    let mut sink = MemorySink::new(alloc, room, calls(alloc, fails)?)?;
    let first = write_all(&mut sink, b"hello!").is_ok();
    let second = write_all(&mut sink, b"hello!").is_ok();
    Ok((sink.written().len(), first && second))
}

/// Compares what was read.
fn reads(rt: &impl Abort, read: Result<usize, ReadAll>, expected: Result<usize, ReadAll>) {
    assert_eq!(rt; read, expected);
}

/// Compares what was written of two texts.
fn writes_two(rt: &impl Abort, written: Result<(usize, bool), Memory>, len: usize, all: bool) {
    assert_eq!(rt; written, Ok((len, all)));
}

/// Compares whether all was written.
fn writes(rt: &impl Abort, written: Result<(), WriteFault>, all: bool) {
    assert_eq!(rt; written.is_ok(), all);
}

/// Six bytes. Four calls are enough for 3,000: three blocks, and the end.
#[test]
fn sources_are_read_to_their_end(rt: HostRuntime) {
    let alloc = rt.alloc();
    let many = [b'x'; 3000];
    reads(&rt, read_bytes(alloc, b"hello!", 9, 6), Ok(6));
    reads(&rt, read_bytes(alloc, b"hello!", 9, usize::MAX), Ok(6));
    reads(
        &rt,
        read_bytes(alloc, b"hello!", 9, 5),
        Err(ReadAll::TooLong),
    );
    reads(&rt, read_bytes(alloc, b"hello!", 1, 6), Err(ReadAll::Fault));
    reads(&rt, read_bytes(alloc, &many, 4, 3000), Ok(3000));
    reads(&rt, read_bytes(alloc, &many, 3, 3000), Err(ReadAll::Fault));
    reads(&rt, read_text(alloc, b"hello", 5), Ok(5));
    reads(&rt, read_text(alloc, b"hello", 4), Err(ReadAll::TooLong));
    reads(&rt, read_text(alloc, &many, 3000), Ok(3000));
    reads(&rt, read_told(alloc, b"hello", 5), Ok(5));
    reads(&rt, read_halting(alloc, 9), Ok(5));
    reads(&rt, read_halting(alloc, 5), Err(ReadAll::Fault));
    reads(&rt, read_halting(alloc, 3), Err(ReadAll::Fault));
}

#[test]
fn texts_are_written_whole(rt: HostRuntime) {
    let alloc = rt.alloc();
    writes_two(&rt, write_two(alloc, 9, 12), 12, true);
    writes_two(&rt, write_two(alloc, 9, 10), 10, false);
    writes_two(&rt, write_two(alloc, 0, 12), 6, false);
    writes_two(&rt, write_two(alloc, 2, 12), 12, true);
    writes(&rt, write_into(&mut [0; 6]), true);
    writes(&rt, write_into(&mut [0; 5]), false);
    writes(&rt, write_halting(6, 9), true);
    writes(&rt, write_halting(5, 9), false);
    writes(&rt, write_halting(6, 3), false);
}
