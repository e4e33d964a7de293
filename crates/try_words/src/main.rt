//! Reads cases, one a line, and prints what the public calls for fields, operations and replies answer to each.
//! A line that is empty or begins with `#` is printed as it is. A `|` at the end only shows where the line ends.
//!
//! `read HEX STEP ..` and `write FIELD ..` are of fields. `op WORD ..` and `reply WORD ..` are answered by the bytes, and
//! `op-bytes HEX` and `reply-bytes HEX`, in small letters, by the words, each with whether what was read is written again as it
//! was read. `op-of CLIENTS WORD ..` and `reply-of CLIENTS WORD ..` are read where there are so many clients. `start KEY VALUE`
//! is a record.
#![tactic(auto)]

mod fields;
mod ops;
mod records;
mod replies;
mod spelling;

use fw_list::Memory;
use spelling::{Spelling, of_digits, of_words, said};
use std::alloc::Global;
use std::io;

/// What is spelled in words, of a kind.
fn from_text(alloc: Global, kind: &str, text: &str) -> Result<Option<Spelling>, Memory> {
    if kind == "op" {
        ops::of_text(alloc, text)
    } else {
        replies::of_text(alloc, text)
    }
}

/// What is spelled in digits, of a kind.
fn from_digits(alloc: Global, kind: &str, digits: &str) -> Result<String, Memory> {
    let Ok(bytes) = hex::decode(alloc, digits) else {
        return said(alloc, "no bytes");
    };
    let found = if kind == "op-bytes" {
        ops::of_bytes(alloc, bytes.as_slice())?
    } else {
        replies::of_bytes(alloc, bytes.as_slice())?
    };
    of_digits(alloc, found, digits)
}

/// What a line `CLIENTS WORD ..` spells, of a kind.
fn from_words(alloc: Global, kind: &str, line: &str) -> Result<String, Memory> {
    let (clients, text) = line.split_once(' ').unwrap_or(("0", line));
    let clients = clients.parse::<u32>().unwrap_or(0);
    let found = if kind == "op-of" {
        ops::of_clients(alloc, clients, text)?
    } else {
        replies::of_clients(alloc, clients, text)?
    };
    match found {
        Some(words) => Ok(words),
        None => said(alloc, "none"),
    }
}

/// The answer to a line.
fn answer(alloc: Global, line: &str) -> Result<String, Memory> {
    let (word, rest) = line.split_once(' ').unwrap_or((line, ""));
    match word {
        "read" => fields::read(alloc, rest),
        "write" => fields::write(alloc, rest),
        "op" | "reply" => of_words(alloc, from_text(alloc, word, rest)?, rest),
        "op-bytes" | "reply-bytes" => from_digits(alloc, word, rest),
        "op-of" | "reply-of" => from_words(alloc, word, rest),
        "start" => records::start(alloc, rest),
        _ => said(alloc, "no case"),
    }
}

/// What is printed for a line.
fn printed(alloc: Global, line: &str) -> Result<String, Memory> {
    if line.is_empty() || line.starts_with('#') {
        return said(alloc, line);
    }
    answer(alloc, line.strip_suffix('|').unwrap_or(line))
}

fn main(rt: HostRuntime) -> io::Result<()> {
    for line in rt.lines(rt.alloc()) {
        match printed(rt.alloc(), line?.as_str()) {
            Ok(text) => println!(rt; "{text}")?,
            Err(Memory) => println!(rt; "want of memory")?,
        }
    }
    Ok(())
}
