//! One case: the words and the document of a call, line by line, and its answer.

use fw_base::IdleLink;
use fw_call::firewall;
use fw_io::{Calls, MemorySink, MemorySource};
use fw_list::{Bytes, Memory};
use std::alloc::Global;

/// The most bytes that a call writes here.
const ROOM: usize = 4096;

/// A case that is being read, or none.
#[derive(Drop)]
pub struct Case {
    open: bool,
    words: Vec<String>,
    document: Bytes,
}

/// Adds a line, with its end.
fn add_text(text: &mut Bytes, line: &str) -> Result<(), Memory> {
    text.append(line.as_bytes())?;
    text.push(b'\n')
}

/// A line, with its end.
fn line_of(alloc: Global, line: &str) -> Result<Bytes, Memory> {
    let mut said = Bytes::new(alloc);
    add_text(&mut said, line)?;
    Ok(said)
}

/// Brings a document to a length by a comment.
fn pad(document: &mut Bytes, len: usize) -> Result<(), Memory> {
    document.push(b'#')?;
    for _ in document.len()..len {
        document.push(b' ')?;
    }
    Ok(())
}

/// Adds the bytes of digits.
fn add_digits(alloc: Global, document: &mut Bytes, digits: &str) -> Result<(), Memory> {
    match hex::decode(alloc, digits) {
        Ok(bytes) => document.append(bytes.as_slice()),
        Err(_) => Ok(()),
    }
}

/// Adds a line of a case to its document.
fn add_line(alloc: Global, document: &mut Bytes, line: &str) -> Result<(), Memory> {
    if let Some(len) = line.strip_prefix("@pad ") {
        return pad(document, len.parse::<usize>().unwrap_or(0));
    }
    match line.strip_prefix("@hex ") {
        Some(digits) => add_digits(alloc, document, digits),
        None => add_text(document, line),
    }
}

/// The words behind a case's name.
fn words_of(alloc: Global, line: &str) -> Result<Vec<String>, Memory> {
    let mut words = Vec::new(alloc);
    for word in line.split(' ').skip(1) {
        words.push(String::from_str(alloc, word)?)?;
    }
    Ok(words)
}

/// The number of the status of a call of the program.
fn status(alloc: Global, words: &[String], source: &mut MemorySource, sink: &mut MemorySink) -> u8 {
    let mut link = IdleLink::new();
    firewall(alloc, words, source, sink, &mut link).code()
}

/// A status, and what was written.
fn said(alloc: Global, status: u8, text: &[u8]) -> Result<Bytes, Memory> {
    let mut said = Bytes::copy_of(alloc, b"status ")?;
    said.append_number(u32::from(status))?;
    said.push(b'\n')?;
    said.append(text)?;
    Ok(said)
}

/// Calls the program, and says its status and what it wrote.
fn answer(alloc: Global, words: &[String], document: &[u8]) -> Result<Bytes, Memory> {
    let document = Bytes::copy_of(alloc, document)?;
    let mut source = MemorySource::new(document, Calls::new(alloc));
    let mut sink = MemorySink::new(alloc, ROOM, Calls::new(alloc))?;
    let status = status(alloc, words, &mut source, &mut sink);
    said(alloc, status, sink.written())
}

impl Case {
    /// No case yet.
    pub fn new(alloc: Global) -> Self {
        Case {
            open: false,
            words: Vec::new(alloc),
            document: Bytes::new(alloc),
        }
    }

    /// Takes a line outside of a case, which begins one if it names it.
    fn begin(&mut self, alloc: Global, line: &str) -> Result<Bytes, Memory> {
        if let Some(words) = line.strip_prefix("@case ") {
            self.words = words_of(alloc, words)?;
            self.document = Bytes::new(alloc);
            self.open = true;
        }
        line_of(alloc, line)
    }

    /// Takes a line, and says what is to be written.
    pub fn take(&mut self, alloc: Global, line: &str) -> Result<Bytes, Memory> {
        if !self.open {
            return self.begin(alloc, line);
        }
        if line == "@end" {
            self.open = false;
            return answer(alloc, &self.words, self.document.items());
        }
        add_line(alloc, &mut self.document, line)?;
        Ok(Bytes::new(alloc))
    }
}
