//! One case: its document, line by line, and its answer.

use crate::told::told_of;
use fw_list::{Bytes, Memory};
use std::alloc::Global;
use std::marker::Brand;
use std::sync::ledger::Blank;

/// A case that is being read, or none.
#[derive(Drop)]
pub struct Case {
    open: bool,
    document: Bytes,
}

/// A line, with its end.
fn line_of(alloc: Global, line: &str) -> Result<Bytes, Memory> {
    let mut said = Bytes::copy_of(alloc, line.as_bytes())?;
    said.push(b'\n')?;
    Ok(said)
}

impl Case {
    /// No case yet.
    pub fn new(alloc: Global) -> Self {
        Case {
            open: false,
            document: Bytes::new(alloc),
        }
    }

    /// Takes a line outside of a case, which begins one if it names it.
    fn begin(&mut self, alloc: Global, line: &str) -> Result<Bytes, Memory> {
        if line.starts_with("@case ") {
            self.document = Bytes::new(alloc);
            self.open = true;
        }
        line_of(alloc, line)
    }

    /// Takes a line, and says what is to be written.
    pub fn take(&mut self, alloc: Global, line: &str) -> Result<Bytes, Memory> {
        if !self.open {
            return self.begin(alloc, line);
        }
        if line == "@end" {
            self.open = false;
            return told_of::<Brand>(alloc, self.document.items(), Blank::new(1));
        }
        self.document.append(line.as_bytes())?;
        self.document.push(b'\n')?;
        Ok(Bytes::new(alloc))
    }
}
