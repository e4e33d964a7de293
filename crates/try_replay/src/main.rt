//! Answers many calls of `firewall`, each with words and a document of its own, over a source and a sink in memory.
//!
//! `@case NAME WORD ..` begins a case with the words of the call: `@case NAME` without words, `@case NAME replay` with one.
//! The lines behind it are its document, up to `@end`. Within it `@pad N` brings the document to N bytes by a comment, and
//! `@hex DIGITS` adds these bytes. The answer is the status and the text written. Lines outside of cases are written as they are.
#![tactic(auto)]

mod case;

use case::Case;
use fw_list::Bytes;
use std::io;
use std::process::ExitCode;

/// The text that bytes are, or a word for none.
fn text_of(bytes: &Bytes) -> &str {
    str::from_utf8(bytes.items()).unwrap_or("no text")
}

fn main(rt: HostRuntime) -> io::Result<ExitCode> {
    let mut case = Case::new(rt.alloc());
    for line in rt.lines(rt.alloc()) {
        let line = line?;
        match case.take(rt.alloc(), line.as_str()) {
            Ok(said) => print!(rt; "{}", text_of(&said))?,
            Err(_) => return Ok(ExitCode::from(10)),
        }
    }
    Ok(ExitCode::from(0))
}
