//! Frames, read where a deployment has the sizes that a line named.
//!
//! A frame's bytes are short words: a letter from `A` on is a kind from 1 on, each digit a number of four bytes, `b` a body of
//! the byte 7, `z` one of zeros, `d` a digest of the byte 5, `s` 256 values of the byte 9, `v` 256 values whose bytes are their
//! places, `-` one byte less than `s`, `+` one byte; and `=BYTES` any bytes, as in other lines.

mod shown;

ghost use Rattle.std.specs.Prelude.{IsTrue};
ghost use Rattle.fw_base.specs.Sizes.{accepted};
ghost use Rattle.fw_frame.specs.Plain.{plain};
ghost use Rattle.fw_frame.specs.Ranges.{frame_fits};
ghost use Rattle.fw_frame.specs.Writing.{IsWritable};

use crate::notation::{bytes_of, counted, number, said, shown as hex_of};
use fw_base::Params;
use fw_frame::{Entry, Frame};
use fw_list::{Bytes, Memory};
use fw_wire::Writer;
use std::alloc::Global;

/// The sizes that the last line of them named.
#[derive(Drop)]
pub struct Sizes {
    params: Params,
}

/// Adds the bytes of a short word's letter.
fn add_letter(out: &mut Writer, letter: u8) -> Result<(), Memory> {
    match letter {
        b'0'..=b'9' => out.u32((letter - b'0') as u32),
        b'@'..=b'J' => out.u8(letter - b'@'),
        b'b' => out.fixed(&[7; 544]),
        b'z' => out.fixed(&[0; 544]),
        b'd' => out.fixed(&[5; 32]),
        b's' => out.fixed(&[9; 8192]),
        b'-' => out.fixed(&[9; 8191]),
        b'+' => out.u8(0),
        b'v' => {
            for place in 0..=255u8 {
                out.fixed(&[place; 32])?;
            }
            Ok(())
        }
        _ => Ok(()),
    }
}

/// The bytes of short words.
fn frame_bytes(alloc: Global, words: &[&str]) -> Result<Option<Bytes>, Memory> {
    let mut out = Writer::new(alloc);
    for word in words {
        if let Some(word) = word.strip_prefix('=') {
            let Some(bytes) = bytes_of(alloc, word)? else {
                return Ok(None);
            };
            out.fixed(bytes.items())?;
        } else {
            for letter in word.bytes() {
                add_letter(&mut out, letter)?;
            }
        }
    }
    Ok(Some(out.finish()))
}

/// How many bytes there are, if they are what was written.
fn compared(
    alloc: Global,
    written: &[u8],
    bytes: &[u8],
    word: &str,
) -> Result<Option<String>, Memory> {
    if written != bytes {
        return said(alloc, "other bytes are written");
    }
    counted(alloc, bytes.len(), word)
}

/// `read WORD ..`: how many bytes the frame has that these bytes are, and whether the same are written of it.
fn again(alloc: Global, frame: &Frame<'_>, bytes: &[u8]) -> Result<Option<String>, Memory>
    requires { IsWritable frame.now }
{
    let written = frame.write(alloc)?;
    compared(alloc, written.items(), bytes, " bytes")
}

/// `change WORD ..`: the same of a view change, written alone.
fn alone(alloc: Global, frame: &Frame<'_>, bytes: &[u8]) -> Result<Option<String>, Memory>
    requires { IsWritable frame.now }
{
    let Frame::Change(change) = frame else {
        return said(alloc, "no view change");
    };
    let written = change.write(alloc)?;
    compared(alloc, written.items(), bytes, " bytes alone")
}

/// `entry WORD ..`: the front of the digest of what a proposal proposes.
fn entry(alloc: Global, frame: &Frame<'_>) -> Result<Option<String>, Memory> {
    match frame {
        Frame::Propose { entry, .. } => shown::entry(alloc, entry),
        Frame::Request(request) => shown::entry(alloc, &Entry::Request(*request)),
        _ => said(alloc, "no proposal"),
    }
}

/// `want NUMBER`: the bytes of a want.
fn want(alloc: Global, word: &str) -> Result<Option<String>, Memory> {
    let Some(number) = number(word) else {
        return Ok(None);
    };
    let written = Frame::Want { number }.write(alloc)?;
    hex_of(alloc, written.items())
}

/// `carried WORD ..`: what the frame carries.
#[tactic(auto, using(fw_frame::proofs::Whole::whole_where_fits))]
fn carried(alloc: Global, params: &Params, frame: &Frame<'_>) -> Result<Option<String>, Memory>
    requires sizes { IsTrue (accepted params.now) }
    requires fits { IsTrue (frame_fits params.now (plain frame.now)) }
{
    let carried = frame.carried(alloc, params)?;
    shown::carried(alloc, &carried)
}

/// The answer to a case of the frame that bytes are.
fn of_bytes(
    alloc: Global,
    params: &Params,
    first: &str,
    bytes: &[u8],
) -> Result<Option<String>, Memory>
    requires { IsTrue (accepted params.now) }
{
    let Some(frame) = Frame::read(alloc, params, bytes)? else {
        return said(alloc, "no frame");
    };
    match first {
        "read" => again(alloc, &frame, bytes),
        "change" => alone(alloc, &frame, bytes),
        "entry" => entry(alloc, &frame),
        "texts" => shown::texts(alloc, &frame),
        "slots" => shown::slots(alloc, params, &frame),
        "carried" => carried(alloc, params, &frame),
        _ => Ok(None),
    }
}

/// Eight numbers, from f on.
fn params(words: &[&str]) -> Option<Params> {
    let [f, g, h, numbers, views, clients, stamps, pipe] = words else {
        return None;
    };
    Some(Params {
        f: number(f)?,
        g: number(g)?,
        h: number(h)?,
        numbers: number(numbers)?,
        views: number(views)?,
        clients: number(clients)?,
        stamps: number(stamps)?,
        pipe: number(pipe)?,
    })
}

impl Sizes {
    /// No deployment's.
    pub fn new() -> Self {
        Sizes {
            params: Params {
                f: 0,
                g: 0,
                h: 0,
                numbers: 0,
                views: 0,
                clients: 0,
                stamps: 0,
                pipe: 0,
            },
        }
    }

    /// The answer to a case of frames. `sizes F G H NUMBERS VIEWS CLIENTS STAMPS PIPE` names the sizes.
    pub fn answer(
        &mut self,
        alloc: Global,
        first: &str,
        words: &[&str],
    ) -> Result<Option<String>, Memory> {
        if first == "sizes" {
            let Some(params) = params(words) else {
                return Ok(None);
            };
            self.params = params;
            let is = if params.are_accepted() {
                "accepted"
            } else {
                "refused"
            };
            return said(alloc, is);
        }
        if first == "want" {
            let [word] = words else {
                return Ok(None);
            };
            return want(alloc, word);
        }
        let params = self.params;
        let Some(bytes) = frame_bytes(alloc, words)? else {
            return Ok(None);
        };
        if !params.are_accepted() {
            return Ok(None);
        }
        of_bytes(alloc, &params, first, bytes.items())
    }
}
