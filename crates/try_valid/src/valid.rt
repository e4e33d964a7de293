//! Whether bytes are a frame that is valid in a directory.

ghost use Rattle.std.specs.Prelude.{◌≡◌, ◌<◌, length, IsTrue};
ghost use Rattle.fw_frame.specs.Plain.{plain};
ghost use Rattle.fw_frame.specs.Ranges.{frame_fits};

use fw_deal::Directory;
use fw_digest::Steps;
use fw_frame::Frame;
use fw_list::{Bytes, Memory};
use fw_valid::check;
use std::alloc::Global;
use std::marker::Brand;
use std::sync::ledger::{Blank, Ledger};

/// Whether a frame is valid in a directory, by a counter of its own.
fn is_checked<L: Ledger>(directory: &Directory, frame: Frame<'_>, blank: Blank) -> bool
    requires fits { IsTrue (frame_fits directory.now.params (plain frame)) }
    requires name { blank.name ≡ L.name }
    requires parts { blank.parts ≡ L.parts }
    requires some { 0 < blank.parts }
{
    let mut steps = Steps::<L>::new(blank);
    check(directory, frame, &mut steps).is_some()
}

/// Whether the bytes are a frame that is valid in a directory.
fn is_valid(alloc: Global, directory: &Directory, bytes: &[u8]) -> Result<bool, Memory> {
    match Frame::read(alloc, directory.params(), bytes)? {
        Some(frame) => Ok(is_checked::<Brand>(directory, frame, Blank::new(1))),
        None => Ok(false),
    }
}

/// At how many of these times the bytes are found to be a valid frame.
pub fn times_valid(
    alloc: Global,
    directory: &Directory,
    bytes: &[u8],
    times: u32,
) -> Result<u32, Memory> {
    let mut valid: u32 = 0;
    for _ in 0..times {
        if is_valid(alloc, directory, bytes)? {
            valid = valid.saturating_add(1);
        }
    }
    Ok(valid)
}

/// The bytes with the lowest bit of one changed.
fn changed(alloc: Global, bytes: &[u8], at: usize) -> Result<Bytes, Memory>
    requires { at < length bytes.now }
{
    let mut copy = Bytes::copy_of(alloc, &bytes[..at])?;
    copy.push(bytes[at] ^ 1)?;
    copy.append(&bytes[at + 1..])?;
    Ok(copy)
}

/// How many changes were tried, of each `every`-th byte from the second on, and how many of the bytes that they made are a valid
/// frame.
pub fn count_changed(
    alloc: Global,
    directory: &Directory,
    bytes: &[u8],
    every: u32,
) -> Result<(u32, u32), Memory> {
    let mut tried: u32 = 0;
    let mut valid: u32 = 0;
    for at in 1..bytes.len() {
        if (at - 1).checked_rem(every as usize) == Some(0) {
            let copy = changed(alloc, bytes, at)?;
            tried = tried.saturating_add(1);
            if is_valid(alloc, directory, copy.items())? {
                valid = valid.saturating_add(1);
            }
        }
    }
    Ok((tried, valid))
}
