//! A frame that is read, written again, and hashed.

ghost use Rattle.std.specs.Prelude.{◌≡◌, IsTrue, IsSome, IfOk, IfSome};
ghost use Rattle.fw_base.specs.Sizes.{accepted};
ghost use Rattle.fw_frame.specs.Frames.{PlainFrame};
ghost use Rattle.fw_frame.specs.Ranges.{IsFrame};

use fw_base::Params;
use fw_frame::{Frame, Text};
use fw_list::{Bytes, Memory};
use std::alloc::Global;

/// The frame that the bytes are, written again: the same bytes.
pub fn again(alloc: Global, params: &Params, bytes: &[u8]) -> Result<Option<Bytes>, Memory>
    requires { IsTrue (accepted params.now) }
    ensures same { IfOk result (λ r. IfSome r (λ written. written ≡ bytes.now)) }
    ensures each { IfOk result (λ r. (f : PlainFrame) → IsFrame params.now bytes.now f → IsSome r) }
{
    let Some(frame) = Frame::read(alloc, params, bytes)? else {
        return Ok(None);
    };
    let written = frame.write(alloc)?;
    Ok(Some(written))
}

/// Adds a line with the text's tag and its digest.
fn add_line(alloc: Global, lines: &mut Bytes, text: &Text) -> Result<(), Memory> {
    let tag = match text.text.at(0) {
        Some(tag) => *tag,
        None => 0,
    };
    lines.append_number(u32::from(tag))?;
    lines.push(b' ')?;
    for byte in text.digest.iter() {
        let digits = format!(in alloc; "{byte:02x}")?;
        lines.append(digits.as_bytes())?;
    }
    lines.push(b'\n')
}

/// The tag and the digest of each text of the frame that the bytes are, a line each.
pub fn texts(alloc: Global, params: &Params, bytes: &[u8]) -> Result<Option<Bytes>, Memory>
    requires { IsTrue (accepted params.now) }
    ensures each { IfOk result (λ r. (f : PlainFrame) → IsFrame params.now bytes.now f → IsSome r) }
{
    let Some(frame) = Frame::read(alloc, params, bytes)? else {
        return Ok(None);
    };
    let texts = frame.texts(alloc)?;
    let mut lines = Bytes::new(alloc);
    for text in texts.items() {
        add_line(alloc, &mut lines, text)?;
    }
    Ok(Some(lines))
}

/// At how many of these times a frame is read.
pub fn times_read(alloc: Global, params: &Params, bytes: &[u8], times: u32) -> Result<u32, Memory>
    requires { IsTrue (accepted params.now) }
{
    let mut found: u32 = 0;
    for _ in 0..times {
        if Frame::read(alloc, params, bytes)?.is_some() {
            found = found.saturating_add(1);
        }
    }
    Ok(found)
}

/// How many texts a frame has, hashed so many times.
pub fn times_hashed(
    alloc: Global,
    params: &Params,
    bytes: &[u8],
    times: u32,
) -> Result<usize, Memory>
    requires { IsTrue (accepted params.now) }
{
    let Some(frame) = Frame::read(alloc, params, bytes)? else {
        return Ok(0);
    };
    let mut count = 0;
    for _ in 0..times {
        count = frame.texts(alloc)?.len();
    }
    Ok(count)
}
