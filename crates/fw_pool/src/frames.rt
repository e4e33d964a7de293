//! More frames in a pool, and whether there is room for them.

ghost use Rattle.std.specs.Prelude.{◌≡◌, ◌≤◌, ◌+◌, ◌++◌, ◌∷◌, ◌||◌, ◌<◌, ℕ, true, length, take, map, OnOk, OnErr, IfSome};
ghost use Rattle.fw_trace.specs.Trace.{from_seat, is_frame};
ghost use Rattle.fw_node.specs.Histories.{out_of};
ghost use Rattle.fw_rules.specs.declared.limits.TheConstants.{MOST_FRAMES, MOST_BYTES};
ghost use Rattle.fw_pool.specs.Room.{over_by, room};
ghost use Rattle.fw_pool.specs.Due.{is_marked};

use crate::note::Note;
use fw_base::Seat;
use fw_list::{Bytes, Memory, Newest};
use fw_rules::{MOST_BYTES, MOST_FRAMES, Which};
use fw_trace::Sent;
use std::alloc::Global;

/// Adds what a seat sends. After want of memory the frames begin as before.
fn add_frames(
    alloc: Global,
    frames: &mut Vec<Sent<Bytes>>,
    from: Seat,
    out: &[fw_node::Sent],
) -> Result<(), Memory>
    ensures ok { OnOk result (frames.new.items ≡ frames.old.items ++ from_seat from (map out_of out.now)) }
    ensures err { OnErr result (take (length frames.old.items) frames.new.items ≡ frames.old.items) }
{
    for sent in out {
        frames.push(Sent {
            from,
            to: sent.to,
            message: Bytes::copy_of(alloc, sent.bytes.items())?,
        })?;
    }
    Ok(())
}

/// Adds so many marks that don't stand. The marks begin as before, also after want of memory.
fn add_marks(marks: &mut Vec<bool>, count: usize) -> Result<(), Memory>
    ensures count { OnOk result (length marks.new.items ≡ length marks.old.items + count) }
    ensures same { OnOk result ((k : ℕ) → is_marked marks.new.items k ≡ is_marked marks.old.items k) }
    ensures begins { take (length marks.old.items) marks.new.items ≡ marks.old.items }
{
    for _ in 0..count {
        marks.push(false)?;
    }
    Ok(())
}

/// Adds a note to the log, and what a seat sends to the frames, with a mark for each. After want of memory the log is as before,
/// and the frames and the marks begin as before.
fn add(
    alloc: Global,
    frames: &mut Vec<Sent<Bytes>>,
    marks: &mut Vec<bool>,
    log: &mut Newest<Note>,
    note: Note,
    from: Seat,
    out: &[fw_node::Sent],
) -> Result<(), Memory>
    ensures frames { OnOk result (frames.new.items ≡ frames.old.items ++ from_seat from (map out_of out.now)) }
    ensures log { OnOk result (log.new ≡ note ∷ log.old) }
    ensures count { OnOk result (length marks.new.items ≡ length marks.old.items + length out.now) }
    ensures same { OnOk result ((k : ℕ) → is_marked marks.new.items k ≡ is_marked marks.old.items k) }
    ensures err_frames { OnErr result (take (length frames.old.items) frames.new.items ≡ frames.old.items) }
    ensures err_marks { OnErr result (take (length marks.old.items) marks.new.items ≡ marks.old.items) }
    ensures err_log { OnErr result (log.new ≡ log.old) }
{
    add_frames(alloc, frames, from, out)?;
    add_marks(marks, out.len())?;
    log.push(note)
}

/// The same, but after want of memory all is as before.
#[tactic(auto, using(crate::proofs::Growing::count_after))]
pub(crate) fn extend(
    alloc: Global,
    frames: &mut Vec<Sent<Bytes>>,
    marks: &mut Vec<bool>,
    log: &mut Newest<Note>,
    note: Note,
    from: Seat,
    out: &[fw_node::Sent],
) -> Result<(), Memory>
    requires { length marks.old.items ≡ length frames.old.items }
    ensures frames { OnOk result (frames.new.items ≡ frames.old.items ++ from_seat from (map out_of out.now)) }
    ensures log { OnOk result (log.new ≡ note ∷ log.old) }
    ensures count { OnOk result (length marks.new.items ≡ length frames.new.items) }
    ensures same { OnOk result ((k : ℕ) → is_marked marks.new.items k ≡ is_marked marks.old.items k) }
    ensures err_frames { OnErr result (frames.new.items ≡ frames.old.items) }
    ensures err_marks { OnErr result (marks.new.items ≡ marks.old.items) }
    ensures err_log { OnErr result (log.new ≡ log.old) }
{
    let len = frames.len();
    let added = add(alloc, frames, marks, log, note, from, out);
    if added.is_err() {
        frames.truncate(len);
        marks.truncate(len);
    }
    added
}

/// Sets the mark at a place, if there is one.
pub(crate) fn mark(marks: &mut Vec<bool>, place: Option<usize>)
    requires { IfSome place (λ k. k < length marks.old.items) }
    ensures count { length marks.new.items ≡ length marks.old.items }
    ensures marked { (k : ℕ) → is_marked marks.new.items k ≡ (is_frame k place || is_marked marks.old.items k) }
{
    if let Some(k) = place {
        marks[k] = true;
    }
}

/// Which limit a frame of a length would pass, after so many frames and bytes.
fn over_by(frames: usize, bytes: usize, len: usize) -> Option<Which>
    requires { bytes ≤ MOST_BYTES }
    ensures { result ≡ over_by frames bytes len }
{
    if frames >= MOST_FRAMES {
        return Some(Which::Frames);
    }
    if len > MOST_BYTES - bytes {
        return Some(Which::Bytes);
    }
    None
}

/// How many bytes there are after these frames, where there were so many frames and bytes; or which limit the first of them
/// passes that passes one.
pub(crate) fn room(frames: usize, bytes: usize, out: &[fw_node::Sent]) -> Result<usize, Which>
    requires frames { frames ≤ MOST_FRAMES }
    requires bytes { bytes ≤ MOST_BYTES }
    ensures { result ≡ room frames bytes (map out_of out.now) }
{
    let mut count = frames;
    let mut sum = bytes;
    for sent in out {
        let len = sent.bytes.len();
        if let Some(which) = over_by(count, sum, len) {
            return Err(which);
        }
        count += 1;
        sum += len;
    }
    Ok(sum)
}
