//! What an executor keeps by number, looked up.

ghost use Rattle.std.specs.Prelude.{◌≡◌, nat_eq, nat_lt, reverse, OnOk};
ghost use Rattle.std.specs.List.{find, list_any};
ghost use Rattle.std.specs.Option.{option_copied, option_map};
ghost use Rattle.fw_frame.specs.Plain.{plain_entry};
ghost use Rattle.fw_frame.specs.View.{viewed_entry};
ghost use Rattle.fw_trace.specs.Executor as executors;

use crate::entries::OwnEntry;
use fw_frame::Entry;
use fw_list::{Bytes, Memory, Newest};
use std::alloc::Global;

/// An agreed frame: the number, the entry, and the frame's bytes.
pub type Agreed = (u32, OwnEntry, Bytes);

/// Agreed frames.
pub type Agreements = Newest<Agreed>;

/// Shares by number.
pub type Shares = Newest<(u32, Bytes)>;

/// The last of these of a number.
fn last_of(kept: &[Agreed], number: u32) -> Option<&Agreed>
    ensures { option_copied result ≡ find (λ agreed. nat_eq agreed.0 number) (reverse kept.now) }
{
    kept.iter().rev().find(|agreed| agreed.0 == number)
}

/// Its entry.
fn last_entry(kept: &[Agreed], number: u32) -> Option<&OwnEntry>
    ensures { option_copied result ≡ option_map (λ agreed. agreed.1) (find (λ agreed. nat_eq agreed.0 number) (reverse kept.now)) }
{
    match last_of(kept, number) {
        Some(agreed) => Some(&agreed.1),
        None => None,
    }
}

/// Its frame.
fn last_frame(kept: &[Agreed], number: u32) -> Option<&Bytes>
    ensures { option_copied result ≡ option_map (λ agreed. agreed.2) (find (λ agreed. nat_eq agreed.0 number) (reverse kept.now)) }
{
    match last_of(kept, number) {
        Some(agreed) => Some(&agreed.2),
        None => None,
    }
}

/// The entry that is kept of a number.
pub(crate) fn entry_at(kept: &Agreements, number: u32) -> Option<&OwnEntry>
    ensures { option_copied result ≡ executors.entry_of kept.now number }
{
    last_entry(kept.oldest_first(), number)
}

/// The agreed frame that is kept of a number.
pub(crate) fn frame_at(kept: &Agreements, number: u32) -> Option<&Bytes>
    ensures { option_copied result ≡ executors.frame_of kept.now number }
{
    last_frame(kept.oldest_first(), number)
}

/// Keeps an agreed frame, where none is kept of its number.
pub(crate) fn keep(
    alloc: Global,
    kept: &mut Agreements,
    number: u32,
    entry: &Entry<'_>,
    bytes: &[u8],
) -> Result<(), Memory>
    ensures { OnOk result (kept.new ≡ executors.keep kept.old (number, viewed_entry (plain_entry entry.now), bytes.now)) }
{
    if entry_at(kept, number).is_some() {
        return Ok(());
    }
    let entry = OwnEntry::copy_of(alloc, entry)?;
    kept.push((number, entry, Bytes::copy_of(alloc, bytes)?))
}

/// Whether one of these is of a number above this one.
fn is_any_above(kept: &[Agreed], number: u32) -> bool
    ensures { result ≡ list_any (λ agreed. nat_lt number agreed.0) (reverse kept.now) }
{
    kept.iter().rev().any(|agreed| number < agreed.0)
}

/// Whether a number above this one is kept.
pub(crate) fn keeps_above(kept: &Agreements, number: u32) -> bool
    ensures { result ≡ executors.keeps_above kept.now number }
{
    is_any_above(kept.oldest_first(), number)
}
