//! The first valid agreed frame of each number.

ghost use Rattle.std.specs.Prelude.{◌≡◌, ℕ, IfOk, OnOk, option_map};
ghost use Rattle.fw_trace.specs.Run as runs;
ghost use Rattle.fw_frame.specs.Plain.{plain};
ghost use Rattle.fw_frame.specs.View.{viewed};
ghost use Rattle.fw_rules.specs.World.{agreed_frame, agreed_in};
ghost use Rattle.fw_seen.specs.Entries.{seen_at, kept_entry, first_of, found_at};

use fw_digest::Steps;
use fw_directory::Directory;
use fw_frame::{Entry, Frame};
use fw_list::{Bytes, Memory};
use fw_trace::Sent;
use fw_valid::check;
use std::alloc::Global;
use std::collections::BTreeMap;
use std::sync::ledger::Ledger;

/// The number and the entry of an agreed frame.
fn agreed_of<'a>(frame: &Frame<'a>) -> Option<(u32, Entry<'a>)>
    ensures { option_map seen_at result ≡ agreed_frame (viewed (plain frame.now)) }
{
    match frame {
        Frame::Agreed { number, entry, .. } => Some((*number, *entry)),
        _ => None,
    }
}

/// Keeps the entry of a valid agreed frame, where none of its number is kept. No other frame is checked.
fn keep<'a, L: Ledger>(
    alloc: Global,
    directory: &Directory,
    entries: &mut BTreeMap<u32, Entry<'a>>,
    bytes: &'a [u8],
    steps: &mut Steps<L>,
) -> Result<(), Memory>
    ensures { OnOk result ((n : ℕ) → kept_entry entries.new n ≡ first_of (kept_entry entries.old n) (found_at n (agreed_in directory.now bytes.now))) }
{
    let Some(frame) = Frame::read(alloc, directory.params(), bytes)? else {
        return Ok(());
    };
    let Some((number, entry)) = agreed_of(&frame) else {
        return Ok(());
    };
    if entries.contains_key(&number) {
        return Ok(());
    }
    if check(directory, frame, steps).is_none() {
        return Ok(());
    }
    entries.insert(number, entry)?;
    Ok(())
}

/// The entry of the first valid agreed frame of each number that has one.
pub(crate) fn first_entries<'a, L: Ledger>(
    alloc: Global,
    directory: &Directory,
    pool: &'a [Sent<Bytes>],
    steps: &mut Steps<L>,
) -> Result<BTreeMap<u32, Entry<'a>>, Memory>
    ensures { IfOk result (λ entries. (n : ℕ) → kept_entry entries n ≡ runs.entry_at (agreed_in directory.now) pool.now n) }
{
    let mut entries = BTreeMap::new(alloc);
    for sent in pool {
        keep(alloc, directory, &mut entries, sent.message.items(), steps)?;
    }
    Ok(entries)
}
