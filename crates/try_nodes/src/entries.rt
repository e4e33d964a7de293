//! Requests as entries of a list.

ghost use Rattle.std.specs.Prelude.{◌≤◌, length, map, IfOk, IfSome, IsTrue};
ghost use Rattle.std.specs.List.{list_all};
ghost use Rattle.fw_base.specs.Sizes.{accepted};
ghost use Rattle.fw_frame.specs.Plain.{plain_entry};
ghost use Rattle.fw_frame.specs.Ranges.{entry_fits};

use fw_base::Params;
use fw_frame::{Entry, Frame};
use fw_list::{Bytes, Items, Memory};
use std::alloc::Global;

/// The entry of a request frame.
pub fn entry_of<'a>(
    alloc: Global,
    params: &Params,
    bytes: &'a [u8],
) -> Result<Option<Entry<'a>>, Memory>
    requires { IsTrue (accepted params.now) }
    ensures { IfOk result (λ found. IfSome found (λ entry. IsTrue (entry_fits params.now (plain_entry entry)))) }
{
    match Frame::read(alloc, params, bytes)? {
        Some(Frame::Request(request)) => Ok(Some(Entry::Request(request))),
        _ => Ok(None),
    }
}

/// The entries of some request frames, as many as the list may have.
pub fn entries_of<'a>(
    alloc: Global,
    params: &Params,
    requests: &'a [Bytes],
) -> Result<Items<Entry<'a>>, Memory>
    requires { IsTrue (accepted params.now) }
    ensures few { IfOk result (λ entries. length entries ≤ params.now.numbers) }
    ensures fit { IfOk result (λ entries. IsTrue (list_all (entry_fits params.now) (map plain_entry entries))) }
{
    let mut entries = Items::new(alloc);
    for bytes in requests {
        if entries.len() >= params.numbers as usize {
            return Ok(entries);
        }
        if let Some(entry) = entry_of(alloc, params, bytes.items())? {
            entries.push(entry)?;
        }
    }
    Ok(entries)
}
