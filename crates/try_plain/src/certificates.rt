//! What the rows of filters let down, beside what the agreed list permits.

ghost use Rattle.std.specs.Prelude.{◌≤◌, length, map, IfOk, IfSome, IsTrue};
ghost use Rattle.std.specs.List.{list_all};
ghost use Rattle.fw_base.specs.Sizes.{accepted};
ghost use Rattle.fw_record.specs.Records.{starts_fit};
ghost use Rattle.fw_frame.specs.Plain.{plain_entry};
ghost use Rattle.fw_frame.specs.Ranges.{entry_fits};

use fw_base::Params;
use fw_deal::Deal;
use fw_frame::{Entry, Frame};
use fw_list::{Bytes, Items, Memory};
use fw_op::Start;
use fw_ref::permitted;
use fw_trace::Sent;
use std::alloc::Global;

/// The entry of an agreed frame of a number.
fn entry_in<'a>(
    alloc: Global,
    params: &Params,
    number: u32,
    bytes: &'a [u8],
) -> Result<Option<Entry<'a>>, Memory>
    requires { IsTrue (accepted params.now) }
    ensures { IfOk result (λ found. IfSome found (λ entry. IsTrue (entry_fits params.now (plain_entry entry)))) }
{
    match Frame::read(alloc, params, bytes)? {
        Some(
            Frame::Agreed {
                number: agreed,
                entry,
                ..
            },
        ) => {
            if agreed == number {
                Ok(Some(entry))
            } else {
                Ok(None)
            }
        }
        _ => Ok(None),
    }
}

/// The entry of the first agreed frame of a number.
fn entry_at<'a>(
    alloc: Global,
    params: &Params,
    number: u32,
    pool: &'a [Sent<Bytes>],
) -> Result<Option<Entry<'a>>, Memory>
    requires { IsTrue (accepted params.now) }
    ensures { IfOk result (λ found. IfSome found (λ entry. IsTrue (entry_fits params.now (plain_entry entry)))) }
{
    for sent in pool {
        if let Some(entry) = entry_in(alloc, params, number, sent.message.items())? {
            return Ok(Some(entry));
        }
    }
    Ok(None)
}

/// The entries of the agreed list.
fn entries_of<'a>(
    alloc: Global,
    params: &Params,
    pool: &'a [Sent<Bytes>],
) -> Result<Items<Entry<'a>>, Memory>
    requires { IsTrue (accepted params.now) }
    ensures few { IfOk result (λ entries. length entries ≤ params.now.numbers) }
    ensures fit { IfOk result (λ entries. IsTrue (list_all (entry_fits params.now) (map plain_entry entries))) }
{
    let mut entries = Items::new(alloc);
    for k in 0..params.numbers {
        let Some(entry) = entry_at(alloc, params, k + 1, pool)? else {
            return Ok(entries);
        };
        entries.push(entry)?;
    }
    Ok(entries)
}

/// How many frames the filters let down, up to the first that the agreed list doesn't permit.
#[derive(Clone, Copy, Debug, PartialEq, Eq)]
pub struct LetDown {
    pub frames: u32,
    pub permitted: bool,
}

/// Whether a filter sent this frame down.
fn is_let_down(sent: &Sent<Bytes>) -> bool {
    sent.from.is_above(sent.to)
}

/// Whether a frame is one of these certificates, in all its bytes.
fn is_among(sent: &Sent<Bytes>, certs: &[Bytes]) -> bool {
    certs
        .iter()
        .any(|cert| cert.items() == sent.message.items())
}

/// Compares what the filters let down with the certificates that the agreed list of the pool permits.
pub fn let_down(
    alloc: Global,
    deal: &Deal,
    starts: &[Start],
    pool: &[Sent<Bytes>],
) -> Result<LetDown, Memory>
    requires sizes { IsTrue (accepted deal.now.origin.params) }
    requires starts { IsTrue (starts_fit deal.now.origin.params.clients starts.now) }
{
    let entries = entries_of(alloc, deal.directory().params(), pool)?;
    let certs = permitted(alloc, deal, starts, entries.items())?;
    let mut frames = 0_u32;
    for sent in pool {
        if is_let_down(sent) {
            if !is_among(sent, certs.items()) {
                let permitted = false;
                return Ok(LetDown { frames, permitted });
            }
            frames = frames.saturating_add(1);
        }
    }
    let permitted = true;
    Ok(LetDown { frames, permitted })
}
