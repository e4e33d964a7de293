//! One-time signatures.

ghost use Rattle.std.specs.Prelude.{◌≡◌, ◌<◌, length};
ghost use Rattle.fw_list.specs.declared.limits.TheConstants.{ROW_LEN, SIGNATURE_LEN};

use crate::notation::{digest as digest_in, number, said, shown};
use fw_base::Slot;
use fw_digest::{Steps, digest};
use fw_lamport::{sign, verify};
use fw_list::{Bytes, Memory, ROW_LEN, SIGNATURE_LEN};
use fw_wire::Writer;
use std::alloc::Global;
use std::marker::Brand;
use std::sync::ledger::{Blank, Ledger};

/// The slot of a kind that these numbers name, and the number of its kind.
fn named(kind: &str, a: u32, b: u32, c: u32) -> Option<(u8, Slot)> {
    let (view, number, agree) = (a, b, c);
    match kind {
        "prepare" => Some((
            1,
            Slot::Prepare {
                view,
                number,
                agree,
            },
        )),
        "commit" => Some((
            2,
            Slot::Commit {
                view,
                number,
                agree,
            },
        )),
        "change" => Some((3, Slot::Change { view, agree: b })),
        "new-view" => Some((4, Slot::NewView { view, agree: b })),
        "request" => Some((
            5,
            Slot::Request {
                client: a,
                stamp: b,
            },
        )),
        "reply" => Some((6, Slot::Reply { number: a })),
        _ => None,
    }
}

/// A slot of a line `KIND A B C`, and the number of its kind.
fn slot(words: &[&str]) -> Option<(u8, Slot)> {
    let [kind, a, b, c] = words else {
        return None;
    };
    named(kind, number(a)?, number(b)?, number(c)?)
}

/// The digest of a value at a place, whose numbers follow the number of its kind.
fn value_digest(
    alloc: Global,
    kind: u8,
    numbers: [u32; 6],
    value: &[u8],
) -> Result<[u8; 32], Memory> {
    let mut place = Writer::new(alloc);
    place.u8(kind)?;
    for number in numbers {
        place.u32(number)?;
    }
    Ok(digest(1, place.finish().items(), value))
}

/// Secret k of the deal: its byte j is k + j.
fn secret(k: u32) -> [u8; 32] {
    let mut secret = [0; 32];
    let mut next = (k % 256) as u8;
    for byte in secret.iter_mut() {
        *byte = next;
        next = next.wrapping_add(1);
    }
    secret
}

/// The digests that the directory has of the deal for the prepare vote of view 0, number 1, node 0; and the secrets.
fn dealt(alloc: Global) -> Result<(Bytes, Bytes), Memory> {
    let mut rows = Bytes::new(alloc);
    let mut secrets = Bytes::new(alloc);
    for k in 0..512u32 {
        let secret = secret(k);
        let numbers = [0, 1, 0, k / 2, k % 2, 0];
        rows.append(&value_digest(alloc, 1, numbers, &secret)?)?;
        secrets.append(&secret)?;
    }
    Ok((rows, secrets))
}

/// Whether the signature is one of the digest, for a caller that counts nothing.
fn is_signed<L: Ledger>(
    rows: &[u8],
    slot: Slot,
    point: u32,
    digest: &[u8; 32],
    sig: &[u8],
    blank: Blank,
) -> bool
    requires rows { length rows.now ≡ ROW_LEN }
    requires sig { length sig.now ≡ SIGNATURE_LEN }
    requires name { blank.name ≡ L.name }
    requires parts { blank.parts ≡ L.parts }
    requires some { 0 < blank.parts }
{
    let mut steps = Steps::<L>::new(blank);
    verify(rows, slot, point, digest, sig, &mut steps)
}

fn is_valid(rows: &[u8], slot: Slot, point: u32, digest: &[u8; 32], sig: &[u8]) -> bool
    requires rows { length rows.now ≡ ROW_LEN }
    requires sig { length sig.now ≡ SIGNATURE_LEN }
{
    is_signed::<Brand>(rows, slot, point, digest, sig, Blank::new(1))
}

/// Whether it is valid, in a word.
fn verdict(
    alloc: Global,
    rows: &[u8],
    slot: Slot,
    point: u32,
    digest: &[u8; 32],
    sig: &[u8],
) -> Result<Option<String>, Memory> {
    if rows.len() != ROW_LEN || sig.len() != SIGNATURE_LEN {
        return Ok(None);
    }
    let is_valid = is_valid(rows, slot, point, digest, sig);
    said(alloc, if is_valid { "valid" } else { "not valid" })
}

/// What the deal's secrets sign a digest with.
fn signed(secrets: &[u8], digest: &[u8; 32]) -> [u8; 8192] {
    let mut sig = [0; 8192];
    if secrets.len() == ROW_LEN {
        sign(secrets, digest, sig.as_mut_slice());
    }
    sig
}

/// `verify SIGNED CHANGED SHOWN POINT KIND A B C`: the signature of a digest, with a bit of this byte changed (`-` for none), as
/// one of another digest, at a slot and a point.
fn verified(alloc: Global, words: &[&str]) -> Result<Option<String>, Memory> {
    let [signed_digest, changed, shown_digest, point, slot_words @ ..] = words else {
        return Ok(None);
    };
    let (Some(first), Some(other), Some(point), Some((_, slot))) = (
        digest_in(signed_digest),
        digest_in(shown_digest),
        number(point),
        slot(slot_words),
    ) else {
        return Ok(None);
    };
    let (rows, secrets) = dealt(alloc)?;
    let mut sig = signed(secrets.items(), &first);
    if let Some(at) = number(changed) {
        if at < 8192 {
            sig[at as usize] ^= 1;
        }
    }
    verdict(alloc, rows.items(), slot, point, &other, sig.as_slice())
}

/// Adds the row if it is given, or else the digest.
fn add_row(rows: &mut Bytes, row: Option<&[u8; 32]>, digest: &[u8; 32]) -> Result<(), Memory> {
    match row {
        Some(row) => rows.append(row),
        None => rows.append(digest),
    }
}

/// Rows that have a value's digest at each place of a slot, but this row at one place.
fn rows_with(
    alloc: Global,
    kind: u8,
    name: [u32; 3],
    point: u32,
    value: &[u8],
    at: u32,
    row: &[u8; 32],
) -> Result<Bytes, Memory> {
    let [a, b, c] = name;
    let mut rows = Bytes::new(alloc);
    for k in 0..512u32 {
        let digest = value_digest(alloc, kind, [a, b, c, k / 2, k % 2, point], value)?;
        let given = if k == at { Some(row) } else { None };
        add_row(&mut rows, given, &digest)?;
    }
    Ok(rows)
}

/// `value BIT SIDE POINT VALUE ROW KIND A B C`: whether a value has this digest at its place, as a signature of it alone.
fn placed(alloc: Global, words: &[&str]) -> Result<Option<String>, Memory> {
    let [bit, side, point, value, row, slot_words @ ..] = words else {
        return Ok(None);
    };
    let (Some(bit), Some(side), Some(point), Some(value), Some(row), Some((kind, slot))) = (
        number(bit),
        number(side),
        number(point),
        digest_in(value),
        digest_in(row),
        slot(slot_words),
    ) else {
        return Ok(None);
    };
    let [_, a, b, c] = slot_words else {
        return Ok(None);
    };
    let name = [
        number(a).unwrap_or(0),
        number(b).unwrap_or(0),
        number(c).unwrap_or(0),
    ];
    if bit > 255 || side > 1 {
        return Ok(None);
    }
    let rows = rows_with(alloc, kind, name, point, &value, 2 * bit + side, &row)?;
    let shown = if side == 1 { [255; 32] } else { [0; 32] };
    let mut sig = Bytes::new(alloc);
    for _ in 0..256u32 {
        sig.append(&value)?;
    }
    verdict(alloc, rows.items(), slot, point, &shown, sig.items())
}

/// The answer to a case of signatures: `deal`, the digest of the deal's rows; `sign DIGEST`, that of its signature.
pub fn answer(alloc: Global, first: &str, words: &[&str]) -> Result<Option<String>, Memory> {
    match (first, words) {
        ("deal", []) => {
            let (rows, _) = dealt(alloc)?;
            let Some((tag, rest)) = rows.items().split_first() else {
                return Ok(None);
            };
            shown(alloc, &digest(*tag, rest, &[]))
        }
        ("sign", [word]) => {
            let Some(text) = digest_in(word) else {
                return Ok(None);
            };
            let (_, secrets) = dealt(alloc)?;
            let sig = signed(secrets.items(), &text);
            shown(alloc, &digest(sig[0], &sig[1..], &[]))
        }
        ("verify", _) => verified(alloc, words),
        ("value", _) => placed(alloc, words),
        _ => Ok(None),
    }
}
