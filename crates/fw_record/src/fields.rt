//! The fields of a record, at the front of bytes.

ghost use Rattle.std.specs.Prelude.{◌≡◌, List, ℕ, nat_lt, IsTrue, option_map};
ghost use Rattle.fw_op.specs.Keys.{is_key, is_value, key_bytes, value_bytes};
ghost use Rattle.fw_record.specs.Records.{start_bytes, start_fits};
ghost use Rattle.fw_record.specs.Parts.{plain_start, owner_bytes, readers_bytes, rising};
ghost use Rattle.fw_wire.specs.Reading.{FindsWhere};

use crate::parts::StartParts;
use fw_op::{is_key, is_value};
use fw_wire::Reader;

/// A client below so many.
fn owner_in(reader: &mut Reader<'_>, clients: u32) -> Option<u32>
    ensures { FindsWhere owner_bytes (λ c. nat_lt c clients) reader.old result reader.new }
{
    let owner = u32::from(reader.u8()?);
    if owner < clients { Some(owner) } else { None }
}

/// A key after its length.
fn key_in<'a>(reader: &mut Reader<'a>) -> Option<&'a [u8]>
    ensures { FindsWhere key_bytes is_key reader.old (option_map (λ k. k.now) result) reader.new }
{
    let len = reader.u8()?;
    let key = reader.fixed(len as usize)?;
    if is_key(key) { Some(key) } else { None }
}

/// A value after its length.
#[tactic(auto, unfolding(fw_list::specs::Numbers::u16))]
fn value_in<'a>(reader: &mut Reader<'a>) -> Option<&'a [u8]>
    ensures { FindsWhere value_bytes is_value reader.old (option_map (λ v. v.now) result) reader.new }
{
    let len = reader.u16()?;
    let value = reader.fixed(len as usize)?;
    if is_value(value) { Some(value) } else { None }
}

/// Whether the bytes are clients below so many, ascending.
fn are_readers(readers: &[u8], clients: u32) -> bool
    ensures { result ≡ rising clients 0 readers.now }
{
    let mut least = 0;
    for reader in readers {
        let client = u32::from(*reader);
        if client < least {
            return false;
        }
        if client >= clients {
            return false;
        }
        least = client + 1;
    }
    true
}

/// Clients after their count, ascending, below so many.
fn readers_in<'a>(reader: &mut Reader<'a>, clients: u32) -> Option<&'a [u8]>
    ensures { FindsWhere readers_bytes (rising clients 0) reader.old (option_map (λ cs. cs.now) result) reader.new }
{
    let count = reader.u8()?;
    let readers = reader.fixed(count as usize)?;
    if are_readers(readers, clients) {
        Some(readers)
    } else {
        None
    }
}

/// A record, where there are so many clients.
pub(crate) fn parts_in<'a>(reader: &mut Reader<'a>, clients: u32) -> Option<StartParts<'a>>
    ensures { FindsWhere start_bytes (start_fits clients) reader.old (option_map plain_start result) reader.new }
{
    let Some(owner) = owner_in(reader, clients) else {
        return None;
    };
    let Some(key) = key_in(reader) else {
        return None;
    };
    let Some(value) = value_in(reader) else {
        return None;
    };
    let Some(readers) = readers_in(reader, clients) else {
        return None;
    };
    Some(StartParts {
        owner,
        key,
        value,
        readers,
    })
}
