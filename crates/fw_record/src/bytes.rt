//! Records read from bytes.

ghost use Rattle.std.specs.Prelude.{◌≡◌, ◌≤◌, ◌++◌, ◌&&◌, ℕ, List, Some, IfOk, OnErr, IfSome, IsTrue, length, nat_eq, nat_le};
ghost use Rattle.std.specs.List.{list_all, flat_map};
ghost use Rattle.fw_list.specs.Numbers.{u32};
ghost use Rattle.fw_op.specs.declared.start.Start.{Start};
ghost use Rattle.fw_record.specs.declared.limits.TheConstants.{MOST_RECORDS};
ghost use Rattle.fw_record.specs.Records.{start_bytes, start_fits, starts_bytes, starts_fit};
ghost use Rattle.fw_wire.specs.Reading.{FindsWhere};
ghost use Rattle.fw_record.specs.Reading.{BeginsWithStart, BeginsWithStarts};

use crate::MOST_RECORDS;
use crate::fields::parts_in;
use fw_list::Memory;
use fw_op::Starts;
use fw_store::are_distinct;
use fw_wire::Reader;
use std::alloc::Global;

/// How many records there are.
fn count_in(reader: &mut Reader<'_>) -> Option<u32>
    ensures { FindsWhere u32 (λ n. nat_le n MOST_RECORDS) reader.old result reader.new }
{
    let count = reader.u32()?;
    if count as usize <= MOST_RECORDS {
        Some(count)
    } else {
        None
    }
}

/// So many records.
fn some_starts(
    alloc: Global,
    clients: u32,
    reader: &mut Reader<'_>,
    count: u32,
) -> Result<Option<Starts>, Memory>
    ensures found { IfOk result (λ found. FindsWhere (flat_map start_bytes) (λ starts. nat_eq (length starts) count && list_all (start_fits clients) starts) reader.old found reader.new) }
    ensures memory { OnErr result (BeginsWithStart clients reader.old) }
{
    let mut starts = Starts::new(alloc);
    for _ in 0..count {
        let Some(parts) = parts_in(reader, clients) else {
            return Ok(None);
        };
        starts.push(parts.own(alloc)?)?;
    }
    Ok(Some(starts))
}

/// The records that the bytes begin with, where there are so many clients, or none exactly where they begin with no such list.
pub fn read_starts(
    alloc: Global,
    clients: u32,
    reader: &mut Reader<'_>,
) -> Result<Option<Starts>, Memory>
    requires { clients ≤ 8 }
    ensures found { IfOk result (λ found. IfSome found (λ starts. (reader.old ≡ starts_bytes starts ++ reader.new) × IsTrue (starts_fit clients starts))) }
    ensures each { IfOk result (λ found. (starts : List Start) (rest : List ℕ) → IsTrue (starts_fit clients starts) → reader.old ≡ starts_bytes starts ++ rest → (found ≡ Some starts) × (reader.new ≡ rest)) }
    // Other bytes than these need no memory.
    ensures memory { OnErr result (BeginsWithStarts clients reader.old) }
{
    let Some(count) = count_in(reader) else {
        return Ok(None);
    };
    let Some(starts) = some_starts(alloc, clients, reader, count)? else {
        return Ok(None);
    };
    if !are_distinct(starts.items()) {
        return Ok(None);
    }
    Ok(Some(starts))
}
