//! What operations change.

ghost use Rattle.std.specs.Prelude.{◌≡◌, ◌∷◌, ◌++◌, ◌<◌, IfOk, OnOk, OnErr, IsTrue, length, vec_len, filter, not, nat_eq, nat_lt, bytes_eq, slice_set, slice_index_or};
ghost use Rattle.fw_op.specs.declared.start.Start.{Start};
ghost use Rattle.fw_op.specs.declared.op.Op.TheVariants as ops;
ghost use Rattle.fw_store.specs.Store.{are_ordered, applied, with_value, with_reader, without_reader};
ghost use Rattle.fw_store.specs.Wants.{may_want};

use crate::place::place_of;
use fw_list::{Bytes, Memory};
use fw_op::{Clients, Reply, Start};
use std::alloc::Global;

/// Gives a client's record a value, and adds the record where there is none.
pub fn put(
    alloc: Global,
    records: &mut Vec<Start>,
    client: u32,
    key: &Bytes,
    value: &Bytes,
) -> Result<Reply, Memory>
    requires { IsTrue (are_ordered records.old.items) }
    ensures reply { IfOk result (λ reply. reply ≡ (applied client (ops.Put key.now value.now) records.old.items).0) }
    ensures after { OnOk result (records.new.items ≡ (applied client (ops.Put key.now value.now) records.old.items).1) }
    ensures err { OnErr result (records.new.items ≡ records.old.items) }
{
    match place_of(records.as_slice(), client, key.items()) {
        Ok(place) => {
            set_value(alloc, records, place, value)?;
            Ok(Reply::Done)
        }
        Err(place) => {
            let new = Start {
                owner: client,
                key: Bytes::copy_of(alloc, key.items())?,
                value: Bytes::copy_of(alloc, value.items())?,
                readers: Clients::new(alloc),
            };
            records.insert(place, new)?;
            Ok(Reply::Done)
        }
    }
}

/// Removes a client's record.
pub fn del(records: &mut Vec<Start>, client: u32, key: &Bytes) -> Reply
    requires { IsTrue (are_ordered records.old.items) }
    ensures reply { result ≡ (applied client (ops.Del key.now) records.old.items).0 }
    ensures after { records.new.items ≡ (applied client (ops.Del key.now) records.old.items).1 }
{
    match place_of(records.as_slice(), client, key.items()) {
        Ok(place) => {
            let _removed = records.remove(place);
            Reply::Done
        }
        Err(_) => Reply::Absent,
    }
}

/// Gives a client's record a new value where it has the old one.
pub fn cas(
    alloc: Global,
    records: &mut Vec<Start>,
    client: u32,
    key: &Bytes,
    old: &Bytes,
    new: &Bytes,
) -> Result<Reply, Memory>
    requires { IsTrue (are_ordered records.old.items) }
    ensures reply { IfOk result (λ reply. reply ≡ (applied client (ops.Cas key.now old.now new.now) records.old.items).0) }
    ensures after { OnOk result (records.new.items ≡ (applied client (ops.Cas key.now old.now new.now) records.old.items).1) }
    ensures err { OnErr result (records.new.items ≡ records.old.items) }
    ensures memory { OnErr result (IsTrue (may_want client (ops.Cas key.now old.now new.now) records.old.items)) }
{
    match place_of(records.as_slice(), client, key.items()) {
        Err(_) => Ok(Reply::Absent),
        Ok(place) => {
            if !has_value(records.as_slice(), place, old) {
                return Ok(Reply::Differs);
            }
            set_value(alloc, records, place, new)?;
            Ok(Reply::Done)
        }
    }
}

/// Lets a client read the caller's record.
pub fn grant(
    alloc: Global,
    records: &mut Vec<Start>,
    caller: u32,
    key: &Bytes,
    client: u32,
) -> Result<Reply, Memory>
    requires { IsTrue (are_ordered records.old.items) }
    ensures reply { IfOk result (λ reply. reply ≡ (applied caller (ops.Grant key.now client) records.old.items).0) }
    ensures after { OnOk result (records.new.items ≡ (applied caller (ops.Grant key.now client) records.old.items).1) }
    ensures err { OnErr result (records.new.items ≡ records.old.items) }
    ensures memory { OnErr result (IsTrue (may_want caller (ops.Grant key.now client) records.old.items)) }
{
    match place_of(records.as_slice(), caller, key.items()) {
        Err(_) => Ok(Reply::Absent),
        Ok(place) => {
            let_in(alloc, records, place, client)?;
            Ok(Reply::Done)
        }
    }
}

/// Takes that away.
pub fn revoke(
    alloc: Global,
    records: &mut Vec<Start>,
    caller: u32,
    key: &Bytes,
    client: u32,
) -> Result<Reply, Memory>
    requires { IsTrue (are_ordered records.old.items) }
    ensures reply { IfOk result (λ reply. reply ≡ (applied caller (ops.Revoke key.now client) records.old.items).0) }
    ensures after { OnOk result (records.new.items ≡ (applied caller (ops.Revoke key.now client) records.old.items).1) }
    ensures err { OnErr result (records.new.items ≡ records.old.items) }
    ensures memory { OnErr result (IsTrue (may_want caller (ops.Revoke key.now client) records.old.items)) }
{
    match place_of(records.as_slice(), caller, key.items()) {
        Err(_) => Ok(Reply::Absent),
        Ok(place) => {
            leave_out(alloc, records, place, client)?;
            Ok(Reply::Done)
        }
    }
}

/// Gives the record at a place another value.
fn set_value(
    alloc: Global,
    records: &mut Vec<Start>,
    place: usize,
    value: &Bytes,
) -> Result<(), Memory>
    requires { place < vec_len records.old }
    ensures ok { OnOk result ((d : Start) →
        records.new.items ≡ slice_set records.old.items place (with_value value.now (slice_index_or records.old.items place d))) }
    ensures err { OnErr result (records.new.items ≡ records.old.items) }
{
    let owned = &mut records[place];
    owned.value = Bytes::copy_of(alloc, value.items())?;
    Ok(())
}

/// Whether the record at a place has this value.
fn has_value(records: &[Start], place: usize, value: &Bytes) -> bool
    requires { place < length records.now }
    ensures { (d : Start) → result ≡ bytes_eq (slice_index_or records.now place d).value value.now }
{
    are_same(records[place].value.items(), value.items())
}

/// Adds a reader to the record at a place.
fn let_in(alloc: Global, records: &mut Vec<Start>, place: usize, client: u32) -> Result<(), Memory>
    requires { place < vec_len records.old }
    ensures ok { OnOk result ((d : Start) →
        records.new.items ≡ slice_set records.old.items place (with_reader client (slice_index_or records.old.items place d))) }
    ensures err { OnErr result (records.new.items ≡ records.old.items) }
{
    let owned = &mut records[place];
    owned.readers = joined(alloc, owned.readers.items(), client)?;
    Ok(())
}

/// Removes a reader from the record at a place.
fn leave_out(
    alloc: Global,
    records: &mut Vec<Start>,
    place: usize,
    client: u32,
) -> Result<(), Memory>
    requires { place < vec_len records.old }
    ensures ok { OnOk result ((d : Start) →
        records.new.items ≡ slice_set records.old.items place (without_reader client (slice_index_or records.old.items place d))) }
    ensures err { OnErr result (records.new.items ≡ records.old.items) }
{
    let owned = &mut records[place];
    owned.readers = parted(alloc, owned.readers.items(), client)?;
    Ok(())
}

/// Whether both have the same bytes.
fn are_same(one: &[u8], other: &[u8]) -> bool
    ensures { result ≡ bytes_eq one.now other.now }
{
    one == other
}

/// The readers with a client among them, in its place.
fn joined(alloc: Global, readers: &[u32], client: u32) -> Result<Clients, Memory>
    ensures { IfOk result (λ all. all ≡ filter (λ c. nat_lt c client) readers.now ++ client ∷ filter (λ c. nat_lt client c) readers.now) }
{
    let mut all = Clients::new(alloc);
    append_below(&mut all, readers, client)?;
    all.push(client)?;
    append_above(&mut all, readers, client)?;
    Ok(all)
}

/// Appends the readers below a client.
fn append_below(all: &mut Clients, readers: &[u32], client: u32) -> Result<(), Memory>
    ensures { OnOk result (all.new ≡ all.old ++ filter (λ c. nat_lt c client) readers.now) }
{
    for reader in readers {
        if *reader < client {
            all.push(*reader)?;
        }
    }
    Ok(())
}

/// Appends the readers above a client.
fn append_above(all: &mut Clients, readers: &[u32], client: u32) -> Result<(), Memory>
    ensures { OnOk result (all.new ≡ all.old ++ filter (λ c. nat_lt client c) readers.now) }
{
    for reader in readers {
        if client < *reader {
            all.push(*reader)?;
        }
    }
    Ok(())
}

/// The readers without a client.
fn parted(alloc: Global, readers: &[u32], client: u32) -> Result<Clients, Memory>
    ensures { IfOk result (λ left. left ≡ filter (λ c. not (nat_eq c client)) readers.now) }
{
    let mut left = Clients::new(alloc);
    for reader in readers {
        if *reader != client {
            left.push(*reader)?;
        }
    }
    Ok(left)
}
