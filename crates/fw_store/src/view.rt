//! What a client sees of the records, and what it is told.

ghost use Rattle.std.specs.Prelude.{◌≡◌, ◌≢◌, [], IfOk, OnErr, IsTrue, Some, length, filter, map, take, nat_eq};
ghost use Rattle.std.specs.List.{list_any};
ghost use Rattle.fw_op.specs.declared.op.Op.TheVariants as ops;
ghost use Rattle.fw_store.specs.Store.{are_ordered, may_see, shown_to, visible, value_seen, name_of, most_names, applied};
ghost use Rattle.fw_store.specs.Wants.{may_want};

use crate::place::place_of;
use fw_list::{Bytes, Memory};
use fw_op::{Clients, Name, Names, Reply, Start, Starts};
use std::alloc::Global;

/// The most names that one reply tells.
const MOST_NAMES: usize = 24;

/// Whether the client may see the record.
fn is_seen(client: u32, owned: &Start) -> bool
    ensures { result ≡ may_see client owned.now }
{
    owned.owner == client || is_among(client, owned.readers.items())
}

/// Whether the client is one of these.
fn is_among(client: u32, clients: &[u32]) -> bool
    ensures { result ≡ list_any (nat_eq client) clients.now }
{
    clients.iter().any(|other| client == *other)
}

/// The reply to a client that asks for the value of an owner's record.
pub fn value(
    alloc: Global,
    records: &[Start],
    client: u32,
    owner: u32,
    key: &Bytes,
) -> Result<Reply, Memory>
    requires { IsTrue (are_ordered records.now) }
    ensures reply { IfOk result (λ reply. reply ≡ (applied client (ops.Get owner key.now) records.now).0) }
    ensures memory { OnErr result (IsTrue (may_want client (ops.Get owner key.now) records.now)) }
{
    match place_of(records, owner, key.items()) {
        Ok(place) => told(alloc, client, &records[place]),
        Err(_) => Ok(Reply::Absent),
    }
}

/// What a client is told of a record.
fn told(alloc: Global, client: u32, owned: &Start) -> Result<Reply, Memory>
    ensures reply { IfOk result (λ reply. reply ≡ value_seen client (Some owned.now)) }
    ensures memory { OnErr result (IsTrue (may_see client owned.now)) }
{
    if is_seen(client, owned) {
        Ok(Reply::Value {
            value: Bytes::copy_of(alloc, owned.value.items())?,
        })
    } else {
        Ok(Reply::Absent)
    }
}

/// How many records a client sees.
fn seen_count(records: &[Start], client: u32) -> usize
    ensures { result ≡ length (filter (may_see client) records.now) }
{
    records
        .iter()
        .filter(|owned| is_seen(client, owned))
        .count()
}

/// The reply to a client that asks how many records it sees; more than a reply can count are want of memory.
pub fn count(records: &[Start], client: u32) -> Result<Reply, Memory>
    ensures reply { IfOk result (λ reply. reply ≡ (applied client ops.Count records.now).0) }
    ensures memory { OnErr result (IsTrue (may_want client ops.Count records.now)) }
{
    match u32::try_from(seen_count(records, client)) {
        Ok(count) => Ok(Reply::Count { count }),
        Err(_) => Err(Memory),
    }
}

/// The first names of the records that a client sees.
pub fn names(alloc: Global, records: &[Start], client: u32) -> Result<Names, Memory>
    ensures names { IfOk result (λ names. names ≡ take most_names (map name_of (visible client records.now))) }
    ensures memory { OnErr result (IsTrue (may_want client ops.Keys records.now)) }
{
    let mut names = Names::new(alloc);
    for owned in records {
        if names.len() == MOST_NAMES {
            return Ok(names);
        }
        if is_seen(client, owned) {
            names.push(Name {
                owner: owned.owner,
                key: Bytes::copy_of(alloc, owned.key.items())?,
            })?;
        }
    }
    Ok(names)
}

/// The records that a client sees, as they are shown to it.
pub fn view(alloc: Global, records: &[Start], client: u32) -> Result<Starts, Memory>
    ensures view { IfOk result (λ view. view ≡ visible client records.now) }
    ensures memory { OnErr result (visible client records.now ≢ []) }
{
    let mut view = Starts::new(alloc);
    for owned in records {
        if is_seen(client, owned) {
            view.push(shown(alloc, client, owned)?)?;
        }
    }
    Ok(view)
}

/// A record as a client is shown it.
fn shown(alloc: Global, client: u32, owned: &Start) -> Result<Start, Memory>
    ensures { IfOk result (λ shown. shown ≡ shown_to client owned.now) }
{
    let mut shown = owned.copy(alloc)?;
    if owned.owner != client {
        shown.readers = Clients::new(alloc);
    }
    Ok(shown)
}
