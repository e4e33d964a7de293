//! Records that are put in order.

ghost use Rattle.std.specs.Prelude.{◌≡◌, None, IsTrue, IfOk, OnOk};
ghost use Rattle.std.specs.List.{list_all};
ghost use Rattle.fw_store.specs.Store.{are_ordered, are_distinct, is_other, name_of, record_of, added, ordered};

use crate::place::{compare, place_of};
use fw_list::Memory;
use fw_op::Start;
use std::alloc::Global;
use std::cmp::Ordering;

/// Whether no two records have one name.
pub fn are_distinct(starts: &[Start]) -> bool
    ensures { result ≡ are_distinct starts.now }
{
    for (k, start) in starts.iter().enumerate() {
        if !is_alone(start, &starts[k + 1..]) {
            return false;
        }
    }
    true
}

/// Whether none of the others has the record's name.
fn is_alone(start: &Start, others: &[Start]) -> bool
    ensures { result ≡ list_all (is_other (name_of start.now)) others.now }
{
    others.iter().all(|other| has_other_name(other, start))
}

/// Whether two records have two names.
fn has_other_name(owned: &Start, start: &Start) -> bool
    ensures { result ≡ is_other (name_of start.now) owned.now }
{
    match compare(owned, start.owner, start.key.items()) {
        Ordering::Equal => false,
        _ => true,
    }
}

/// Copies of the records, in order.
pub fn in_order(alloc: Global, starts: &[Start]) -> Result<Vec<Start>, Memory>
    requires { IsTrue (are_distinct starts.now) }
    ensures records { IfOk result (λ records. records.items ≡ ordered starts.now) }
    ensures order { IfOk result (λ records. IsTrue (are_ordered records.items)) }
{
    let mut records = Vec::new(alloc);
    for start in starts {
        add(&mut records, start.copy(alloc)?)?;
    }
    Ok(records)
}

/// Adds a record of a new name in its place.
fn add(records: &mut Vec<Start>, new: Start) -> Result<(), Memory>
    requires order { IsTrue (are_ordered records.old.items) }
    requires absent { record_of (name_of new) records.old.items ≡ None }
    ensures { OnOk result (records.new.items ≡ added new records.old.items) }
{
    match place_of(records.as_slice(), new.owner, new.key.items()) {
        Ok(_) => Ok(()),
        Err(place) => {
            records.insert(place, new)?;
            Ok(())
        }
    }
}
