//! The names of records.

ghost use Rattle.std.specs.Prelude.{◌≡◌};
ghost use Rattle.fw_store.specs.Store.{name_cmp, name_of, is_other};
ghost use Rattle.fw_record.specs.Records.{is_new};

use fw_op::Start;
use std::cmp::Ordering;

/// How the name of a record stands to that of another.
#[tactic(auto, unfolding(fw_store::specs::Store::name_cmp))]
fn compare(one: &Start, other: &Start) -> Ordering
    ensures { result ≡ name_cmp (name_of one.now) (name_of other.now) }
{
    match one.owner.cmp(&other.owner) {
        Ordering::Equal => one.key.items().cmp(other.key.items()),
        unequal => unequal,
    }
}

/// Whether a record has another name than this one.
fn has_other_name(one: &Start, start: &Start) -> bool
    ensures { result ≡ is_other (name_of start.now) one.now }
{
    match compare(one, start) {
        Ordering::Equal => false,
        _ => true,
    }
}

/// Whether none of the records has the name of this one.
pub fn is_new(before: &[Start], start: &Start) -> bool
    ensures { result ≡ is_new before.now start.now }
{
    before.iter().all(|one| has_other_name(one, start))
}
