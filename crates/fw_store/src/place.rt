//! Where a record stands.

ghost use Rattle.std.specs.Prelude.{◌≡◌, IsTrue, MatchResult};
ghost use Rattle.fw_store.specs.Store.{name_cmp, name_of, are_ordered};
ghost use Rattle.fw_store.specs.Places.{StandsAt, IsMissingAt};

use fw_op::Start;
use std::cmp::Ordering;

/// How the name of a record stands to an owner and a key.
#[tactic(auto, unfolding(crate::specs::Store::name_cmp))]
pub fn compare(owned: &Start, owner: u32, key: &[u8]) -> Ordering
    ensures { result ≡ name_cmp (name_of owned.now) (record { owner = owner; key = key.now }) }
{
    match owned.owner.cmp(&owner) {
        Ordering::Equal => owned.key.items().cmp(key),
        other => other,
    }
}

/// The place of the record of an owner and a key among records in order; or the place where it would stand.
pub fn place_of(records: &[Start], owner: u32, key: &[u8]) -> Result<usize, usize>
    requires { IsTrue (are_ordered records.now) }
    ensures { MatchResult result (StandsAt (record { owner = owner; key = key.now }) records.now)
        (IsMissingAt (record { owner = owner; key = key.now }) records.now) }
{
    let mut low = 0;
    let mut high = records.len();
    while low < high {
        let middle = low + (high - low) / 2;
        match compare(&records[middle], owner, key) {
            Ordering::Less => low = middle + 1,
            Ordering::Equal => return Ok(middle),
            Ordering::Greater => high = middle,
        }
    }
    Err(low)
}
