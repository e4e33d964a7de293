//! What was done at a number, and what is agreed.

ghost use Rattle.std.specs.Prelude.{◌≡◌, ◌&&◌, List, map, nat_eq, reverse, is_some, filter, max, if◌then◌else◌};
ghost use Rattle.std.specs.List.{find, list_any};
ghost use Rattle.std.specs.Option.{option_copied, option_map};
ghost use Rattle.fw_rules.specs.Agree as agree;
ghost use Rattle.fw_rules.specs.Choices.{first_some};
ghost use Rattle.fw_kept.specs.Kept.{cast_of, pledge_of};
ghost use Rattle.fw_owned.specs.Pieces.{entry_of, agreed_of};

use crate::entries::has_request;
use fw_kept::{Cast, Pledge};
use fw_list::Newest;
use fw_owned::{OwnedAgreed, OwnedEntry};
use fw_settled::Settled;

/// The last of these at a number, in a view.
fn last_cast(casts: &[Cast], view: u32, number: u32) -> Option<&Cast>
    ensures { option_copied result ≡ find (λ c. nat_eq c.view view && nat_eq c.number number) (reverse casts.now) }
{
    casts
        .iter()
        .rev()
        .find(|cast| cast.view == view && cast.number == number)
}

/// What it has voted to prepare at a number, in a view, or has proposed there.
pub(crate) fn cast_at(casts: &Newest<Cast>, view: u32, number: u32) -> Option<&OwnedEntry>
    ensures { option_map entry_of (option_copied result) ≡ first_some (agree.cast_if view number) (map cast_of casts.now) }
{
    match last_cast(casts.oldest_first(), view, number) {
        Some(cast) => Some(&cast.entry),
        None => None,
    }
}

/// Whether one of these is at a number, in a view.
fn is_any_pledge(pledges: &[Pledge], view: u32, number: u32) -> bool
    ensures { result ≡ list_any (λ c. nat_eq c.view view && nat_eq c.number number) (reverse pledges.now) }
{
    pledges
        .iter()
        .rev()
        .any(|pledge| pledge.view == view && pledge.number == number)
}

/// Whether it has voted to commit at a number, in a view.
pub(crate) fn has_pledged(pledges: &Newest<Pledge>, view: u32, number: u32) -> bool
    ensures { result ≡ is_some (first_some (agree.pledge_if view number) (map pledge_of pledges.now)) }
{
    is_any_pledge(pledges.oldest_first(), view, number)
}

/// Whether a request is in one of these, in a view.
fn is_any_cast(casts: &[Cast], view: u32, client: u32, stamp: u32) -> bool
    ensures { result ≡ list_any (λ c. nat_eq c.view view && agree.has_request client stamp (entry_of c.entry)) (reverse casts.now) }
{
    casts.iter().rev().any(|cast| cast.view == view && has_request(&cast.entry, client, stamp))
}

/// Whether a client's stamp is in what it has cast in a view.
pub(crate) fn is_cast(casts: &Newest<Cast>, view: u32, client: u32, stamp: u32) -> bool
    ensures { result ≡ list_any (λ c. nat_eq c.view view && agree.has_request client stamp c.entry) (map cast_of casts.now) }
{
    is_any_cast(casts.oldest_first(), view, client, stamp)
}

/// Whether a request is in one of these.
fn is_any_agreed(committed: &[OwnedAgreed], client: u32, stamp: u32) -> bool
    ensures { result ≡ list_any (λ a. agree.has_request client stamp (entry_of a.entry)) (reverse committed.now) }
{
    committed
        .iter()
        .rev()
        .any(|agreed| has_request(&agreed.entry, client, stamp))
}

/// Whether a client's stamp is in what is agreed.
pub(crate) fn is_agreed(settled: &Settled, client: u32, stamp: u32) -> bool
    ensures { result ≡ list_any (λ a. agree.has_request client stamp a.entry) (map agreed_of settled.now.committed) }
{
    is_any_agreed(settled.committed(), client, stamp)
}

/// The greater of a number and of that of this, where it is in a view.
fn greater(most: u32, cast: &Cast, view: u32) -> u32
    ensures { result ≡ (if nat_eq cast.now.view view then max cast.now.number most else most) }
{
    if cast.view == view && cast.number > most {
        return cast.number;
    }
    most
}

/// The greatest number of these in a view, or 0.
fn greatest_of(casts: &[Cast], view: u32) -> u32
    ensures { result ≡ agree.greatest (map (λ c. c.number) (filter (λ c. nat_eq c.view view) (map cast_of (reverse casts.now)))) }
{
    let mut most = 0;
    for cast in casts {
        most = greater(most, cast, view);
    }
    most
}

/// The greatest number at which it has cast in a view, or 0.
pub(crate) fn greatest_cast(casts: &Newest<Cast>, view: u32) -> u32
    ensures { result ≡ agree.greatest (map (λ c. c.number) (filter (λ c. nat_eq c.view view) (map cast_of casts.now))) }
{
    greatest_of(casts.oldest_first(), view)
}
