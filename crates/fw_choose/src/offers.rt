//! Proposals: of what the view's new view chooses, and of requests that wait.

ghost use Rattle.std.specs.Prelude.{◌≡◌, ◌≤◌, ◌+◌, ℕ, max, IfOk, IfSome, IsTrue};
ghost use Rattle.std.specs.List.{list_any};
ghost use Rattle.std.specs.Option.{option_map};
ghost use Rattle.fw_list.specs.Lists.{numbers_from};
ghost use Rattle.fw_base.specs.Sizes.{accepted};
ghost use Rattle.fw_hand.specs.Hands.{PlainHand};
ghost use Rattle.fw_rules.specs.Agree as agree;
ghost use Rattle.fw_kept.specs.Kept.{self_of, node_of, act_of};
ghost use Rattle.fw_owned.specs.Pieces.{request_of, entry_of};
ghost use Rattle.fw_kept.specs.Acts.{number_of, IsOpen};
ghost use Rattle.fw_adopted.specs.Plans.{last_of};

use crate::done::{cast_at, greatest_cast, is_agreed, is_cast};
use crate::entries::has_request;
use crate::replies::reply_to;
use fw_adopted::Adoptions;
use fw_directory::Directory;
use fw_kept::{Act, Keeps};
use fw_list::Memory;
use fw_owned::{OwnedEntry, OwnedRequest};
use std::alloc::Global;

/// Whether this node is the primary of its view.
pub(crate) fn is_primary(directory: &Directory, own: u32, keeps: &Keeps) -> bool
    requires { IsTrue (accepted directory.now.params) }
    ensures { (hand : PlainHand) → result ≡ agree.is_primary (self_of directory.now hand own) (node_of keeps.now) }
{
    own == keeps.view % directory.params().agreements()
}

/// The proposal of what its new view chooses at a number, where this node is the primary of its view, which has begun, and has proposed
/// nothing there.
pub fn offers_choice(
    alloc: Global,
    directory: &Directory,
    own: u32,
    keeps: &Keeps,
    number: u32,
) -> Result<Option<Act>, Memory>
    requires sizes { IsTrue (accepted directory.now.params) }
    requires first { 1 ≤ number }
    ensures act { IfOk result (λ act. (hand : PlainHand) → option_map act_of act ≡ agree.offers_choice (self_of directory.now hand own) (node_of keeps.now) number) }
    ensures number { IfOk result (λ act. IfSome act (λ a. number_of a ≡ number)) }
    ensures open { IfOk result (λ act. IfSome act (IsOpen keeps.now)) }
{
    if !keeps.active {
        return Ok(None);
    }
    if !is_primary(directory, own, keeps) {
        return Ok(None);
    }
    if cast_at(&keeps.casts, keeps.view, number).is_some() {
        return Ok(None);
    }
    match keeps.adopted.choice_at(number) {
        Some(chosen) => {
            let entry = chosen.copy(alloc)?;
            Ok(Some(Act::Offer { number, entry }))
        }
        None => Ok(None),
    }
}

/// Whether a client's stamp is in one of these.
fn is_in_any(entries: &[OwnedEntry], client: u32, stamp: u32) -> bool
    ensures { result ≡ list_any (λ e. agree.has_request client stamp (entry_of e)) entries.now }
{
    entries
        .iter()
        .any(|entry| has_request(entry, client, stamp))
}

/// Whether a client's stamp is in what its new view chooses.
fn is_chosen(adopted: &Adoptions, client: u32, stamp: u32) -> bool
    ensures { let changes = last_of adopted.now in result ≡ list_any (λ n. agree.has_request client stamp (agree.choice changes n)) (numbers_from 1 (agree.top changes)) }
{
    is_in_any(adopted.choices(), client, stamp)
}

/// Whether a request is neither cast in this view, nor chosen, nor agreed, nor answered.
fn is_waiting(directory: &Directory, keeps: &Keeps, request: &OwnedRequest) -> bool
    ensures { (hand : PlainHand) (own : ℕ) → result ≡ agree.is_waiting (self_of directory.now hand own) (node_of keeps.now) (request_of request.now) }
{
    if is_cast(&keeps.casts, keeps.view, request.client, request.stamp) {
        return false;
    }
    if is_chosen(&keeps.adopted, request.client, request.stamp) {
        return false;
    }
    if is_agreed(&keeps.settled, request.client, request.stamp) {
        return false;
    }
    reply_to(directory, keeps, request.client, request.stamp).is_none()
}

/// The greater of two numbers.
fn greater(one: u32, other: u32) -> u32
    ensures { result ≡ max one other }
{
    if one > other { one } else { other }
}

/// The number after all that is chosen or proposed in its view.
fn next_number(keeps: &Keeps) -> u64
    ensures { result ≡ agree.next_number (node_of keeps.now) }
{
    greater(keeps.adopted.top(), greatest_cast(&keeps.casts, keeps.view)) as u64 + 1
}

/// The proposal of a remembered request, where this node is the primary of its view, which has begun, the request waits, and there is a
/// number for it.
pub fn offers_request(
    alloc: Global,
    directory: &Directory,
    own: u32,
    keeps: &Keeps,
    request: &OwnedRequest,
) -> Result<Option<Act>, Memory>
    requires { IsTrue (accepted directory.now.params) }
    ensures act { IfOk result (λ act. (hand : PlainHand) → option_map act_of act ≡ agree.offers_request (self_of directory.now hand own) (node_of keeps.now) (request_of request.now)) }
    ensures first { IfOk result (λ act. IfSome act (λ a. 1 ≤ number_of a)) }
    ensures last { IfOk result (λ act. IfSome act (λ a. number_of a ≤ directory.now.params.numbers)) }
    ensures open { IfOk result (λ act. IfSome act (IsOpen keeps.now)) }
{
    if !keeps.active {
        return Ok(None);
    }
    if !is_primary(directory, own, keeps) {
        return Ok(None);
    }
    if !is_waiting(directory, keeps, request) {
        return Ok(None);
    }
    let number = next_number(keeps);
    if number > directory.params().numbers as u64 {
        return Ok(None);
    }
    Ok(Some(Act::Offer {
        number: number as u32,
        entry: OwnedEntry::Request(request.copy(alloc)?),
    }))
}
