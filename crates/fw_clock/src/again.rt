//! What is sent again.

ghost use Rattle.std.specs.Prelude.{◌≡◌, ◌<◌, ◌++◌, ◌+◌, ◌&&◌, ℕ, Some, nat_eq, map, length, take, reverse, OnOk, OnErr, IfSome, IsTrue};
ghost use Rattle.std.specs.List.{find};
ghost use Rattle.std.specs.Option.{option_copied, option_map};
ghost use Rattle.fw_base.specs.Sizes.{accepted};
ghost use Rattle.fw_hand.specs.Hands.{PlainHand};
ghost use Rattle.fw_rules.specs.Agree as rules;
ghost use Rattle.fw_rules.specs.Choices.{first_some};
ghost use Rattle.fw_rules.specs.Signing as signing;
ghost use Rattle.fw_rules.specs.Views as views;
ghost use Rattle.fw_frame.specs.View.{Proposes, Votes};
ghost use Rattle.fw_owned.specs.Pieces.{entry_of, change_of};
ghost use Rattle.fw_kept.specs.Kept.{self_of, node_of, cast_of, pledge_of, IsFor};
ghost use Rattle.fw_kept.specs.Acts.{IsNumber};
ghost use Rattle.fw_act.specs.Doing.{IsAgreements};

use fw_act::{own_vote, send_to_others, send_to_row0};
use fw_directory::Directory;
use fw_frame::entry_digest;
use fw_hand::Hand;
use fw_kept::{Cast, Keeps, Pledge};
use fw_list::{Bytes, Memory, Newest};
use fw_node::Outbox;
use fw_owned::{OwnedChange, OwnedEntry, OwnedPropose};
use std::alloc::Global;

/// The newest of these at a number, in a view.
fn last_pledge(pledges: &[Pledge], view: u32, number: u32) -> Option<&Pledge>
    ensures { option_copied result ≡ find (λ c. nat_eq c.view view && nat_eq c.number number) (reverse pledges.now) }
{
    pledges
        .iter()
        .rev()
        .find(|pledge| pledge.view == view && pledge.number == number)
}

/// The digest for which it has voted to commit at a number, in a view.
fn pledge_at(pledges: &Newest<Pledge>, view: u32, number: u32) -> Option<&[u8; 32]>
    ensures { option_copied result ≡ first_some (rules.pledge_if view number) (map pledge_of pledges.now) }
{
    match last_pledge(pledges.oldest_first(), view, number) {
        Some(pledge) => Some(&pledge.digest),
        None => None,
    }
}

/// The newest of these at a number, in a view.
fn last_cast(casts: &[Cast], view: u32, number: u32) -> Option<&Cast>
    ensures { option_copied result ≡ find (λ c. nat_eq c.view view && nat_eq c.number number) (reverse casts.now) }
{
    casts
        .iter()
        .rev()
        .find(|cast| cast.view == view && cast.number == number)
}

/// What it has voted to prepare at a number, in a view, or has proposed there.
fn cast_at(casts: &Newest<Cast>, view: u32, number: u32) -> Option<&OwnedEntry>
    ensures { option_map entry_of (option_copied result) ≡ first_some (rules.cast_if view number) (map cast_of casts.now) }
{
    match last_cast(casts.oldest_first(), view, number) {
        Some(cast) => Some(&cast.entry),
        None => None,
    }
}

/// The newest of these to a view, by a node.
fn last_move(moves: &[OwnedChange], view: u32, agree: u32) -> Option<&OwnedChange>
    ensures { option_copied result ≡ find (λ c. nat_eq c.view view && nat_eq c.agree agree) (reverse moves.now) }
{
    moves
        .iter()
        .rev()
        .find(|change| change.view == view && change.agree == agree)
}

/// Its view change to a view.
fn move_to(moves: &Newest<OwnedChange>, view: u32, agree: u32) -> Option<&OwnedChange>
    ensures { option_map change_of (option_copied result) ≡ first_some (views.change_if view agree) (map change_of moves.now) }
{
    last_move(moves.oldest_first(), view, agree)
}

/// Sends a vote of its view for the entry of a digest: prepare (phase 0) or commit. After want of memory the outbox is as before.
fn vote_again(
    alloc: Global,
    directory: &Directory,
    own: u32,
    hand: &Hand,
    phase: u32,
    view: u32,
    number: u32,
    digest: &[u8; 32],
    out: &mut Outbox,
) -> Result<(), Memory>
    requires hand { IsAgreements directory.now.params own hand.now }
    requires view { view < directory.now.params.views }
    requires number { IsNumber directory.now.params number }
    ensures sent { OnOk result (let me = self_of directory.now hand.now own in out.new ≡ out.old ++ rules.to_others me (Votes (rules.own_vote me phase view number digest.now))) }
    ensures err { OnErr result (out.new ≡ out.old) }
{
    let vote = own_vote(alloc, directory, own, hand, phase, view, number, digest)?;
    let bytes = vote.frame(alloc)?;
    send_to_others(alloc, directory, own, bytes.items(), out)
}

/// Sends its proposal of an entry. After want of memory the outbox is as before.
fn proposal_again(
    alloc: Global,
    directory: &Directory,
    own: u32,
    hand: &Hand,
    view: u32,
    number: u32,
    entry: &OwnedEntry,
    out: &mut Outbox,
) -> Result<(), Memory>
    requires hand { IsAgreements directory.now.params own hand.now }
    requires view { view < directory.now.params.views }
    requires number { IsNumber directory.now.params number }
    ensures sent { OnOk result (let me = self_of directory.now hand.now own in out.new ≡ out.old ++ rules.to_others me (Proposes (rules.own_proposal me view number (entry_of entry.now)))) }
    ensures err { OnErr result (out.new ≡ out.old) }
{
    let digest = entry_digest(&entry.lent());
    let vote = own_vote(alloc, directory, own, hand, 0, view, number, &digest)?;
    let proposal = OwnedPropose {
        view,
        number,
        entry: entry.copy(alloc)?,
        sig: Bytes::copy_of(alloc, vote.sig.items())?,
    };
    let bytes = proposal.frame(alloc)?;
    send_to_others(alloc, directory, own, bytes.items(), out)
}

/// Sends its prepare vote for an entry. After want of memory the outbox is as before.
fn prepare_again(
    alloc: Global,
    directory: &Directory,
    own: u32,
    hand: &Hand,
    view: u32,
    number: u32,
    entry: &OwnedEntry,
    out: &mut Outbox,
) -> Result<(), Memory>
    requires hand { IsAgreements directory.now.params own hand.now }
    requires view { view < directory.now.params.views }
    requires number { IsNumber directory.now.params number }
    ensures sent { OnOk result (let me = self_of directory.now hand.now own in out.new ≡ out.old ++ rules.to_others me (Votes (rules.own_vote me 0 view number (signing.entry_digest me.means.hash (entry_of entry.now))))) }
    ensures err { OnErr result (out.new ≡ out.old) }
{
    let digest = entry_digest(&entry.lent());
    vote_again(alloc, directory, own, hand, 0, view, number, &digest, out)
}

/// Sends its commit vote at a number again, where it has cast one in its view. After want of memory the outbox is as before.
fn pledge_again(
    alloc: Global,
    directory: &Directory,
    own: u32,
    hand: &Hand,
    keeps: &Keeps,
    number: u32,
    out: &mut Outbox,
) -> Result<(), Memory>
    requires hand { IsAgreements directory.now.params own hand.now }
    requires number { IsNumber directory.now.params number }
    requires for_sizes { IsFor directory.now.params keeps.now }
    ensures sent { OnOk result (let me = self_of directory.now hand.now own in let x = node_of keeps.now in out.new ≡ out.old ++ views.resends_pledge me x number (rules.pledge_at x x.own.view number)) }
    ensures err { OnErr result (out.new ≡ out.old) }
{
    match pledge_at(&keeps.pledges, keeps.view, number) {
        Some(digest) => vote_again(
            alloc, directory, own, hand, 1, keeps.view, number, digest, out,
        ),
        None => Ok(()),
    }
}

/// Whether this node is the primary of its view.
fn is_primary(directory: &Directory, own: u32, keeps: &Keeps) -> bool
    requires { IsTrue (accepted directory.now.params) }
    ensures { (hand : PlainHand) → result ≡ rules.is_primary (self_of directory.now hand own) (node_of keeps.now) }
{
    own == keeps.view % directory.params().agreements()
}

/// Sends its proposal or its prepare vote at a number again, where it has cast one in its view. After want of memory the outbox is as
/// before.
fn cast_again(
    alloc: Global,
    directory: &Directory,
    own: u32,
    hand: &Hand,
    keeps: &Keeps,
    number: u32,
    out: &mut Outbox,
) -> Result<(), Memory>
    requires hand { IsAgreements directory.now.params own hand.now }
    requires number { IsNumber directory.now.params number }
    requires for_sizes { IsFor directory.now.params keeps.now }
    ensures sent { OnOk result (let me = self_of directory.now hand.now own in let x = node_of keeps.now in out.new ≡ out.old ++ views.resends_cast me x number (rules.cast_at x x.own.view number)) }
    ensures err { OnErr result (out.new ≡ out.old) }
{
    let Some(entry) = cast_at(&keeps.casts, keeps.view, number) else {
        return Ok(());
    };
    if is_primary(directory, own, keeps) {
        proposal_again(alloc, directory, own, hand, keeps.view, number, entry, out)
    } else {
        prepare_again(alloc, directory, own, hand, keeps.view, number, entry, out)
    }
}

/// Sends its votes at a number again. After want of memory the outbox begins with what it had.
fn votes_again(
    alloc: Global,
    directory: &Directory,
    own: u32,
    hand: &Hand,
    keeps: &Keeps,
    number: u32,
    out: &mut Outbox,
) -> Result<(), Memory>
    requires hand { IsAgreements directory.now.params own hand.now }
    requires number { IsNumber directory.now.params number }
    requires for_sizes { IsFor directory.now.params keeps.now }
    ensures sent { OnOk result (out.new ≡ out.old ++ views.resends_at (self_of directory.now hand.now own) (node_of keeps.now) (Some number)) }
    ensures begins { take (length out.old) out.new ≡ out.old }
{
    cast_again(alloc, directory, own, hand, keeps, number, out)?;
    pledge_again(alloc, directory, own, hand, keeps, number, out)
}

/// Sends its view change to its view again. After want of memory the outbox is as before.
fn change_again(
    alloc: Global,
    directory: &Directory,
    own: u32,
    keeps: &Keeps,
    out: &mut Outbox,
) -> Result<(), Memory>
    requires { IsTrue (accepted directory.now.params) }
    ensures sent { OnOk result ((hand : PlainHand) → let me = self_of directory.now hand own in out.new ≡ out.old ++ views.resends_change me (first_some (views.change_if keeps.now.view own) (node_of keeps.now).own.moves)) }
    ensures err { OnErr result (out.new ≡ out.old) }
{
    match move_to(&keeps.moves, keeps.view, own) {
        Some(change) => {
            let bytes = change.frame(alloc)?;
            send_to_others(alloc, directory, own, bytes.items(), out)
        }
        None => Ok(()),
    }
}

/// The least number that isn't committed.
fn least_open(directory: &Directory, keeps: &Keeps) -> Option<u32>
    ensures least { (hand : PlainHand) (own : ℕ) → result ≡ first_some (views.uncommitted (node_of keeps.now)) (rules.numbers (self_of directory.now hand own)) }
    ensures number { IfSome result (IsNumber directory.now.params) }
{
    for k in 0..directory.params().numbers {
        if keeps.settled.agreed_at(k + 1).is_none() {
            return Some(k + 1);
        }
    }
    None
}

/// Sends again what is owed: an active node its votes at the least number that isn't committed, one that isn't active its view change.
/// After want of memory the outbox begins with what it had.
pub(crate) fn resends(
    alloc: Global,
    directory: &Directory,
    own: u32,
    hand: &Hand,
    keeps: &Keeps,
    out: &mut Outbox,
) -> Result<(), Memory>
    requires hand { IsAgreements directory.now.params own hand.now }
    requires for_sizes { IsFor directory.now.params keeps.now }
    ensures sent { OnOk result (out.new ≡ out.old ++ views.resends (self_of directory.now hand.now own) (node_of keeps.now)) }
    ensures begins { take (length out.old) out.new ≡ out.old }
{
    if !keeps.active {
        return change_again(alloc, directory, own, keeps, out);
    }
    match least_open(directory, keeps) {
        Some(number) => votes_again(alloc, directory, own, hand, keeps, number, out),
        None => Ok(()),
    }
}

/// Sends the agreed frame again that has gone up and waits for its reply, if there is one. After want of memory the outbox is as before.
pub(crate) fn agreed_again(
    alloc: Global,
    directory: &Directory,
    keeps: &Keeps,
    out: &mut Outbox,
) -> Result<(), Memory>
    requires sizes { IsTrue (accepted directory.now.params) }
    requires for_sizes { IsFor directory.now.params keeps.now }
    ensures sent { OnOk result ((hand : PlainHand) (own : ℕ) → let me = self_of directory.now hand own in let x = node_of keeps.now in out.new ≡ out.old ++ views.agreed_again me x (rules.agreed_at x (rules.replied me x + 1))) }
    ensures err { OnErr result (out.new ≡ out.old) }
{
    let Some(number) = keeps.settled.again() else {
        return Ok(());
    };
    match keeps.settled.agreed_frame(number) {
        Some(frame) => send_to_row0(alloc, directory, frame, out),
        None => Ok(()),
    }
}
