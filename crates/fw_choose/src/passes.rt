//! Votes, what is agreed, and what goes up.

ghost use Rattle.std.specs.Prelude.{◌≡◌, ◌≤◌, ℕ, Some, true, map, nat_lt, bytes_eq, IfOk, IfSome, IsTrue, if◌then◌else◌};
ghost use Rattle.std.specs.Option.{option_copied, option_map};
ghost use Rattle.fw_base.specs.Sizes.{accepted};
ghost use Rattle.fw_directory.specs.Directories.{PlainDirectory};
ghost use Rattle.fw_hand.specs.Hands.{PlainHand};
ghost use Rattle.fw_rules.specs.Agree as agree;
ghost use Rattle.fw_kept.specs.Kept.{self_of, node_of, act_of, IsFor};
ghost use Rattle.fw_owned.specs.Pieces.{entry_of, propose_of, vote_of};
ghost use Rattle.fw_kept.specs.Acts.{number_of, IsOpen, IsCommit};
ghost use Rattle.fw_adopted.specs.Plans.{last_of};
ghost use Rattle.fw_text.specs.Texts.{hash};
ghost use Rattle.fw_rules.specs.Signing as signing;
ghost use Rattle.fw_rules.specs.Choices.{first_some};

use crate::done::{cast_at, has_pledged};
use crate::entries::{digest_of, seen_of};
use crate::offers::is_primary;
use crate::votes::vote_quorum;
use fw_adopted::Adoptions;
use fw_directory::Directory;
use fw_kept::{Act, Keeps};
use fw_list::Memory;
use fw_owned::{OwnedAgreed, OwnedEntry, OwnedPropose, OwnedVote, copy_signers};
use std::alloc::Global;

/// Whether an entry is what its new view chooses at a number, or the number is above all of its proofs.
fn is_allowed(adopted: &Adoptions, number: u32, entry: &OwnedEntry) -> bool
    requires { 1 ≤ number }
    ensures { let changes = last_of adopted.now in result ≡ (if nat_lt (agree.top changes) number then true else bytes_eq (signing.entry_digest hash (entry_of entry.now)) (signing.entry_digest hash (agree.choice changes number))) }
{
    match adopted.choice_at(number) {
        Some(chosen) => digest_of(entry) == digest_of(chosen),
        None => true,
    }
}

/// Whether it may vote to prepare a proposal at a number.
fn may_prepare(keeps: &Keeps, number: u32, propose: &OwnedPropose) -> bool
    requires { 1 ≤ number }
    ensures { (d : PlainDirectory) (hand : PlainHand) (own : ℕ) → result ≡ agree.may_prepare (self_of d hand own) (node_of keeps.now) number (propose_of propose.now) }
{
    propose.view == keeps.view
        && propose.number == number
        && is_allowed(&keeps.adopted, number, &propose.entry)
}

/// The first of the proposals that it may vote to prepare at a number.
fn first_proposal(keeps: &Keeps, number: u32) -> Option<&OwnedPropose>
    requires { 1 ≤ number }
    ensures { (d : PlainDirectory) (hand : PlainHand) (own : ℕ) → option_map (λ m. agree.Prepare number (propose_of m).entry) (option_copied result) ≡ first_some (agree.prepares_one (self_of d hand own) (node_of keeps.now) number) (map propose_of keeps.now.proposals) }
{
    for propose in keeps.proposals.items() {
        if may_prepare(keeps, number, propose) {
            return Some(propose);
        }
    }
    None
}

/// A prepare vote for the first proposal of a number that follows its new view, where its view has begun, and this node isn't the primary
/// and has cast nothing there.
pub fn prepares(
    alloc: Global,
    directory: &Directory,
    own: u32,
    keeps: &Keeps,
    number: u32,
) -> Result<Option<Act>, Memory>
    requires sizes { IsTrue (accepted directory.now.params) }
    requires first { 1 ≤ number }
    ensures act { IfOk result (λ act. (hand : PlainHand) → option_map act_of act ≡ agree.prepares (self_of directory.now hand own) (node_of keeps.now) number) }
    ensures number { IfOk result (λ act. IfSome act (λ a. number_of a ≡ number)) }
    ensures open { IfOk result (λ act. IfSome act (IsOpen keeps.now)) }
{
    if !keeps.active {
        return Ok(None);
    }
    if is_primary(directory, own, keeps) {
        return Ok(None);
    }
    if cast_at(&keeps.casts, keeps.view, number).is_some() {
        return Ok(None);
    }
    match first_proposal(keeps, number) {
        Some(propose) => {
            let entry = propose.entry.copy(alloc)?;
            Ok(Some(Act::Prepare { number, entry }))
        }
        None => Ok(None),
    }
}

/// A commit vote for what was cast at a number, where a quorum has prepared it.
fn pledges_cast(
    alloc: Global,
    directory: &Directory,
    keeps: &Keeps,
    number: u32,
    entry: &OwnedEntry,
) -> Result<Option<Act>, Memory>
    requires { IsFor directory.now.params keeps.now }
    ensures act { IfOk result (λ act. (hand : PlainHand) (own : ℕ) → option_map act_of act ≡ agree.pledges_cast (self_of directory.now hand own) (node_of keeps.now) number (Some (entry_of entry.now))) }
    ensures number { IfOk result (λ act. IfSome act (λ a. number_of a ≡ number)) }
    ensures open { IfOk result (λ act. IfSome act (IsOpen keeps.now)) }
{
    let digest = digest_of(entry);
    match vote_quorum(alloc, directory, keeps, 0, keeps.view, number, &digest)? {
        Some(signers) => {
            let entry = entry.copy(alloc)?;
            Ok(Some(Act::Pledge {
                number,
                entry,
                signers,
            }))
        }
        None => Ok(None),
    }
}

/// A commit vote for what was cast at a number, where the view has begun, a quorum has prepared it, and this node hasn't voted to commit
/// there.
pub fn pledges(
    alloc: Global,
    directory: &Directory,
    keeps: &Keeps,
    number: u32,
) -> Result<Option<Act>, Memory>
    requires { IsFor directory.now.params keeps.now }
    ensures act { IfOk result (λ act. (hand : PlainHand) (own : ℕ) → option_map act_of act ≡ agree.pledges (self_of directory.now hand own) (node_of keeps.now) number) }
    ensures number { IfOk result (λ act. IfSome act (λ a. number_of a ≡ number)) }
    ensures open { IfOk result (λ act. IfSome act (IsOpen keeps.now)) }
{
    if !keeps.active || has_pledged(&keeps.pledges, keeps.view, number) {
        return Ok(None);
    }
    match cast_at(&keeps.casts, keeps.view, number) {
        Some(entry) => pledges_cast(alloc, directory, keeps, number, entry),
        None => Ok(None),
    }
}

/// What is agreed at a number in a view, where a quorum has signed this commit vote and its entry was seen.
fn commits_by(
    alloc: Global,
    directory: &Directory,
    keeps: &Keeps,
    view: u32,
    number: u32,
    vote: &OwnedVote,
) -> Result<Option<Act>, Memory>
    requires { IsFor directory.now.params keeps.now }
    ensures act { IfOk result (λ act. (hand : PlainHand) (own : ℕ) → option_map act_of act ≡ agree.commits_by (self_of directory.now hand own) (node_of keeps.now) view number (vote_of vote.now)) }
    ensures number { IfOk result (λ act. IfSome act (λ a. number_of a ≡ number)) }
    ensures commit { IfOk result (λ act. IfSome act IsCommit) }
{
    if vote.phase != 1 || vote.view != view || vote.number != number {
        return Ok(None);
    }
    let Some(signers) = vote_quorum(alloc, directory, keeps, 1, view, number, &vote.digest)? else {
        return Ok(None);
    };
    let Some(entry) = seen_of(keeps.seen.items(), &vote.digest) else {
        return Ok(None);
    };
    let entry = entry.copy(alloc)?;
    Ok(Some(Act::Commit(OwnedAgreed {
        view,
        number,
        entry,
        signers,
    })))
}

/// What is agreed at a number in a view.
fn commits_in(
    alloc: Global,
    directory: &Directory,
    keeps: &Keeps,
    view: u32,
    number: u32,
) -> Result<Option<Act>, Memory>
    requires { IsFor directory.now.params keeps.now }
    ensures act { IfOk result (λ act. (hand : PlainHand) (own : ℕ) → option_map act_of act ≡ agree.commits_in (self_of directory.now hand own) (node_of keeps.now) number view) }
    ensures number { IfOk result (λ act. IfSome act (λ a. number_of a ≡ number)) }
    ensures commit { IfOk result (λ act. IfSome act IsCommit) }
{
    for vote in keeps.votes.items() {
        let act = commits_by(alloc, directory, keeps, view, number, vote)?;
        if act.is_some() {
            return Ok(act);
        }
    }
    Ok(None)
}

/// What is agreed at a number, in the least view, where nothing is yet: where a quorum has voted to commit what was seen.
pub fn commits(
    alloc: Global,
    directory: &Directory,
    keeps: &Keeps,
    number: u32,
) -> Result<Option<Act>, Memory>
    requires { IsFor directory.now.params keeps.now }
    ensures act { IfOk result (λ act. (hand : PlainHand) (own : ℕ) → option_map act_of act ≡ agree.commits (self_of directory.now hand own) (node_of keeps.now) number) }
    ensures number { IfOk result (λ act. IfSome act (λ a. number_of a ≡ number)) }
    ensures open { IfOk result (λ act. IfSome act (IsOpen keeps.now)) }
{
    if keeps.settled.agreed_at(number).is_some() {
        return Ok(None);
    }
    for view in 0..directory.params().views {
        let act = commits_in(alloc, directory, keeps, view, number)?;
        if act.is_some() {
            return Ok(act);
        }
    }
    Ok(None)
}

/// A copy.
fn copy_agreed(alloc: Global, agreed: &OwnedAgreed) -> Result<OwnedAgreed, Memory>
    ensures { IfOk result (λ copy. copy ≡ agreed.now) }
{
    Ok(OwnedAgreed {
        view: agreed.view,
        number: agreed.number,
        entry: agreed.entry.copy(alloc)?,
        signers: copy_signers(alloc, &agreed.signers)?,
    })
}

/// What is agreed at a number, to go up, where the number is the next one and at most `pipe` above the replies.
pub fn goes_up(
    alloc: Global,
    directory: &Directory,
    keeps: &Keeps,
    number: u32,
) -> Result<Option<Act>, Memory>
    requires { IsFor directory.now.params keeps.now }
    ensures act { IfOk result (λ act. (hand : PlainHand) (own : ℕ) → option_map act_of act ≡ agree.goes_up (self_of directory.now hand own) (node_of keeps.now) number) }
    ensures number { IfOk result (λ act. IfSome act (λ a. number_of a ≡ number)) }
    ensures open { IfOk result (λ act. IfSome act (IsOpen keeps.now)) }
{
    // (the sizes are those that are kept)
    let _directory = directory;
    let Some(next) = keeps.settled.next_up() else {
        return Ok(None);
    };
    if next != number {
        return Ok(None);
    }
    match keeps.settled.agreed_at(number) {
        Some(agreed) => Ok(Some(Act::Up(copy_agreed(alloc, agreed)?))),
        None => Ok(None),
    }
}
