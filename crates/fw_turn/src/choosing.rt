//! Which turn of the view is chosen.

ghost use Rattle.std.specs.Prelude.{◌≡◌, ◌<◌, ◌&&◌, ◌||◌, ℕ, List, not, nat_eq, nat_lt, map, reverse, take, filter_map, IfOk, IfSome, IsTrue};
ghost use Rattle.std.specs.List.{find};
ghost use Rattle.std.specs.Option.{option_copied, option_map};
ghost use Rattle.fw_base.specs.declared.params.Params.{Params};
ghost use Rattle.fw_base.specs.Sizes.{accepted, quorum};
ghost use Rattle.fw_hand.specs.Hands.{PlainHand};
ghost use Rattle.fw_rules.specs.Agree as rules;
ghost use Rattle.fw_rules.specs.Views as views;
ghost use Rattle.fw_owned.specs.Pieces.{change_of};
ghost use Rattle.fw_kept.specs.Kept.{self_of, node_of, IsFor};
ghost use Rattle.fw_turn.specs.Turns.{turn_of, IsWithin};

use crate::Turn;
use fw_directory::Directory;
use fw_kept::Keeps;
use fw_list::Memory;
use fw_owned::{OwnedChange, OwnedChanges, OwnedNewView, copy_changes};
use std::alloc::Global;

/// The first of these that is of a view.
fn first_new_view(new_views: &[OwnedNewView], view: u32) -> Option<&OwnedNewView>
    ensures { option_copied result ≡ find (λ n. nat_eq n.view view) new_views.now }
{
    new_views.iter().find(|new_view| new_view.view == view)
}

/// Whether a new view of a view may be adopted: of one above its own, or of its own, which hasn't begun.
fn may_adopt(keeps: &Keeps, view: u32) -> bool
    ensures { result ≡ (nat_lt keeps.now.view view || (nat_eq view keeps.now.view && not keeps.now.active)) }
{
    keeps.view < view || (view == keeps.view && !keeps.active)
}

/// The first new view of a view that it heard, to be adopted.
fn adopts_at(alloc: Global, keeps: &Keeps, view: u32) -> Result<Option<Turn>, Memory>
    ensures turn { IfOk result (λ turn. option_map turn_of turn ≡ views.adopts_at (node_of keeps.now) view) }
    ensures within { (p : Params) → view < p.views → IfOk result (λ turn. IfSome turn (IsWithin p)) }
{
    if !may_adopt(keeps, view) {
        return Ok(None);
    }
    match first_new_view(keeps.new_views.items(), view) {
        Some(new_view) => Ok(Some(Turn::Adopt {
            view,
            changes: copy_changes(alloc, &new_view.changes)?,
        })),
        None => Ok(None),
    }
}

/// The new view to be adopted: of those that it heard the first of the greatest view that is above its own, or is its own and hasn't begun.
pub fn adopts(alloc: Global, directory: &Directory, keeps: &Keeps) -> Result<Option<Turn>, Memory>
    ensures turn { IfOk result (λ turn. (hand : PlainHand) (own : ℕ) → option_map turn_of turn ≡ views.adopts (self_of directory.now hand own) (node_of keeps.now)) }
    ensures within { IfOk result (λ turn. IfSome turn (IsWithin directory.now.params)) }
{
    let views = directory.params().views;
    for k in 0..views {
        let turn = adopts_at(alloc, keeps, views - 1 - k)?;
        if turn.is_some() {
            return Ok(turn);
        }
    }
    Ok(None)
}

/// The view change to be joined: to the greatest view above its own for which, or for more, more others sent view changes than can be
/// faulty.
pub fn joins(directory: &Directory, own: u32, keeps: &Keeps) -> Option<Turn>
    requires { IsFor directory.now.params keeps.now }
    ensures turn { (hand : PlainHand) → option_map turn_of result ≡ views.joins (self_of directory.now hand own) (node_of keeps.now) }
    ensures within { IfSome result (IsWithin directory.now.params) }
{
    // (the sizes are those that the view changes are counted by)
    let _directory = directory;
    match keeps.changes.join(keeps.view, own) {
        Some(view) => Some(Turn::Start(view)),
        None => None,
    }
}

/// The newest of these that is of a view and a node.
fn last_move(moves: &[OwnedChange], view: u32, agree: u32) -> Option<&OwnedChange>
    ensures { option_copied result ≡ find (λ c. nat_eq c.view view && nat_eq c.agree agree) (reverse moves.now) }
{
    moves
        .iter()
        .rev()
        .find(|change| change.view == view && change.agree == agree)
}

/// A node's first change to its view; its own is the one that it made.
fn change_by(own: u32, keeps: &Keeps, agree: u32) -> Option<&OwnedChange>
    ensures { (me : rules.Self (List ℕ)) → me.own ≡ own → option_map change_of (option_copied result) ≡ views.change_of me (node_of keeps.now) keeps.now.view agree }
{
    if agree == own {
        last_move(keeps.moves.oldest_first(), keeps.view, agree)
    } else {
        keeps.changes.first(keeps.view, agree)
    }
}

/// The view changes to its view of the lowest nodes, at most as many as a quorum has.
fn lowest_changes(
    alloc: Global,
    directory: &Directory,
    own: u32,
    keeps: &Keeps,
) -> Result<OwnedChanges, Memory>
    requires { IsTrue (accepted directory.now.params) }
    ensures { IfOk result (λ changes. (hand : PlainHand) → let me = self_of directory.now hand own in map change_of changes ≡ take (quorum directory.now.params) (filter_map (views.change_of me (node_of keeps.now) keeps.now.view) (rules.nodes directory.now.params))) }
{
    let quorum = directory.params().quorum() as usize;
    let mut changes = OwnedChanges::new(alloc);
    for agree in 0..directory.params().agreements() {
        if changes.items().len() == quorum {
            return Ok(changes);
        }
        if let Some(change) = change_by(own, keeps, agree) {
            changes.push(change.copy(alloc)?)?;
        }
    }
    Ok(changes)
}

/// The new view that it makes: where it is the primary of its view, which hasn't begun, of the view changes to it of the lowest nodes that
/// are a quorum.
pub fn makes(
    alloc: Global,
    directory: &Directory,
    own: u32,
    keeps: &Keeps,
) -> Result<Option<Turn>, Memory>
    requires { IsTrue (accepted directory.now.params) }
    ensures turn { IfOk result (λ turn. (hand : PlainHand) → option_map turn_of turn ≡ views.makes (self_of directory.now hand own) (node_of keeps.now)) }
    ensures within { IfOk result (λ turn. IfSome turn (IsWithin directory.now.params)) }
{
    if keeps.active || own != keeps.view % directory.params().agreements() {
        return Ok(None);
    }
    let changes = lowest_changes(alloc, directory, own, keeps)?;
    if changes.items().len() == directory.params().quorum() as usize {
        Ok(Some(Turn::Make(changes)))
    } else {
        Ok(None)
    }
}
