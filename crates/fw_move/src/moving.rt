//! Turns of the view, done.

ghost use Rattle.std.specs.Prelude.{◌≡◌, ◌<◌, ◌++◌, ℕ, List, map, OnOk, OnErr};
ghost use Rattle.fw_base.specs.declared.params.Params.{Params};
ghost use Rattle.fw_rules.specs.Agree as rules;
ghost use Rattle.fw_rules.specs.Views as views;
ghost use Rattle.fw_owned.specs.Pieces.{change_of};
ghost use Rattle.fw_kept.specs.Kept.{self_of, node_of, IsFor};
ghost use Rattle.fw_act.specs.Doing.{IsAgreements};
ghost use Rattle.fw_turn.specs.Turns.{turn_of, IsWithin};

use crate::making::{own_change, own_new_view};
use fw_act::send_to_others;
use fw_directory::Directory;
use fw_hand::Hand;
use fw_kept::Keeps;
use fw_list::Memory;
use fw_node::Outbox;
use fw_owned::OwnedChanges;
use fw_turn::Turn;
use std::alloc::Global;

/// Is active in a view, which these view changes began.
fn adopts(keeps: &mut Keeps, view: u32, changes: OwnedChanges) -> Result<(), Memory>
    ensures kept { OnOk result (node_of keeps.new ≡ views.adopt (node_of keeps.old) view (map change_of changes)) }
    ensures sizes { (p : Params) → view < p.views → IsFor p keeps.old → IsFor p keeps.new }
{
    keeps.adopted.adopt(view, changes)?;
    keeps.idle = 0;
    keeps.view = view;
    keeps.active = true;
    Ok(())
}

/// Sends its view change to a view, and waits for that view to begin. After want of memory the outbox is as before.
fn starts(
    alloc: Global,
    directory: &Directory,
    own: u32,
    hand: &Hand,
    keeps: &mut Keeps,
    view: u32,
    out: &mut Outbox,
) -> Result<(), Memory>
    requires hand { IsAgreements directory.now.params own hand.now }
    requires view { view < directory.now.params.views }
    ensures kept { OnOk result (node_of keeps.new ≡ (views.turns (self_of directory.now hand.now own) (node_of keeps.old) (views.Start view)).0) }
    ensures sent { OnOk result (out.new ≡ out.old ++ (views.turns (self_of directory.now hand.now own) (node_of keeps.old) (views.Start view)).1) }
    ensures sizes { (p : Params) → view < p.views → IsFor p keeps.old → IsFor p keeps.new }
    ensures err { OnErr result (out.new ≡ out.old) }
{
    let change = own_change(alloc, directory, own, hand, keeps, view)?;
    let bytes = change.frame(alloc)?;
    keeps.moves.push(change)?;
    keeps.idle = 0;
    keeps.view = view;
    keeps.active = false;
    send_to_others(alloc, directory, own, bytes.items(), out)
}

/// Makes the new view of its view of these view changes, and adopts it. After want of memory the outbox is as before.
fn makes(
    alloc: Global,
    directory: &Directory,
    own: u32,
    hand: &Hand,
    keeps: &mut Keeps,
    changes: OwnedChanges,
    out: &mut Outbox,
) -> Result<(), Memory>
    requires hand { IsAgreements directory.now.params own hand.now }
    requires for_sizes { IsFor directory.now.params keeps.old }
    ensures kept { OnOk result (node_of keeps.new ≡ (views.turns (self_of directory.now hand.now own) (node_of keeps.old) (views.Make (map change_of changes))).0) }
    ensures sent { OnOk result (out.new ≡ out.old ++ (views.turns (self_of directory.now hand.now own) (node_of keeps.old) (views.Make (map change_of changes))).1) }
    ensures sizes { (p : Params) → IsFor p keeps.old → IsFor p keeps.new }
    ensures err { OnErr result (out.new ≡ out.old) }
{
    let view = keeps.view;
    let new_view = own_new_view(alloc, directory, own, hand, view, &changes)?;
    let bytes = new_view.frame(alloc)?;
    adopts(keeps, view, changes)?;
    send_to_others(alloc, directory, own, bytes.items(), out)
}

/// Does what turns the view. With Ok what it keeps and what it sends are as the rule of an agreement node has it; after want of memory the
/// outbox is as before, and what it keeps is unknown.
pub fn turns(
    alloc: Global,
    directory: &Directory,
    own: u32,
    hand: &Hand,
    keeps: &mut Keeps,
    turn: Turn,
    out: &mut Outbox,
) -> Result<(), Memory>
    requires hand { IsAgreements directory.now.params own hand.now }
    requires within { IsWithin directory.now.params turn }
    requires for_sizes { IsFor directory.now.params keeps.old }
    ensures kept { OnOk result (node_of keeps.new ≡ (views.turns (self_of directory.now hand.now own) (node_of keeps.old) (turn_of turn)).0) }
    ensures sent { OnOk result (out.new ≡ out.old ++ (views.turns (self_of directory.now hand.now own) (node_of keeps.old) (turn_of turn)).1) }
    ensures sizes { IsFor directory.now.params keeps.new }
    ensures err { OnErr result (out.new ≡ out.old) }
{
    match turn {
        Turn::Adopt { view, changes } => adopts(keeps, view, changes),
        Turn::Start(view) => starts(alloc, directory, own, hand, keeps, view, out),
        Turn::Make(changes) => makes(alloc, directory, own, hand, keeps, changes, out),
    }
}
