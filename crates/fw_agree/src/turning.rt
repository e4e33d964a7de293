//! The passes of an agreement node that turn its view, each over what the ones before it left.

ghost use Rattle.std.specs.Prelude.{◌≡◌, length, take, OnOk, IfSome};
ghost use Rattle.std.specs.Option.{option_map};
ghost use Rattle.fw_rules.specs.Views as views;
ghost use Rattle.fw_kept.specs.Kept.{self_of, IsFor};
ghost use Rattle.fw_act.specs.Doing.{IsAgreements};
ghost use Rattle.fw_turn.specs.Turns.{turn_of, IsWithin};
ghost use Rattle.fw_agree.specs.Steps.{at};

use fw_directory::Directory;
use fw_hand::Hand;
use fw_kept::Keeps;
use fw_list::Memory;
use fw_move::turns;
use fw_node::Outbox;
use fw_turn::{Turn, adopts, joins, makes};
use std::alloc::Global;

/// Does what turns its view, where something was chosen.
fn does(
    alloc: Global,
    directory: &Directory,
    own: u32,
    hand: &Hand,
    keeps: &mut Keeps,
    turn: Option<Turn>,
    out: &mut Outbox,
) -> Result<(), Memory>
    requires hand { IsAgreements directory.now.params own hand.now }
    requires for_sizes { IsFor directory.now.params keeps.old }
    requires within { IfSome turn (IsWithin directory.now.params) }
    ensures step { OnOk result (at keeps.new out.new ≡ views.turned (self_of directory.now hand.now own) (at keeps.old out.old) (option_map turn_of turn)) }
    ensures sizes { IsFor directory.now.params keeps.new }
    ensures begins { take (length out.old) out.new ≡ out.old }
{
    match turn {
        Some(turn) => turns(alloc, directory, own, hand, keeps, turn, out),
        None => Ok(()),
    }
}

/// Adopts a new view that it heard, where one is to be adopted.
fn adopts_view(
    alloc: Global,
    directory: &Directory,
    own: u32,
    hand: &Hand,
    keeps: &mut Keeps,
    out: &mut Outbox,
) -> Result<(), Memory>
    requires hand { IsAgreements directory.now.params own hand.now }
    requires for_sizes { IsFor directory.now.params keeps.old }
    ensures step { OnOk result (let me = self_of directory.now hand.now own in at keeps.new out.new ≡ views.single me (views.adopts me) (at keeps.old out.old)) }
    ensures sizes { IsFor directory.now.params keeps.new }
    ensures begins { take (length out.old) out.new ≡ out.old }
{
    let turn = adopts(alloc, directory, keeps)?;
    does(alloc, directory, own, hand, keeps, turn, out)
}

/// Joins a change of view, where one is to be joined.
fn joins_change(
    alloc: Global,
    directory: &Directory,
    own: u32,
    hand: &Hand,
    keeps: &mut Keeps,
    out: &mut Outbox,
) -> Result<(), Memory>
    requires hand { IsAgreements directory.now.params own hand.now }
    requires for_sizes { IsFor directory.now.params keeps.old }
    ensures step { OnOk result (let me = self_of directory.now hand.now own in at keeps.new out.new ≡ views.single me (views.joins me) (at keeps.old out.old)) }
    ensures sizes { IsFor directory.now.params keeps.new }
    ensures begins { take (length out.old) out.new ≡ out.old }
{
    let turn = joins(directory, own, keeps);
    does(alloc, directory, own, hand, keeps, turn, out)
}

/// Makes the new view of its view, where it is due.
fn makes_view(
    alloc: Global,
    directory: &Directory,
    own: u32,
    hand: &Hand,
    keeps: &mut Keeps,
    out: &mut Outbox,
) -> Result<(), Memory>
    requires hand { IsAgreements directory.now.params own hand.now }
    requires for_sizes { IsFor directory.now.params keeps.old }
    ensures step { OnOk result (let me = self_of directory.now hand.now own in at keeps.new out.new ≡ views.single me (views.makes me) (at keeps.old out.old)) }
    ensures sizes { IsFor directory.now.params keeps.new }
    ensures begins { take (length out.old) out.new ≡ out.old }
{
    let turn = makes(alloc, directory, own, keeps)?;
    does(alloc, directory, own, hand, keeps, turn, out)
}

/// Makes the passes that turn its view. After want of memory the outbox begins with what it had.
pub(crate) fn changes_view(
    alloc: Global,
    directory: &Directory,
    own: u32,
    hand: &Hand,
    keeps: &mut Keeps,
    out: &mut Outbox,
) -> Result<(), Memory>
    requires hand { IsAgreements directory.now.params own hand.now }
    requires for_sizes { IsFor directory.now.params keeps.old }
    ensures step { OnOk result (at keeps.new out.new ≡ views.changes_view (self_of directory.now hand.now own) (at keeps.old out.old)) }
    ensures sizes { IsFor directory.now.params keeps.new }
    ensures begins { take (length out.old) out.new ≡ out.old }
{
    adopts_view(alloc, directory, own, hand, keeps, out)?;
    joins_change(alloc, directory, own, hand, keeps, out)?;
    makes_view(alloc, directory, own, hand, keeps, out)
}
