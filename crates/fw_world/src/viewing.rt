//! The views of nodes at work.

ghost use Rattle.std.specs.Prelude.{◌≡◌, ◌<◌, max, not, false, List, if◌then◌else◌, IfSome, IfNone, IsTrue};
ghost use Rattle.fw_base.specs.Sizes.{agreements};
ghost use Rattle.fw_base.specs.declared.seat.Seat.{Seat};
ghost use Rattle.fw_base.specs.declared.seat.Seat.TheVariants.{Agree};
ghost use Rattle.fw_step.specs.Fitting.{is_faulty, is_correct};
ghost use Rattle.fw_hand.specs.Hands.{PlainHand};
ghost use Rattle.fw_rules.specs.World.{Deployed};
ghost use Rattle.fw_seen.specs.Summary.{view_at, greatest_view};
ghost use Rattle.fw_world.specs.Played.{ArePlayed};

use crate::playing::Cast;
use fw_agree::AgreeNode;
use fw_client::ClientNode;
use fw_node::Node;

/// The view of an agreement node; none where there is no such seat, or it is faulty.
fn view_of(world: &Cast, i: u32) -> Option<u32>
    requires { world.now.seen.failed ≡ false }
    ensures found { IfSome result (λ view. (d : Deployed) (faulty : List Seat) (keys : PlainHand) → ArePlayed ⟦<AgreeNode as Node>⟧.hand ⟦<ClientNode as Node>⟧.hand d faulty world.now.seen keys → view ≡ view_at d world.now.seen.trace i) }
    ensures correct { IfSome result (λ view. IsTrue (is_correct world.now.seen.directory.params world.now.seen.faulty (Agree i))) }
    ensures none { IfNone result (is_correct world.now.seen.directory.params world.now.seen.faulty (Agree i) ≡ false) }
{
    match world.agree(i) {
        Some(node) => Some(node.view()),
        None => None,
    }
}

/// The greater of two views.
fn greater(one: u32, other: u32) -> u32
    ensures { result ≡ max one other }
{
    if one < other { other } else { one }
}

/// The greater of a view and that of an agreement node, where it is correct.
fn with_view_of(world: &Cast, greatest: u32, i: u32) -> u32
    requires going { world.now.seen.failed ≡ false }
    requires fits { i < agreements world.now.seen.directory.params }
    ensures { (d : Deployed) (faulty : List Seat) (keys : PlainHand) → ArePlayed ⟦<AgreeNode as Node>⟧.hand ⟦<ClientNode as Node>⟧.hand d faulty world.now.seen keys
        → result ≡ (if not (is_faulty faulty (Agree i)) then max greatest (view_at d world.now.seen.trace i) else greatest) }
{
    match view_of(world, i) {
        Some(view) => greater(greatest, view),
        None => greatest,
    }
}

/// The greatest view of the correct agreement nodes of a deployment.
pub(crate) fn greatest_view(world: &Cast) -> u32
    requires { world.now.seen.failed ≡ false }
    ensures { (d : Deployed) (faulty : List Seat) (keys : PlainHand) → ArePlayed ⟦<AgreeNode as Node>⟧.hand ⟦<ClientNode as Node>⟧.hand d faulty world.now.seen keys → result ≡ greatest_view d faulty world.now.seen.trace }
{
    let count = world.directory().params().agreements();
    let mut greatest = 0;
    for i in 0..count {
        greatest = with_view_of(world, greatest, i);
    }
    greatest
}
