//! New agreement nodes.

ghost use Rattle.std.specs.Prelude.{◌<◌, IfOk, IsTrue, ◌+◌, OnOk};
ghost use Rattle.fw_base.specs.Sizes.{accepted, agreements};
ghost use Rattle.fw_base.specs.declared.seat.Seat.TheVariants as seats;
ghost use Rattle.fw_record.specs.Records.{starts_fit};
ghost use Rattle.fw_fair.specs.Correct.{correct_below};
ghost use Rattle.fw_cores.specs.Fresh.{IsFresh, AreFresh};

use fw_agree::AgreeNode;
use fw_base::Seat;
use fw_deal::Deal;
use fw_grid::Nodes;
use fw_list::Memory;
use fw_node::Node;
use fw_step::is_faulty;
use std::alloc::Global;

/// A new agreement node.
fn agree_node(alloc: Global, deal: &Deal, k: u32) -> Result<AgreeNode, Memory>
    requires sizes { IsTrue (accepted deal.now.origin.params) }
    requires starts { IsTrue (starts_fit deal.now.origin.params.clients deal.now.starts) }
    requires fits { k < agreements deal.now.origin.params }
    ensures { IfOk result (λ node. IsFresh ⟦<AgreeNode as Node>⟧.params ⟦<AgreeNode as Node>⟧.own ⟦<AgreeNode as Node>⟧.hand ⟦<AgreeNode as Node>⟧.rule ⟦<AgreeNode as Node>⟧.stands_for ⟦<AgreeNode as Node>⟧.is_stopped deal.now (seats.Agree k) node) }
{
    let hand = deal.hand(alloc, Seat::Agree(k))?;
    let node = AgreeNode::new(alloc, deal.directory().params(), hand)?;
    Ok(node)
}

/// Adds the new node of a number, if its seat is correct.
fn push_agree(
    alloc: Global,
    deal: &Deal,
    faulty: &[Seat],
    k: u32,
    nodes: &mut Nodes<AgreeNode>,
) -> Result<(), Memory>
    requires sizes { IsTrue (accepted deal.now.origin.params) }
    requires starts { IsTrue (starts_fit deal.now.origin.params.clients deal.now.starts) }
    requires fits { k < agreements deal.now.origin.params }
    ensures { OnOk result (AreFresh ⟦<AgreeNode as Node>⟧.params ⟦<AgreeNode as Node>⟧.own ⟦<AgreeNode as Node>⟧.hand ⟦<AgreeNode as Node>⟧.rule ⟦<AgreeNode as Node>⟧.stands_for ⟦<AgreeNode as Node>⟧.is_stopped deal.now seats.Agree (correct_below faulty.now seats.Agree k) nodes.old → AreFresh ⟦<AgreeNode as Node>⟧.params ⟦<AgreeNode as Node>⟧.own ⟦<AgreeNode as Node>⟧.hand ⟦<AgreeNode as Node>⟧.rule ⟦<AgreeNode as Node>⟧.stands_for ⟦<AgreeNode as Node>⟧.is_stopped deal.now seats.Agree (correct_below faulty.now seats.Agree (k + 1)) nodes.new) }
{
    if is_faulty(faulty, Seat::Agree(k)) {
        return Ok(());
    }
    nodes.push(agree_node(alloc, deal, k)?)
}

/// A new agreement node for each correct seat of one.
pub(crate) fn agreements(
    alloc: Global,
    deal: &Deal,
    faulty: &[Seat],
) -> Result<Nodes<AgreeNode>, Memory>
    requires sizes { IsTrue (accepted deal.now.origin.params) }
    requires starts { IsTrue (starts_fit deal.now.origin.params.clients deal.now.starts) }
    ensures { IfOk result (λ nodes. AreFresh ⟦<AgreeNode as Node>⟧.params ⟦<AgreeNode as Node>⟧.own ⟦<AgreeNode as Node>⟧.hand ⟦<AgreeNode as Node>⟧.rule ⟦<AgreeNode as Node>⟧.stands_for ⟦<AgreeNode as Node>⟧.is_stopped deal.now seats.Agree (correct_below faulty.now seats.Agree (agreements deal.now.origin.params)) nodes) }
{
    let mut nodes = Nodes::new(alloc);
    let count = deal.directory().params().agreements();
    for k in 0..count {
        push_agree(alloc, deal, faulty, k, &mut nodes)?;
    }
    Ok(nodes)
}
