//! New filters.

ghost use Rattle.std.specs.Prelude.{◌≡◌, ◌<◌, ◌*◌, IfOk, IsTrue, ◌+◌, OnOk};
ghost use Rattle.fw_base.specs.Sizes.{accepted, width};
ghost use Rattle.fw_base.specs.declared.seat.Seat.TheVariants as seats;
ghost use Rattle.fw_record.specs.Records.{starts_fit};
ghost use Rattle.fw_fair.specs.Correct.{filter_at, correct_below};
ghost use Rattle.fw_cores.specs.Fresh.{IsFresh, AreFresh};

use fw_base::{Params, Seat};
use fw_deal::Deal;
use fw_filter::FilterNode;
use fw_grid::Nodes;
use fw_list::Memory;
use fw_node::Node;
use fw_step::is_faulty;
use std::alloc::Global;

/// A new filter.
fn filter_node(alloc: Global, deal: &Deal, row: u32, column: u32) -> Result<FilterNode, Memory>
    requires sizes { IsTrue (accepted deal.now.origin.params) }
    requires row { row < width deal.now.origin.params }
    requires column { column < width deal.now.origin.params }
    ensures { IfOk result (λ node. IsFresh ⟦<FilterNode as Node>⟧.params ⟦<FilterNode as Node>⟧.own ⟦<FilterNode as Node>⟧.hand ⟦<FilterNode as Node>⟧.rule ⟦<FilterNode as Node>⟧.stands_for ⟦<FilterNode as Node>⟧.is_stopped deal.now (seats.Filter row column) node) }
{
    let hand = deal.hand(alloc, Seat::Filter(row, column))?;
    let node = FilterNode::new(alloc, deal.directory().params(), hand)?;
    Ok(node)
}

/// The new filter at a place, row by row.
fn filter_at(alloc: Global, deal: &Deal, place: u32) -> Result<FilterNode, Memory>
    requires sizes { IsTrue (accepted deal.now.origin.params) }
    requires fits { place < width deal.now.origin.params * width deal.now.origin.params }
    ensures { IfOk result (λ node. IsFresh ⟦<FilterNode as Node>⟧.params ⟦<FilterNode as Node>⟧.own ⟦<FilterNode as Node>⟧.hand ⟦<FilterNode as Node>⟧.rule ⟦<FilterNode as Node>⟧.stands_for ⟦<FilterNode as Node>⟧.is_stopped deal.now (filter_at deal.now.origin.params place) node) }
{
    let width = deal.directory().params().width();
    filter_node(alloc, deal, place / width, place % width)
}

/// The seat at a place, row by row.
fn seat_at(params: &Params, place: u32) -> Seat
    requires { IsTrue (accepted params.now) }
    ensures { result ≡ filter_at params.now place }
{
    let width = params.width();
    Seat::Filter(place / width, place % width)
}

/// Adds the new node of a number, if its seat is correct.
fn push_filter(
    alloc: Global,
    deal: &Deal,
    faulty: &[Seat],
    place: u32,
    nodes: &mut Nodes<FilterNode>,
) -> Result<(), Memory>
    requires sizes { IsTrue (accepted deal.now.origin.params) }
    requires fits { place < width deal.now.origin.params * width deal.now.origin.params }
    ensures { OnOk result (AreFresh ⟦<FilterNode as Node>⟧.params ⟦<FilterNode as Node>⟧.own ⟦<FilterNode as Node>⟧.hand ⟦<FilterNode as Node>⟧.rule ⟦<FilterNode as Node>⟧.stands_for ⟦<FilterNode as Node>⟧.is_stopped deal.now (filter_at deal.now.origin.params) (correct_below faulty.now (filter_at deal.now.origin.params) place) nodes.old → AreFresh ⟦<FilterNode as Node>⟧.params ⟦<FilterNode as Node>⟧.own ⟦<FilterNode as Node>⟧.hand ⟦<FilterNode as Node>⟧.rule ⟦<FilterNode as Node>⟧.stands_for ⟦<FilterNode as Node>⟧.is_stopped deal.now (filter_at deal.now.origin.params) (correct_below faulty.now (filter_at deal.now.origin.params) (place + 1)) nodes.new) }
{
    if is_faulty(faulty, seat_at(deal.directory().params(), place)) {
        return Ok(());
    }
    nodes.push(filter_at(alloc, deal, place)?)
}

/// A new filter for each correct seat of one.
pub(crate) fn filters(
    alloc: Global,
    deal: &Deal,
    faulty: &[Seat],
) -> Result<Nodes<FilterNode>, Memory>
    requires sizes { IsTrue (accepted deal.now.origin.params) }
    requires starts { IsTrue (starts_fit deal.now.origin.params.clients deal.now.starts) }
    ensures { IfOk result (λ nodes. AreFresh ⟦<FilterNode as Node>⟧.params ⟦<FilterNode as Node>⟧.own ⟦<FilterNode as Node>⟧.hand ⟦<FilterNode as Node>⟧.rule ⟦<FilterNode as Node>⟧.stands_for ⟦<FilterNode as Node>⟧.is_stopped deal.now (filter_at deal.now.origin.params) (correct_below faulty.now (filter_at deal.now.origin.params) (width deal.now.origin.params * width deal.now.origin.params)) nodes) }
{
    let mut nodes = Nodes::new(alloc);
    let width = deal.directory().params().width();
    for place in 0..width * width {
        push_filter(alloc, deal, faulty, place, &mut nodes)?;
    }
    Ok(nodes)
}
