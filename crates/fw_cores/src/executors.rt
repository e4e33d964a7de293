//! New executors.

ghost use Rattle.std.specs.Prelude.{◌<◌, IfOk, IsTrue, ◌+◌, OnOk};
ghost use Rattle.fw_base.specs.Sizes.{accepted, executors};
ghost use Rattle.fw_base.specs.declared.seat.Seat.TheVariants as seats;
ghost use Rattle.fw_record.specs.Records.{starts_fit};
ghost use Rattle.fw_fair.specs.Correct.{correct_below};
ghost use Rattle.fw_cores.specs.Fresh.{IsFresh, AreFresh};

use fw_base::Seat;
use fw_deal::Deal;
use fw_exec::ExecNode;
use fw_grid::Nodes;
use fw_list::Memory;
use fw_node::Node;
use fw_step::is_faulty;
use fw_store::Store;
use std::alloc::Global;

/// A new executor over a store of the deal's records.
fn exec_node(alloc: Global, deal: &Deal, k: u32) -> Result<ExecNode<Store>, Memory>
    requires sizes { IsTrue (accepted deal.now.origin.params) }
    requires starts { IsTrue (starts_fit deal.now.origin.params.clients deal.now.starts) }
    requires fits { k < executors deal.now.origin.params }
    ensures { IfOk result (λ node. IsFresh ⟦<ExecNode<Store> as Node>⟧.params ⟦<ExecNode<Store> as Node>⟧.own ⟦<ExecNode<Store> as Node>⟧.hand ⟦<ExecNode<Store> as Node>⟧.rule ⟦<ExecNode<Store> as Node>⟧.stands_for ⟦<ExecNode<Store> as Node>⟧.is_stopped deal.now (seats.Exec k) node) }
{
    let hand = deal.hand(alloc, Seat::Exec(k))?;
    let store = Store::new(alloc, hand.starts())?;
    let node = ExecNode::new(alloc, deal.directory().params(), hand, store)?;
    Ok(node)
}

/// Adds the new node of a number, if its seat is correct.
fn push_exec(
    alloc: Global,
    deal: &Deal,
    faulty: &[Seat],
    k: u32,
    nodes: &mut Nodes<ExecNode<Store>>,
) -> Result<(), Memory>
    requires sizes { IsTrue (accepted deal.now.origin.params) }
    requires starts { IsTrue (starts_fit deal.now.origin.params.clients deal.now.starts) }
    requires fits { k < executors deal.now.origin.params }
    ensures { OnOk result (AreFresh ⟦<ExecNode<Store> as Node>⟧.params ⟦<ExecNode<Store> as Node>⟧.own ⟦<ExecNode<Store> as Node>⟧.hand ⟦<ExecNode<Store> as Node>⟧.rule ⟦<ExecNode<Store> as Node>⟧.stands_for ⟦<ExecNode<Store> as Node>⟧.is_stopped deal.now seats.Exec (correct_below faulty.now seats.Exec k) nodes.old → AreFresh ⟦<ExecNode<Store> as Node>⟧.params ⟦<ExecNode<Store> as Node>⟧.own ⟦<ExecNode<Store> as Node>⟧.hand ⟦<ExecNode<Store> as Node>⟧.rule ⟦<ExecNode<Store> as Node>⟧.stands_for ⟦<ExecNode<Store> as Node>⟧.is_stopped deal.now seats.Exec (correct_below faulty.now seats.Exec (k + 1)) nodes.new) }
{
    if is_faulty(faulty, Seat::Exec(k)) {
        return Ok(());
    }
    nodes.push(exec_node(alloc, deal, k)?)
}

/// A new executor for each correct seat of one.
pub(crate) fn executors(
    alloc: Global,
    deal: &Deal,
    faulty: &[Seat],
) -> Result<Nodes<ExecNode<Store>>, Memory>
    requires sizes { IsTrue (accepted deal.now.origin.params) }
    requires starts { IsTrue (starts_fit deal.now.origin.params.clients deal.now.starts) }
    ensures { IfOk result (λ nodes. AreFresh ⟦<ExecNode<Store> as Node>⟧.params ⟦<ExecNode<Store> as Node>⟧.own ⟦<ExecNode<Store> as Node>⟧.hand ⟦<ExecNode<Store> as Node>⟧.rule ⟦<ExecNode<Store> as Node>⟧.stands_for ⟦<ExecNode<Store> as Node>⟧.is_stopped deal.now seats.Exec (correct_below faulty.now seats.Exec (executors deal.now.origin.params)) nodes) }
{
    let mut nodes = Nodes::new(alloc);
    let count = deal.directory().params().executors();
    for k in 0..count {
        push_exec(alloc, deal, faulty, k, &mut nodes)?;
    }
    Ok(nodes)
}
