//! New clients.

ghost use Rattle.std.specs.Prelude.{◌<◌, IfOk, IsTrue, ◌+◌, OnOk};
ghost use Rattle.fw_base.specs.Sizes.{accepted};
ghost use Rattle.fw_base.specs.declared.seat.Seat.TheVariants as seats;
ghost use Rattle.fw_record.specs.Records.{starts_fit};
ghost use Rattle.fw_fair.specs.Correct.{correct_below};
ghost use Rattle.fw_cores.specs.Fresh.{IsFresh, AreFresh};

use fw_base::Seat;
use fw_client::ClientNode;
use fw_deal::Deal;
use fw_grid::Nodes;
use fw_list::Memory;
use fw_node::Node;
use fw_step::is_faulty;
use std::alloc::Global;

/// A new client.
fn client_node(alloc: Global, deal: &Deal, k: u32) -> Result<ClientNode, Memory>
    requires sizes { IsTrue (accepted deal.now.origin.params) }
    requires starts { IsTrue (starts_fit deal.now.origin.params.clients deal.now.starts) }
    requires fits { k < deal.now.origin.params.clients }
    ensures { IfOk result (λ node. IsFresh ⟦<ClientNode as Node>⟧.params ⟦<ClientNode as Node>⟧.own ⟦<ClientNode as Node>⟧.hand ⟦<ClientNode as Node>⟧.rule ⟦<ClientNode as Node>⟧.stands_for ⟦<ClientNode as Node>⟧.is_stopped deal.now (seats.Client k) node) }
{
    let hand = deal.hand(alloc, Seat::Client(k))?;
    let node = ClientNode::new(alloc, deal.directory().params(), hand)?;
    Ok(node)
}

/// Adds the new node of a number, if its seat is correct.
fn push_client(
    alloc: Global,
    deal: &Deal,
    faulty: &[Seat],
    k: u32,
    nodes: &mut Nodes<ClientNode>,
) -> Result<(), Memory>
    requires sizes { IsTrue (accepted deal.now.origin.params) }
    requires starts { IsTrue (starts_fit deal.now.origin.params.clients deal.now.starts) }
    requires fits { k < deal.now.origin.params.clients }
    ensures { OnOk result (AreFresh ⟦<ClientNode as Node>⟧.params ⟦<ClientNode as Node>⟧.own ⟦<ClientNode as Node>⟧.hand ⟦<ClientNode as Node>⟧.rule ⟦<ClientNode as Node>⟧.stands_for ⟦<ClientNode as Node>⟧.is_stopped deal.now seats.Client (correct_below faulty.now seats.Client k) nodes.old → AreFresh ⟦<ClientNode as Node>⟧.params ⟦<ClientNode as Node>⟧.own ⟦<ClientNode as Node>⟧.hand ⟦<ClientNode as Node>⟧.rule ⟦<ClientNode as Node>⟧.stands_for ⟦<ClientNode as Node>⟧.is_stopped deal.now seats.Client (correct_below faulty.now seats.Client (k + 1)) nodes.new) }
{
    if is_faulty(faulty, Seat::Client(k)) {
        return Ok(());
    }
    nodes.push(client_node(alloc, deal, k)?)
}

/// A new client for each correct seat of one.
pub(crate) fn clients(
    alloc: Global,
    deal: &Deal,
    faulty: &[Seat],
) -> Result<Nodes<ClientNode>, Memory>
    requires sizes { IsTrue (accepted deal.now.origin.params) }
    requires starts { IsTrue (starts_fit deal.now.origin.params.clients deal.now.starts) }
    ensures { IfOk result (λ nodes. AreFresh ⟦<ClientNode as Node>⟧.params ⟦<ClientNode as Node>⟧.own ⟦<ClientNode as Node>⟧.hand ⟦<ClientNode as Node>⟧.rule ⟦<ClientNode as Node>⟧.stands_for ⟦<ClientNode as Node>⟧.is_stopped deal.now seats.Client (correct_below faulty.now seats.Client deal.now.origin.params.clients) nodes) }
{
    let mut nodes = Nodes::new(alloc);
    let count = deal.directory().params().clients;
    for k in 0..count {
        push_client(alloc, deal, faulty, k, &mut nodes)?;
    }
    Ok(nodes)
}
