//! A node of any role.

ghost use Rattle.std.specs.Prelude.{◌≡◌, ◌<◌, IfOk, IsTrue};
ghost use Rattle.fw_base.specs.Sizes.{accepted, agreements, executors, width};
ghost use Rattle.fw_base.specs.Seats.{fits};
ghost use Rattle.fw_record.specs.Records.{starts_fit};
ghost use Rattle.fw_node.specs.Histories.{IsGiven};
ghost use Rattle.try_nodes.specs.Sizes.{sizes_of, IsOf};

use fw_agree::AgreeNode;
use fw_base::Seat;
use fw_client::ClientNode;
use fw_deal::Deal;
use fw_digest::Steps;
use fw_directory::Directory;
use fw_exec::ExecNode;
use fw_filter::FilterNode;
use fw_list::Memory;
use fw_node::{Input, Node, Outbox};
use fw_store::Store;
use std::alloc::Global;
use std::marker::Brand;
use std::sync::ledger::{Blank, Ledger};

/// A node of a deployment.
#[derive(Drop)]
pub enum AnyNode {
    Agree(AgreeNode),
    Exec(ExecNode<Store>),
    Filter(FilterNode),
    Client(ClientNode),
}

/// Gives a node an input, by a counter of its own.
fn counted<N: Node, L: Ledger>(
    node: &mut N,
    directory: &Directory,
    input: Input<'_>,
    out: &mut Outbox,
    blank: Blank,
) -> Result<(), Memory>
    requires sizes { directory.now.params ≡ N.params node.old }
    requires op { IsGiven input }
    requires name { blank.name ≡ L.name }
    requires parts { blank.parts ≡ L.parts }
    requires some { 0 < blank.parts }
    ensures { N.params node.new ≡ N.params node.old }
{
    let mut steps = Steps::<L>::new(blank);
    match node.take(directory, input, out, &mut steps) {
        Ok(()) => Ok(()),
        Err(_) => Err(Memory),
    }
}

/// The same.
fn take<N: Node>(
    node: &mut N,
    directory: &Directory,
    input: Input<'_>,
    out: &mut Outbox,
) -> Result<(), Memory>
    requires sizes { directory.now.params ≡ N.params node.old }
    requires op { IsGiven input }
    ensures { N.params node.new ≡ N.params node.old }
{
    counted::<N, Brand>(node, directory, input, out, Blank::new(1))
}

/// A new agreement node.
fn agree_node(alloc: Global, deal: &Deal, k: u32) -> Result<AgreeNode, Memory>
    requires sizes { IsTrue (accepted deal.now.origin.params) }
    requires starts { IsTrue (starts_fit deal.now.origin.params.clients deal.now.starts) }
    requires fits { k < agreements deal.now.origin.params }
    ensures { IfOk result (λ node. node.params ≡ deal.now.origin.params) }
{
    let hand = deal.hand(alloc, Seat::Agree(k))?;
    AgreeNode::new(alloc, deal.directory().params(), hand)
}

/// A new executor.
fn exec_node(alloc: Global, deal: &Deal, k: u32) -> Result<ExecNode<Store>, Memory>
    requires sizes { IsTrue (accepted deal.now.origin.params) }
    requires starts { IsTrue (starts_fit deal.now.origin.params.clients deal.now.starts) }
    requires fits { k < executors deal.now.origin.params }
    ensures { IfOk result (λ node. node.params ≡ deal.now.origin.params) }
{
    let hand = deal.hand(alloc, Seat::Exec(k))?;
    let store = Store::new(alloc, hand.starts())?;
    ExecNode::new(alloc, deal.directory().params(), hand, store)
}

/// A new filter.
fn filter_node(alloc: Global, deal: &Deal, row: u32, column: u32) -> Result<FilterNode, Memory>
    requires sizes { IsTrue (accepted deal.now.origin.params) }
    requires starts { IsTrue (starts_fit deal.now.origin.params.clients deal.now.starts) }
    requires row { row < width deal.now.origin.params }
    requires column { column < width deal.now.origin.params }
    ensures { IfOk result (λ node. node.params ≡ deal.now.origin.params) }
{
    let hand = deal.hand(alloc, Seat::Filter(row, column))?;
    FilterNode::new(alloc, deal.directory().params(), hand)
}

/// A new client.
fn client_node(alloc: Global, deal: &Deal, k: u32) -> Result<ClientNode, Memory>
    requires sizes { IsTrue (accepted deal.now.origin.params) }
    requires starts { IsTrue (starts_fit deal.now.origin.params.clients deal.now.starts) }
    requires fits { k < deal.now.origin.params.clients }
    ensures { IfOk result (λ node. node.params ≡ deal.now.origin.params) }
{
    let hand = deal.hand(alloc, Seat::Client(k))?;
    ClientNode::new(alloc, deal.directory().params(), hand)
}

impl AnyNode {
    /// The node of a seat that has taken nothing yet.
    pub fn new(alloc: Global, deal: &Deal, seat: Seat) -> Result<AnyNode, Memory>
        requires sizes { IsTrue (accepted deal.now.origin.params) }
        requires starts { IsTrue (starts_fit deal.now.origin.params.clients deal.now.starts) }
        requires fits { IsTrue (fits deal.now.origin.params seat) }
        ensures { IfOk result (IsOf deal.now) }
    {
        match seat {
            Seat::Agree(k) => Ok(AnyNode::Agree(agree_node(alloc, deal, k)?)),
            Seat::Exec(k) => Ok(AnyNode::Exec(exec_node(alloc, deal, k)?)),
            Seat::Filter(row, column) => {
                Ok(AnyNode::Filter(filter_node(alloc, deal, row, column)?))
            }
            Seat::Client(k) => Ok(AnyNode::Client(client_node(alloc, deal, k)?)),
        }
    }

    /// Whose it is.
    pub fn seat(&self) -> Seat {
        match self {
            AnyNode::Agree(node) => node.seat(),
            AnyNode::Exec(node) => node.seat(),
            AnyNode::Filter(node) => node.seat(),
            AnyNode::Client(node) => node.seat(),
        }
    }

    /// Gives it an input.
    pub fn take(
        &mut self,
        directory: &Directory,
        input: Input<'_>,
        out: &mut Outbox,
    ) -> Result<(), Memory>
        requires sizes { directory.now.params ≡ sizes_of self.old }
        requires op { IsGiven input }
        ensures { sizes_of self.new ≡ sizes_of self.old }
    {
        match self {
            AnyNode::Agree(node) => take(node, directory, input, out),
            AnyNode::Exec(node) => take(node, directory, input, out),
            AnyNode::Filter(node) => take(node, directory, input, out),
            AnyNode::Client(node) => take(node, directory, input, out),
        }
    }
}
