//! All nodes of a deal.

ghost use Rattle.std.specs.Prelude.{◌≡◌, [], Some, IfOk, IsTrue};
ghost use Rattle.fw_base.specs.Sizes.{accepted};
ghost use Rattle.fw_base.specs.declared.seat.Seat.{Seat};
ghost use Rattle.fw_record.specs.Records.{starts_fit};
ghost use Rattle.fw_directory.specs.Directories.{PlainDirectory};
ghost use Rattle.fw_deal.specs.Deals.{hand_of};
ghost use Rattle.fw_node.specs.Histories.{History};
ghost use Rattle.fw_step.specs.Fitting.{is_correct};
ghost use Rattle.fw_fair.specs.Hostile.{dealt_rule};
ghost use Rattle.fw_grid.specs.Nodes.{AllSeated, AllStanding, node_hand, rule_of};
ghost use Rattle.fw_grid.specs.GridNodes.{nodes_of};

use crate::agreements::agreements;
use crate::clients::clients;
use crate::executors::executors;
use crate::filters::filters;
use fw_agree::AgreeNode;
use fw_base::Seat;
use fw_client::ClientNode;
use fw_deal::Deal;
use fw_exec::ExecNode;
use fw_filter::FilterNode;
use fw_grid::Grid;
use fw_list::Memory;
use fw_node::Node;
use fw_store::Store;
use std::alloc::Global;

/// The nodes of a deployment, as the program runs them.
pub type Cores = Grid<AgreeNode, ExecNode<Store>, FilterNode, ClientNode>;

/// A new node for each correct seat of a deal's deployment with these faulty seats, with the seat's hand: each stands for the empty
/// history, and goes by the rule of its hand.
pub fn cores(alloc: Global, deal: &Deal, faulty: &[Seat]) -> Result<Cores, Memory>
    requires sizes { IsTrue (accepted deal.now.origin.params) }
    requires starts { IsTrue (starts_fit deal.now.origin.params.clients deal.now.starts) }
    ensures seated { IfOk result (λ grid. AllSeated ⟦<AgreeNode as Node>⟧.params ⟦<AgreeNode as Node>⟧.own ⟦<ExecNode<Store> as Node>⟧.params ⟦<ExecNode<Store> as Node>⟧.own ⟦<FilterNode as Node>⟧.params ⟦<FilterNode as Node>⟧.own ⟦<ClientNode as Node>⟧.params ⟦<ClientNode as Node>⟧.own deal.now.origin.params faulty.now (nodes_of grid)) }
    ensures fresh { IfOk result (λ grid. (d : PlainDirectory) → d.params ≡ deal.now.origin.params
        → AllStanding ⟦<AgreeNode as Node>⟧.stands_for ⟦<AgreeNode as Node>⟧.is_stopped ⟦<ExecNode<Store> as Node>⟧.stands_for ⟦<ExecNode<Store> as Node>⟧.is_stopped ⟦<FilterNode as Node>⟧.stands_for ⟦<FilterNode as Node>⟧.is_stopped ⟦<ClientNode as Node>⟧.stands_for ⟦<ClientNode as Node>⟧.is_stopped d faulty.now (λ seat. []) (nodes_of grid)) }
    ensures hands { IfOk result (λ grid. (seat : Seat) → IsTrue (is_correct deal.now.origin.params faulty.now seat)
        → node_hand ⟦<AgreeNode as Node>⟧.hand ⟦<ExecNode<Store> as Node>⟧.hand ⟦<FilterNode as Node>⟧.hand ⟦<ClientNode as Node>⟧.hand (nodes_of grid) deal.now.origin.params faulty.now seat ≡ Some (hand_of deal.now seat)) }
    ensures rules { IfOk result (λ grid. (d : PlainDirectory) (seat : Seat) (h : History) → d.params ≡ deal.now.origin.params
        → rule_of ⟦<AgreeNode as Node>⟧.rule ⟦<ExecNode<Store> as Node>⟧.rule ⟦<FilterNode as Node>⟧.rule ⟦<ClientNode as Node>⟧.rule (nodes_of grid) d faulty.now seat h ≡ dealt_rule (record { deal = deal.now; directory = d; faulty = faulty.now }) seat h) }
{
    let agree = agreements(alloc, deal, faulty)?;
    let exec = executors(alloc, deal, faulty)?;
    let filters = filters(alloc, deal, faulty)?;
    let clients = clients(alloc, deal, faulty)?;
    Ok(Grid {
        agree,
        exec,
        filters,
        clients,
    })
}
