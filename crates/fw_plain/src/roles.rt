//! The four roles.

ghost use Rattle.std.specs.Prelude.{◌≡◌, ◌<◌, length, All, IfOk};
ghost use Rattle.fw_rules.specs.Deployed.{rule_by};
ghost use Rattle.fw_act.specs.Doing.{IsAgreements};
ghost use Rattle.fw_agree.specs.Standing as agreeing;
ghost use Rattle.fw_exec.specs.Standing as executing;
ghost use Rattle.fw_filter.specs.Standing as filtering;
ghost use Rattle.fw_client.specs.Standing as asking;
ghost use Rattle.fw_plain.specs.Kept.{history_of, CanBeTaken};

use crate::Kept;
use crate::after::sent_after;
use fw_agree::AgreeNode;
use fw_client::ClientNode;
use fw_digest::Steps;
use fw_directory::Directory;
use fw_exec::ExecNode;
use fw_filter::FilterNode;
use fw_hand::Hand;
use fw_list::Memory;
use fw_node::Outbox;
use fw_store::Store;
use std::alloc::Global;
use std::sync::ledger::Ledger;

/// What the agreement node of a hand sends on the last input of a history, which has one.
pub fn agree_out<L: Ledger>(
    alloc: Global,
    directory: &Directory,
    hand: Hand,
    history: &[Kept],
    steps: &mut Steps<L>,
) -> Result<Outbox, Memory>
    requires hand { IsAgreements directory.now.params (agreeing.number_of hand.seat) hand }
    requires some { 0 < length history.now }
    requires given { All CanBeTaken history.now }
    ensures { IfOk result (λ out. out ≡ rule_by directory.now hand (history_of history.now)) }
{
    let mut node = AgreeNode::new(alloc, directory.params(), hand)?;
    sent_after(alloc, &mut node, directory, history, steps)
}

/// The same of an executor's hand, over a store of the hand's records.
pub fn exec_out<L: Ledger>(
    alloc: Global,
    directory: &Directory,
    hand: Hand,
    history: &[Kept],
    steps: &mut Steps<L>,
) -> Result<Outbox, Memory>
    requires hand { executing.IsExecutors directory.now.params (executing.number_of hand.seat) hand }
    requires some { 0 < length history.now }
    requires given { All CanBeTaken history.now }
    ensures { IfOk result (λ out. out ≡ rule_by directory.now hand (history_of history.now)) }
{
    let store = Store::new(alloc, hand.starts())?;
    let mut node = ExecNode::new(alloc, directory.params(), hand, store)?;
    sent_after(alloc, &mut node, directory, history, steps)
}

/// The same of a filter's hand.
pub fn filter_out<L: Ledger>(
    alloc: Global,
    directory: &Directory,
    hand: Hand,
    history: &[Kept],
    steps: &mut Steps<L>,
) -> Result<Outbox, Memory>
    requires hand { filtering.IsFilters directory.now.params (filtering.row_in hand.seat) (filtering.column_in hand.seat) hand }
    requires some { 0 < length history.now }
    requires given { All CanBeTaken history.now }
    ensures { IfOk result (λ out. out ≡ rule_by directory.now hand (history_of history.now)) }
{
    let mut node = FilterNode::new(alloc, directory.params(), hand)?;
    sent_after(alloc, &mut node, directory, history, steps)
}

/// The same of a client's hand.
pub fn client_out<L: Ledger>(
    alloc: Global,
    directory: &Directory,
    hand: Hand,
    history: &[Kept],
    steps: &mut Steps<L>,
) -> Result<Outbox, Memory>
    requires hand { asking.IsClients directory.now.params (asking.number_of hand.seat) hand }
    requires some { 0 < length history.now }
    requires given { All CanBeTaken history.now }
    ensures { IfOk result (λ out. out ≡ rule_by directory.now hand (history_of history.now)) }
{
    let mut node = ClientNode::new(alloc, directory.params(), hand)?;
    sent_after(alloc, &mut node, directory, history, steps)
}
