//! What a node sends on the last input of a history.

ghost use Rattle.std.specs.Prelude.{◌≡◌, ◌<◌, ◌∷◌, [], length, All, IfOk, OnOk};
ghost use Rattle.fw_node.specs.Histories.{History as Inputs};
ghost use Rattle.fw_plain.specs.Kept.{taken_of, history_of, CanBeTaken};

use crate::Kept;
use fw_digest::Steps;
use fw_directory::Directory;
use fw_list::Memory;
use fw_node::{Node, Outbox};
use std::alloc::Global;
use std::sync::ledger::Ledger;

/// Gives a node one input: what it sends.
fn sent_on<N: Node, L: Ledger>(
    alloc: Global,
    node: &mut N,
    directory: &Directory,
    kept: &Kept,
    steps: &mut Steps<L>,
) -> Result<Outbox, Memory>
    requires sizes { directory.now.params ≡ N.params node.old }
    requires given { CanBeTaken kept.now }
    ensures params { N.params node.new ≡ N.params node.old }
    ensures rule { N.rule node.new ≡ N.rule node.old }
    ensures stands { OnOk result ((h : Inputs) → N.stands_for node.old directory.now h → N.stands_for node.new directory.now (taken_of kept.now ∷ h)) }
    ensures sent { IfOk result (λ out. (h : Inputs) → N.stands_for node.old directory.now h → out ≡ N.rule node.old directory.now (taken_of kept.now ∷ h)) }
{
    let mut out = Outbox::new(alloc);
    match node.take(directory, kept.lent(), &mut out, steps) {
        Ok(()) => Ok(out),
        Err(_) => Err(Memory),
    }
}

/// Gives a node the inputs of a history, one after another: what it sends on the last.
pub(crate) fn sent_after<N: Node, L: Ledger>(
    alloc: Global,
    node: &mut N,
    directory: &Directory,
    history: &[Kept],
    steps: &mut Steps<L>,
) -> Result<Outbox, Memory>
    requires sizes { directory.now.params ≡ N.params node.old }
    requires some { 0 < length history.now }
    requires given { All CanBeTaken history.now }
    ensures { IfOk result (λ out. N.stands_for node.old directory.now [] → out ≡ N.rule node.old directory.now (history_of history.now)) }
{
    let mut out = Outbox::new(alloc);
    for kept in history {
        out = sent_on(alloc, node, directory, kept, steps)?;
    }
    Ok(out)
}
