//! The node of an agreement node.

ghost use Rattle.std.specs.Prelude.{◌≡◌, ◌++◌, [], false, length, take, IfOk, OnOk, OnErr};
ghost use Rattle.fw_base.specs.declared.seat.Seat.TheVariants.{Agree};
ghost use Rattle.fw_op.specs.declared.op.Op.{Op};
ghost use Rattle.fw_directory.specs.Directories.{PlainDirectory};
ghost use Rattle.fw_trace.specs.declared.Input.TheVariants.{Heard, Tick};
ghost use Rattle.fw_node.specs.Histories.{History, taken};
ghost use Rattle.fw_rules.specs.Views as rules;
ghost use Rattle.fw_kept.specs.Kept.{self_of, node_of, IsFor};
ghost use Rattle.fw_act.specs.Doing.{IsAgreements};
ghost use Rattle.fw_agree.specs.Standing.{StandsFor, keeps_after, number_of, rule_of};
ghost use Rattle.fw_agree.specs.Steps.{at, behind};

use crate::hearing::hears;
use crate::passes::passes;
use fw_base::{Params, Seat};
use fw_clock::ticks;
use fw_digest::Steps;
use fw_directory::Directory;
use fw_hand::Hand;
use fw_kept::Keeps;
use fw_list::Memory;
use fw_means::admitted;
use fw_node::{Input, Node, NodeFault, Outbox};
use std::alloc::Global;
use std::marker::Model;
use std::sync::ledger::Ledger;

/// The node of an agreement node.
#[derive(Drop)]
pub struct AgreeNode {
    alloc: Global,
    params: Params,
    own: u32,
    hand: Hand,
    keeps: Keeps,
    stopped: bool,
}

impl Model for AgreeNode {
    ghost use Rattle.std.specs.Prelude.{◌≡◌, false};
    ghost use Rattle.fw_kept.specs.Kept.{node_of, IsFor};
    ghost use Rattle.fw_act.specs.Doing.{IsAgreements};
    ghost use Rattle.fw_agree.specs.Standing.{Agreer};

    ghost Value = { Agreer };

    ghost view = { λ n. record { params = n.params; own = n.own; hand = n.hand; keeps = node_of n.keeps; stopped = n.stopped } };

    ghost invariant = { λ n. IsAgreements n.params n.own n.hand × IsFor n.params n.keeps };
}

impl AgreeNode {
    /// An agreement node that has heard nothing yet, whose hand this is.
    pub fn new(alloc: Global, params: &Params, hand: Hand) -> Result<AgreeNode, Memory>
        requires { IsAgreements params.now (number_of hand.seat) hand }
        ensures params { IfOk result (λ n. ⟦<AgreeNode as Node>⟧.params n ≡ params.now) }
        ensures own { IfOk result (λ n. ⟦<AgreeNode as Node>⟧.own n ≡ hand.seat) }
        ensures rule { IfOk result (λ n. ⟦<AgreeNode as Node>⟧.rule n ≡ rule_of n) }
        ensures hand { IfOk result (λ n. (n.hand ≡ hand) × (n.own ≡ number_of hand.seat)) }
        ensures stands { IfOk result (λ n. (d : PlainDirectory) → ⟦<AgreeNode as Node>⟧.stands_for n d []) }
        ensures running { IfOk result (λ n. ⟦<AgreeNode as Node>⟧.is_stopped n ≡ false) }
    {
        let Seat::Agree(own) = hand.seat() else {
            unreachable!();
        };
        Ok(AgreeNode {
            alloc,
            params: *params,
            own,
            hand,
            keeps: Keeps::new(alloc, params)?,
            stopped: false,
        })
    }

    /// The view that it is in.
    pub fn view(&self) -> u32
        ensures { (d : PlainDirectory) (h : History) → ⟦<AgreeNode as Node>⟧.stands_for self.now d h → result ≡ (keeps_after self.now d h).own.view }
    {
        self.keeps.view
    }
}

/// Takes a frame from a seat as the agreement node's role does. After want of memory the outbox begins with what it had.
fn takes_frame<L: Ledger>(
    alloc: Global,
    directory: &Directory,
    own: u32,
    hand: &Hand,
    keeps: &mut Keeps,
    from: Seat,
    bytes: &[u8],
    out: &mut Outbox,
    steps: &mut Steps<L>,
) -> Result<(), Memory>
    requires hand { IsAgreements directory.now.params own hand.now }
    requires for_sizes { IsFor directory.now.params keeps.old }
    ensures step { OnOk result (at keeps.new out.new ≡ behind out.old (rules.agree_next {O = Op} (self_of directory.now hand.now own) (node_of keeps.old) (Heard from bytes.now))) }
    ensures sizes { IsFor directory.now.params keeps.new }
    ensures begins { take (length out.old) out.new ≡ out.old }
{
    let Some(checked) = admitted(alloc, directory, Seat::Agree(own), from, bytes, steps)? else {
        return Ok(());
    };
    if hears(alloc, directory, keeps, from, checked.frame(), out)? {
        passes(alloc, directory, own, hand, keeps, out)
    } else {
        Ok(())
    }
}

/// Takes a tick as the agreement node's role does. After want of memory the outbox begins with what it had.
fn takes_tick(
    alloc: Global,
    directory: &Directory,
    own: u32,
    hand: &Hand,
    keeps: &mut Keeps,
    out: &mut Outbox,
) -> Result<(), Memory>
    requires hand { IsAgreements directory.now.params own hand.now }
    requires for_sizes { IsFor directory.now.params keeps.old }
    ensures step { OnOk result (at keeps.new out.new ≡ behind out.old (rules.agree_next {O = Op} (self_of directory.now hand.now own) (node_of keeps.old) Tick)) }
    ensures sizes { IsFor directory.now.params keeps.new }
    ensures begins { take (length out.old) out.new ≡ out.old }
{
    ticks(alloc, directory, own, hand, keeps, out)?;
    passes(alloc, directory, own, hand, keeps, out)
}

/// Takes an input as the agreement node's role does. After want of memory the outbox begins with what it had.
fn next<L: Ledger>(
    alloc: Global,
    directory: &Directory,
    own: u32,
    hand: &Hand,
    keeps: &mut Keeps,
    input: Input<'_>,
    out: &mut Outbox,
    steps: &mut Steps<L>,
) -> Result<(), Memory>
    requires hand { IsAgreements directory.now.params own hand.now }
    requires for_sizes { IsFor directory.now.params keeps.old }
    ensures step { OnOk result (at keeps.new out.new ≡ behind out.old (rules.agree_next (self_of directory.now hand.now own) (node_of keeps.old) (taken input.entry))) }
    ensures sizes { IsFor directory.now.params keeps.new }
    ensures begins { take (length out.old) out.new ≡ out.old }
{
    match input {
        Input::Frame { from, bytes } => {
            takes_frame(alloc, directory, own, hand, keeps, from, bytes, out, steps)
        }
        Input::Tick => takes_tick(alloc, directory, own, hand, keeps, out),
        Input::Submit(_) => Ok(()),
    }
}

/// Takes an input as the agreement node's role does. After want of memory the outbox is as before.
fn takes<L: Ledger>(
    alloc: Global,
    directory: &Directory,
    own: u32,
    hand: &Hand,
    keeps: &mut Keeps,
    input: Input<'_>,
    out: &mut Outbox,
    steps: &mut Steps<L>,
) -> Result<(), Memory>
    requires hand { IsAgreements directory.now.params own hand.now }
    requires for_sizes { IsFor directory.now.params keeps.old }
    ensures kept { OnOk result (node_of keeps.new ≡ (rules.agree_next (self_of directory.now hand.now own) (node_of keeps.old) (taken input.entry)).0) }
    ensures sent { OnOk result (out.new ≡ out.old ++ (rules.agree_next (self_of directory.now hand.now own) (node_of keeps.old) (taken input.entry)).1) }
    ensures sizes { IsFor directory.now.params keeps.new }
    ensures err { OnErr result (out.new ≡ out.old) }
{
    let len = out.sent().len();
    let taken = next(alloc, directory, own, hand, keeps, input, out, steps);
    if taken.is_err() {
        out.cut(len);
    }
    taken
}

impl Node for AgreeNode {
    ghost params = { λ n. n.params };

    ghost own = { λ n. Agree n.own };

    ghost hand = { λ n. n.hand };

    ghost rule = { rule_of };

    ghost stands_for = { StandsFor };

    ghost is_stopped = { λ n. n.stopped };

    fn seat(&self) -> Seat {
        Seat::Agree(self.own)
    }

    fn take<L: Ledger>(
        &mut self,
        directory: &Directory,
        input: Input<'_>,
        out: &mut Outbox,
        steps: &mut Steps<L>,
    ) -> Result<(), NodeFault> {
        if self.stopped {
            return Err(NodeFault::Stopped);
        }
        self.stopped = true;
        let taken = takes(
            self.alloc,
            directory,
            self.own,
            &self.hand,
            &mut self.keeps,
            input,
            out,
            steps,
        );
        if taken.is_err() {
            return Err(NodeFault::Memory);
        }
        self.stopped = false;
        Ok(())
    }
}
