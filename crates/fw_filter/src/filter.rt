//! The node of a filter.

ghost use Rattle.std.specs.Prelude.{◌≡◌, ◌++◌, [], false, IfOk, IsOk, OnOk, OnErr};
ghost use Rattle.fw_base.specs.declared.seat.Seat.TheVariants.{Filter};
ghost use Rattle.fw_directory.specs.Directories.{PlainDirectory};
ghost use Rattle.fw_hand.specs.Hands.{PlainHand};
ghost use Rattle.fw_node.specs.Histories.{taken};
ghost use Rattle.fw_filter.specs.Sifting.{IsReady, Does};
ghost use Rattle.fw_filter.specs.Standing.{Sifter, IsFilters, StandsFor, next_of, row_in, column_in, rule_of, speech_of};

use crate::hearing::hear;
use crate::sieve::Sieve;
use fw_base::{Params, Seat};
use fw_digest::Steps;
use fw_directory::Directory;
use fw_hand::Hand;
use fw_list::Memory;
use fw_node::{Input, Node, NodeFault, Outbox};
use std::alloc::Global;
use std::marker::Model;
use std::sync::ledger::Ledger;

/// The node of a filter.
#[derive(Drop)]
pub struct FilterNode {
    alloc: Global,
    column: u32,
    hand: Hand,
    sieve: Sieve,
    stopped: bool,
}

impl Model for FilterNode {
    ghost use Rattle.std.specs.Prelude.{◌≡◌};
    ghost use Rattle.fw_filter.specs.Standing.{Sifter, IsFilters};

    ghost Value = { Sifter };

    ghost view = { λ n. record { params = n.sieve.params; row = n.sieve.row; column = n.column; hand = n.hand; keeps = n.sieve.keeps; stopped = n.stopped } };

    ghost invariant = { λ n. IsFilters n.sieve.params n.sieve.row n.column n.hand };
}

impl FilterNode {
    /// A filter that has heard nothing yet, whose hand this is.
    pub fn new(alloc: Global, params: &Params, hand: Hand) -> Result<FilterNode, Memory>
        requires { IsFilters params.now (row_in hand.seat) (column_in hand.seat) hand }
        ensures made { IsOk result }
        ensures params { IfOk result (λ n. ⟦<FilterNode as Node>⟧.params n ≡ params.now) }
        ensures own { IfOk result (λ n. ⟦<FilterNode as Node>⟧.own n ≡ hand.seat) }
        ensures rule { IfOk result (λ n. ⟦<FilterNode as Node>⟧.rule n ≡ rule_of n) }
        ensures hand { IfOk result (λ n. (n.hand ≡ hand) × (n.row ≡ row_in hand.seat) × (n.column ≡ column_in hand.seat)) }
        ensures stands { IfOk result (λ n. (d : PlainDirectory) → ⟦<FilterNode as Node>⟧.stands_for n d []) }
        ensures running { IfOk result (λ n. ⟦<FilterNode as Node>⟧.is_stopped n ≡ false) }
    {
        let Seat::Filter(row, column) = hand.seat() else {
            unreachable!();
        };
        Ok(FilterNode {
            alloc,
            column,
            hand,
            sieve: Sieve::new(alloc, params, row),
            stopped: false,
        })
    }
}

/// Takes an input as the filter's role does. After want of memory the outbox is as before.
fn next<L: Ledger>(
    alloc: Global,
    column: u32,
    sieve: &mut Sieve,
    directory: &Directory,
    input: Input<'_>,
    out: &mut Outbox,
    steps: &mut Steps<L>,
) -> Result<(), Memory>
    requires { directory.now.params ≡ sieve.old.params }
    ensures params { sieve.new.params ≡ sieve.old.params }
    ensures row { sieve.new.row ≡ sieve.old.row }
    ensures step { OnOk result ((hand : PlainHand) → let sp = speech_of sieve.old.row column hand directory.now in IsReady sp sieve.old.keeps → Does sieve.new.keeps out.old out.new (next_of sp sieve.old.keeps (taken input.entry))) }
    ensures err { OnErr result (out.new ≡ out.old) }
{
    match input {
        Input::Frame { from, bytes } => {
            hear(alloc, column, sieve, directory, from, bytes, out, steps)
        }
        Input::Tick => Ok(()),
        Input::Submit(_) => Ok(()),
    }
}

impl Node for FilterNode {
    ghost params = { λ n. n.params };

    ghost own = { λ n. Filter n.row n.column };

    ghost hand = { λ n. n.hand };

    ghost rule = { rule_of };

    ghost stands_for = { StandsFor };

    ghost is_stopped = { λ n. n.stopped };

    fn seat(&self) -> Seat {
        Seat::Filter(self.sieve.row(), self.column)
    }

    fn take<L: Ledger>(
        &mut self,
        directory: &Directory,
        input: Input<'_>,
        out: &mut Outbox,
        steps: &mut Steps<L>,
    ) -> Result<(), NodeFault> {
        if self.stopped {
            return Err(NodeFault::Stopped);
        }
        self.stopped = true;
        let taken = next(
            self.alloc,
            self.column,
            &mut self.sieve,
            directory,
            input,
            out,
            steps,
        );
        if taken.is_err() {
            return Err(NodeFault::Memory);
        }
        self.stopped = false;
        Ok(())
    }
}
