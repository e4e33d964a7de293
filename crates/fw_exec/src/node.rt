//! The node of an executor.

ghost use Rattle.std.specs.Prelude.{◌≡◌, [], false, IfOk, IsOk};
ghost use Rattle.fw_base.specs.declared.seat.Seat.TheVariants.{Exec};
ghost use Rattle.fw_store.specs.Store.{ordered};
ghost use Rattle.fw_trace.specs.Executor as executors;
ghost use Rattle.fw_trace.specs.Role.{kept};
ghost use Rattle.fw_directory.specs.Directories.{PlainDirectory};
ghost use Rattle.fw_node.specs.Histories.{History};
ghost use Rattle.fw_exec.specs.Standing.{IsExecutors, StandsFor, number_of, rule_of, speech};

use crate::hearing::take;
use crate::own::{Own, own_of};
use crate::running::Running;
use fw_base::{Params, Seat};
use fw_digest::Steps;
use fw_directory::Directory;
use fw_hand::Hand;
use fw_list::Memory;
use fw_node::{Input, Node, NodeFault, Outbox};
use fw_ref::{Replica, Service};
use std::alloc::Global;
use std::marker::Model;
use std::sync::ledger::Ledger;

/// The node of an executor over a service.
#[derive(Drop)]
pub struct ExecNode<S: Service> {
    own: Own,
    running: Running<S>,
    stopped: bool,
}

impl<S: Service> Model for ExecNode<S> {
    ghost use Rattle.std.specs.Prelude.{◌≡◌, false};
    ghost use Rattle.fw_exec.specs.Kept.{IsRunning};
    ghost use Rattle.fw_exec.specs.Executors.{IsOwn};
    ghost use Rattle.fw_exec.specs.Standing.{Executing};

    ghost Value = { Executing };

    ghost view = { λ n. record { params = n.own.params; exec = n.own.exec; hand = n.own.hand; keeps = n.running; stopped = n.stopped } };

    ghost invariant = { λ n. IsOwn n.own × (n.stopped ≡ false → IsRunning n.own.params n.running) };
}

impl<S: Service + Drop> ExecNode<S> {
    /// An executor that has heard nothing yet, whose hand this is, over a service that has the hand's records to start with.
    pub fn new(
        alloc: Global,
        params: &Params,
        hand: Hand,
        service: S,
    ) -> Result<ExecNode<S>, Memory>
        requires hand { IsExecutors params.now (number_of hand.seat) hand }
        requires service { S.Service.records service ≡ ordered hand.starts }
        ensures params { IfOk result (λ n. ⟦<ExecNode<S> as Node>⟧.params n ≡ params.now) }
        ensures own { IfOk result (λ n. ⟦<ExecNode<S> as Node>⟧.own n ≡ hand.seat) }
        ensures rule { IfOk result (λ n. ⟦<ExecNode<S> as Node>⟧.rule n ≡ rule_of n) }
        ensures hand { IfOk result (λ n. (n.hand ≡ hand) × (n.exec ≡ number_of hand.seat)) }
        ensures stands { IfOk result (λ n. (d : PlainDirectory) → ⟦<ExecNode<S> as Node>⟧.stands_for n d []) }
        ensures running { IfOk result (λ n. ⟦<ExecNode<S> as Node>⟧.is_stopped n ≡ false) }
    {
        let Seat::Exec(exec) = hand.seat() else {
            unreachable!();
        };
        let own = own_of(alloc, params, exec, hand)?;
        let running = Running::new(alloc, Replica::new(alloc, service));
        Ok(ExecNode {
            own,
            running,
            stopped: false,
        })
    }
}

impl<S: Service> ExecNode<S> {
    /// How many numbers of the list were executed.
    pub fn done(&self) -> u32
        ensures { (d : PlainDirectory) (h : History) → ⟦<ExecNode<S> as Node>⟧.stands_for self.now d h → result ≡ (kept (executors.executor_role (speech self.now d)) h).done }
    {
        self.running.done()
    }
}

impl<S: Service> Node for ExecNode<S> {
    ghost params = { λ n. n.params };

    ghost own = { λ n. Exec n.exec };

    ghost hand = { λ n. n.hand };

    ghost rule = { rule_of };

    ghost stands_for = { StandsFor };

    ghost is_stopped = { λ n. n.stopped };

    fn seat(&self) -> Seat {
        Seat::Exec(self.own.exec)
    }

    fn take<L: Ledger>(
        &mut self,
        directory: &Directory,
        input: Input<'_>,
        out: &mut Outbox,
        steps: &mut Steps<L>,
    ) -> Result<(), NodeFault> {
        if self.stopped {
            return Err(NodeFault::Stopped);
        }
        self.stopped = true;
        let taken = take(&self.own, &mut self.running, directory, input, out, steps);
        if taken.is_err() {
            return Err(NodeFault::Memory);
        }
        self.stopped = false;
        Ok(())
    }
}
