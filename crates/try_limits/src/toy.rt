//! A toy node.

ghost use Rattle.std.specs.Prelude.{◌≡◌, ◌≤◌, false, length, IsTrue};
ghost use Rattle.fw_list.specs.declared.limits.TheConstants.{LONGEST_FRAME};
ghost use Rattle.fw_base.specs.Seats.{fits};
ghost use Rattle.fw_node.proofs.Sendable.{AllFit};
ghost use Rattle.try_limits.specs.Toys.{rule_of, StandsFor, bare};

use fw_base::{Params, Seat, Seats};
use fw_digest::Steps;
use fw_directory::Directory;
use fw_list::Bytes;
use fw_node::{Input, Node, NodeFault, Outbox};
use std::alloc::Global;
use std::marker::Model;
use std::sync::ledger::Ledger;

/// A node that sends the same frame to the same seats on every input, whatever it is.
#[derive(Drop)]
pub struct Toy {
    alloc: Global,
    params: Params,
    own: Seat,
    to: Seats,
    frame: Bytes,
    stopped: bool,
}

impl Model for Toy {
    ghost use Rattle.try_limits.specs.Toys.{Echoer, IsSound};

    ghost Value = { Echoer };

    ghost view = { λ t. record { params = t.params; own = t.own; to = t.to; frame = t.frame; stopped = t.stopped } };

    ghost invariant = { λ t. IsSound t.params t.own t.to t.frame };
}

impl Toy {
    /// A node of a seat that sends this frame to these seats.
    pub fn new(alloc: Global, params: Params, own: Seat, to: Seats, frame: Bytes) -> Toy
        requires own { IsTrue (fits params own) }
        requires to { AllFit params to }
        requires some { 1 ≤ length frame }
        requires most { length frame ≤ LONGEST_FRAME }
        ensures { result ≡ record { params = params; own = own; to = to; frame = frame; stopped = false } }
    {
        Toy {
            alloc,
            params,
            own,
            to,
            frame,
            stopped: false,
        }
    }
}

impl Node for Toy {
    ghost params = { λ n. n.params };

    ghost own = { λ n. n.own };

    ghost hand = { λ n. bare n.own };

    ghost rule = { rule_of };

    ghost stands_for = { StandsFor };

    ghost is_stopped = { λ n. n.stopped };

    fn seat(&self) -> Seat {
        self.own
    }

    fn take<L: Ledger>(
        &mut self,
        _directory: &Directory,
        _input: Input<'_>,
        out: &mut Outbox,
        _steps: &mut Steps<L>,
    ) -> Result<(), NodeFault> {
        if self.stopped {
            return Err(NodeFault::Stopped);
        }
        self.stopped = true;
        match out.send_to_all(self.alloc, self.to.items(), self.frame.items()) {
            Ok(()) => {
                self.stopped = false;
                Ok(())
            }
            Err(_) => Err(NodeFault::Memory),
        }
    }
}
