//! A node takes inputs one after another.

ghost use Rattle.std.specs.Prelude.{◌≡◌, ◌∷◌, ◌++◌, ◌↔◌, Err, false, true, Bool, OnOk, OnErr, IsTrue};
ghost use Rattle.fw_base.specs.declared.params.Params.{Params};
ghost use Rattle.fw_base.specs.declared.seat.Seat.{Seat};
ghost use Rattle.fw_base.specs.Seats.{fits};
ghost use Rattle.fw_directory.specs.Directories.{PlainDirectory};
ghost use Rattle.fw_hand.specs.Hands.{PlainHand};
ghost use Rattle.fw_node.specs.Histories.{Out, History, taken, IsGiven, AreSendable};
ghost use Rattle.fw_node.specs.declared.node.NodeFault.TheVariants as fault;

use crate::Outbox;
use fw_base::Seat;
use fw_digest::Steps;
use fw_directory::Directory;
use fw_op::Op;
use std::sync::ledger::Ledger;

/// What a node is given.
#[derive(Drop)]
pub enum Input<'a> {
    /// A frame from a seat.
    Frame { from: Seat, bytes: &'a [u8] },
    Tick,
    /// An operation from a client's user.
    Submit(&'a Op),
}

/// Why an input wasn't taken.
#[derive(Clone, Copy, Debug, PartialEq, Eq)]
pub enum NodeFault {
    Memory,
    /// The node is stopped, since memory was wanted earlier.
    Stopped,
}

/// A node of a deployment, seen by the histories that it stands for. In a history the newest input stands first.
pub trait Node {
    /// The sizes of its deployment, and which seat it is.
    ghost params: { Self → Params };

    ghost own: { Self → Seat };

    /// The hand that it has.
    ghost hand: { Self → PlainHand };

    /// What it sends on the newest input of a history that isn't empty, under a directory.
    ghost rule: { Self → PlainDirectory → History → Out };

    /// Under a directory it stands for a history.
    ghost stands_for: { Self → PlainDirectory → History → Type 0 };

    ghost is_stopped: { Self → Bool };

    /// Its seat, which is one of the deployment.
    fn seat(&self) -> Seat
        ensures seat { result ≡ own self.now }
        ensures fits { IsTrue (fits (params self.now) result) };

    /// Takes one input. With Ok it stands for each history that it stood for with the input added, and what its rule sends on that
    /// history was added to the outbox. After want of memory the outbox is as before, and the node is stopped: it takes
    /// nothing any more, and answers so. An operation must be one that can be asked.
    fn take<L: Ledger>(
        &mut self,
        directory: &Directory,
        input: Input<'_>,
        out: &mut Outbox,
        steps: &mut Steps<L>,
    ) -> Result<(), NodeFault>
        requires sizes { directory.now.params ≡ params self.old }
        requires op { IsGiven input }
        ensures params { params self.new ≡ params self.old }
        ensures own { own self.new ≡ own self.old }
        ensures hand { hand self.new ≡ hand self.old }
        ensures rule { rule self.new ≡ rule self.old }
        ensures sends { (d : PlainDirectory) (h : History) → d.params ≡ params self.old → AreSendable (params self.old) (rule self.old d h) }
        ensures history { OnOk result ((h : History) → stands_for self.old directory.now h → stands_for self.new directory.now (taken input.entry ∷ h)) }
        ensures sent { OnOk result ((h : History) → stands_for self.old directory.now h → out.new ≡ out.old ++ rule self.old directory.now (taken input.entry ∷ h)) }
        ensures running { OnOk result (is_stopped self.new ≡ false) }
        ensures stopped { (result ≡ Err fault.Stopped) ↔ (is_stopped self.old ≡ true) }
        ensures stops { OnErr result (is_stopped self.new ≡ true) }
        ensures err { OnErr result (out.new ≡ out.old) };
}
