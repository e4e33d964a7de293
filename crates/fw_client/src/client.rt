//! The node of a client.

ghost use Rattle.std.specs.Prelude.{◌≡◌, ◌-◌, ◌++◌, [], false, reverse, length, IfOk, OnOk, OnErr, IsOk};
ghost use Rattle.fw_base.specs.declared.seat.Seat.TheVariants.{Client};
ghost use Rattle.fw_trace.specs.Client as clients;
ghost use Rattle.fw_trace.specs.Role.{kept};
ghost use Rattle.fw_directory.specs.Directories.{PlainDirectory};
ghost use Rattle.fw_node.specs.Histories.{History, taken, IsGiven};
ghost use Rattle.fw_client.specs.Kept.{after, sent_of};
ghost use Rattle.fw_client.specs.Standing.{Asker, IsClients, StandsFor, number_of, rule_of, speech, speech_of};

use crate::asking::send_newest;
use crate::hearing::hear;
use crate::submissions::{Accepted, Submissions};
use fw_base::{Params, Seat};
use fw_digest::Steps;
use fw_directory::Directory;
use fw_hand::Hand;
use fw_list::Memory;
use fw_node::{Input, Node, NodeFault, Outbox};
use std::alloc::Global;
use std::marker::Model;
use std::sync::ledger::Ledger;

/// The node of a client.
#[derive(Drop)]
pub struct ClientNode {
    alloc: Global,
    params: Params,
    client: u32,
    hand: Hand,
    submissions: Submissions,
    stopped: bool,
}

impl Model for ClientNode {
    ghost use Rattle.std.specs.Prelude.{◌≡◌};
    ghost use Rattle.fw_client.specs.Standing.{Asker, IsClients};

    ghost Value = { Asker };

    ghost view = { λ n. record { params = n.params; client = n.client; hand = n.hand; keeps = n.submissions.keeps; stopped = n.stopped } };

    ghost invariant = { λ n. IsClients n.params n.client n.hand × (n.submissions.most ≡ n.params.stamps) };
}

impl ClientNode {
    /// A client that has asked nothing yet, whose hand this is.
    pub fn new(alloc: Global, params: &Params, hand: Hand) -> Result<ClientNode, Memory>
        requires { IsClients params.now (number_of hand.seat) hand }
        ensures made { IsOk result }
        ensures params { IfOk result (λ n. ⟦<ClientNode as Node>⟧.params n ≡ params.now) }
        ensures own { IfOk result (λ n. ⟦<ClientNode as Node>⟧.own n ≡ hand.seat) }
        ensures rule { IfOk result (λ n. ⟦<ClientNode as Node>⟧.rule n ≡ rule_of n) }
        ensures hand { IfOk result (λ n. (n.hand ≡ hand) × (n.client ≡ number_of hand.seat)) }
        ensures stands { IfOk result (λ n. (d : PlainDirectory) → ⟦<ClientNode as Node>⟧.stands_for n d []) }
        ensures running { IfOk result (λ n. ⟦<ClientNode as Node>⟧.is_stopped n ≡ false) }
    {
        let Seat::Client(client) = hand.seat() else {
            unreachable!();
        };
        Ok(ClientNode {
            alloc,
            params: *params,
            client,
            hand,
            submissions: Submissions::new(alloc, params.stamps),
            stopped: false,
        })
    }

    /// The replies that were accepted, in the order of acceptance.
    pub fn accepted(&self) -> &[Accepted]
        ensures { (d : PlainDirectory) (h : History) → ⟦<ClientNode as Node>⟧.stands_for self.now d h → result.now ≡ reverse (kept (clients.client_role (speech self.now d)) h).accepted }
    {
        self.submissions.accepted()
    }

    /// How many submissions were taken and aren't answered.
    pub fn waiting(&self) -> u32
        ensures { (d : PlainDirectory) (h : History) → ⟦<ClientNode as Node>⟧.stands_for self.now d h → result ≡ clients.taken (kept (clients.client_role (speech self.now d)) h) - length (kept (clients.client_role (speech self.now d)) h).accepted }
    {
        self.submissions.waiting()
    }
}

/// Takes an input as the client's role does. Whether the newest request is sent then.
fn next<L: Ledger>(
    alloc: Global,
    client: u32,
    hand: &Hand,
    submissions: &mut Submissions,
    directory: &Directory,
    input: Input<'_>,
    steps: &mut Steps<L>,
) -> Result<bool, Memory>
    requires hand { IsClients directory.now.params client hand.now }
    requires most { submissions.old.most ≡ directory.now.params.stamps }
    requires op { IsGiven input }
    ensures most { submissions.new.most ≡ submissions.old.most }
    ensures step { IfOk result (λ asks. let sp = speech_of client hand.now directory.now in clients.client_next sp submissions.old.keeps (taken input.entry) ≡ after asks sp submissions.new.keeps) }
{
    match input {
        Input::Frame { from, bytes } => {
            hear(
                alloc,
                client,
                hand,
                submissions,
                directory,
                from,
                bytes,
                steps,
            )
        }
        Input::Tick => Ok(submissions.is_pending()),
        Input::Submit(op) => submissions.submit(op),
    }
}

/// Sends the newest request where it is asked. After want of memory the outbox is as before.
fn send(
    alloc: Global,
    params: &Params,
    client: u32,
    hand: &Hand,
    submissions: &Submissions,
    asks: bool,
    out: &mut Outbox,
) -> Result<(), Memory>
    requires hand { IsClients params.now client hand.now }
    requires most { submissions.now.most ≡ params.now.stamps }
    ensures sent { OnOk result ((d : PlainDirectory) → d.params ≡ params.now → out.new ≡ out.old ++ sent_of asks (speech_of client hand.now d) submissions.now.keeps) }
    ensures err { OnErr result (out.new ≡ out.old) }
{
    if !asks {
        return Ok(());
    }
    send_newest(alloc, params, client, hand, submissions, out)
}

impl Node for ClientNode {
    ghost params = { λ n. n.params };

    ghost own = { λ n. Client n.client };

    ghost hand = { λ n. n.hand };

    ghost rule = { rule_of };

    ghost stands_for = { StandsFor };

    ghost is_stopped = { λ n. n.stopped };

    fn seat(&self) -> Seat {
        Seat::Client(self.client)
    }

    #[tactic(auto, using(crate::proofs::Sendable::all_sendable, crate::proofs::After::stands_more, crate::proofs::After::sent_more))]
    fn take<L: Ledger>(
        &mut self,
        directory: &Directory,
        input: Input<'_>,
        out: &mut Outbox,
        steps: &mut Steps<L>,
    ) -> Result<(), NodeFault> {
        if self.stopped {
            return Err(NodeFault::Stopped);
        }
        self.stopped = true;
        let taken = next(
            self.alloc,
            self.client,
            &self.hand,
            &mut self.submissions,
            directory,
            input,
            steps,
        );
        let Ok(asks) = taken else {
            return Err(NodeFault::Memory);
        };
        let sent = send(
            self.alloc,
            &self.params,
            self.client,
            &self.hand,
            &self.submissions,
            asks,
            out,
        );
        if sent.is_err() {
            return Err(NodeFault::Memory);
        }
        self.stopped = false;
        Ok(())
    }
}
