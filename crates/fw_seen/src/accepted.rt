//! What the clients accepted.

ghost use Rattle.std.specs.Prelude.{◌≡◌, ◌++◌, ℕ, List, IfOk, OnOk, map};
ghost use Rattle.fw_op.specs.declared.op.Op.{Op};
ghost use Rattle.fw_trace.specs.Trace.{Trace};
ghost use Rattle.fw_rules.specs.World.{Deployed};
ghost use Rattle.fw_seen.specs.Summary.{accept_line_of, accept_lines};
ghost use Rattle.fw_seen.specs.Clients.{AreClientsOf};

use fw_base::Seat;
use fw_client::{Accepted, ClientNode};
use fw_list::{Items, Memory};
use fw_node::Node;
use fw_report::AcceptLine;
use std::alloc::Global;

/// Adds the lines of what a client accepted.
fn push_accepted(
    alloc: Global,
    lines: &mut Items<AcceptLine>,
    client: u32,
    accepted: &[Accepted],
) -> Result<(), Memory>
    ensures { OnOk result (lines.new ≡ lines.old ++ map (accept_line_of client) accepted.now) }
{
    for told in accepted {
        lines.push(AcceptLine {
            client,
            stamp: told.stamp,
            number: told.number,
            reply: told.reply.copy(alloc)?,
        })?;
    }
    Ok(())
}

/// The number of a client.
fn number_of(client: &ClientNode) -> u32
    ensures { result ≡ client.now.client }
{
    match client.seat() {
        Seat::Client(c) => c,
        _ => unreachable!(),
    }
}

/// The lines of what these clients accepted, client by client.
pub fn accept_lines(alloc: Global, clients: &[ClientNode]) -> Result<Items<AcceptLine>, Memory>
    ensures { IfOk result (λ lines. (d : Deployed) (t : Trace (List ℕ) Op) (numbers : List ℕ)
        → AreClientsOf ⟦<ClientNode as Node>⟧.stands_for clients.now d t numbers
        → lines ≡ accept_lines d t numbers) }
{
    let mut lines = Items::new(alloc);
    for client in clients {
        push_accepted(alloc, &mut lines, number_of(client), client.accepted())?;
    }
    Ok(lines)
}
