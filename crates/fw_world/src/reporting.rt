//! The report of nodes at work.

ghost use Rattle.std.specs.Prelude.{◌≡◌, List, IfOk};
ghost use Rattle.fw_base.specs.declared.seat.Seat as declared;
ghost use Rattle.fw_rules.specs.World.{Deployed};
ghost use Rattle.fw_seen.specs.Summary.{report_of};
ghost use Rattle.fw_world.specs.Played.{ArePlayed};

use crate::playing::Cast;
use crate::viewing::greatest_view;
use fw_agree::AgreeNode;
use fw_client::ClientNode;
use fw_digest::Steps;
use fw_hand::Hand;
use fw_list::{Bytes, Memory};
use fw_node::Node;
use fw_report::report;
use fw_seen::{Counts, summary};
use std::alloc::Global;
use std::sync::ledger::Ledger;

/// The report of what the nodes of a deployment did so far, by the keys that an executor has.
pub(crate) fn report_of<L: Ledger>(
    alloc: Global,
    world: &Cast,
    keys: &Hand,
    steps: &mut Steps<L>,
) -> Result<Bytes, Memory>
    requires { (d : Deployed) × ((faulty : List declared.Seat) × ArePlayed ⟦<AgreeNode as Node>⟧.hand ⟦<ClientNode as Node>⟧.hand d faulty world.now.seen keys.now) }
    ensures { IfOk result (λ text. (d : Deployed) (faulty : List declared.Seat) → ArePlayed ⟦<AgreeNode as Node>⟧.hand ⟦<ClientNode as Node>⟧.hand d faulty world.now.seen keys.now → text ≡ report_of d faulty world.now.seen.trace) }
{
    let counts = Counts {
        submissions: world.submissions(),
        events: world.events(),
        rest: world.is_at_rest(),
        view: greatest_view(world),
    };
    let summary = summary(
        alloc,
        world.directory(),
        world.faulty(),
        keys,
        world.clients(),
        world.frames(),
        counts,
        steps,
    )?;
    let text = report(alloc, &summary)?;
    Ok(text)
}
