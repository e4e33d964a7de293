//! The whole summary.

ghost use Rattle.std.specs.Prelude.{◌≡◌, ◌<◌, ◌^◌, ℕ, List, IfOk, length};
ghost use Rattle.fw_base.specs.declared.seat.Seat as declared;
ghost use Rattle.fw_op.specs.declared.op.Op.{Op};
ghost use Rattle.fw_trace.specs.Trace.{Trace};
ghost use Rattle.fw_rules.specs.World.{Deployed};
ghost use Rattle.fw_seen.specs.Summary.{summary_of};
ghost use Rattle.fw_seen.specs.Parts.{ArePartsOf};

use crate::{accept_lines, agreed_lines, cross_lines};
use fw_base::Seat;
use fw_client::ClientNode;
use fw_digest::Steps;
use fw_directory::Directory;
use fw_hand::Hand;
use fw_list::{Bytes, Memory};
use fw_node::Node;
use fw_report::Summary;
use fw_trace::Sent;
use std::alloc::Global;
use std::sync::ledger::Ledger;

/// What a log tells, and how far the agreement nodes came.
#[derive(Clone, Copy, Debug)]
pub struct Counts {
    /// Submissions to correct clients.
    pub submissions: usize,
    /// Deliveries, ticks and submissions.
    pub events: usize,
    /// Each frame between correct seats was delivered.
    pub rest: bool,
    /// The greatest view that a correct agreement node is in.
    pub view: u32,
}

/// A count, where a u32 holds it.
fn as_u32(count: usize) -> Result<u32, Memory>
    ensures { IfOk result (λ n. n ≡ count) }
{
    match u32::try_from(count) {
        Ok(n) => Ok(n),
        Err(_) => Err(Memory),
    }
}

/// What a run agreed, accepted and let down: by an executor's hand, all correct clients, the pool, and what is counted. The only failure is
/// want of memory.
pub fn summary<L: Ledger>(
    alloc: Global,
    directory: &Directory,
    faulty: &[Seat],
    keys: &Hand,
    clients: &[ClientNode],
    pool: &[Sent<Bytes>],
    counts: Counts,
    steps: &mut Steps<L>,
) -> Result<Summary, Memory>
    requires { length pool.now < 2 ^ 32 }
    ensures { IfOk result (λ summary. (d : Deployed) (wrong : List declared.Seat) (t : Trace (List ℕ) Op)
        → ArePartsOf ⟦<ClientNode as Node>⟧.stands_for d wrong t directory.now faulty.now keys.now clients.now pool.now counts
        → summary ≡ summary_of d wrong t) }
{
    let accepted = accept_lines(alloc, clients)?;
    let waiting = counts.submissions.saturating_sub(accepted.len());
    Ok(Summary {
        agreed: agreed_lines(alloc, directory, keys, pool, steps)?,
        accepted,
        cross: cross_lines(alloc, directory.params(), faulty, pool)?,
        waiting: as_u32(waiting)?,
        rest: counts.rest,
        view: counts.view,
        events: as_u32(counts.events)?,
        frames: as_u32(pool.len())?,
    })
}
