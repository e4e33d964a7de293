//! The run of a plan over the nodes of its deployment.

ghost use Rattle.std.specs.Prelude.{◌≡◌, ◌⊎◌, ℕ, IfOk, IfErr, IsTrue};
ghost use Rattle.std.specs.List.{list_all};
ghost use Rattle.fw_base.specs.Sizes.{accepted};
ghost use Rattle.fw_base.specs.declared.seat.Seat.TheVariants.{Exec};
ghost use Rattle.fw_record.specs.Records.{starts_fit};
ghost use Rattle.fw_step.specs.Fitting.{step_fits};
ghost use Rattle.fw_sched.specs.Replayed.{can_replay};
ghost use Rattle.fw_hand.specs.Hands.{PlainHand};
ghost use Rattle.fw_deal.specs.Deals.{hand_of};
ghost use Rattle.fw_rules.specs.declared.limits.Which.{Which};
ghost use Rattle.fw_law_honest.specs.Laws.{deployed};
ghost use Rattle.fw_world.specs.Plans.{deal_of, IsRunOf, FailsAt};
ghost use Rattle.fw_world.specs.Played.{ArePlayed};

use fw_agree::AgreeNode;
use fw_client::ClientNode;
use fw_cores::cores;
use fw_deal::Deal;
use fw_digest::Steps;
use fw_exec::ExecNode;
use fw_filter::FilterNode;
use fw_grid::{RunFault, World};
use fw_node::Node;
use fw_sched::Plan;
use fw_store::Store;
use std::alloc::Global;
use std::sync::ledger::Ledger;

/// The world of a plan's deployment, as the program runs it.
pub type Cast = World<AgreeNode, ExecNode<Store>, FilterNode, ClientNode>;

/// Runs the schedule of a plan that can be replayed over new nodes, each with its hand of the plan's deal. Where the run would send too
/// much it ends at that step.
pub fn play<L: Ledger>(
    alloc: Global,
    plan: Plan,
    deal: Deal,
    steps: &mut Steps<L>,
) -> Result<Cast, RunFault>
    requires sizes { IsTrue (accepted plan.params) }
    requires starts { IsTrue (starts_fit plan.params.clients plan.starts) }
    requires steps { IsTrue (list_all (step_fits plan.params plan.faulty) plan.steps) }
    requires can { IsTrue (can_replay plan) }
    requires deal { deal ≡ deal_of plan }
    ensures run { IfOk result (λ world. IsRunOf plan world.seen.directory world.seen.trace) }
    ensures played { IfOk result (λ world. (keys : PlainHand) → keys ≡ hand_of (deal_of plan) (Exec 0) → ArePlayed ⟦<AgreeNode as Node>⟧.hand ⟦<ClientNode as Node>⟧.hand (deployed (deal_of plan) world.seen.directory) plan.faulty world.seen keys) }
    ensures err { IfErr result (λ why. ((step : ℕ) × (which : Which) × (why ≡ RunFault.Limit step which) × FailsAt plan step which) ⊎ (why ≡ RunFault.Memory)) }
{
    let grid = cores(alloc, &deal, plan.faulty.items())?;
    let mut world = World::new(alloc, deal.into_directory(), plan.faulty, plan.steps, grid)?;
    match world.run(steps) {
        Ok(()) => Ok(world),
        Err(fault) => Err(fault),
    }
}
