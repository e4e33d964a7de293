//! The replay of a plan.

ghost use Rattle.std.specs.Prelude.{◌≡◌, ◌⊎◌, ◌<◌, ℕ, IfOk, IfErr, IsTrue};
ghost use Rattle.std.specs.List.{list_all};
ghost use Rattle.fw_base.specs.Sizes.{accepted};
ghost use Rattle.fw_record.specs.Records.{starts_fit};
ghost use Rattle.fw_step.specs.Fitting.{step_fits};
ghost use Rattle.fw_sched.specs.Replayed.{can_replay};
ghost use Rattle.fw_rules.specs.declared.limits.Which.{Which};
ghost use Rattle.fw_world.specs.Plans.{FailsAt};
ghost use Rattle.fw_world.specs.Replay.{IsReportOf};

use crate::playing::play;
use crate::reporting::report_of;
use fw_base::Seat;
use fw_deal::Deal;
use fw_digest::Steps;
use fw_grid::RunFault;
use fw_law_honest::{law_accepted, law_certificates};
use fw_list::Bytes;
use fw_sched::Plan;
use std::alloc::Global;
use std::marker::Brand;
use std::sync::ledger::{Blank, Ledger};

/// The same, for a caller that counts steps.
fn replay_counted<L: Ledger>(alloc: Global, plan: Plan, blank: Blank) -> Result<Bytes, RunFault>
    requires sizes { IsTrue (accepted plan.params) }
    requires starts { IsTrue (starts_fit plan.params.clients plan.starts) }
    requires steps { IsTrue (list_all (step_fits plan.params plan.faulty) plan.steps) }
    requires can { IsTrue (can_replay plan) }
    requires name { blank.name ≡ L.name }
    requires parts { blank.parts ≡ L.parts }
    requires some { 0 < blank.parts }
    ensures ok { IfOk result (λ text. IsReportOf plan text) }
    ensures err { IfErr result (λ why. ((step : ℕ) × (which : Which) × (why ≡ RunFault.Limit step which) × FailsAt plan step which) ⊎ (why ≡ RunFault.Memory)) }
{
    law_accepted();
    law_certificates();
    let deal = Deal::new(alloc, &plan.params, &plan.seed, plan.starts.items())?;
    let keys = deal.hand(alloc, Seat::Exec(0))?;
    let mut steps = Steps::<L>::new(blank);
    match play(alloc, plan, deal, &mut steps) {
        Ok(world) => match report_of(alloc, &world, &keys, &mut steps) {
            Ok(text) => Ok(text),
            Err(_) => Err(RunFault::Memory),
        },
        Err(fault) => Err(fault),
    }
}

/// The report of a plan that can be replayed: the schedule runs over new nodes, each with its hand of the plan's deal. Where the run
/// would send too much it ends at that step.
pub fn replay(alloc: Global, plan: Plan) -> Result<Bytes, RunFault>
    requires sizes { IsTrue (accepted plan.params) }
    requires starts { IsTrue (starts_fit plan.params.clients plan.starts) }
    requires steps { IsTrue (list_all (step_fits plan.params plan.faulty) plan.steps) }
    requires can { IsTrue (can_replay plan) }
    ensures ok { IfOk result (λ text. IsReportOf plan text) }
    ensures err { IfErr result (λ why. ((step : ℕ) × (which : Which) × (why ≡ RunFault.Limit step which) × FailsAt plan step which) ⊎ (why ≡ RunFault.Memory)) }
{
    replay_counted::<Brand>(alloc, plan, Blank::new(1))
}
