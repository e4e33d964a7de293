//! The plan.

ghost use Rattle.std.specs.Prelude.{◌≡◌};
ghost use Rattle.fw_sched.specs.Replayed.{can_replay};

use fw_base::{Params, Seats};
use fw_list::Items;
use fw_op::Starts;
use fw_step::{Step, is_honest};

/// Steps in order.
pub type StepList = Items<Step>;

/// A deployment and a schedule for it.
#[derive(Debug, Drop)]
pub struct Plan {
    pub params: Params,
    pub seed: [u8; 32],
    pub faulty: Seats,
    pub starts: Starts,
    pub steps: StepList,
}

impl Plan {
    /// Whether this is a plan that can be replayed so far: no lie is told in it.
    pub fn can_replay(&self) -> bool
        ensures { result ≡ can_replay self.now }
    {
        self.steps.items().iter().all(|step| is_honest(step))
    }
}
