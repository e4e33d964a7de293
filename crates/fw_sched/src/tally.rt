//! Counts of the submissions to each client, so that no step is looked at twice.

ghost use Rattle.std.specs.Prelude.{◌≡◌, ◌≤◌, ◌<◌, ◌+◌, ◌^◌, ◌++◌, ◌∷◌, ℕ, List, [], length, slice_index, IsTrue};
ghost use Rattle.fw_base.specs.declared.params.Params.{Params};
ghost use Rattle.fw_step.specs.declared.step.Step.{Step};
ghost use Rattle.fw_sched.specs.Document.{is_free};
ghost use Rattle.fw_sched.specs.Stages.{AreCounts, has_counter};

use crate::Step;
use fw_base::Params;

/// Whether the step is no submission too many, by the counts of those before it.
pub(crate) fn is_free(params: &Params, counts: &[u32; 8], step: &Step) -> bool
    requires { IsTrue (has_counter step.now) }
    ensures { (before : List Step) → AreCounts counts.now before → result ≡ is_free params.now before step.now }
{
    match step {
        Step::Submit { client, .. } => counts[*client as usize] < params.stamps,
        _ => true,
    }
}

/// Counts one step more.
pub(crate) fn count(counts: &mut [u32; 8], step: &Step)
    requires counter { IsTrue (has_counter step.now) }
    requires eight { length counts.old ≡ 8 }
    requires room { (c : ℕ) → c < 8 → slice_index counts.old c < 2 ^ 31 }
    ensures counts { (before : List Step) → AreCounts counts.old before → AreCounts counts.new (before ++ step.now ∷ []) }
    ensures eight { length counts.new ≡ 8 }
    ensures few { (c : ℕ) → c < 8 → slice_index counts.new c ≤ slice_index counts.old c + 1 }
{
    if let Step::Submit { client, .. } = step {
        counts[*client as usize] += 1;
    }
}
