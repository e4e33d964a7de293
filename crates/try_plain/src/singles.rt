//! Steps that are one event each.

ghost use Rattle.std.specs.Prelude.{[], IfOk, OnOk, IsTrue};
ghost use Rattle.std.specs.List.{list_all};
ghost use Rattle.fw_base.specs.declared.params.Params.{Params};
ghost use Rattle.fw_step.specs.Fitting.{is_honest, step_fits};

use fw_list::Memory;
use fw_sched::StepList;
use fw_step::Step;
use std::alloc::Global;

/// Adds so many deliveries of the oldest frame that is due.
fn push_flushes(singles: &mut StepList, most: u32) -> Result<(), Memory>
    ensures fit { OnOk result ((p : Params) → IsTrue (list_all (step_fits p []) singles.old) → IsTrue (list_all (step_fits p []) singles.new)) }
    ensures honest { OnOk result (IsTrue (list_all is_honest singles.old) → IsTrue (list_all is_honest singles.new)) }
{
    for _ in 0..most {
        singles.push(Step::Flush { most: 1 })?;
    }
    Ok(())
}

/// Adds the single steps of a step. Where nobody is faulty, nobody lies.
fn push_singles(alloc: Global, singles: &mut StepList, step: &Step) -> Result<(), Memory>
    ensures honest { OnOk result (IsTrue (list_all is_honest singles.old) → IsTrue (list_all is_honest singles.new)) }
    ensures fit { OnOk result ((p : Params) → IsTrue (step_fits p [] step.now) → IsTrue (list_all (step_fits p []) singles.old) → IsTrue (list_all (step_fits p []) singles.new)) }
{
    match step {
        Step::Submit { client, op } => singles.push(Step::Submit {
            client: *client,
            op: op.copy(alloc)?,
        }),
        Step::Deliver { frame } => singles.push(Step::Deliver { frame: *frame }),
        Step::Flush { most } => push_flushes(singles, *most),
        Step::Tick { seat } => singles.push(Step::Tick { seat: *seat }),
        Step::Lie { .. } => Ok(()),
    }
}

/// The same schedule in steps of at most one event each: a flush is as many deliveries of the oldest frame that is due.
pub fn singles_of(alloc: Global, steps: &[Step]) -> Result<StepList, Memory>
    ensures honest { IfOk result (λ singles. IsTrue (list_all is_honest singles)) }
    ensures fit { IfOk result (λ singles. (p : Params) → IsTrue (list_all (step_fits p []) steps.now) → IsTrue (list_all (step_fits p []) singles)) }
{
    let mut singles = StepList::new(alloc);
    for step in steps {
        push_singles(alloc, &mut singles, step)?;
    }
    Ok(singles)
}
