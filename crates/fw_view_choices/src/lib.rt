//! Whole runs in which a new view has to choose between proofs of one number, computed from the definitions alone.
#![tactic(auto)]

ghost use Rattle.std.specs.Prelude.{◌≡◌, List, Ok};
ghost use Rattle.fw_base.specs.declared.seat.Seat.{Seat};
ghost use Rattle.fw_op.specs.declared.op.Op.{Op};
ghost use Rattle.fw_op.specs.declared.start.Start.{Start};
ghost use Rattle.fw_trace.specs.Run.{Step};
ghost use Rattle.fw_trace.specs.Run as rules;
ghost use Rattle.fw_frame.specs.View.{Frame};
ghost use Rattle.fw_rules.specs.Means.{Means};
ghost use Rattle.fw_rules.specs.Toy.{Lie};
ghost use Rattle.fw_view_runs.specs.Whole.{toy_world};
ghost use Rattle.fw_view_choices.specs.Carried.{run};
ghost use Rattle.fw_view_choices.specs.Seats.{role_at};

/// Whatever the schedule, the run that carries what each seat keeps leads to the trace of the run by the rules, which fold histories.
pub fn law_carried()
    ensures { (k : Means Frame) (starts : List Start) (faulty : List Seat) (steps : List (Step Op Lie)) → rules.run (toy_world k starts faulty) steps ≡ Ok (run (toy_world k starts faulty) (role_at k starts) steps).trace }
{}
