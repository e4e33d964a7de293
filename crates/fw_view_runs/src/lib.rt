//! Whole runs of all four roles with view changes, computed from the definitions alone: what each has to come to.
#![tactic(auto)]

ghost use Rattle.std.specs.Prelude.{◌≡◌, [], ◌∷◌};
ghost use Rattle.fw_base.specs.declared.seat.Seat.TheVariants.{Agree};
ghost use Rattle.fw_rules.specs.Rows.{deployment};
ghost use Rattle.fw_view_runs.specs.Whole.{correct_nodes};

/// Of four agreement nodes, the first of them faulty, the other three are correct.
pub fn law_correct()
    ensures { correct_nodes (deployment 1 0 0) (Agree 0 ∷ []) ≡ 1 ∷ 2 ∷ 3 ∷ [] }
{}
