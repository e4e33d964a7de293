//! Enough seats of a kind have a correct one among them: laws of counting, for every number of faults that a deployment bears and
//! every test that says which seats are faulty.
#![tactic(auto)]

ghost use Rattle.std.specs.Prelude.{ℕ, ◌+◌, Bool, List};
ghost use Rattle.fw_base.specs.declared.params.Params.{Params};
ghost use Rattle.fw_base.specs.Sizes.{executors};
ghost use Rattle.fw_quorum.specs.Quorum.{FewNodesFaulty, FewExecutorsFaulty, FewFiltersFaulty, IsQuorum, IsGroup, HasCorrect, SharesCorrect, HasCorrectRow};

/// Where at most f of the 3f + 1 agreement nodes are faulty, two lists of 2f + 1 distinct ones share one that isn't.
pub fn law_quorums()
    ensures { (p : Params) (faulty : ℕ → Bool) (xs ys : List ℕ) → FewNodesFaulty p faulty → IsQuorum p xs → IsQuorum p ys → SharesCorrect faulty xs ys }
{}

/// Where at most g of the 2g + 1 executors are faulty, one of g + 1 distinct ones isn't.
pub fn law_one_correct()
    ensures { (p : Params) (faulty : ℕ → Bool) (members : List ℕ) → FewExecutorsFaulty p faulty → IsGroup (executors p) (p.g + 1) members → HasCorrect faulty members }
{}

/// Where at most h filters of h + 1 rows of h + 1 filters each are faulty, one row has no faulty filter.
pub fn law_correct_row()
    ensures { (p : Params) (faulty : ℕ → ℕ → Bool) → FewFiltersFaulty p faulty → HasCorrectRow p faulty }
{}
