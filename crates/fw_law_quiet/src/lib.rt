//! After every history an agreement node is quiet: no pass has anything left to choose.
#![tactic(auto)]

ghost use Rattle.std.specs.Prelude.{ℕ, List};
ghost use Rattle.fw_trace.specs.declared.Input.{Input};
ghost use Rattle.fw_rules.specs.Agree.{Self as Me};
ghost use Rattle.fw_law_node.specs.Once.{node_after};
ghost use Rattle.fw_law_quiet.specs.Quiet.{IsQuiet};

/// The passes that follow an input leave nothing to choose to a second round of them.
pub fn law_quiet()
    ensures quiet { (me : Me ℕ) (h : List (Input ℕ ℕ)) → IsQuiet me (node_after me h) }
{}
