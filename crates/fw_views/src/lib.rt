//! What an agreement node's rule begins with; the lemmas and definitions that its laws and the runs computed from it share.
#![tactic(auto)]

ghost use Rattle.std.specs.Prelude.{◌≡◌, []};
ghost use Rattle.fw_frame.specs.View.{Frame};
ghost use Rattle.fw_op.specs.declared.op.Op.{Op};
ghost use Rattle.fw_trace.specs.Role.{kept};
ghost use Rattle.fw_rules.specs.Agree.{Self, new_node};
ghost use Rattle.fw_rules.specs.Views.{agree_role};

/// Before its first input a node has heard and done nothing.
pub fn law_new()
    ensures { (me : Self Frame) → kept (agree_role {O = Op} me) [] ≡ new_node }
{}
