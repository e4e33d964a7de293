//! The rules of the four roles over frames, the world of a deployment's seats, and what a trace has agreed, accepted and let
//! down: definitions, and one law.
#![tactic(auto)]

ghost use Rattle.std.specs.Prelude.{◌≡◌, []};
ghost use Rattle.fw_trace.specs.Trace.{nothing};
ghost use Rattle.fw_rules.specs.World.{Deployed, trace_after};

mod limits;

pub use limits::{MOST_BYTES, MOST_FRAMES, Which};

/// Before the first event nothing was sent or taken.
pub fn law_nothing()
    ensures { (d : Deployed) → trace_after d [] ≡ nothing }
{}
