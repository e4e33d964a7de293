//! Why a run ended early.

use fw_list::Memory;
use fw_rules::Which;

/// Why a run ended early.
#[derive(Clone, Copy, Debug, PartialEq, Eq)]
pub enum RunFault {
    /// At this step, from 0, too much would have been sent.
    Limit { step: u32, which: Which },
    Memory,
}

impl From<Memory> for RunFault {
    ghost use Rattle.std.specs.Prelude.{◌≡◌};
    ghost use Rattle.fw_grid.specs.declared.fault.RunFault.TheVariants as error;

    ghost from_gives = { λ _ e. e ≡ error.Memory };

    fn from(_: Memory) -> Self {
        RunFault::Memory
    }
}
