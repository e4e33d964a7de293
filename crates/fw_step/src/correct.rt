//! Which seats are faulty and which correct, and which steps are lies.

ghost use Rattle.std.specs.Prelude.{◌≡◌, IsTrue};
ghost use Rattle.fw_base.specs.Sizes.{accepted};
ghost use Rattle.fw_step.specs.Fitting.{is_faulty, is_correct, is_honest};

use crate::Step;
use fw_base::{Params, Seat};

/// Whether a seat is one of those that are faulty.
pub fn is_faulty(faulty: &[Seat], seat: Seat) -> bool
    ensures { result ≡ is_faulty faulty.now seat }
{
    faulty.iter().any(|other| seat.is(*other))
}

/// Whether it is one of the deployment that isn't faulty.
pub fn is_correct(params: &Params, faulty: &[Seat], seat: Seat) -> bool
    requires { IsTrue (accepted params.now) }
    ensures { result ≡ is_correct params.now faulty.now seat }
{
    seat.fits(params) && !is_faulty(faulty, seat)
}

/// Whether a step is no lie.
pub fn is_honest(step: &Step) -> bool
    ensures { result ≡ is_honest step.now }
{
    !matches!(step, Step::Lie { .. })
}
