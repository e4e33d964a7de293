//! A deployment with faulty seats: what the bytes of a frame show, what liars know of it, which texts a run keeps, and why a run fails.
//! Definitions, and one law.
#![tactic(auto)]

ghost use Rattle.std.specs.Prelude.{◌≡◌, [], None};
ghost use Rattle.fw_directory.specs.Directories.{PlainDirectory};
ghost use Rattle.fw_know.specs.Books.{clash};
ghost use Rattle.fw_fair.specs.Faults.{kept};
ghost use Rattle.fw_secret.specs.Dealt.{Origin};

mod fault;

pub use fault::Fault;

/// Before the first event no texts are kept, and so none clash.
pub fn law_nothing_kept()
    ensures { (o : Origin) (d : PlainDirectory) → clash (kept o d []) ≡ None }
{}
