//! Where messages come from, whatever they are: what a seat heard was pooled for it, what is pooled from a correct seat was sent by its
//! rule, what is shown is released, and a run is the trace of its events.
#![tactic(auto)]

ghost use Rattle.std.specs.Prelude.{◌≡◌, ℕ, List, Bool, true, false, None, Some, Ok};
ghost use Rattle.std.specs.List.{AllByRecursion};
ghost use Rattle.fw_base.specs.declared.seat.Seat.{Seat};
ghost use Rattle.fw_trace.specs.declared.Sent.{Sent};
ghost use Rattle.fw_trace.specs.Trace.{Trace, Rules, Event, trace_of};
ghost use Rattle.fw_trace.specs.Run.{World, Step, run, fault_at, NoLies, Reached};
ghost use Rattle.fw_source.specs.Sources.{AreTruthful, everyone, Traced};
ghost use Rattle.fw_source.specs.Runs.{Carries, ReachedBy, Passes, TellsNoLieOf};
ghost use Rattle.fw_source.specs.Shown.{by_tests, Guards, Allowed, AllAllowed, AllReleased};

/// A run that didn't fail is the trace of events that have no fault, and of events without lies where nobody lies. What each step of
/// its schedule has, each of these events has.
pub fn law_run()
    ensures fair { (w : World ℕ ℕ ℕ ℕ) (steps : List (Step ℕ ℕ)) (t : Trace ℕ ℕ) → run w steps ≡ Ok t → Reached w t }
    ensures honest { (w : World ℕ ℕ ℕ ℕ) → ((lie : ℕ) (pool : List (Sent ℕ)) → w.lie lie pool ≡ None) → (steps : List (Step ℕ ℕ)) (t : Trace ℕ ℕ) → run w steps ≡ Ok t → (events : List (Event ℕ ℕ)) × NoLies events × (t ≡ trace_of w.rules events) }
    ensures each { (w : World ℕ ℕ ℕ ℕ) (q : Step ℕ ℕ → Bool) (p : Event ℕ ℕ → Bool) → Carries w (Passes q) (Passes p) → (steps : List (Step ℕ ℕ)) (t : Trace ℕ ℕ) → AllByRecursion (Passes q) steps → run w steps ≡ Ok t → ReachedBy w (Passes p) t }
{}

/// What a seat heard was pooled for it by the seat that it names. What is pooled from a seat in whose name nobody lies, that seat's rule
/// sent to that addressee: from each seat where nobody lies, and from each correct seat where only faulty seats lie.
pub fn law_source()
    ensures events { (r : Rules ℕ ℕ) (who : Seat → Bool) (events : List (Event ℕ ℕ)) → AreTruthful who events → Traced who r (trace_of r events) }
    ensures honest { (r : Rules ℕ ℕ) (events : List (Event ℕ ℕ)) → NoLies events → Traced everyone r (trace_of r events) }
    ensures steps { (w : World ℕ ℕ ℕ ℕ) (who : Seat → Bool) (steps : List (Step ℕ ℕ)) (t : Trace ℕ ℕ) → AllByRecursion (TellsNoLieOf w who) steps → run w steps ≡ Ok t → Traced who w.rules t }
    ensures runs { (w : World ℕ ℕ ℕ ℕ) → ((lie : ℕ) (pool : List (Sent ℕ)) (s : Sent ℕ) → w.lie lie pool ≡ Some s → w.rules.correct s.from ≡ false) → (steps : List (Step ℕ ℕ)) (t : Trace ℕ ℕ) → run w steps ≡ Ok t → Traced w.rules.correct w.rules t }
{}

/// Where correct seats show only what is released or what they heard, and lies only what is known, all that is shown is released.
pub fn law_shown()
    ensures events { (r : Rules ℕ ℕ) (shows : ℕ → ℕ → Bool) (released : Trace ℕ ℕ → ℕ → Bool) (known : List (Sent ℕ) → ℕ → Bool) → let g = by_tests shows released known in Guards r g → (events : List (Event ℕ ℕ)) → AllAllowed r g events → AllReleased g (trace_of r events) }
    ensures runs { (w : World ℕ ℕ ℕ ℕ) (shows : ℕ → ℕ → Bool) (released : Trace ℕ ℕ → ℕ → Bool) (known : List (Sent ℕ) → ℕ → Bool) (q : Step ℕ ℕ → Bool) (p : Event ℕ ℕ → Bool) → let g = by_tests shows released known in Guards w.rules g → Carries w (Passes q) (Passes p) → ((t : Trace ℕ ℕ) (e : Event ℕ ℕ) → p e ≡ true → fault_at w t e ≡ None → Allowed w.rules g t e) → (steps : List (Step ℕ ℕ)) (t : Trace ℕ ℕ) → AllByRecursion (Passes q) steps → run w steps ≡ Ok t → AllReleased g t }
{}
