//! What an executor's rule keeps to after every history of inputs, whatever its messages, entries, answers and states are.
//!
//! The law speaks of numbers in their place; the lemmas in `proofs/` that it cites speak of any.
#![tactic(auto)]

ghost use Rattle.std.specs.Prelude.{◌+◌, ◌≡◌, ◌≤◌, ◌++◌, ◌∷◌, ℕ, true, List, Some};
ghost use Rattle.fw_base.specs.declared.seat.Seat.{Seat};
ghost use Rattle.fw_trace.specs.declared.Input.{Input};
ghost use Rattle.fw_trace.specs.declared.Input.TheVariants.{Heard, Tick};
ghost use Rattle.fw_trace.specs.Lists.{In};
ghost use Rattle.fw_trace.specs.Executor.{Speech, entry_of, frame_of, keeps_above};
ghost use Rattle.fw_source.specs.Sources.{AllHeard};
ghost use Rattle.fw_law_exec.specs.Executed.{state_of, HasSent, share_at, Executes, Waits, OnePerNumber, KeepsFirst, WasHeard, Asked, Remembered, Stays, SendsOnly};

/// After every history of inputs, the newest first:
///
/// 1 to `done` are kept and executed in order, each once, and the next number isn't kept. The first agreed frame of each number that
/// was heard is kept, and no other; each filter that sent one is noted, and no other seat. What is kept, noted and executed stays.
/// The share of each executed number was sent to each filter of the row, and again to a filter that sent the number's frame again;
/// each want of a kept number was answered by the frame; each tick where a number was missing below a kept one asked for it. Nothing else
/// was sent than such shares, frames and wants.
pub fn law_executor()
    ensures executes { (sp : Speech ℕ ℕ ℕ ℕ) (h : List (Input ℕ ℕ)) → Executes sp (state_of sp h) }
    ensures waits { (sp : Speech ℕ ℕ ℕ ℕ) (h : List (Input ℕ ℕ)) → Waits (state_of sp h) }
    ensures keeps_one { (sp : Speech ℕ ℕ ℕ ℕ) (h : List (Input ℕ ℕ)) → OnePerNumber (state_of sp h).kept }
    ensures keeps_first { (sp : Speech ℕ ℕ ℕ ℕ) (h : List (Input ℕ ℕ)) (n : ℕ) → KeepsFirst sp h (state_of sp h) n }
    ensures heard { (sp : Speech ℕ ℕ ℕ ℕ) (h : List (Input ℕ ℕ)) (k : ℕ × ℕ × ℕ) → In k (state_of sp h).kept → WasHeard sp h k }
    ensures asked { (sp : Speech ℕ ℕ ℕ ℕ) (h : List (Input ℕ ℕ)) (f : Seat × ℕ) → In f (state_of sp h).from → Asked sp h f }
    ensures remembers { (sp : Speech ℕ ℕ ℕ ℕ) (h : List (Input ℕ ℕ)) → AllHeard (Remembered sp (state_of sp h)) h }
    ensures stays { (sp : Speech ℕ ℕ ℕ ℕ) (more h : List (Input ℕ ℕ)) → Stays (state_of sp h) (state_of sp (more ++ h)) }
    ensures shares { (sp : Speech ℕ ℕ ℕ ℕ) (h : List (Input ℕ ℕ)) (n m : ℕ) (seat : Seat) → n ≤ (state_of sp h).done → share_at sp (entry_of (state_of sp h).kept) n ≡ Some m → In seat sp.filters → HasSent sp h (seat, m) }
    ensures wants { (sp : Speech ℕ ℕ ℕ ℕ) (more h : List (Input ℕ ℕ)) (from : Seat) (m frame n : ℕ) → sp.wanted from m ≡ Some n → frame_of (state_of sp h).kept n ≡ Some frame → HasSent sp (more ++ Heard from m ∷ h) (from, frame) }
    ensures asks { (sp : Speech ℕ ℕ ℕ ℕ) (more h : List (Input ℕ ℕ)) (seat : Seat) → keeps_above (state_of sp h).kept ((state_of sp h).done + 1) ≡ true → In seat sp.others → HasSent sp (more ++ Tick ∷ h) (seat, sp.want ((state_of sp h).done + 1)) }
    ensures again { (sp : Speech ℕ ℕ ℕ ℕ) (more h : List (Input ℕ ℕ)) (from : Seat) (m share n e : ℕ) → sp.agreed from m ≡ Some (n, e) → sp.is_filter from ≡ true → In (from, n) (state_of sp h).from → n ≤ (state_of sp h).done → share_at sp (entry_of (state_of sp h).kept) n ≡ Some share → HasSent sp (more ++ Heard from m ∷ h) (from, share) }
    ensures sends { (sp : Speech ℕ ℕ ℕ ℕ) (h : List (Input ℕ ℕ)) (o : Seat × ℕ) → HasSent sp h o → SendsOnly sp h (state_of sp h) o }
{}
