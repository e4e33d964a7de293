//! What a client keeps to after every history, whatever its messages, operations and replies are.
#![tactic(auto)]

ghost use Rattle.std.specs.Prelude.{◌≡◌, ◌+◌, ◌-◌, ◌↔◌, ℕ, true, false, cond, List, [], ◌++◌, Some, map, reverse, length, take, slice_get};
ghost use Rattle.fw_list.specs.Lists.{numbers_from};
ghost use Rattle.fw_base.specs.declared.seat.Seat.{Seat};
ghost use Rattle.fw_trace.specs.declared.Input.{Input};
ghost use Rattle.fw_trace.specs.declared.Told.{Told};
ghost use Rattle.fw_trace.specs.Role.{kept, sends};
ghost use Rattle.fw_trace.specs.Client.{Speech, stamp, client_role};
ghost use Rattle.fw_trace.specs.Lists.{In};
ghost use Rattle.fw_source.specs.Sources.{EverSent};
ghost use Rattle.fw_law_client.specs.Asking.{submitted, took, IsAsked, IsOpen, IsAnswered, stamp_told, WasAnswered, WasToldAsked, IsRequestOf};

/// After every history of a client, whose newest input stands first:
/// what it has taken are the first submissions, as many as it takes, and the request of stamp s is the s-th of them;
/// nothing waits where no stamp is pending, so all that it takes is answered then; all that was asked is answered but for the stamp
/// that is pending, which is the last;
/// what it accepted was told it under the stamp that was pending then, and whatever was told it so is accepted;
/// the accepted stamps are 1, 2, .. in order, and a stamp that was told after it was asked is answered;
/// what was asked and accepted stays in longer histories;
/// what it ever sent is the request of a stamp that it asked, to a seat that requests go to, and each such request was sent to each such seat.
pub fn law_client()
    ensures taken { (sp : Speech ℕ ℕ ℕ) (h : List (Input ℕ ℕ)) → took (kept (client_role sp) h) ≡ take sp.most (submitted h) }
    ensures asked { (sp : Speech ℕ ℕ ℕ) (h : List (Input ℕ ℕ)) (s op : ℕ) → IsAsked (kept (client_role sp) h) s op → slice_get (submitted h) (s - 1) ≡ Some op }
    ensures waits { (sp : Speech ℕ ℕ ℕ) (h : List (Input ℕ ℕ)) → (kept (client_role sp) h).pending ≡ false → (kept (client_role sp) h).waiting ≡ [] }
    ensures count { (sp : Speech ℕ ℕ ℕ) (h : List (Input ℕ ℕ)) → length (kept (client_role sp) h).asked ≡ length (kept (client_role sp) h).accepted + cond (kept (client_role sp) h).pending 1 0 }
    ensures all { (sp : Speech ℕ ℕ ℕ) (h : List (Input ℕ ℕ)) → (kept (client_role sp) h).pending ≡ false → length (kept (client_role sp) h).accepted ≡ length (take sp.most (submitted h)) }
    ensures pending { (sp : Speech ℕ ℕ ℕ) (h : List (Input ℕ ℕ)) (s : ℕ) → IsOpen (kept (client_role sp) h) s ↔ ((kept (client_role sp) h).pending ≡ true) × (s ≡ stamp (kept (client_role sp) h)) }
    ensures accepted { (sp : Speech ℕ ℕ ℕ) (h : List (Input ℕ ℕ)) (t : Told ℕ) → In t (kept (client_role sp) h).accepted ↔ WasAnswered sp h t }
    ensures stamps { (sp : Speech ℕ ℕ ℕ) (h : List (Input ℕ ℕ)) → map stamp_told (reverse (kept (client_role sp) h).accepted) ≡ numbers_from 1 (length (kept (client_role sp) h).accepted) }
    ensures answered { (sp : Speech ℕ ℕ ℕ) (h : List (Input ℕ ℕ)) (t : Told ℕ) → WasToldAsked sp h t → IsAnswered (kept (client_role sp) h) t.stamp }
    ensures asked_stays { (sp : Speech ℕ ℕ ℕ) (later h : List (Input ℕ ℕ)) (s op : ℕ) → IsAsked (kept (client_role sp) h) s op → IsAsked (kept (client_role sp) (later ++ h)) s op }
    ensures accepted_stays { (sp : Speech ℕ ℕ ℕ) (later h : List (Input ℕ ℕ)) (t : Told ℕ) → In t (kept (client_role sp) h).accepted → In t (kept (client_role sp) (later ++ h)).accepted }
    ensures sent { (sp : Speech ℕ ℕ ℕ) (h : List (Input ℕ ℕ)) (o : Seat × ℕ) → EverSent (sends (client_role sp)) h o ↔ IsRequestOf sp (kept (client_role sp) h) o }
{}
