//! What a filter keeps to after every history, whatever its messages, operations and values are.
#![tactic(auto)]

ghost use Rattle.std.specs.Prelude.{◌≡◌, ◌+◌, ◌≤◌, ◌↔◌, ◌⊎◌, ℕ, Bool, true, List, ◌∷◌, ◌++◌, Some};
ghost use Rattle.fw_base.specs.declared.seat.Seat.{Seat};
ghost use Rattle.fw_trace.specs.declared.Input.{Input};
ghost use Rattle.fw_trace.specs.declared.Share.{Share};
ghost use Rattle.fw_trace.specs.Role.{kept, sends};
ghost use Rattle.fw_trace.specs.Filter.{Speech, has_share, filter_role};
ghost use Rattle.fw_trace.specs.Lists.{In};
ghost use Rattle.fw_source.specs.Sources.{EverSent};
ghost use Rattle.fw_law_filter.specs.Heard.{HeardNow, WasHeard, IsAgreed, IsAgreedBy, IsReply, IsThisReply, IsShare, WasMade, AreApart, AreOnce, CombinesByNumber};
ghost use Rattle.fw_law_filter.specs.Passed.{GoesUp, GoesDown, IsOwed, WentUp};
ghost use Rattle.fw_law_filter.specs.Copies.{TellsReplies, copies, agreed_from, times_in};

/// After every history of a filter, whose newest input stands first:
/// it remembers exactly the agreed frames that it heard, each with its seat;
/// each kept share was heard, no two are of one number by one executor, and one like each that was heard is kept;
/// each held reply was heard from above, or was made of the shares that were kept at that moment, no number has two, each number
/// that was heard in a reply has one, and what is held stays;
/// all that it sends is an agreed frame, upwards as it was heard, or a held reply of a number of which an agreed frame was heard;
/// each reply that is held was sent to each seat that it is owed to, so to each seat below that asked for it;
/// a number that was asked for is held, or an agreed frame of it was sent to each seat above;
/// and a number of which the kept shares make a reply is held, where that depends on the number's shares alone.
pub fn law_filter()
    ensures asked { (sp : Speech ℕ ℕ) (h : List (Input ℕ ℕ)) (seat : Seat) (n : ℕ) → In (seat, n) (kept (filter_role sp) h).asked ↔ WasHeard (IsAgreedBy sp seat n) h }
    ensures shares_heard { (sp : Speech ℕ ℕ) (h : List (Input ℕ ℕ)) (s : Share ℕ) → In s (kept (filter_role sp) h).shares → WasHeard (IsShare sp s) h }
    ensures shares_apart { (sp : Speech ℕ ℕ) (h : List (Input ℕ ℕ)) → AreApart (kept (filter_role sp) h).shares }
    ensures shares_kept { (sp : Speech ℕ ℕ) (h : List (Input ℕ ℕ)) (s : Share ℕ) → WasHeard (IsShare sp s) h → has_share (kept (filter_role sp) h).shares s.number s.exec ≡ true }
    ensures held_comes { (sp : Speech ℕ ℕ) (h : List (Input ℕ ℕ)) (n reply : ℕ) → In (n, reply) (kept (filter_role sp) h).held → WasHeard (IsThisReply sp n reply) h ⊎ WasMade sp n reply h }
    ensures held_once { (sp : Speech ℕ ℕ) (h : List (Input ℕ ℕ)) → AreOnce (kept (filter_role sp) h).held }
    ensures held { (sp : Speech ℕ ℕ) (h : List (Input ℕ ℕ)) (n : ℕ) → WasHeard (IsReply sp n) h → (reply : ℕ) × In (n, reply) (kept (filter_role sp) h).held }
    ensures held_stays { (sp : Speech ℕ ℕ) (later h : List (Input ℕ ℕ)) (n reply : ℕ) → In (n, reply) (kept (filter_role sp) h).held → In (n, reply) (kept (filter_role sp) (later ++ h)).held }
    ensures sends { (sp : Speech ℕ ℕ) (i : Input ℕ ℕ) (h : List (Input ℕ ℕ)) (o : Seat × ℕ) → In o (sends (filter_role sp) (i ∷ h)) → HeardNow (GoesUp sp (kept (filter_role sp) h) o) i ⊎ GoesDown sp i h o }
    ensures owed { (sp : Speech ℕ ℕ) (h : List (Input ℕ ℕ)) (n reply : ℕ) (seat : Seat) → In (n, reply) (kept (filter_role sp) h).held → IsOwed sp n seat h → EverSent (sends (filter_role sp)) h (seat, reply) }
    ensures answered { (sp : Speech ℕ ℕ) (h : List (Input ℕ ℕ)) (n reply : ℕ) (seat : Seat) → In (n, reply) (kept (filter_role sp) h).held → In seat sp.downs → In (seat, n) (kept (filter_role sp) h).asked → EverSent (sends (filter_role sp)) h (seat, reply) }
    ensures went_up { (sp : Speech ℕ ℕ) (h : List (Input ℕ ℕ)) (n : ℕ) → WasHeard (IsAgreed sp n) h → ((reply : ℕ) × In (n, reply) (kept (filter_role sp) h).held) ⊎ WentUp sp n h }
    ensures made { (sp : Speech ℕ ℕ) → CombinesByNumber sp → (h : List (Input ℕ ℕ)) (n reply : ℕ) → sp.combined n (kept (filter_role sp) h).shares ≡ Some reply → (held : ℕ) × In (n, held) (kept (filter_role sp) h).held }
{}

/// To a seat that nothing is sent up to, a filter sends at most as many copies of replies of a number as agreed frames of the number
/// came from the seat, and one more where it stands once among those that all replies go to; and none where no agreed frame of the
/// number was heard.
/// Replies of the number are told by any test that no other reply passes.
pub fn law_copies()
    ensures few { (sp : Speech ℕ ℕ) (n : ℕ) (test : ℕ → Bool) → TellsReplies sp n test → (seat : Seat) → (In seat sp.ups → ⊥) → (h : List (Input ℕ ℕ)) → copies (sends (filter_role sp)) test seat h ≤ times_in seat sp.downs + agreed_from sp seat n h }
    ensures none { (sp : Speech ℕ ℕ) (n : ℕ) (test : ℕ → Bool) → TellsReplies sp n test → (seat : Seat) → (In seat sp.ups → ⊥) → (h : List (Input ℕ ℕ)) → (WasHeard (IsAgreed sp n) h → ⊥) → copies (sends (filter_role sp)) test seat h ≡ 0 }
{}
