//! One digest for each number across all views: laws on what agreement nodes have done, where at most f of them are faulty and the
//! others keep to the rules.
#![tactic(auto)]

ghost use Rattle.std.specs.Prelude.{◌≡◌, ◌<◌, ℕ, List, false};
ghost use Rattle.fw_safety.specs.Deeds.{Deeds, KeepsRules, ListedChange, VotesToPrepare, IsCommitted, IsNewView, IsKept, all_proofs};

/// Two quorums of commit votes at one number are for one digest, whatever their views.
pub fn law_one_digest()
    ensures { (w : Deeds) (first second number : ℕ) (one other : List ℕ) → KeepsRules w → IsCommitted w first number one → IsCommitted w second number other → one ≡ other }
{}

/// Where a quorum has voted to commit a digest at a number, each new view of a later view has a proof of the number, and that digest
/// alone as its choice; and each prepare vote of a correct node at the number in a later view is for that digest.
pub fn law_choice_kept()
    ensures new_views { (w : Deeds) (view later number : ℕ) (digest : List ℕ) (changes : List ListedChange) → KeepsRules w → IsCommitted w view number digest → view < later → IsNewView w later changes → IsKept number digest (all_proofs changes) }
    ensures votes { (w : Deeds) (view later number node : ℕ) (digest other : List ℕ) → KeepsRules w → IsCommitted w view number digest → view < later → w.faulty node ≡ false → VotesToPrepare w later number other node → other ≡ digest }
{}
