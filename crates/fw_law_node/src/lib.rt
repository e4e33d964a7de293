//! What an agreement node's rule keeps to after every history, whatever its messages are and whatever it hears.
#![tactic(auto)]

ghost use Rattle.std.specs.Prelude.{◌≡◌, ◌<◌, ℕ, List};
ghost use Rattle.fw_base.specs.declared.seat.Seat.{Seat};
ghost use Rattle.fw_base.specs.declared.slot.Slot.{Slot};
ghost use Rattle.fw_text.specs.Texts.{Text};
ghost use Rattle.fw_trace.specs.declared.Input.{Input};
ghost use Rattle.fw_trace.specs.Lists.{In};
ghost use Rattle.fw_trace.specs.Role.{sends};
ghost use Rattle.fw_rules.specs.Agree.{Self as Me};
ghost use Rattle.fw_rules.specs.Views.{agree_role};
ghost use Rattle.fw_law_node.specs.Once.{DidOnce, node_after, own_after};
ghost use Rattle.fw_law_node.specs.Facts.{KeepsTo};
ghost use Rattle.fw_law_node.specs.Ranges.{InRange};
ghost use Rattle.fw_law_node.specs.Begun.{AreBegun, AreCommitted};
ghost use Rattle.fw_law_node.specs.Remembered.{WasAdmitted, Remembers};
ghost use Rattle.fw_law_node.specs.Sent.{IsSent};
ghost use Rattle.fw_law_node.specs.Sources.{Names, IsSourced};

/// After every history a node has signed once at most at each place, its votes, view changes and new views have to do with one
/// another, and all of it is in range. What it remembers it has heard, each new view that it adopted it has heard or made, and it
/// commits each number once. What it sends is of what it did, of what it has committed, or a reply that it holds. Each signature
/// that it sends it made itself, on the one text at its slot that what it did names, or it stood in a frame that it heard.
pub fn law_node()
    ensures once { (me : Me ℕ) (h : List (Input ℕ ℕ)) → DidOnce (own_after me h) }
    ensures keeps { (me : Me ℕ) (h : List (Input ℕ ℕ)) → KeepsTo me.means.params me.means.hash (own_after me h) }
    ensures ranges { (me : Me ℕ) (h : List (Input ℕ ℕ)) → 0 < me.means.params.views → InRange me.means.params me.own (own_after me h) }
    ensures begun { (me : Me ℕ) (h : List (Input ℕ ℕ)) → AreBegun me.means.params me.own (node_after me h) }
    ensures committed { (me : Me ℕ) (h : List (Input ℕ ℕ)) → AreCommitted me.means.params (node_after me h).committed }
    ensures sources { (me : Me ℕ) (h : List (Input ℕ ℕ)) (o : Seat × ℕ) → In o (sends (agree_role me) h) → IsSourced me h o.1 }
    ensures texts { (me : Me ℕ) (h : List (Input ℕ ℕ)) (slot : Slot) (s t : Text) → Names me (own_after me h) slot s → Names me (own_after me h) slot t → s ≡ t }
    ensures remembered { (me : Me ℕ) (h : List (Input ℕ ℕ)) → Remembers (WasAdmitted me h) (node_after me h).heard }
    ensures sent { (me : Me ℕ) (h : List (Input ℕ ℕ)) (o : Seat × ℕ) → In o (sends (agree_role me) h) → IsSent me (node_after me h) o.1 }
{}
