//! The laws of agreement among seats some of which are faulty, over every list of fair events, whatever the faulty seats send.
#![tactic(auto)]

ghost use Rattle.std.specs.Prelude.{◌≡◌};
ghost use Rattle.fw_base.specs.declared.seat.Seat.{Seat};
ghost use Rattle.fw_base.specs.declared.slot.Slot.{Slot};
ghost use Rattle.fw_text.specs.Texts.{Text};
ghost use Rattle.fw_node.specs.Histories.{History};
ghost use Rattle.fw_fair.specs.Hostile.{Hostile};
ghost use Rattle.fw_law_agree.specs.Runs.{Always, InRuns};
ghost use Rattle.fw_law_agree.specs.Signed.{SignedBy};
ghost use Rattle.fw_law_agree.specs.OneSignature.{OneSignature};
ghost use Rattle.fw_law_agree.specs.Genuine.{Genuine};

/// After every history a seat has signed one text at most at a slot. After every list of permitted fair events of a deployment, each
/// place of a correct owner's slot that the liars know, or that a pooled frame shows, is on the side of the one text that the owner
/// signed there; so none is known or shown where the owner signed nothing. That text is among those that the pool keeps. And so after
/// every run of a schedule whose steps come to such events.
pub fn law_one_signature()
    ensures once { (w : Hostile) (seat : Seat) (h : History) (slot : Slot) (one other : Text) → SignedBy w seat h slot one → SignedBy w seat h slot other → one ≡ other }
    ensures always { Always OneSignature }
    ensures runs { InRuns OneSignature }
{}

/// After every list of permitted fair events of a deployment, each signature in a pooled valid frame, at a slot of a correct owner, is on
/// the text that the owner has signed there: whoever sent the frame.
pub fn law_genuine()
    ensures always { Always Genuine }
    ensures runs { InRuns Genuine }
{}
