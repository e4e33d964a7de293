//! Every frame that an agreement node's rule sends can be sent: it goes to a seat of the deployment, and has a byte at least, and at most
//! as many as the longest frame. Lemmas over definitions, and a law that says it.
#![tactic(auto)]

ghost use Rattle.std.specs.Prelude.{◌≡◌, ℕ, IsTrue};
ghost use Rattle.fw_base.specs.declared.params.Params.{Params};
ghost use Rattle.fw_base.specs.Sizes.{accepted};
ghost use Rattle.fw_directory.specs.Directories.{PlainDirectory};
ghost use Rattle.fw_hand.specs.Hands.{PlainHand};
ghost use Rattle.fw_node.specs.Histories.{History, AreSendable};
ghost use Rattle.fw_sendable.specs.Rule.{agree_rule};

/// Each frame that an agreement node's rule sends can be sent, and goes to a seat of the deployment, view changes, new views, and what a
/// tick sends again among them: whatever its hand has, and whatever its history is.
pub fn law_agree_sends()
    ensures { (p : Params) (i : ℕ) (hand : PlainHand) (d : PlainDirectory) (h : History) → IsTrue (accepted p) → d.params ≡ p → AreSendable p (agree_rule i hand d h) }
{}
