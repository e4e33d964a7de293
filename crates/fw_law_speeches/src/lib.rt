//! What a filter keeps to whose messages are frames in bytes, without the premises of its laws over any speech, which are shown here.
//! What shares make of a number is what those of that number make, over any means.
//! Replies of a number are told by reading: a message passes the test where it reads as a valid reply of that number. What a deployment
//! of accepted sizes writes as a reply of a number up to its last is read as one of that number, if at all. A share that is read has
//! such a number, so a filter sends the same as one that makes replies of such numbers alone: greater ones could be spelled alike.
//! Each seat stands once at most among those that all replies go to, and what goes up goes to seats above, which no seat below is.
#![tactic(auto)]

ghost use Rattle.std.specs.Prelude.{◌≡◌, ◌+◌, ◌≤◌, ℕ, true, false, List, Some};
ghost use Rattle.fw_base.specs.declared.params.Params.{Params};
ghost use Rattle.fw_base.specs.declared.seat.Seat.{Seat};
ghost use Rattle.fw_base.specs.declared.seat.Seat.TheVariants as seats;
ghost use Rattle.fw_base.specs.Sizes.{accepted};
ghost use Rattle.fw_base.specs.Seats.{above, below};
ghost use Rattle.fw_op.specs.declared.op.Op.{Op};
ghost use Rattle.fw_trace.specs.declared.Input.{Input};
ghost use Rattle.fw_trace.specs.Role.{kept, sends};
ghost use Rattle.fw_trace.specs.Filter.{filter_role};
ghost use Rattle.fw_trace.specs.Lists.{In};
ghost use Rattle.fw_directory.specs.Directories.{PlainDirectory};
ghost use Rattle.fw_hand.specs.Hands.{PlainHand};
ghost use Rattle.fw_rules.specs.Means.{Means};
ghost use Rattle.fw_rules.specs.Roles.{filter_speech};
ghost use Rattle.fw_rules.specs.Deployed.{means_of};
ghost use Rattle.fw_law_filter.specs.Heard.{WasHeard, IsAgreed, CombinesByNumber};
ghost use Rattle.fw_law_filter.specs.Copies.{TellsReplies, copies, agreed_from};
ghost use Rattle.fw_law_speeches.specs.Frames.{is_reply_of, ReadsNumbers, numbered_speech};

/// A number of which the shares that a filter keeps make a reply is held, after every history, for every directory and hand.
/// What shares make depends on those of the number alone.
pub fn law_filter_frames()
    ensures by_number { (k : Means ℕ) (r c : ℕ) → CombinesByNumber (filter_speech k r c) }
    ensures made { (d : PlainDirectory) (hand : PlainHand) (r c : ℕ) (h : List (Input (List ℕ) Op)) (n : ℕ) (reply : List ℕ) → (filter_speech (means_of d hand) r c).combined n (kept (filter_role (filter_speech (means_of d hand) r c)) h).shares ≡ Some reply → (held : List ℕ) × In (n, held) (kept (filter_role (filter_speech (means_of d hand) r c)) h).held }
{}

/// To a seat that isn't above it, so to each seat below, a filter sends at most one copy more of what reads as a reply of a number than
/// agreed frames of the number came from that seat, and none where no agreed frame of the number was heard: after every history, for
/// every directory of accepted sizes and every hand.
/// These means read the numbers that they write; over any that do, the test tells the replies of a number, of a speech that makes
/// replies of numbers of the list alone, and with it the filter sends the same as with its own.
pub fn law_copies_frames()
    ensures reads { (d : PlainDirectory) (hand : PlainHand) → accepted d.params ≡ true → ReadsNumbers (means_of d hand) }
    ensures tells { (k : Means ℕ) → ReadsNumbers k → (r c n : ℕ) → TellsReplies (numbered_speech k r c) n (is_reply_of k n) }
    ensures acts { (k : Means ℕ) → ReadsNumbers k → (r c : ℕ) (h : List (Input ℕ Op)) → sends (filter_role (numbered_speech k r c)) h ≡ sends (filter_role (filter_speech k r c)) h }
    ensures apart { (p : Params) (r c : ℕ) (seat : Seat) → below (seats.Filter r c) seat ≡ true → above p (seats.Filter r c) seat ≡ false }
    ensures few { (d : PlainDirectory) (hand : PlainHand) → accepted d.params ≡ true → (r c n : ℕ) (seat : Seat) → above d.params (seats.Filter r c) seat ≡ false → (h : List (Input (List ℕ) Op)) → copies (sends (filter_role (filter_speech (means_of d hand) r c))) (is_reply_of (means_of d hand) n) seat h ≤ 1 + agreed_from (filter_speech (means_of d hand) r c) seat n h }
    ensures none { (d : PlainDirectory) (hand : PlainHand) → accepted d.params ≡ true → (r c n : ℕ) (seat : Seat) → above d.params (seats.Filter r c) seat ≡ false → (h : List (Input (List ℕ) Op)) → (WasHeard (IsAgreed (filter_speech (means_of d hand) r c) n) h → ⊥) → copies (sends (filter_role (filter_speech (means_of d hand) r c))) (is_reply_of (means_of d hand) n) seat h ≡ 0 }
{}
