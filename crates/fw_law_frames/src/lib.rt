//! What a correct seat sends is a frame of the deployment, with all its fields in range, so that reading its bytes gives it back: for
//! every history, whatever it hears. Where its signatures and shares come from is said of that same frame.
#![tactic(auto)]

ghost use Rattle.std.specs.Prelude.{◌<◌, ◌⊎◌, ℕ, List, IsTrue};
ghost use Rattle.fw_base.specs.declared.seat.Seat.{Seat};
ghost use Rattle.fw_base.specs.declared.seat.Seat.TheVariants as seats;
ghost use Rattle.fw_base.specs.Seats.{fits};
ghost use Rattle.fw_base.specs.Sizes.{accepted, agreements, executors};
ghost use Rattle.fw_op.specs.declared.op.Op.{Op};
ghost use Rattle.fw_op.specs.declared.start.Start.{Start};
ghost use Rattle.fw_record.specs.Records.{starts_fit};
ghost use Rattle.fw_trace.specs.declared.Input.{Input};
ghost use Rattle.fw_trace.specs.Lists.{In};
ghost use Rattle.fw_trace.specs.Role.{sends};
ghost use Rattle.fw_trace.specs.Client.{client_role};
ghost use Rattle.fw_trace.specs.Executor.{executor_role};
ghost use Rattle.fw_trace.specs.Filter.{filter_role};
ghost use Rattle.fw_frame.specs.View.{Reply, Replies};
ghost use Rattle.fw_directory.specs.Directories.{PlainDirectory};
ghost use Rattle.fw_hand.specs.Hands.{PlainHand, IsHandIn};
ghost use Rattle.fw_deal.specs.Deals.{PlainDeal, IsDirectoryOf, hand_of};
ghost use Rattle.fw_rules.specs.Means.{Means, Bodies};
ghost use Rattle.fw_rules.specs.Agree.{Self as Me};
ghost use Rattle.fw_rules.specs.Views.{agree_role};
ghost use Rattle.fw_rules.specs.Roles.{client_speech, executor_speech, filter_speech};
ghost use Rattle.fw_rules.specs.Deployed.{means_of, bodies_of, rule_by};
ghost use Rattle.fw_law_node.specs.Once.{node_after};
ghost use Rattle.fw_law_filter.specs.Heard.{WasHeard};
ghost use Rattle.fw_law_sources.specs.Sources.{IsRequestFrame, IsAgreedFrame, IsShareFrame, IsReplyFrame, IsWantFrame, IsAgreedOrReplyFrame, IsPassed};
ghost use Rattle.fw_law_sources.specs.Asked.{IsOwnRequest};
ghost use Rattle.fw_law_sources.specs.Executed.{IsOwnShare};
ghost use Rattle.fw_law_sources.specs.Joined.{IsJoined};
ghost use Rattle.fw_law_frames.specs.Plain.{MakesPlain, SealsWhole};
ghost use Rattle.fw_law_frames.specs.Sent.{IsPlainOf, IsPlainMade, IsPlainBare, ReadsBack, node_of, IsHeardAgain};

/// Over any means that make and read frames of the deployment alone, all that a seat sends is such a frame, or is passed on as it was
/// heard.
/// What an agreement node sends is of what it did, of what it has committed, or a reply that it holds, and each of its signatures the
/// node made or heard; what a client sends is a request that it signed; what an executor sends is a share that it made, a want, or an
/// agreed frame as it heard it; what a filter sends is a reply that it joined of shares, or an agreed frame or a reply as it heard it.
pub fn law_frames()
    ensures agreement { (me : Me ℕ) → MakesPlain me.means (seats.Agree me.own) → me.own < agreements me.means.params → 0 < me.means.params.views → (h : List (Input ℕ ℕ)) (o : Seat × ℕ) → In o (sends (agree_role me) h) → IsPlainOf me h o.1 }
    ensures client { (k : Means ℕ) (b : Bodies) (c : ℕ) → MakesPlain k (seats.Client c) → SealsWhole k.params b (seats.Client c) → c < k.params.clients → (h : List (Input ℕ Op)) (o : Seat × ℕ) → In o (sends (client_role (client_speech k b c)) h) → IsPlainMade k IsRequestFrame (IsOwnRequest k b c h) o.1 }
    ensures executor { (k : Means ℕ) (b : Bodies) (starts : List Start) (j : ℕ) → MakesPlain k (seats.Exec j) → SealsWhole k.params b (seats.Exec j) → j < executors k.params → (h : List (Input ℕ Op)) (o : Seat × ℕ) → In o (sends (executor_role (executor_speech k b starts j)) h) → IsPlainMade k IsShareFrame (IsOwnShare k b starts j h) o.1 ⊎ (IsPlainBare k IsWantFrame o.1 ⊎ WasHeard (IsPassed k (seats.Exec j) IsAgreedFrame o.1) h) }
    ensures filter { (k : Means ℕ) (r c : ℕ) → MakesPlain k (seats.Filter r c) → (h : List (Input ℕ Op)) (o : Seat × ℕ) → In o (sends (filter_role (filter_speech k r c)) h) → IsPlainMade k IsReplyFrame (IsJoined k r c h) o.1 ⊎ WasHeard (IsPassed k (seats.Filter r c) IsAgreedOrReplyFrame o.1) h }
{}

/// Each message that the rule of a seat sends is a frame's spelling, the frame is one of the deployment, and reading the message gives
/// that very frame back: for each hand in a directory, whose means are such, and so for each seat of a deal.
/// A reply that an agreement node holds, and so sends, is in all its bytes a message that it heard.
pub fn law_reads_back()
    ensures means { (d : PlainDirectory) (hand : PlainHand) → IsHandIn d hand → MakesPlain (means_of d hand) hand.seat }
    ensures bodies { (d : PlainDirectory) (hand : PlainHand) → IsHandIn d hand → SealsWhole d.params (bodies_of hand) hand.seat }
    ensures hands { (d : PlainDirectory) (hand : PlainHand) → IsTrue (accepted d.params) → IsHandIn d hand → (h : List (Input (List ℕ) Op)) (o : Seat × List ℕ) → In o (rule_by d hand h) → ReadsBack d.params o.1 }
    ensures deals { (deal : PlainDeal) (d : PlainDirectory) → IsTrue (accepted d.params) → IsDirectoryOf deal.origin d → IsTrue (starts_fit deal.origin.params.clients deal.starts) → (seat : Seat) → IsTrue (fits deal.origin.params seat) → (h : List (Input (List ℕ) Op)) (o : Seat × List ℕ) → In o (rule_by d (hand_of deal seat) h) → ReadsBack d.params o.1 }
    ensures held { (d : PlainDirectory) (hand : PlainHand) (i : ℕ) (h : List (Input (List ℕ) Op)) (r : Reply) → In r (node_after (node_of d hand i) h).heard.held → IsHeardAgain h (Replies r) }
{}
