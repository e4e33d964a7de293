//! Where the signatures come from that a client, an executor and a filter send, after every history and over any means.
#![tactic(auto)]

ghost use Rattle.std.specs.Prelude.{ℕ, ◌⊎◌, List};
ghost use Rattle.fw_base.specs.declared.seat.Seat.{Seat};
ghost use Rattle.fw_base.specs.declared.seat.Seat.TheVariants as seats;
ghost use Rattle.fw_op.specs.declared.op.Op.{Op};
ghost use Rattle.fw_op.specs.declared.start.Start.{Start as Begins};
ghost use Rattle.fw_trace.specs.declared.Input.{Input};
ghost use Rattle.fw_trace.specs.Lists.{In};
ghost use Rattle.fw_trace.specs.Role.{sends};
ghost use Rattle.fw_trace.specs.Client.{client_role};
ghost use Rattle.fw_trace.specs.Executor.{executor_role};
ghost use Rattle.fw_trace.specs.Filter.{filter_role};
ghost use Rattle.fw_law_filter.specs.Heard.{WasHeard};
ghost use Rattle.fw_rules.specs.Means.{Means, Bodies};
ghost use Rattle.fw_rules.specs.Roles.{client_speech, executor_speech, filter_speech};
ghost use Rattle.fw_law_sources.specs.Sources.{IsRequestFrame, IsAgreedFrame, IsShareFrame, IsReplyFrame, IsWantFrame, IsAgreedOrReplyFrame, IsPassed, IsMade, IsBare, IsSourced, IsSourcedOrPassed, IsWhollyHeard};
ghost use Rattle.fw_law_sources.specs.Asked.{IsOwnRequest};
ghost use Rattle.fw_law_sources.specs.Executed.{IsOwnShare};
ghost use Rattle.fw_law_sources.specs.Joined.{IsJoined};

/// All that a client sends are requests, whose one signature it made, at the slot of a stamp that it asked and on the text of that request.
pub fn law_client_sources()
    ensures made { (k : Means ℕ) (b : Bodies) (c : ℕ) (h : List (Input ℕ Op)) (o : Seat × ℕ) → In o (sends (client_role (client_speech k b c)) h) → IsMade k IsRequestFrame (IsOwnRequest k b c h) o.1 }
    ensures sources { (k : Means ℕ) (b : Bodies) (c : ℕ) (h : List (Input ℕ Op)) (o : Seat × ℕ) → In o (sends (client_role (client_speech k b c)) h) → IsSourced k (seats.Client c) (IsOwnRequest k b c h) h o.1 }
{}

/// All that an executor sends is a share, whose one list of values it made, at its own point of the slot of a number that it executed and
/// on the text of the replies to the entry there; or a want, without any; or an agreed frame as it heard it,
/// each of whose signatures it heard.
pub fn law_executor_sources()
    ensures sent { (k : Means ℕ) (b : Bodies) (starts : List Begins) (j : ℕ) (h : List (Input ℕ Op)) (o : Seat × ℕ) → In o (sends (executor_role (executor_speech k b starts j)) h) → IsMade k IsShareFrame (IsOwnShare k b starts j h) o.1 ⊎ (IsBare k IsWantFrame o.1 ⊎ WasHeard (IsPassed k (seats.Exec j) IsAgreedFrame o.1) h) }
    ensures sources { (k : Means ℕ) (b : Bodies) (starts : List Begins) (j : ℕ) (h : List (Input ℕ Op)) (o : Seat × ℕ) → In o (sends (executor_role (executor_speech k b starts j)) h) → IsSourcedOrPassed k (seats.Exec j) (IsOwnShare k b starts j h) IsAgreedFrame h o.1 }
    ensures passed { (k : Means ℕ) (j : ℕ) (h : List (Input ℕ Op)) (m : ℕ) → WasHeard (IsPassed k (seats.Exec j) IsAgreedFrame m) h → IsWhollyHeard k (seats.Exec j) IsAgreedFrame h m }
{}

/// All that a filter sends is an agreed frame or a reply as it heard it; or a reply whose one list of values is joined, at point 0 of the
/// slot of a number, of g + 1 shares of that number, by distinct executors and with the reply's answers, each of which it heard.
/// Each part of what it passes on it heard.
pub fn law_filter_sources()
    ensures sent { (k : Means ℕ) (r c : ℕ) (h : List (Input ℕ Op)) (o : Seat × ℕ) → In o (sends (filter_role (filter_speech k r c)) h) → IsMade k IsReplyFrame (IsJoined k r c h) o.1 ⊎ WasHeard (IsPassed k (seats.Filter r c) IsAgreedOrReplyFrame o.1) h }
    ensures sources { (k : Means ℕ) (r c : ℕ) (h : List (Input ℕ Op)) (o : Seat × ℕ) → In o (sends (filter_role (filter_speech k r c)) h) → IsSourcedOrPassed k (seats.Filter r c) (IsJoined k r c h) IsAgreedOrReplyFrame h o.1 }
    ensures passed { (k : Means ℕ) (r c : ℕ) (h : List (Input ℕ Op)) (m : ℕ) → WasHeard (IsPassed k (seats.Filter r c) IsAgreedOrReplyFrame m) h → IsWhollyHeard k (seats.Filter r c) IsAgreedOrReplyFrame h m }
{}
