//! Lies, read from their words behind the two seats.

ghost use Rattle.std.specs.Prelude.{◌≡◌, ◌≢◌, ◌≤◌, ℕ, List, ◌∷◌, codes, IfOk, OnErr, IfSome, IfNone, IsTrue};
ghost use Rattle.fw_base.specs.declared.params.Params.{Params};
ghost use Rattle.fw_base.specs.declared.seat.Seat.{Seat};
ghost use Rattle.fw_base.specs.Sizes.{accepted};
ghost use Rattle.fw_op.specs.Words.{words_of};
ghost use Rattle.fw_step.specs.declared.step.Lie.{Lie};
ghost use Rattle.fw_step.specs.declared.step.LieRequest.{LieRequest};
ghost use Rattle.fw_step.specs.declared.step.LieReply.{LieReply};
ghost use Rattle.fw_step.specs.Spelling.{phase_word};
ghost use Rattle.fw_step.specs.Fitting.{is_agreement, is_executor};
ghost use Rattle.fw_step.specs.Parts.{IsBallotOf, IsResultOf, IsLieOf};

use crate::digits::frame_of;
use crate::parts::{answer_of, entry_of, number_and_rest, request_of, view_of};
use crate::text::cut;
use crate::{LAST_FRAME, Lie, LieAnswer, LieEntry};
use fw_base::{Params, Seat};
use fw_list::Memory;
use fw_op::{Words, number_of};
use std::alloc::Global;

fn is_agreement(seat: Seat) -> bool
    ensures { result ≡ is_agreement seat }
{
    matches!(seat, Seat::Agree(_))
}

fn is_executor(seat: Seat) -> bool
    ensures { result ≡ is_executor seat }
{
    matches!(seat, Seat::Exec(_))
}

/// The lie whose first word is `raw`.
fn raw_of(alloc: Global, text: &str) -> Result<Option<Lie>, Memory>
    ensures found { IfOk result (λ found. IfSome found (λ lie. (p : Params) (from : Seat) → IsLieOf p from (codes "raw" ∷ words_of text.now) lie)) }
    ensures none { IfOk result (λ found. IfNone found ((p : Params) (from : Seat) → (lie : Lie) → ¬ IsLieOf p from (codes "raw" ∷ words_of text.now) lie)) }
    ensures memory { OnErr result ((lie : Lie) × ((p : Params) (from : Seat) → IsLieOf p from (codes "raw" ∷ words_of text.now) lie)) }
{
    match frame_of(alloc, text.as_bytes())? {
        Some(bytes) => Ok(Some(Lie::Raw { bytes })),
        None => Ok(None),
    }
}

/// The lie whose first word is `copy`.
fn copy_of(text: &str) -> Option<Lie>
    ensures found { IfSome result (λ lie. (p : Params) (from : Seat) → IsLieOf p from (codes "copy" ∷ words_of text.now) lie) }
    ensures none { IfNone result ((p : Params) (from : Seat) → (lie : Lie) → ¬ IsLieOf p from (codes "copy" ∷ words_of text.now) lie) }
{
    let word = Words::of(text).only_word()?;
    let frame = number_of(word, 0, LAST_FRAME)?;
    Some(Lie::Copy { frame })
}

/// The lie whose first word is `request`.
fn asked_of(alloc: Global, params: &Params, text: &str) -> Result<Option<Lie>, Memory>
    ensures found { IfOk result (λ found. IfSome found (λ lie. (from : Seat) → IsLieOf params.now from (codes "request" ∷ words_of text.now) lie)) }
    ensures none { IfOk result (λ found. IfNone found ((from : Seat) → (lie : Lie) → ¬ IsLieOf params.now from (codes "request" ∷ words_of text.now) lie)) }
    ensures memory { OnErr result ((lie : Lie) × ((from : Seat) → IsLieOf params.now from (codes "request" ∷ words_of text.now) lie)) }
{
    match request_of(alloc, params, text)? {
        Some(request) => Ok(Some(Lie::Request { request })),
        None => Ok(None),
    }
}

/// The view, the number and the entry that all the words are.
fn ballot_of(
    alloc: Global,
    params: &Params,
    text: &str,
) -> Result<Option<(u32, u32, LieEntry)>, Memory>
    requires { IsTrue (accepted params.now) }
    ensures found { IfOk result (λ found. IfSome found (λ b. IsBallotOf params.now (words_of text.now) b.0 b.1 b.2)) }
    ensures none { IfOk result (λ found. IfNone found ((v n : ℕ) (e : List LieRequest) → ¬ IsBallotOf params.now (words_of text.now) v n e)) }
    ensures memory { OnErr result ((v : ℕ) × (n : ℕ) × (e : List LieRequest) × IsBallotOf params.now (words_of text.now) v n e) }
{
    let Some((view, rest)) = cut(text) else {
        return Ok(None);
    };
    let Some(view) = view_of(params, view) else {
        return Ok(None);
    };
    let Some((number, rest)) = number_and_rest(params, rest) else {
        return Ok(None);
    };
    match entry_of(alloc, params, rest)? {
        Some(entry) => Ok(Some((view, number, entry))),
        None => Ok(None),
    }
}

/// The lie whose first word is `propose`.
fn proposal_of(alloc: Global, params: &Params, text: &str) -> Result<Option<Lie>, Memory>
    requires { IsTrue (accepted params.now) }
    ensures found { IfOk result (λ found. IfSome found (λ lie. (from : Seat) → IsLieOf params.now from (codes "propose" ∷ words_of text.now) lie)) }
    ensures none { IfOk result (λ found. IfNone found ((from : Seat) → (lie : Lie) → ¬ IsLieOf params.now from (codes "propose" ∷ words_of text.now) lie)) }
    ensures memory { OnErr result ((lie : Lie) × ((from : Seat) → IsLieOf params.now from (codes "propose" ∷ words_of text.now) lie)) }
{
    match ballot_of(alloc, params, text)? {
        Some((view, number, entry)) => Ok(Some(Lie::Propose {
            view,
            number,
            entry,
        })),
        None => Ok(None),
    }
}

/// The phase that the word names: 0 for `prepare`, 1 for `commit`.
fn phase_of(word: &str) -> Option<u32>
    ensures found { IfSome result (λ phase. (word.now ≡ phase_word phase) × (phase ≤ 1)) }
    ensures none { IfNone result ((phase : ℕ) → word.now ≢ phase_word phase) }
{
    match word {
        "prepare" => Some(0),
        "commit" => Some(1),
        _ => None,
    }
}

/// The lie whose first word is `vote`.
fn vote_of(alloc: Global, params: &Params, from: Seat, text: &str) -> Result<Option<Lie>, Memory>
    requires { IsTrue (accepted params.now) }
    ensures found { IfOk result (λ found. IfSome found (λ lie. IsLieOf params.now from (codes "vote" ∷ words_of text.now) lie)) }
    ensures none { IfOk result (λ found. IfNone found ((lie : Lie) → ¬ IsLieOf params.now from (codes "vote" ∷ words_of text.now) lie)) }
    ensures memory { OnErr result ((lie : Lie) × IsLieOf params.now from (codes "vote" ∷ words_of text.now) lie) }
{
    if !is_agreement(from) {
        return Ok(None);
    }
    let Some((phase, rest)) = cut(text) else {
        return Ok(None);
    };
    let Some(phase) = phase_of(phase) else {
        return Ok(None);
    };
    match ballot_of(alloc, params, rest)? {
        Some((view, number, entry)) => Ok(Some(Lie::Vote {
            phase,
            view,
            number,
            entry,
        })),
        None => Ok(None),
    }
}

/// The lie whose first word is `change`.
fn change_of(params: &Params, from: Seat, text: &str) -> Option<Lie>
    requires { IsTrue (accepted params.now) }
    ensures found { IfSome result (λ lie. IsLieOf params.now from (codes "change" ∷ words_of text.now) lie) }
    ensures none { IfNone result ((lie : Lie) → ¬ IsLieOf params.now from (codes "change" ∷ words_of text.now) lie) }
{
    if !is_agreement(from) {
        return None;
    }
    let word = Words::of(text).only_word()?;
    let view = number_of(word, 1, params.views - 1)?;
    Some(Lie::Change { view })
}

/// The number and the answer that all the words are.
fn result_of(alloc: Global, params: &Params, text: &str) -> Result<Option<(u32, LieAnswer)>, Memory>
    ensures found { IfOk result (λ found. IfSome found (λ r. IsResultOf params.now (words_of text.now) r.0 r.1)) }
    ensures none { IfOk result (λ found. IfNone found ((n : ℕ) (a : List LieReply) → ¬ IsResultOf params.now (words_of text.now) n a)) }
    ensures memory { OnErr result ((n : ℕ) × (a : List LieReply) × IsResultOf params.now (words_of text.now) n a) }
{
    let Some((number, rest)) = number_and_rest(params, text) else {
        return Ok(None);
    };
    match answer_of(alloc, params, rest)? {
        Some(answer) => Ok(Some((number, answer))),
        None => Ok(None),
    }
}

/// The lie whose first word is `share`.
fn share_of(alloc: Global, params: &Params, from: Seat, text: &str) -> Result<Option<Lie>, Memory>
    ensures found { IfOk result (λ found. IfSome found (λ lie. IsLieOf params.now from (codes "share" ∷ words_of text.now) lie)) }
    ensures none { IfOk result (λ found. IfNone found ((lie : Lie) → ¬ IsLieOf params.now from (codes "share" ∷ words_of text.now) lie)) }
    ensures memory { OnErr result ((lie : Lie) × IsLieOf params.now from (codes "share" ∷ words_of text.now) lie) }
{
    if !is_executor(from) {
        return Ok(None);
    }
    match result_of(alloc, params, text)? {
        Some((number, answer)) => Ok(Some(Lie::Share { number, answer })),
        None => Ok(None),
    }
}

/// The lie whose first word is `reply`.
fn reply_of(alloc: Global, params: &Params, text: &str) -> Result<Option<Lie>, Memory>
    ensures found { IfOk result (λ found. IfSome found (λ lie. (from : Seat) → IsLieOf params.now from (codes "reply" ∷ words_of text.now) lie)) }
    ensures none { IfOk result (λ found. IfNone found ((from : Seat) → (lie : Lie) → ¬ IsLieOf params.now from (codes "reply" ∷ words_of text.now) lie)) }
    ensures memory { OnErr result ((lie : Lie) × ((from : Seat) → IsLieOf params.now from (codes "reply" ∷ words_of text.now) lie)) }
{
    match result_of(alloc, params, text)? {
        Some((number, answer)) => Ok(Some(Lie::Reply { number, answer })),
        None => Ok(None),
    }
}

/// The lie that all the words are, if the seat may send it.
pub(crate) fn lie_of(
    alloc: Global,
    params: &Params,
    from: Seat,
    text: &str,
) -> Result<Option<Lie>, Memory>
    requires { IsTrue (accepted params.now) }
    ensures found { IfOk result (λ found. IfSome found (λ lie. IsLieOf params.now from (words_of text.now) lie)) }
    ensures none { IfOk result (λ found. IfNone found ((lie : Lie) → ¬ IsLieOf params.now from (words_of text.now) lie)) }
    ensures memory { OnErr result ((lie : Lie) × IsLieOf params.now from (words_of text.now) lie) }
{
    let Some((kind, rest)) = cut(text) else {
        return Ok(None);
    };
    match kind {
        "raw" => raw_of(alloc, rest),
        "copy" => Ok(copy_of(rest)),
        "request" => asked_of(alloc, params, rest),
        "propose" => proposal_of(alloc, params, rest),
        "vote" => vote_of(alloc, params, from, rest),
        "change" => Ok(change_of(params, from, rest)),
        "share" => share_of(alloc, params, from, rest),
        "reply" => reply_of(alloc, params, rest),
        _ => Ok(None),
    }
}
