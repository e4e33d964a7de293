//! One step in words.

ghost use Rattle.std.specs.Prelude.{◌≡◌, ◌≢◌, ℕ, List, [], ◌∷◌, codes, IfOk, OnErr, IfSome, IfNone, IsTrue, Some};
ghost use Rattle.fw_base.specs.declared.params.Params.{Params};
ghost use Rattle.fw_base.specs.declared.seat.Seat.{Seat};
ghost use Rattle.fw_base.specs.declared.seat.Seat.TheVariants as seats;
ghost use Rattle.fw_base.specs.Names.{seat_name};
ghost use Rattle.fw_base.specs.Seats.{fits, linked};
ghost use Rattle.fw_base.specs.Sizes.{accepted};
ghost use Rattle.fw_op.specs.Words.{client_word, words_of};
ghost use Rattle.fw_step.specs.declared.step.Step.{Step};
ghost use Rattle.fw_step.specs.Spelling.{IsStepText};
ghost use Rattle.fw_step.specs.Fitting.{is_faulty, is_correct, step_fits};
ghost use Rattle.fw_step.specs.Parts.{IsStepOf};

use crate::correct::is_faulty;
use crate::lie::lie_of;
use crate::text::cut;
use crate::{LAST_FRAME, MOST_FLUSHED, Step};
use fw_base::{Params, Seat, linked};
use fw_list::Memory;
use fw_op::{Op, Words, client_of, number_of};
use std::alloc::Global;

/// The correct client, and what follows it.
fn correct_client<'a>(params: &Params, faulty: &[Seat], text: &'a str) -> Option<(u32, &'a str)>
    requires { IsTrue (accepted params.now) }
    ensures found { IfSome result (λ r. (words_of text.now ≡ client_word r.0 ∷ words_of r.1.now) × IsTrue (is_correct params.now faulty.now (seats.Client r.0))) }
    ensures none { IfNone result ((c : ℕ) (word : List ℕ) (words : List (List ℕ)) → IsTrue (is_correct params.now faulty.now (seats.Client c)) → words_of text.now ≢ client_word c ∷ word ∷ words) }
{
    let (word, rest) = cut(text)?;
    let client = client_of(word, params.clients)?;
    if is_faulty(faulty, Seat::Client(client)) {
        return None;
    }
    Some((client, rest))
}

/// The step whose first word is `submit`.
fn submit_of(
    alloc: Global,
    params: &Params,
    faulty: &[Seat],
    text: &str,
) -> Result<Option<Step>, Memory>
    requires { IsTrue (accepted params.now) }
    ensures found { IfOk result (λ found. IfSome found (λ s. IsStepOf params.now faulty.now (codes "submit" ∷ words_of text.now) s)) }
    ensures none { IfOk result (λ found. IfNone found ((s : Step) → ¬ IsStepOf params.now faulty.now (codes "submit" ∷ words_of text.now) s)) }
    ensures memory { OnErr result ((s : Step) × IsStepOf params.now faulty.now (codes "submit" ∷ words_of text.now) s) }
{
    let Some((client, rest)) = correct_client(params, faulty, text) else {
        return Ok(None);
    };
    match Op::from_words(alloc, params.clients, &mut Words::of(rest))? {
        Some(op) => Ok(Some(Step::Submit { client, op })),
        None => Ok(None),
    }
}

/// The step whose first word is `deliver`.
fn deliver_of(text: &str) -> Option<Step>
    ensures found { IfSome result (λ s. (p : Params) (faulty : List Seat) → IsStepOf p faulty (codes "deliver" ∷ words_of text.now) s) }
    ensures none { IfNone result ((p : Params) (faulty : List Seat) (s : Step) → ¬ IsStepOf p faulty (codes "deliver" ∷ words_of text.now) s) }
{
    let word = Words::of(text).only_word()?;
    let frame = number_of(word, 0, LAST_FRAME)?;
    Some(Step::Deliver { frame })
}

/// The step whose first word is `flush`.
fn flush_of(text: &str) -> Option<Step>
    ensures found { IfSome result (λ s. (p : Params) (faulty : List Seat) → IsStepOf p faulty (codes "flush" ∷ words_of text.now) s) }
    ensures none { IfNone result ((p : Params) (faulty : List Seat) (s : Step) → ¬ IsStepOf p faulty (codes "flush" ∷ words_of text.now) s) }
{
    let word = Words::of(text).only_word()?;
    let most = number_of(word, 1, MOST_FLUSHED)?;
    Some(Step::Flush { most })
}

/// The step whose first word is `tick`.
fn tick_of(params: &Params, faulty: &[Seat], text: &str) -> Option<Step>
    requires { IsTrue (accepted params.now) }
    ensures found { IfSome result (λ s. IsStepOf params.now faulty.now (codes "tick" ∷ words_of text.now) s) }
    ensures none { IfNone result ((s : Step) → ¬ IsStepOf params.now faulty.now (codes "tick" ∷ words_of text.now) s) }
{
    let word = Words::of(text).only_word()?;
    let seat = Seat::read(params, word)?;
    if is_faulty(faulty, seat) {
        return None;
    }
    Some(Step::Tick { seat })
}

/// The faulty seat that lies, and what follows it.
fn liar<'a>(params: &Params, faulty: &[Seat], text: &'a str) -> Option<(Seat, &'a str)>
    requires { IsTrue (accepted params.now) }
    ensures found { IfSome result (λ r. (words_of text.now ≡ seat_name r.0 ∷ words_of r.1.now) × IsTrue (fits params.now r.0) × IsTrue (is_faulty faulty.now r.0)) }
    ensures none { IfNone result ((from : Seat) (word : List ℕ) (words : List (List ℕ)) → IsTrue (fits params.now from) → IsTrue (is_faulty faulty.now from) → words_of text.now ≢ seat_name from ∷ word ∷ words) }
{
    let (word, rest) = cut(text)?;
    let from = Seat::read(params, word)?;
    if is_faulty(faulty, from) {
        Some((from, rest))
    } else {
        None
    }
}

/// The seat that is lied to, and what follows it.
fn addressee<'a>(params: &Params, from: Seat, text: &'a str) -> Option<(Seat, &'a str)>
    requires { IsTrue (accepted params.now) }
    ensures found { IfSome result (λ r. (words_of text.now ≡ seat_name r.0 ∷ words_of r.1.now) × IsTrue (fits params.now r.0) × IsTrue (linked params.now from r.0)) }
    ensures none { IfNone result ((to : Seat) (word : List ℕ) (words : List (List ℕ)) → IsTrue (fits params.now to) → IsTrue (linked params.now from to) → words_of text.now ≢ seat_name to ∷ word ∷ words) }
{
    let (word, rest) = cut(text)?;
    let to = Seat::read(params, word)?;
    if linked(params, from, to) {
        Some((to, rest))
    } else {
        None
    }
}

/// The step whose first word is `lie`.
fn told_of(
    alloc: Global,
    params: &Params,
    faulty: &[Seat],
    text: &str,
) -> Result<Option<Step>, Memory>
    requires { IsTrue (accepted params.now) }
    ensures found { IfOk result (λ found. IfSome found (λ s. IsStepOf params.now faulty.now (codes "lie" ∷ words_of text.now) s)) }
    ensures none { IfOk result (λ found. IfNone found ((s : Step) → ¬ IsStepOf params.now faulty.now (codes "lie" ∷ words_of text.now) s)) }
    ensures memory { OnErr result ((s : Step) × IsStepOf params.now faulty.now (codes "lie" ∷ words_of text.now) s) }
{
    let Some((from, rest)) = liar(params, faulty, text) else {
        return Ok(None);
    };
    let Some((to, rest)) = addressee(params, from, rest) else {
        return Ok(None);
    };
    match lie_of(alloc, params, from, rest)? {
        Some(lie) => Ok(Some(Step::Lie { from, to, lie })),
        None => Ok(None),
    }
}

/// The step that all the words are.
fn step_in(
    alloc: Global,
    params: &Params,
    faulty: &[Seat],
    text: &str,
) -> Result<Option<Step>, Memory>
    requires { IsTrue (accepted params.now) }
    ensures found { IfOk result (λ found. IfSome found (λ s. IsStepOf params.now faulty.now (words_of text.now) s)) }
    ensures none { IfOk result (λ found. IfNone found ((s : Step) → ¬ IsStepOf params.now faulty.now (words_of text.now) s)) }
    ensures memory { OnErr result ((s : Step) × IsStepOf params.now faulty.now (words_of text.now) s) }
{
    let Some((kind, rest)) = cut(text) else {
        return Ok(None);
    };
    match kind {
        "submit" => submit_of(alloc, params, faulty, rest),
        "deliver" => Ok(deliver_of(rest)),
        "flush" => Ok(flush_of(rest)),
        "tick" => Ok(tick_of(params, faulty, rest)),
        "lie" => told_of(alloc, params, faulty, rest),
        _ => Ok(None),
    }
}

/// The step that the text spells, if it is one for a deployment of these sizes with these faulty seats, or none. All words are
/// looked at before anything is copied: want of memory comes only at the text of a step that fits.
pub fn step_of(
    alloc: Global,
    params: &Params,
    faulty: &[Seat],
    text: &str,
) -> Result<Option<Step>, Memory>
    requires { IsTrue (accepted params.now) }
    ensures found { IfOk result (λ found. IfSome found (λ s. IsStepText text.now s × IsTrue (step_fits params.now faulty.now s))) }
    ensures each { IfOk result (λ found. (s : Step) → IsTrue (step_fits params.now faulty.now s) → IsStepText text.now s → found ≡ Some s) }
    ensures memory { OnErr result ((s : Step) × IsStepText text.now s × IsTrue (step_fits params.now faulty.now s)) }
{
    step_in(alloc, params, faulty, text)
}
