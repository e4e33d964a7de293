//! The parts of a lie: numbers, requests and replies.

ghost use Rattle.std.specs.Prelude.{◌≡◌, ◌≢◌, ◌<◌, ℕ, List, ◌∷◌, decimal, IfOk, OnErr, IfSome, IfNone, IsTrue};
ghost use Rattle.fw_list.specs.Numbers.{within};
ghost use Rattle.fw_base.specs.Sizes.{accepted};
ghost use Rattle.fw_op.specs.Words.{client_word, words_of};
ghost use Rattle.fw_op.specs.declared.reply.Reply.{Reply};
ghost use Rattle.fw_step.specs.declared.step.LieOp.{LieOp};
ghost use Rattle.fw_step.specs.declared.step.LieRequest.{LieRequest};
ghost use Rattle.fw_step.specs.declared.step.LieReply.{LieReply};
ghost use Rattle.fw_step.specs.Parts.{IsLieOpOf, IsRequestOf, IsSaidOf, IsAnsweredOf, IsEntryOf, IsAnswerOf};

use crate::text::{cut, is_bad, is_null};
use crate::{LieAnswer, LieEntry, LieOp, LieReply, LieRequest};
use fw_base::Params;
use fw_list::Memory;
use fw_op::{Op, Reply, Words, client_of, number_of};
use std::alloc::Global;

/// The view that the word spells.
pub(crate) fn view_of(params: &Params, word: &str) -> Option<u32>
    requires { IsTrue (accepted params.now) }
    ensures found { IfSome result (λ v. (word.now ≡ decimal v) × (v < params.now.views)) }
    ensures none { IfNone result ((v : ℕ) → v < params.now.views → word.now ≢ decimal v) }
{
    number_of(word, 0, params.views - 1)
}

/// The number, and what follows it.
pub(crate) fn number_and_rest<'a>(params: &Params, text: &'a str) -> Option<(u32, &'a str)>
    ensures found { IfSome result (λ r. (words_of text.now ≡ decimal r.0 ∷ words_of r.1.now) × IsTrue (within 1 r.0 params.now.numbers)) }
    ensures none { IfNone result ((n : ℕ) (word : List ℕ) (words : List (List ℕ)) → IsTrue (within 1 n params.now.numbers) → words_of text.now ≢ decimal n ∷ word ∷ words) }
{
    let (number, rest) = cut(text)?;
    let number = number_of(number, 1, params.numbers)?;
    Some((number, rest))
}

/// The client and the stamp, and what follows them.
fn client_and_stamp<'a>(params: &Params, text: &'a str) -> Option<(u32, u32, &'a str)>
    ensures found { IfSome result (λ r. (words_of text.now ≡ client_word r.0 ∷ decimal r.1 ∷ words_of r.2.now) × (r.0 < params.now.clients) × IsTrue (within 1 r.1 params.now.stamps)) }
    ensures none { IfNone result ((c s : ℕ) (word : List ℕ) (words : List (List ℕ)) → c < params.now.clients → IsTrue (within 1 s params.now.stamps) → words_of text.now ≢ client_word c ∷ decimal s ∷ word ∷ words) }
{
    let (client, rest) = cut(text)?;
    let client = client_of(client, params.clients)?;
    let (stamp, rest) = cut(rest)?;
    let stamp = number_of(stamp, 1, params.stamps)?;
    Some((client, stamp, rest))
}

/// What a liar asks, read from all the words.
fn lie_op_of(alloc: Global, clients: u32, text: &str) -> Result<Option<LieOp>, Memory>
    ensures found { IfOk result (λ found. IfSome found (λ op. IsLieOpOf clients (words_of text.now) op)) }
    ensures none { IfOk result (λ found. IfNone found ((op : LieOp) → ¬ IsLieOpOf clients (words_of text.now) op)) }
    ensures memory { OnErr result ((op : LieOp) × IsLieOpOf clients (words_of text.now) op) }
{
    if is_bad(text) {
        return Ok(Some(LieOp::Bad));
    }
    match Op::from_words(alloc, clients, &mut Words::of(text))? {
        Some(op) => Ok(Some(LieOp::Op(op))),
        None => Ok(None),
    }
}

/// The request that all the words are.
pub(crate) fn request_of(
    alloc: Global,
    params: &Params,
    text: &str,
) -> Result<Option<LieRequest>, Memory>
    ensures found { IfOk result (λ found. IfSome found (λ r. IsRequestOf params.now (words_of text.now) r)) }
    ensures none { IfOk result (λ found. IfNone found ((r : LieRequest) → ¬ IsRequestOf params.now (words_of text.now) r)) }
    ensures memory { OnErr result ((r : LieRequest) × IsRequestOf params.now (words_of text.now) r) }
{
    let Some((client, stamp, rest)) = client_and_stamp(params, text) else {
        return Ok(None);
    };
    match lie_op_of(alloc, params.clients, rest)? {
        Some(op) => Ok(Some(LieRequest { client, stamp, op })),
        None => Ok(None),
    }
}

/// The entry that all the words are.
pub(crate) fn entry_of(
    alloc: Global,
    params: &Params,
    text: &str,
) -> Result<Option<LieEntry>, Memory>
    ensures found { IfOk result (λ found. IfSome found (λ entry. IsEntryOf params.now (words_of text.now) entry)) }
    ensures none { IfOk result (λ found. IfNone found ((entry : List LieRequest) → ¬ IsEntryOf params.now (words_of text.now) entry)) }
    ensures memory { OnErr result ((entry : List LieRequest) × IsEntryOf params.now (words_of text.now) entry) }
{
    let mut entry = LieEntry::new(alloc);
    if is_null(text) {
        return Ok(Some(entry));
    }
    match request_of(alloc, params, text)? {
        Some(request) => {
            entry.push(request)?;
            Ok(Some(entry))
        }
        None => Ok(None),
    }
}

/// The reply that all the words are, other than the one to nothing.
fn said_of(alloc: Global, clients: u32, text: &str) -> Result<Option<Reply>, Memory>
    ensures found { IfOk result (λ found. IfSome found (λ reply. IsSaidOf clients (words_of text.now) reply)) }
    ensures none { IfOk result (λ found. IfNone found ((reply : Reply) → ¬ IsSaidOf clients (words_of text.now) reply)) }
    ensures memory { OnErr result ((reply : Reply) × IsSaidOf clients (words_of text.now) reply) }
{
    if is_null(text) {
        return Ok(None);
    }
    Reply::from_words(alloc, clients, &mut Words::of(text))
}

/// The reply to a request that all the words are.
fn answered_of(alloc: Global, params: &Params, text: &str) -> Result<Option<LieReply>, Memory>
    ensures found { IfOk result (λ found. IfSome found (λ a. IsAnsweredOf params.now (words_of text.now) a)) }
    ensures none { IfOk result (λ found. IfNone found ((a : LieReply) → ¬ IsAnsweredOf params.now (words_of text.now) a)) }
    ensures memory { OnErr result ((a : LieReply) × IsAnsweredOf params.now (words_of text.now) a) }
{
    let Some((client, stamp, rest)) = client_and_stamp(params, text) else {
        return Ok(None);
    };
    match said_of(alloc, params.clients, rest)? {
        Some(reply) => Ok(Some(LieReply {
            client,
            stamp,
            reply,
        })),
        None => Ok(None),
    }
}

/// The answer that all the words are.
pub(crate) fn answer_of(
    alloc: Global,
    params: &Params,
    text: &str,
) -> Result<Option<LieAnswer>, Memory>
    ensures found { IfOk result (λ found. IfSome found (λ answer. IsAnswerOf params.now (words_of text.now) answer)) }
    ensures none { IfOk result (λ found. IfNone found ((answer : List LieReply) → ¬ IsAnswerOf params.now (words_of text.now) answer)) }
    ensures memory { OnErr result ((answer : List LieReply) × IsAnswerOf params.now (words_of text.now) answer) }
{
    let mut answer = LieAnswer::new(alloc);
    if is_null(text) {
        return Ok(Some(answer));
    }
    match answered_of(alloc, params, text)? {
        Some(reply) => {
            answer.push(reply)?;
            Ok(Some(answer))
        }
        None => Ok(None),
    }
}
