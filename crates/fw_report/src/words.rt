//! The words of a line.

ghost use Rattle.std.specs.Prelude.{◌≡◌, ℕ, [], ◌∷◌, ◌++◌, OnOk, codes, decimal};
ghost use Rattle.fw_op.specs.Ops.{op_words};
ghost use Rattle.fw_op.specs.Replies.{reply_words};
ghost use Rattle.fw_op.specs.Words.{following, client_word};
ghost use Rattle.fw_report.specs.Report.{said_words, yes_or_no};

use crate::Said;
use fw_list::{Bytes, Memory};
use fw_op::{Op, Reply, add_client, add_number, add_word};
use std::alloc::Global;

/// The words of an operation.
fn add_op(alloc: Global, text: &mut Bytes, op: &Op) -> Result<(), Memory>
    ensures ok { OnOk result (text.new ≡ text.old ++ following (op_words op.now)) }
{
    let words = op.words(alloc)?;
    add_word(text, words.items())
}

/// The words of a reply.
pub(crate) fn add_reply(alloc: Global, text: &mut Bytes, reply: &Reply) -> Result<(), Memory>
    ensures ok { OnOk result (text.new ≡ text.old ++ following (reply_words reply.now)) }
{
    let words = reply.words(alloc)?;
    add_word(text, words.items())
}

/// The words of what stands at a number.
pub(crate) fn add_said(
    alloc: Global,
    text: &mut Bytes,
    client: u32,
    stamp: u32,
    said: &Said,
) -> Result<(), Memory>
    ensures ok { OnOk result (text.new ≡ text.old ++ following (said_words client stamp said.now)) }
{
    match said {
        Said::Null => add_word(text, b"null"),
        Said::Bad => {
            add_client(text, client)?;
            add_number(text, stamp)?;
            add_word(text, b"bad")
        }
        Said::Op(op) => {
            add_client(text, client)?;
            add_number(text, stamp)?;
            add_op(alloc, text, op)
        }
    }
}

/// A blank and `yes`, or a blank and `no`.
pub(crate) fn add_yes_or_no(text: &mut Bytes, holds: bool) -> Result<(), Memory>
    ensures ok { OnOk result (text.new ≡ text.old ++ following (yes_or_no holds ∷ [])) }
{
    if holds {
        add_word(text, b"yes")
    } else {
        add_word(text, b"no")
    }
}
