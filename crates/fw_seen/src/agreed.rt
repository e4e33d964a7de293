//! The lines of the agreed list.

ghost use Rattle.std.specs.Prelude.{◌≡◌, ◌<◌, ◌^◌, length, IfOk};
ghost use Rattle.fw_list.specs.declared.limits.TheConstants.{BODY_LEN};
ghost use Rattle.fw_trace.specs.Run.{agreed_list};
ghost use Rattle.fw_rules.specs.Deployed.{bodies_of};
ghost use Rattle.fw_rules.specs.World.{agreed_in};
ghost use Rattle.fw_seen.specs.Entries.{seen, AreOpenable};
ghost use Rattle.fw_seen.specs.Summary.{said_of, agreed_line, agreed_lines};

use crate::entries::first_entries;
use fw_digest::Steps;
use fw_directory::Directory;
use fw_frame::{Entry, Request};
use fw_hand::Hand;
use fw_list::{BODY_LEN, Bytes, Items, LONGEST_TEXT, Memory};
use fw_op::Op;
use fw_report::{AgreedLine, Said};
use fw_seal::{Body, Direction, unseal};
use fw_trace::Sent;
use std::alloc::Global;
use std::sync::ledger::Ledger;

/// The operation that a request's body opens to by the keys of a hand, or none where it opens to none.
fn open_op(alloc: Global, keys: &Hand, request: &Request<'_>) -> Result<Option<Op>, Memory>
    requires stamp { request.now.stamp < 2 ^ 31 }
    requires body { length request.now.body.now ≡ BODY_LEN }
    ensures { IfOk result (λ op. op ≡ (bodies_of keys.now).open_op request.now.client request.now.stamp request.now.body.now) }
{
    let Some(key) = keys.key(request.client) else {
        return Ok(None);
    };
    let mut body = Body {
        bytes: [0; BODY_LEN],
    };
    body.bytes.copy_from_slice(request.body);
    let mut text = [0; LONGEST_TEXT];
    match unseal(
        key,
        Direction::Request,
        request.client,
        request.stamp,
        &body,
        &mut text,
    ) {
        Some(len) => Op::read_bytes(alloc, &text[..len as usize]),
        None => Ok(None),
    }
}

/// What a request says, by the keys of a hand.
fn said(alloc: Global, keys: &Hand, request: &Request<'_>) -> Result<Said, Memory>
    requires stamp { request.now.stamp < 2 ^ 31 }
    requires body { length request.now.body.now ≡ BODY_LEN }
    ensures { IfOk result (λ said. said ≡ said_of ((bodies_of keys.now).open_op request.now.client request.now.stamp request.now.body.now)) }
{
    match open_op(alloc, keys, request)? {
        Some(op) => Ok(Said::Op(op)),
        None => Ok(Said::Bad),
    }
}

/// The line of a number.
fn agreed_line(
    alloc: Global,
    keys: &Hand,
    number: u32,
    entry: &Entry<'_>,
) -> Result<AgreedLine, Memory>
    requires { AreOpenable (seen entry.now) }
    ensures { IfOk result (λ line. line ≡ agreed_line keys.now number (seen entry.now)) }
{
    match entry {
        Entry::Null => Ok(AgreedLine {
            number,
            client: 0,
            stamp: 0,
            said: Said::Null,
        }),
        Entry::Request(request) => Ok(AgreedLine {
            number,
            client: request.client,
            stamp: request.stamp,
            said: said(alloc, keys, request)?,
        }),
    }
}

/// The lines of the agreed list of a pool: the first valid agreed frame of each number, from 1 up to the first number that has
/// none. Bodies are opened by the keys of a hand, such as an executor's, which has those of all clients.
pub fn agreed_lines<L: Ledger>(
    alloc: Global,
    directory: &Directory,
    keys: &Hand,
    pool: &[Sent<Bytes>],
    steps: &mut Steps<L>,
) -> Result<Items<AgreedLine>, Memory>
    ensures { IfOk result (λ lines. lines ≡ agreed_lines keys.now 1 (agreed_list (agreed_in directory.now) pool.now)) }
{
    let entries = first_entries(alloc, directory, pool, steps)?;
    let mut lines = Items::new(alloc);
    for k in 0..directory.params().numbers {
        let Some(entry) = entries.get(&(k + 1)) else {
            return Ok(lines);
        };
        lines.push(agreed_line(alloc, keys, k + 1, entry)?)?;
    }
    Ok(lines)
}
