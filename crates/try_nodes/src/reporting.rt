//! The report of a pool in which one request was agreed and answered.

ghost use Rattle.std.specs.Prelude.{◌≡◌, ◌<◌};

use crate::fault::{Fault, word};
use crate::stage::Stage;
use fw_base::Seat;
use fw_client::ClientNode;
use fw_digest::Steps;
use fw_directory::Directory;
use fw_hand::Hand;
use fw_list::{Bytes, Memory};
use fw_op::Words;
use fw_report::report;
use fw_seen::{Counts, summary};
use fw_trace::Sent;
use std::alloc::Global;
use std::marker::Brand;
use std::slice::from_ref;
use std::sync::ledger::{Blank, Ledger};

/// A frame from a seat to a seat.
fn sent(alloc: Global, from: Seat, to: Seat, bytes: &[u8]) -> Result<Sent<Bytes>, Memory> {
    Ok(Sent {
        from,
        to,
        message: Bytes::copy_of(alloc, bytes)?,
    })
}

/// The report of a client's node, and of a pool in which an agreed frame and its reply went their way: each line ends with a slash.
fn reported<L: Ledger>(
    alloc: Global,
    directory: &Directory,
    keys: &Hand,
    node: &ClientNode,
    agreed: &[u8],
    reply: &[u8],
    blank: Blank,
) -> Result<Bytes, Memory>
    requires name { blank.name ≡ L.name }
    requires parts { blank.parts ≡ L.parts }
    requires some { 0 < blank.parts }
{
    let (agree, filter) = (Seat::Agree(0), Seat::Filter(0, 0));
    let pool = [
        sent(alloc, agree, filter, agreed)?,
        sent(alloc, filter, Seat::Exec(0), agreed)?,
        sent(alloc, filter, agree, reply)?,
        sent(alloc, agree, Seat::Client(0), reply)?,
    ];
    let taken = node
        .accepted()
        .len()
        .saturating_add(node.waiting() as usize);
    let counts = Counts {
        submissions: taken,
        events: pool.len(),
        rest: true,
        view: 0,
    };
    let mut steps = Steps::<L>::new(blank);
    let told = summary(
        alloc,
        directory,
        &[],
        keys,
        from_ref(node),
        &pool,
        counts,
        &mut steps,
    )?;
    slashed(alloc, report(alloc, &told)?.items())
}

/// The text, with a slash for each line feed.
fn slashed(alloc: Global, text: &[u8]) -> Result<Bytes, Memory> {
    let mut line = Bytes::new(alloc);
    for byte in text {
        if *byte == b'\n' {
            line.append(b" / ")?;
        } else {
            line.push(*byte)?;
        }
    }
    Ok(line)
}

impl Stage {
    /// `AGREED REPLY`: the report of client 0's node, where this agreed frame and this reply went their way.
    pub fn report(&self, words: &mut Words<'_>) -> Result<Bytes, Fault> {
        let agreed = self.frame(word(words)?)?.items();
        let reply = self.frame(word(words)?)?.items();
        let node = self.client(Seat::Client(0))?;
        let (alloc, deal) = (self.alloc(), self.deal());
        let keys = deal.hand(alloc, Seat::Exec(0))?;
        let directory = deal.directory();
        let blank = Blank::new(1);
        let text = reported::<Brand>(alloc, directory, &keys, node, agreed, reply, blank)?;
        Ok(text)
    }
}
