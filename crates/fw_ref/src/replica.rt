//! The replica.

ghost use Rattle.std.specs.Prelude.{◌≡◌, ◌<◌, ◌≤◌, ◌+◌, ◌^◌, length, replicate, Some, IfSome, IfOk, OnOk, IsTrue};
ghost use Rattle.std.specs.List.{list_all};
ghost use Rattle.fw_base.specs.declared.limits.TheConstants.{MOST_NUMBERS};
ghost use Rattle.fw_op.specs.Ops.{op_fits};
ghost use Rattle.fw_op.specs.Replies.{reply_fits, has_bytes};
ghost use Rattle.fw_frame.specs.Plain.{plain_request, plain_entry};
ghost use Rattle.fw_ref.specs.Reference.{answered, executed, step, unasked};
ghost use Rattle.fw_ref.specs.Bodies.{request_opened, told, next_answer, after_entry};
ghost use Rattle.fw_ref.specs.Ranges.{is_stored, IsAskedBy, AreAskedBy};

use crate::Service;
use crate::bodies::{body_of, op_of};
use fw_frame::{Entry, Request};
use fw_list::{BODY_LEN, Items, Memory};
use fw_op::{Op, Reply};
use fw_seal::{Body, BodyKey};
use std::alloc::Global;
use std::marker::Model;

/// The keys of the clients' bodies, by client.
pub type Keys = Items<BodyKey>;

/// The reply to an entry of the list, and its sealed body. Of the null entry it is the reply to nothing, for client 0 and stamp 0,
/// with a body of zeros.
#[derive(Drop)]
pub struct Answer {
    pub client: u32,
    pub stamp: u32,
    pub reply: Reply,
    pub body: Body,
}

/// The last stamp of a client that was answered, and the reply to it.
#[derive(Debug, Drop)]
pub struct Last {
    pub stamp: u32,
    pub reply: Reply,
}

/// A service that answers the entries of one list, number after number, each stamp of a client once, for the clients from 0 to 7.
#[derive(Drop)]
pub struct Replica<S: Service> {
    alloc: Global,
    service: S,
    last: [Last; 8],
    done: u32,
}

impl<S: Service> Model for Replica<S> {
    ghost use Rattle.fw_ref.specs.Bodies.{PlainReplica};
    ghost use Rattle.fw_ref.specs.Ranges.{AreKept};

    ghost Value = { PlainReplica };

    ghost view = { λ r. record { done = r.done; reference = record { records = S.Service.records r.service; last = r.last } } };

    ghost invariant = { λ r. AreKept (S.Service.records r.service) r.last };
}

impl<S: Service> Replica<S> {
    /// A replica of this service, which has answered nothing.
    pub fn new(alloc: Global, service: S) -> Replica<S>
        requires { IsTrue (list_all is_stored (S.Service.records service)) }
        ensures { result ≡ record { done = 0; reference = record { records = S.Service.records service; last = replicate 8 unasked } } }
    {
        Replica {
            alloc,
            service,
            last: [
                none(),
                none(),
                none(),
                none(),
                none(),
                none(),
                none(),
                none(),
            ],
            done: 0,
        }
    }

    /// How many numbers it has answered.
    pub fn done(&self) -> u32
        ensures { result ≡ self.now.done }
    {
        self.done
    }

    /// Answers the entry of the next number. Of a client the last stamp gets the reply that was kept, and an older one `old`:
    /// neither is executed again. A body that doesn't open to an operation is replied `bad`.
    /// After want of memory nothing is said of the replica, and its holder uses it no more.
    pub fn execute(&mut self, keys: &Keys, number: u32, entry: &Entry<'_>) -> Result<Answer, Memory>
        requires next { number ≡ self.old.done + 1 }
        requires most { number ≤ MOST_NUMBERS }
        requires keys { length keys.now ≤ 8 }
        requires asked { AreAskedBy (length keys.now) (plain_entry entry.now) }
        requires few { length self.old.reference.records < 2 ^ 31 }
        ensures answer { IfOk result (λ answer. answer ≡ next_answer keys.now self.old (plain_entry entry.now)) }
        ensures after { OnOk result (self.new ≡ after_entry keys.now self.old (plain_entry entry.now)) }
    {
        let answer = match entry {
            Entry::Null => Answer {
                client: 0,
                stamp: 0,
                reply: Reply::Null,
                body: Body {
                    bytes: [0; BODY_LEN],
                },
            },
            Entry::Request(request) => self.answer(keys, number, request)?,
        };
        self.done = number;
        Ok(answer)
    }

    /// Answers a request.
    fn answer(&mut self, keys: &Keys, number: u32, request: &Request<'_>) -> Result<Answer, Memory>
        requires number { number < 2 ^ 31 }
        requires keys { length keys.now ≤ 8 }
        requires asked { IsAskedBy (length keys.now) (plain_request request.now) }
        requires few { length self.old.reference.records < 2 ^ 31 }
        ensures answer { IfOk result (λ answer. answer ≡ told keys.now number (step self.old.reference (Some (request_opened keys.now (plain_request request.now)))).0) }
        ensures after { OnOk result (self.new ≡ record { done = self.old.done; reference = (step self.old.reference (Some (request_opened keys.now (plain_request request.now)))).1 }) }
    {
        let key = &keys.items()[request.client as usize];
        let op = op_of(self.alloc, key, request)?;
        let reply = self.reply_to(request.client, request.stamp, &op)?;
        let body = body_of(self.alloc, key, request.client, number, &reply)?;
        Ok(Answer {
            client: request.client,
            stamp: request.stamp,
            reply,
            body,
        })
    }

    /// The reply to what a client asks under a stamp: an operation, or something that is none.
    fn reply_to(&mut self, client: u32, stamp: u32, op: &Option<Op>) -> Result<Reply, Memory>
        requires client { client < 8 }
        requires stamp { 1 ≤ stamp }
        requires op { IfSome op.now (λ op. IsTrue (op_fits 8 op)) }
        requires few { length self.old.reference.records < 2 ^ 31 }
        ensures reply { IfOk result (λ reply. reply ≡ (executed self.old.reference (record { client = client; stamp = stamp; op = op.now })).0) }
        ensures after { OnOk result (self.new ≡ record { done = self.old.done; reference = (executed self.old.reference (record { client = client; stamp = stamp; op = op.now })).1 }) }
        ensures fits { IfOk result (λ reply. IsTrue (reply_fits 8 reply)) }
        ensures said { IfOk result (λ reply. IsTrue (has_bytes reply)) }
    {
        let seen = &self.last[client as usize];
        if stamp < seen.stamp {
            return Ok(Reply::Old);
        }
        if stamp == seen.stamp {
            return seen.reply.copy(self.alloc);
        }
        let reply = outcome(&mut self.service, client, op)?;
        let kept = reply.copy(self.alloc)?;
        self.last[client as usize] = Last { stamp, reply: kept };
        Ok(reply)
    }
}

/// The reply to a client's operation, or to what is none.
fn outcome<S: Service>(service: &mut S, client: u32, op: &Option<Op>) -> Result<Reply, Memory>
    requires client { client < 8 }
    requires op { IfSome op.now (λ op. IsTrue (op_fits 8 op)) }
    requires few { length (S.Service.records service.old) < 2 ^ 31 }
    requires stored { IsTrue (list_all is_stored (S.Service.records service.old)) }
    ensures reply { IfOk result (λ reply. reply ≡ (answered client op.now (S.Service.records service.old)).0) }
    ensures after { OnOk result (S.Service.records service.new ≡ (answered client op.now (S.Service.records service.old)).1) }
    ensures stored { IsTrue (list_all is_stored (S.Service.records service.new)) }
    ensures fits { IfOk result (λ reply. IsTrue (reply_fits 8 reply)) }
    ensures said { IfOk result (λ reply. IsTrue (has_bytes reply)) }
{
    match op {
        Some(op) => service.apply(client, op),
        None => Ok(Reply::Bad),
    }
}

/// That a client has asked nothing.
fn none() -> Last
    ensures { result ≡ unasked }
{
    Last {
        stamp: 0,
        reply: Reply::Null,
    }
}
