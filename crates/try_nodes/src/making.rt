//! Lines that give frames names.

ghost use Rattle.std.specs.Prelude.{◌≤◌};

use crate::entries::{entries_of, entry_of};
use crate::fault::{Fault, number, word};
use crate::sealed::{Sealed, answered, asked};
use crate::shown::{add_frame, said};
use crate::signing::{agreed, values_on};
use crate::stage::Stage;
use fw_base::{Seat, Slot};
use fw_digest::digest;
use fw_frame::{Entry, Frame, Request, three_numbers, two_numbers};
use fw_list::{Bytes, Items, SIGNATURE_LEN};
use fw_op::Words;
use fw_ref::permitted;

impl Stage {
    /// A line that gives a frame a name: the first word says how the frame is made, the second is the name.
    pub fn make(&mut self, first: &str, words: &mut Words<'_>) -> Result<Bytes, Fault> {
        let name = word(words)?;
        let bytes = self.made(first, words)?;
        let mut text = said(self.alloc(), name)?;
        if first != "keep" {
            add_frame(self.alloc(), &mut text, bytes.items())?;
        }
        self.name(name, bytes)?;
        Ok(text)
    }

    /// The frame that the words behind the name say.
    fn made(&self, first: &str, words: &mut Words<'_>) -> Result<Bytes, Fault> {
        match first {
            "keep" => self.sent(number(words).unwrap_or(1)),
            "raw" => self.raw(words),
            "set" => self.set(words),
            "request" => self.request(words),
            "agreed" => self.agreed(number(words)?, words),
            "share" => self.share(number(words)?, words),
            "reply" => self.reply(number(words)?, words),
            "permitted" => self.permitted(number(words)?, words),
            "change" => self.change(words),
            "newview" => self.new_view(words),
            "want" => {
                let number = number(words)?;
                Ok(Frame::Want { number }.write(self.alloc())?)
            }
            _ => Err(Fault::NoLine),
        }
    }

    /// `HEX`: these bytes, or without it none.
    fn raw(&self, words: &mut Words<'_>) -> Result<Bytes, Fault> {
        match hex::decode(self.alloc(), words.next().unwrap_or("")) {
            Ok(bytes) => Ok(Bytes::copy_of(self.alloc(), bytes.as_slice())?),
            Err(_) => Err(Fault::NoLine),
        }
    }

    /// `OTHER K B`: the frame of a name with B for byte K.
    fn set(&self, words: &mut Words<'_>) -> Result<Bytes, Fault> {
        let frame = self.frame(word(words)?)?;
        let place = number(words)?;
        let byte = u8::try_from(number(words)?).unwrap_or(0);
        self.with_byte(frame.items(), place as usize, byte)
    }

    /// `cC S OPERATION`: the request.
    fn request(&self, words: &mut Words<'_>) -> Result<Bytes, Fault> {
        let asked = asked(self.alloc(), self.deal(), words)?;
        let (client, stamp, body) = (asked.client, asked.stamp, &asked.body);
        let digest = digest(16, &two_numbers(client, stamp), body);
        let sig = values_on(self.deal(), Slot::Request { client, stamp }, 0, &digest)?;
        let request = Request {
            client,
            stamp,
            body,
            sig: &sig,
        };
        Ok(Frame::Request(request).write(self.alloc())?)
    }

    /// `REQUEST` or `null`: the agreed frame of it.
    fn agreed(&self, number: u32, words: &mut Words<'_>) -> Result<Bytes, Fault> {
        let name = word(words)?;
        if name == "null" {
            return agreed(self.alloc(), self.deal(), number, Entry::Null);
        }
        let params = self.deal().directory().params();
        match entry_of(self.alloc(), params, self.frame(name)?.items())? {
            Some(entry) => agreed(self.alloc(), self.deal(), number, entry),
            None => Err(Fault::NoLine),
        }
    }

    /// What signs an answer at a number, at a point: 0 for the reply itself, and one more than an executor's number for its share.
    fn values(
        &self,
        number: u32,
        point: u32,
        answer: &Sealed,
    ) -> Result<[u8; SIGNATURE_LEN], Fault> {
        let head = three_numbers(number, answer.client, answer.stamp);
        let digest = digest(22, &head, &answer.body);
        values_on(self.deal(), Slot::Reply { number }, point, &digest)
    }

    /// `eJ ANSWER`: the share of an executor.
    fn share(&self, number: u32, words: &mut Words<'_>) -> Result<Bytes, Fault>
        requires { number ≤ 65535 }
    {
        let params = self.deal().directory().params();
        let Some(Seat::Exec(exec)) = Seat::read(params, word(words)?) else {
            return Err(Fault::NoLine);
        };
        let answer = answered(self.alloc(), self.deal(), number, words)?;
        let shares = self.values(number, exec.saturating_add(1), &answer)?;
        let share = Frame::Share {
            number,
            exec,
            client: answer.client,
            stamp: answer.stamp,
            body: &answer.body,
            shares: &shares,
        };
        Ok(share.write(self.alloc())?)
    }

    /// `ANSWER`: the reply.
    fn reply(&self, number: u32, words: &mut Words<'_>) -> Result<Bytes, Fault>
        requires { number ≤ 65535 }
    {
        let answer = answered(self.alloc(), self.deal(), number, words)?;
        let secrets = self.values(number, 0, &answer)?;
        let reply = Frame::Reply {
            number,
            client: answer.client,
            stamp: answer.stamp,
            body: &answer.body,
            secrets: &secrets,
        };
        Ok(reply.write(self.alloc())?)
    }

    /// `REQUEST ..`: the reply of a number that the list of these requests permits.
    fn permitted(&self, number: u32, words: &mut Words<'_>) -> Result<Bytes, Fault> {
        let mut requests = Items::new(self.alloc());
        for _ in 0..64 {
            if let Some(name) = words.next() {
                requests.push(Bytes::copy_of(self.alloc(), self.frame(name)?.items())?)?;
            }
        }
        let params = self.deal().directory().params();
        let entries = entries_of(self.alloc(), params, requests.items())?;
        let certs = permitted(self.alloc(), self.deal(), &[], entries.items())?;
        match certs.at((number as usize).saturating_sub(1)) {
            Some(bytes) => Ok(Bytes::copy_of(self.alloc(), bytes.items())?),
            None => Err(Fault::NoLine),
        }
    }
}
