//! Lines that speak to the node of a seat.

ghost use Rattle.std.specs.Prelude.{IsTrue};
ghost use Rattle.fw_base.specs.Seats.{fits};

use crate::fault::{Fault, number, word};
use crate::shown::{shown_accepted, shown_count};
use crate::stage::Stage;
use fw_base::{Params, Seat};
use fw_list::Bytes;
use fw_node::Input;
use fw_op::{Op, Words};

/// A deployment with many seats: frames may also come from those that the one at hand hasn't.
const LARGE: Params = Params {
    f: 3,
    g: 3,
    h: 3,
    numbers: 8,
    views: 2,
    clients: 8,
    stamps: 1,
    pipe: 1,
};

impl Stage {
    /// A line that speaks to the node of a seat.
    pub fn speak(&mut self, seat: Seat, words: &mut Words<'_>) -> Result<Bytes, Fault>
        requires { IsTrue (fits self.old.0.origin.params seat) }
    {
        match word(words)? {
            "tick" => self.take(seat, Input::Tick),
            "submit" => self.submit(seat, words),
            "hear" => self.hear(seat, words),
            "bent" => self.bent(seat, words),
            "accepted" => {
                self.meet(seat)?;
                Ok(shown_accepted(self.alloc(), self.client(seat)?.accepted())?)
            }
            "waiting" => {
                self.meet(seat)?;
                Ok(shown_count(self.alloc(), "waiting", self.client(seat)?.waiting())?)
            }
            _ => Err(Fault::NoLine),
        }
    }

    /// An operation is submitted.
    fn submit(&mut self, seat: Seat, words: &mut Words<'_>) -> Result<Bytes, Fault>
        requires { IsTrue (fits self.old.0.origin.params seat) }
    {
        match Op::from_words(self.alloc(), 8, words)? {
            Some(op) => self.take(seat, Input::Submit(&op)),
            None => Err(Fault::NoLine),
        }
    }

    /// `FROM NAME`: the frame of a name comes from a seat.
    fn hear(&mut self, seat: Seat, words: &mut Words<'_>) -> Result<Bytes, Fault>
        requires { IsTrue (fits self.old.0.origin.params seat) }
    {
        let from = Seat::read(&LARGE, word(words)?).ok_or(Fault::NoLine)?;
        let frame = Bytes::copy_of(self.alloc(), self.frame(word(words)?)?.items())?;
        let bytes = frame.items();
        self.take(seat, Input::Frame { from, bytes })
    }

    /// `FROM NAME K`: the frame comes with the lowest bit of byte K changed.
    fn bent(&mut self, seat: Seat, words: &mut Words<'_>) -> Result<Bytes, Fault>
        requires { IsTrue (fits self.old.0.origin.params seat) }
    {
        let from = Seat::read(&LARGE, word(words)?).ok_or(Fault::NoLine)?;
        let frame = self.frame(word(words)?)?;
        let place = number(words)? as usize;
        let byte = frame.at(place).copied().unwrap_or(0);
        let bent = self.with_byte(frame.items(), place, byte ^ 1)?;
        let bytes = bent.items();
        self.take(seat, Input::Frame { from, bytes })
    }
}
