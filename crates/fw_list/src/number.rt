//! Numbers as text.

ghost use Rattle.std.specs.Prelude.{◌≡◌, ◌++◌, ◌∷◌, decimal, OnOk, OnErr};

use crate::{Bytes, Memory};
use itoa::Buffer;

impl Bytes {
    /// Adds the digits of a number at the end.
    pub fn append_number(&mut self, number: u32) -> Result<(), Memory>
        ensures ok { OnOk result (self.new ≡ self.old ++ decimal number) }
        ensures err { OnErr result (self.new ≡ self.old) }
    {
        let mut buffer = Buffer::new();
        self.append(buffer.format(number).as_bytes())
    }

    /// Adds a letter and the digits of a number at the end, as in the name of a seat.
    pub fn append_lettered(&mut self, letter: u8, number: u32) -> Result<(), Memory>
        ensures ok { OnOk result (self.new ≡ self.old ++ letter ∷ decimal number) }
        ensures err { OnErr result (self.new ≡ self.old) }
    {
        let len = self.len();
        self.push(letter)?;
        match self.append_number(number) {
            Ok(()) => Ok(()),
            Err(memory) => {
                self.truncate(len);
                Err(memory)
            }
        }
    }
}
