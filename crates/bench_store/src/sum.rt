//! A sum over the replies.

ghost use Rattle.std.specs.Prelude.{◌<◌};

use fw_op::{Names, Reply};

/// A sum over all that was replied, by which two stores are compared.
#[derive(Drop)]
pub struct Sum {
    value: u64,
    ghost in_range: { value < 4294967291 },
}

impl Sum {
    pub fn new() -> Self {
        Sum { value: 0 }
    }

    pub fn value(&self) -> u64 {
        self.value
    }

    /// Takes a reply in.
    pub fn add_reply(&mut self, reply: &Reply) {
        match reply {
            Reply::Done => self.add(1),
            Reply::Absent => self.add(2),
            Reply::Differs => self.add(3),
            Reply::Value { value } => self.add_bytes(value.items()),
            Reply::Count { count } => self.add(*count),
            Reply::Keys { names } => self.add_names(names),
            _ => self.add(4),
        }
    }

    fn add(&mut self, number: u32) {
        self.value = (self.value * 31 + u64::from(number)) % 4294967291;
    }

    fn add_bytes(&mut self, bytes: &[u8]) {
        for byte in bytes {
            self.add(u32::from(*byte));
        }
    }

    fn add_names(&mut self, names: &Names) {
        for name in names.items() {
            self.add(name.owner);
            self.add_bytes(name.key.items());
        }
    }
}
