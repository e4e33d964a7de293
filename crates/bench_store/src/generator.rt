//! The numbers that choose the operations.

ghost use Rattle.std.specs.Prelude.{◌<◌};

/// Numbers that look random, by a linear congruence.
#[derive(Drop)]
pub struct Generator {
    state: u64,
    ghost in_range: { state < 2147483648 },
}

impl Generator {
    pub fn new() -> Self {
        Generator { state: 1 }
    }

    /// A number below a limit.
    pub fn below(&mut self, limit: u32) -> u32
        requires { 0 < limit }
        ensures { result < limit }
    {
        self.state = (self.state * 1103515245 + 12345) % 2147483648;
        (self.state / 65536) as u32 % limit
    }
}
