//! A reader and a writer that move one byte a call, and fail at one call; and a reader that makes its bytes.

use std::io;
use std::io::{ErrorKind, Read, Write};

/// So many bytes are left; the call of this number fails.
#[derive(Drop)]
pub struct Halting {
    pub left: usize,
    pub fails: u32,
    pub calls: u32,
}

impl Halting {
    /// Whether this call fails.
    fn fails(&mut self) -> bool {
        let call = self.calls;
        self.calls = call.saturating_add(1);
        call == self.fails
    }
}

impl Read for Halting {
    fn read(&mut self, buf: &mut [u8]) -> io::Result<usize> {
        if self.fails() {
            return Err(io::Error::from(ErrorKind::Other));
        }
        if buf.is_empty() || self.left == 0 {
            return Ok(0);
        }
        self.left -= 1;
        buf[0] = b'x';
        Ok(1)
    }
}

impl Write for Halting {
    fn write(&mut self, piece: &[u8]) -> io::Result<usize> {
        if self.fails() {
            return Err(io::Error::from(ErrorKind::Other));
        }
        if piece.is_empty() || self.left == 0 {
            return Ok(0);
        }
        self.left -= 1;
        Ok(1)
    }

    fn flush(&mut self) -> io::Result<()> {
        Ok(())
    }
}

/// A reader that has so many `#` left.
#[derive(Drop)]
pub struct Endless {
    pub left: usize,
}

impl Read for Endless {
    fn read(&mut self, buf: &mut [u8]) -> io::Result<usize> {
        let n = if self.left < buf.len() {
            self.left
        } else {
            buf.len()
        };
        buf[..n].fill(b'#');
        self.left -= n;
        Ok(n)
    }
}
