//! A source and a sink that never fail.

ghost use Rattle.std.specs.Prelude.{◌≡◌, ℕ};

use crate::{Got, Sink, Source, Took};
use fw_list::Bytes;
use std::marker::Model;

/// A source over bytes in memory that never fails.
#[derive(Drop)]
pub struct SteadySource {
    bytes: Bytes,
    at: usize,
}

impl Model for SteadySource {
    ghost use Rattle.std.specs.Prelude.{List, ℕ, ◌≤◌, drop, length};

    ghost Value = { List ℕ };

    ghost view = { λ s. drop s.at s.bytes };

    ghost invariant = { λ s. s.at ≤ length s.bytes };
}

impl SteadySource {
    /// The bytes, none of them read yet.
    pub fn new(bytes: Bytes) -> Self
        ensures { result ≡ bytes }
    {
        SteadySource { bytes, at: 0 }
    }
}

impl Source for SteadySource {
    ghost use Rattle.std.specs.Prelude.{◌≡◌, Some};
    ghost use Rattle.fw_base.specs.Faults.{Counts};
    ghost use Rattle.fw_io.specs.Source.{GotOrRose, Reads, IsWithin, KeepsBuffer};
    ghost use Rattle.fw_io.specs.Steady.{GivesAllThatFit};

    ghost left = { λ s. Some s };

    ghost faults = { λ _. 0 };

    fn read(&mut self, buf: &mut [u8]) -> Got
        ensures counts { Counts 0 0 }
        ensures cause { GotOrRose 0 0 result }
        ensures within { IsWithin buf.old result }
        ensures kept { KeepsBuffer buf.old result buf.new }
        ensures told { Reads self.old buf.old result (Some self.new) buf.new }
        ensures gives { GivesAllThatFit self.old buf.old result }
    {
        let left = &self.bytes.items()[self.at..];
        let n = if left.len() < buf.len() {
            left.len()
        } else {
            buf.len()
        };
        buf[..n].copy_from_slice(&left[..n]);
        self.at += n;
        Got::Got(n)
    }
}

/// A sink that never fails. It drops what it takes, and tells no bytes.
#[derive(Clone, Copy, Debug, PartialEq, Eq)]
pub struct SteadySink;

impl SteadySink {
    /// A sink that never fails.
    pub fn new() -> Self {
        SteadySink
    }
}

impl Sink for SteadySink {
    ghost use Rattle.std.specs.Prelude.{◌≡◌, None, length};
    ghost use Rattle.fw_base.specs.Faults.{Counts};
    ghost use Rattle.fw_io.specs.Sink.{TookOrRose, IsPart};
    ghost use Rattle.fw_io.specs.declared.sink.Took.TheVariants as took;

    ghost written = { λ _. None };

    ghost faults = { λ _. 0 };

    fn write(&mut self, piece: &[u8]) -> Took
        ensures counts { Counts 0 0 }
        ensures cause { TookOrRose 0 0 result }
        ensures within { IsPart piece.now result }
        ensures all { result ≡ took.Took (length piece.now) }
    {
        Took::Took(piece.len())
    }
}
