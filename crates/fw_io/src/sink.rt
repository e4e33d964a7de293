//! Sinks, in memory and over a writer of the standard library, and writing a whole text.

ghost use Rattle.std.specs.Prelude.{◌≡◌, ◌+◌, ◌<◌, ◌≤◌, ◌^◌, ◌++◌, List, ℕ, Option, Some, None, [], true, false, IfSome, IsSome, IsNone, IfOk, OnOk, OnErr};
ghost use Rattle.fw_base.specs.Faults.{Rose, Counts};
ghost use Rattle.fw_io.specs.Sink.{TookOrRose, IsPart, Takes, AppendsFront};

use crate::Calls;
use fw_list::Memory;
use std::alloc::Global;
use std::io::Write;
use std::marker::Model;

/// What a write answers.
#[derive(Clone, Copy, Debug, PartialEq, Eq)]
pub enum Took {
    /// So many bytes of the piece were taken, from its front.
    Took(usize),
    Failed,
}

/// Where bytes go.
pub trait Sink {
    /// The bytes written, where it tells them.
    ghost written: { Self → Option (List ℕ) };

    /// How often it has failed.
    ghost faults: { Self → ℕ };

    /// Takes the front of the piece, at least one byte of it where it has any.
    fn write(&mut self, piece: &[u8]) -> Took
        ensures counts { Counts (faults self.old) (faults self.new) }
        ensures cause { TookOrRose (faults self.old) (faults self.new) result }
        ensures within { IsPart piece.now result }
        ensures told { IfSome (written self.old) (λ bytes. Takes bytes piece.now result (written self.new)) }
        ensures untold { IsNone (written self.old) → IsNone (written self.new) };
}

/// The sink failed before it had taken the whole text.
#[derive(Clone, Copy, Debug, PartialEq, Eq)]
pub struct WriteFault;

/// Writes the whole text. It takes no memory.
pub fn write_all<K: Sink>(sink: &mut K, text: &[u8]) -> Result<(), WriteFault>
    ensures ok { OnOk result (IfSome (K.written sink.old) (λ bytes. K.written sink.new ≡ Some (bytes ++ text.now))) }
    ensures err { OnErr result (IfSome (K.written sink.old) (λ bytes. AppendsFront bytes text.now (K.written sink.new))) }
    ensures fault { OnErr result (Rose (K.faults sink.old) (K.faults sink.new)) }
    ensures counts { K.faults sink.old ≤ K.faults sink.new }
    ensures quiet { OnOk result (K.faults sink.new ≡ K.faults sink.old) }
    ensures bounded { K.faults sink.old < 2 ^ 64 → K.faults sink.new < 2 ^ 64 }
    ensures untold { IsNone (K.written sink.old) → IsNone (K.written sink.new) }
{
    let mut at = 0;
    while at < text.len() {
        match sink.write(&text[at..]) {
            Took::Failed => return Err(WriteFault),
            Took::Took(n) => at += n,
        }
    }
    Ok(())
}

/// A sink in memory, which fails at the listed calls and where it has no room left.
#[derive(Drop)]
pub struct MemorySink {
    buffer: Vec<u8>,
    at: usize,
    fails: Calls,
    calls: u64,
    faults: u64,
}

impl Model for MemorySink {
    ghost use Rattle.std.specs.Prelude.{◌≤◌, take, vec_len};
    ghost use Rattle.fw_io.specs.Sink.{SinkState};

    ghost Value = { SinkState };

    ghost view = { λ s. record { written = take s.at s.buffer.items; room = vec_len s.buffer; fails = s.fails; calls = s.calls; faults = s.faults } };

    ghost invariant = { λ s. s.at ≤ vec_len s.buffer };
}

impl MemorySink {
    /// A sink with the memory for `room` bytes, and the calls that fail, counted from 0.
    pub fn new(alloc: Global, room: usize, fails: Calls) -> Result<MemorySink, Memory>
        ensures { IfOk result (λ sink. sink ≡ record { written = []; room = room; fails = fails; calls = 0; faults = 0 }) }
    {
        let buffer = vec![in alloc; 0; room]?;
        Ok(MemorySink {
            buffer,
            at: 0,
            fails,
            calls: 0,
            faults: 0,
        })
    }

    /// The bytes that were written.
    pub fn written(&self) -> &[u8]
        ensures { result.now ≡ self.now.written }
    {
        &self.buffer.as_slice()[..self.at]
    }
}

impl Sink for MemorySink {
    ghost use Rattle.std.specs.Prelude.{◌≡◌, ◌↔◌, Some};
    ghost use Rattle.fw_base.specs.Faults.{Counts, one_more};
    ghost use Rattle.fw_io.specs.Sink.{TookOrRose, IsPart, Takes, TakesWhatFits, MustFail, faults_after};
    ghost use Rattle.fw_io.specs.declared.sink.Took.TheVariants as took;

    ghost written = { λ s. Some s.written };

    ghost faults = { λ s. s.faults };

    fn write(&mut self, piece: &[u8]) -> Took
        ensures counts { Counts self.old.faults self.new.faults }
        ensures cause { TookOrRose self.old.faults self.new.faults result }
        ensures within { IsPart piece.now result }
        ensures told { Takes self.old.written piece.now result (Some self.new.written) }
        ensures fails { (result ≡ took.Failed) ↔ MustFail self.old piece.now }
        ensures takes { TakesWhatFits self.old piece.now result }
        ensures room { self.new.room ≡ self.old.room }
        ensures listed { self.new.fails ≡ self.old.fails }
        ensures called { self.new.calls ≡ one_more self.old.calls }
        ensures counted { self.new.faults ≡ faults_after self.old.faults result }
    {
        let call = self.calls;
        self.calls = self.calls.saturating_add(1);
        let left = self.buffer.len() - self.at;
        if self.fails.items().contains(&call) {
            self.faults = self.faults.saturating_add(1);
            return Took::Failed;
        }
        if !piece.is_empty() && left == 0 {
            self.faults = self.faults.saturating_add(1);
            return Took::Failed;
        }
        let n = if piece.len() < left {
            piece.len()
        } else {
            left
        };
        self.buffer[self.at..self.at + n].copy_from_slice(&piece[..n]);
        self.at += n;
        Took::Took(n)
    }
}

/// A sink over a writer of the standard library. Each error of the writer is a fault, and so is a write that takes nothing
/// of a piece that has bytes.
#[derive(Drop)]
pub struct WriterSink<W: Write> {
    inner: W,
    tells: bool,
    faults: u64,
}

impl<W: Write> Model for WriterSink<W> {
    ghost use Rattle.std.specs.Prelude.{IsTrue, IsSome};
    ghost use Rattle.fw_io.specs.Sink.{Outlet};

    ghost Value = { Outlet W };

    ghost view = { λ s. record { inner = s.inner; tells = s.tells; faults = s.faults } };

    ghost invariant = { λ s. IsTrue s.tells → IsSome (W.contents s.inner) };
}

impl<W: Write> WriterSink<W> {
    /// A sink that has not failed yet, and tells no bytes.
    pub fn new(inner: W) -> Self
        ensures { result ≡ record { inner = inner; tells = false; faults = 0 } }
    {
        WriterSink {
            inner,
            tells: false,
            faults: 0,
        }
    }

    /// A sink that has not failed yet, and tells the bytes of a writer that tells them.
    pub fn telling(inner: W) -> Self
        requires { IsSome (W.contents inner) }
        ensures { result ≡ record { inner = inner; tells = true; faults = 0 } }
    {
        WriterSink {
            inner,
            tells: true,
            faults: 0,
        }
    }
}

impl<W: Write> Sink for WriterSink<W> {
    ghost use Rattle.std.specs.Prelude.{◌≡◌, IfSome, IsNone};
    ghost use Rattle.fw_base.specs.Faults.{Counts};
    ghost use Rattle.fw_io.specs.Sink.{TookOrRose, IsPart, Takes, faults_after};
    ghost use Rattle.fw_io.specs.Source.{told_if};

    ghost written = { λ s. told_if s.tells (W.contents s.inner) };

    ghost faults = { λ s. s.faults };

    fn write(&mut self, piece: &[u8]) -> Took
        ensures counts { Counts self.old.faults self.new.faults }
        ensures cause { TookOrRose self.old.faults self.new.faults result }
        ensures within { IsPart piece.now result }
        ensures counted { self.new.faults ≡ faults_after self.old.faults result }
        ensures told { IfSome (told_if self.old.tells (W.contents self.old.inner)) (λ bytes. Takes bytes piece.now result (told_if self.new.tells (W.contents self.new.inner))) }
        ensures untold { IsNone (told_if self.old.tells (W.contents self.old.inner)) → IsNone (told_if self.new.tells (W.contents self.new.inner)) }
        ensures tells { self.new.tells ≡ self.old.tells }
        ensures wrote { IfSome (W.contents self.old.inner) (λ bytes. Takes bytes piece.now result (W.contents self.new.inner)) }
    {
        let faults = self.faults;
        match self.inner.write(piece) {
            Ok(n) if n > 0 || piece.is_empty() => Took::Took(n),
            _ => {
                self.faults = faults.saturating_add(1);
                Took::Failed
            }
        }
    }
}
