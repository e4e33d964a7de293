//! Sources, in memory and over a reader of the standard library, and reading to the end.

ghost use Rattle.std.specs.Prelude.{◌≡◌, ◌+◌, ◌<◌, ◌≤◌, ◌^◌, List, ℕ, Option, Some, None, [], true, false, length, IfSome, IsSome, IsNone, IfOk, IsErrOf};
ghost use Rattle.fw_base.specs.Faults.{Rose, Counts};
ghost use Rattle.fw_io.specs.Source.{GotOrRose, Reads, IsWithin, KeepsBuffer, ReadsUpTo, ReadsPast};

use fw_list::{Bytes, Items, Memory};
use std::alloc::Global;
use std::io::Read;
use std::marker::Model;

/// The calls of something outside that fail: their numbers from 0, ascending.
pub type Calls = Items<u64>;

/// What a read answers.
#[derive(Clone, Copy, Debug, PartialEq, Eq)]
pub enum Got {
    /// So many bytes stand in the front of the buffer.
    Got(usize),
    Failed,
}

/// Where bytes come from.
pub trait Source {
    /// The bytes that it has left, where it tells them.
    ghost left: { Self → Option (List ℕ) };

    /// How often it has failed.
    ghost faults: { Self → ℕ };

    /// Fills the front of the buffer with what comes next; nothing comes only at the end.
    fn read(&mut self, buf: &mut [u8]) -> Got
        ensures counts { Counts (faults self.old) (faults self.new) }
        ensures cause { GotOrRose (faults self.old) (faults self.new) result }
        ensures within { IsWithin buf.old result }
        ensures kept { KeepsBuffer buf.old result buf.new }
        ensures told { IfSome (left self.old) (λ bytes. Reads bytes buf.old result (left self.new) buf.new) }
        ensures untold { IsNone (left self.old) → IsNone (left self.new) };
}

/// Why a source was not read to its end.
#[derive(Clone, Copy, Debug, PartialEq, Eq)]
pub enum ReadAll {
    Fault,
    TooLong,
    Memory,
}

impl From<Memory> for ReadAll {
    ghost use Rattle.fw_io.specs.declared.source.ReadAll.TheVariants as error;

    ghost from_gives = { λ _ e. e ≡ error.Memory };

    fn from(_: Memory) -> Self {
        ReadAll::Memory
    }
}

/// All that a source has left, where that is at most `limit` bytes. It reads no more than one byte past the limit, and that
/// one only where it answers that there is more.
pub fn read_all<S: Source>(alloc: Global, source: &mut S, limit: usize) -> Result<Bytes, ReadAll>
    ensures all { IfOk result (λ bytes. IfSome (S.left source.old) (λ all. bytes ≡ all)) }
    ensures end { IfOk result (λ _. IfSome (S.left source.old) (λ _. S.left source.new ≡ Some [])) }
    ensures fits { IfOk result (λ bytes. length bytes ≤ limit) }
    ensures long { IsErrOf result ReadAll.TooLong → IfSome (S.left source.old) (λ all. ReadsPast limit all (S.left source.new)) }
    ensures fault { IsErrOf result ReadAll.Fault → Rose (S.faults source.old) (S.faults source.new) }
    ensures failed { IsErrOf result ReadAll.Fault → IfSome (S.left source.old) (λ all. ReadsUpTo limit all (S.left source.new)) }
    ensures counts { Counts (S.faults source.old) (S.faults source.new) }
    ensures quiet { ¬ IsErrOf result ReadAll.Fault → S.faults source.new ≡ S.faults source.old }
    ensures up_to { ¬ IsErrOf result ReadAll.TooLong → IfSome (S.left source.old) (λ all. ReadsUpTo limit all (S.left source.new)) }
    ensures wanted { IsErrOf result ReadAll.Memory → IfSome (S.left source.old) (λ all. 0 < length all) }
    ensures most { IfSome (S.left source.old) (λ all. ReadsUpTo (limit + 1) all (S.left source.new)) }
    ensures untold { IsNone (S.left source.old) → IsNone (S.left source.new) }
{
    let mut bytes = Bytes::new(alloc);
    let mut buffer = [0; 1024];
    loop {
        // One byte more than there may be, where the buffer has room for it.
        let left = limit - bytes.len();
        let want = if left < 1024 { left + 1 } else { 1024 };
        match source.read(&mut buffer[..want]) {
            Got::Failed => return Err(ReadAll::Fault),
            Got::Got(n) => {
                if n == 0 {
                    return Ok(bytes);
                }
                if n > left {
                    return Err(ReadAll::TooLong);
                }
                bytes.append(&buffer[..n])?;
            }
        }
    }
}

/// A source over bytes in memory, which fails at the listed calls.
#[derive(Drop)]
pub struct MemorySource {
    bytes: Bytes,
    at: usize,
    fails: Calls,
    calls: u64,
    faults: u64,
}

impl Model for MemorySource {
    ghost use Rattle.std.specs.Prelude.{◌≤◌, drop, length};
    ghost use Rattle.fw_io.specs.Source.{SourceState};

    ghost Value = { SourceState };

    ghost view = { λ s. record { left = drop s.at s.bytes; fails = s.fails; calls = s.calls; faults = s.faults } };

    ghost invariant = { λ s. s.at ≤ length s.bytes };
}

impl MemorySource {
    /// The bytes, none of them read yet, and the calls that fail, counted from 0.
    pub fn new(bytes: Bytes, fails: Calls) -> Self
        ensures { result ≡ record { left = bytes; fails = fails; calls = 0; faults = 0 } }
    {
        MemorySource {
            bytes,
            at: 0,
            fails,
            calls: 0,
            faults: 0,
        }
    }
}

impl Source for MemorySource {
    ghost use Rattle.std.specs.Prelude.{◌≡◌, ◌↔◌, Some, Contains};
    ghost use Rattle.fw_base.specs.Faults.{Counts, one_more};
    ghost use Rattle.fw_io.specs.Source.{GotOrRose, Reads, IsWithin, KeepsBuffer, GivesWhatFits, faults_after};
    ghost use Rattle.fw_io.specs.declared.source.Got.TheVariants as got;

    ghost left = { λ s. Some s.left };

    ghost faults = { λ s. s.faults };

    fn read(&mut self, buf: &mut [u8]) -> Got
        ensures counts { Counts self.old.faults self.new.faults }
        ensures cause { GotOrRose self.old.faults self.new.faults result }
        ensures within { IsWithin buf.old result }
        ensures kept { KeepsBuffer buf.old result buf.new }
        ensures told { Reads self.old.left buf.old result (Some self.new.left) buf.new }
        ensures fails { (result ≡ got.Failed) ↔ Contains self.old.fails self.old.calls }
        ensures gives { GivesWhatFits self.old buf.old result }
        ensures listed { self.new.fails ≡ self.old.fails }
        ensures called { self.new.calls ≡ one_more self.old.calls }
        ensures counted { self.new.faults ≡ faults_after self.old.faults result }
    {
        let call = self.calls;
        self.calls = self.calls.saturating_add(1);
        if self.fails.items().contains(&call) {
            self.faults = self.faults.saturating_add(1);
            return Got::Failed;
        }
        let left = &self.bytes.items()[self.at..];
        let n = if left.len() < buf.len() {
            left.len()
        } else {
            buf.len()
        };
        buf[..n].copy_from_slice(&left[..n]);
        self.at += n;
        Got::Got(n)
    }
}

/// A source over a reader of the standard library. Each error of the reader is a fault.
#[derive(Drop)]
pub struct ReaderSource<R: Read> {
    inner: R,
    tells: bool,
    faults: u64,
}

impl<R: Read> Model for ReaderSource<R> {
    ghost use Rattle.std.specs.Prelude.{IsTrue, IsSome};
    ghost use Rattle.fw_io.specs.Source.{Inlet};

    ghost Value = { Inlet R };

    ghost view = { λ s. record { inner = s.inner; tells = s.tells; faults = s.faults } };

    ghost invariant = { λ s. IsTrue s.tells → IsSome (R.remaining s.inner) };
}

impl<R: Read> ReaderSource<R> {
    /// A source that has not failed yet, and tells no bytes.
    pub fn new(inner: R) -> Self
        ensures { result ≡ record { inner = inner; tells = false; faults = 0 } }
    {
        ReaderSource {
            inner,
            tells: false,
            faults: 0,
        }
    }

    /// A source that has not failed yet, and tells the bytes of a reader that tells them.
    pub fn telling(inner: R) -> Self
        requires { IsSome (R.remaining inner) }
        ensures { result ≡ record { inner = inner; tells = true; faults = 0 } }
    {
        ReaderSource {
            inner,
            tells: true,
            faults: 0,
        }
    }
}

impl<R: Read> Source for ReaderSource<R> {
    ghost use Rattle.std.specs.Prelude.{◌≡◌, IfSome, IsNone};
    ghost use Rattle.fw_base.specs.Faults.{Counts};
    ghost use Rattle.fw_io.specs.Source.{GotOrRose, IsWithin, KeepsBuffer, Reads, told_if, faults_after};

    ghost left = { λ s. told_if s.tells (R.remaining s.inner) };

    ghost faults = { λ s. s.faults };

    fn read(&mut self, buf: &mut [u8]) -> Got
        ensures counts { Counts self.old.faults self.new.faults }
        ensures cause { GotOrRose self.old.faults self.new.faults result }
        ensures within { IsWithin buf.old result }
        ensures kept { KeepsBuffer buf.old result buf.new }
        ensures counted { self.new.faults ≡ faults_after self.old.faults result }
        ensures told { IfSome (told_if self.old.tells (R.remaining self.old.inner)) (λ bytes. Reads bytes buf.old result (told_if self.new.tells (R.remaining self.new.inner)) buf.new) }
        ensures untold { IsNone (told_if self.old.tells (R.remaining self.old.inner)) → IsNone (told_if self.new.tells (R.remaining self.new.inner)) }
        ensures tells { self.new.tells ≡ self.old.tells }
        ensures gave { IfSome (R.remaining self.old.inner) (λ bytes. Reads bytes buf.old result (R.remaining self.new.inner) buf.new) }
    {
        let faults = self.faults;
        // The reader fills a block of its own: nothing is known of it after an error.
        let mut block = [0; 1024];
        let want = if buf.len() < 1024 { buf.len() } else { 1024 };
        match self.inner.read(&mut block[..want]) {
            Ok(n) => {
                buf[..n].copy_from_slice(&block[..n]);
                Got::Got(n)
            }
            Err(_) => {
                self.faults = faults.saturating_add(1);
                Got::Failed
            }
        }
    }
}
