//! Sources of bytes, in memory and over std's readers.
//!
//! A source counts its faults, and says which bytes it has left where it can know. How bytes fall into lines is no
//! matter of a source.

ghost use Rattle.std.specs.Prelude.{◌≡◌, ℕ, ◌+◌, ◌≤◌, ◌↔◌, ◌++◌, List, Option, Some, None, length, take, drop, min, IsErr, IfOk, Contains};
ghost use Rattle.std.specs.Io.KnownBytes.{ReadConsumes};
ghost use Rattle.cas_base.specs.Faults.{FailsByCount};
ghost use Rattle.cas_lines.specs.Source.{Taken, taken_of, call_after, CountsFaults, GivesNext};

use cas_base::raised;
use std::error::Error;
use std::fmt;
use std::io::{self, ErrorKind, Read};
use std::marker::Model;

/// A source or a sink failed in a call, and counted it as a fault of its own.
#[derive(Clone, Copy, Debug, PartialEq, Eq, Hash)]
pub struct Failed;

impl fmt::Display for Failed {
    fn fmt<W: fmt::Write>(&self, f: &mut fmt::Formatter<W>) -> fmt::Result {
        f.write_str("the outside failed")
    }
}

impl Error for Failed {}

/// Where bytes come from.
pub trait Source {
    // the bytes left, where the source tells them
    ghost remaining: { Self → Option (List ℕ) };

    // how many faults there were. It never falls, and stands still at the greatest u64
    ghost faults_of: { Self → ℕ };

    // what a call may give: the source before it, its answer, and the source after it. Only a call shows that it holds
    ghost take_gives: { Self → Taken → Self → Type 0 };

    /// Puts the next bytes into the front of `buf`, and answers how many. 0 for a buffer with room is the end of the
    /// input. `Failed` comes only where the count of faults rose, and takes no byte.
    fn take(&mut self, buf: &mut [u8]) -> Result<usize, Failed>
        ensures bound { IfOk result (λ count. count ≤ length buf.old) }
        ensures bytes { ReadConsumes (remaining self.old) (remaining self.new) result buf.new }
        ensures by_count { FailsByCount result (faults_of self.old) (faults_of self.new) }
        ensures gives { take_gives self.old (taken_of result buf.new) self.new };

    /// How many faults there were.
    fn faults(&self) -> u64
        ensures { result ≡ faults_of self.now };
}

/// Bytes in memory, handed out in pieces, with calls that fail as told.
#[derive(Debug, Drop)]
pub struct MemorySource {
    bytes: Vec<u8>,
    at: usize,
    piece: usize,
    failing: Vec<u64>,
    calls: u64,
    faults: u64,
}

impl Model for MemorySource {
    ghost use Rattle.std.specs.Prelude.{◌≤◌, drop, vec_len};
    ghost use Rattle.cas_lines.specs.Source.{MemorySourceState};

    ghost Value = { MemorySourceState };

    ghost view = { λ s. record { left = drop s.at s.bytes.items; piece = s.piece; failing = s.failing.items; calls = s.calls; faults = s.faults } };

    ghost invariant = { λ s. (s.at ≤ vec_len s.bytes) × (1 ≤ s.piece) };
}

impl MemorySource {
    /// A source of `bytes` that gives at most `piece` of them in one call, and fails at the calls of `take` whose
    /// numbers, from 1, stand in `failing`. After 2^64 - 1 calls the number stands still.
    pub fn new(bytes: Vec<u8>, piece: usize, failing: Vec<u64>) -> MemorySource
        requires { 1 ≤ piece }
        ensures left { result.left ≡ bytes.items }
        ensures piece { result.piece ≡ piece }
        ensures failing { result.failing ≡ failing.items }
        ensures calls { result.calls ≡ 0 }
        ensures faults { result.faults ≡ 0 }
    {
        MemorySource {
            bytes,
            at: 0,
            piece,
            failing,
            calls: 0,
            faults: 0,
        }
    }
}

/// Copies bytes to the front of `buf`, as many as both have but at most `piece`, and answers how many.
fn copy_front(buf: &mut [u8], bytes: &[u8], piece: usize) -> usize
    ensures count { result ≡ min piece (min (length buf.old) (length bytes.now)) }
    ensures copied { buf.new ≡ take result bytes.now ++ drop result buf.old }
{
    let count = piece.min(buf.len().min(bytes.len()));
    buf[..count].copy_from_slice(&bytes[..count]);
    count
}

impl Source for MemorySource {
    ghost remaining = { λ s. Some s.left };

    ghost faults_of = { λ s. s.faults };

    ghost take_gives = { GivesNext };

    /// Fails exactly at the calls that were named, and else gives as many bytes as there are, as `buf` takes and as a
    /// piece has.
    fn take(&mut self, buf: &mut [u8]) -> Result<usize, Failed>
        ensures bound { IfOk result (λ count. count ≤ length buf.old) }
        ensures bytes { ReadConsumes (Some self.old.left) (Some self.new.left) result buf.new }
        ensures by_count { FailsByCount result self.old.faults self.new.faults }
        ensures gives { GivesNext self.old (taken_of result buf.new) self.new }
        ensures fails { IsErr result ↔ Contains self.old.failing (call_after self.old.calls) }
        ensures count { IfOk result
            (λ count. count ≡ min self.old.piece (min (length buf.old) (length self.old.left))) }
        ensures counted { self.new.calls ≡ call_after self.old.calls }
        ensures kept { (self.new.piece ≡ self.old.piece) × (self.new.failing ≡ self.old.failing) }
    {
        self.calls = self.calls.saturating_add(1);
        if self.failing.contains(&self.calls) {
            self.faults = raised(self.faults);
            return Err(Failed);
        }
        let count = copy_front(buf, &self.bytes[self.at..], self.piece);
        self.at += count;
        Ok(count)
    }

    /// How many calls failed.
    fn faults(&self) -> u64 {
        self.faults
    }
}

/// One of std's readers. It tells nothing of its bytes, and each error of the reader is a fault.
#[derive(Debug, Drop)]
pub struct StdSource<R> {
    reader: R,
    faults: u64,
}

impl<R: Read> StdSource<R> {
    /// The source over this reader, with no fault so far.
    pub fn over(reader: R) -> StdSource<R>
        ensures { ⟦<StdSource<R> as Source>⟧.faults_of result ≡ 0 }
    {
        StdSource { reader, faults: 0 }
    }
}

/// Reads once, or again for as long as a signal cuts in.
fn read_whole_call<R: Read>(reader: &mut R, buf: &mut [u8]) -> io::Result<usize>
    ensures { IfOk result (λ count. count ≤ length buf.old) }
{
    for _ in 0..u64::MAX {
        match reader.read(buf) {
            Err(error) if error.kind() == ErrorKind::Interrupted => {}
            answer => return answer,
        }
    }
    reader.read(buf)
}

impl<R: Read> Source for StdSource<R> {
    ghost remaining = { λ _. None };

    ghost faults_of = { λ s. s.faults };

    ghost take_gives = { λ old taken new. CountsFaults old.faults taken new.faults };

    fn take(&mut self, buf: &mut [u8]) -> Result<usize, Failed> {
        match read_whole_call(&mut self.reader, buf) {
            Ok(count) => Ok(count),
            Err(_) => {
                self.faults = raised(self.faults);
                Err(Failed)
            }
        }
    }

    fn faults(&self) -> u64 {
        self.faults
    }
}
