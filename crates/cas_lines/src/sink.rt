//! Sinks for bytes, in memory and over std's writers.
//!
//! A sink counts its faults, and says which bytes it holds where it can know. What is written is no matter of a sink.

ghost use Rattle.std.specs.Prelude.{◌≡◌, ℕ, ◌<◌, ◌≤◌, [], List, Option, Some, None, length, min, IsErr, IfOk, OnOk, OnErr, Contains};
ghost use Rattle.std.specs.Io.KnownBytes.{Appends, WriteAppends};
ghost use Rattle.cas_base.specs.Faults.{FailsByCount};
ghost use Rattle.cas_lines.specs.Source.{call_after};
ghost use Rattle.cas_lines.specs.Sink.{AppendsFront};

use crate::source::Failed;
use cas_base::raised;
use std::alloc::Global;
use std::io::{self, ErrorKind, Write};
use std::marker::Model;

/// Where bytes go.
pub trait Sink {
    // the bytes held, where the sink tells them
    ghost contents: { Self → Option (List ℕ) };

    // how many faults there were. It never falls, and stands still at the greatest u64
    ghost faults_of: { Self → ℕ };

    /// Appends a front of `bytes`, and answers its length, which is above 0 where there are bytes. `Failed` comes only
    /// where the count of faults rose, and appends nothing.
    fn put(&mut self, bytes: &[u8]) -> Result<usize, Failed>
        ensures bound { IfOk result (λ count. count ≤ length bytes.now) }
        ensures progress { IfOk result (λ count. 0 < length bytes.now → 0 < count) }
        ensures bytes { WriteAppends (contents self.old) (contents self.new) result bytes.now }
        ensures by_count { FailsByCount result (faults_of self.old) (faults_of self.new) };

    /// How many faults there were.
    fn faults(&self) -> u64
        ensures { result ≡ faults_of self.now };
}

/// Writes all of `bytes`. After `Failed`, which comes only where the sink's count of faults rose, the sink has a front
/// of them and not all.
pub fn put_all<K: Sink>(sink: &mut K, bytes: &[u8]) -> Result<(), Failed>
    ensures all { OnOk result (Appends (K.contents sink.old) (K.contents sink.new) bytes.now) }
    ensures front { OnErr result
        (AppendsFront (K.contents sink.old) (K.contents sink.new) bytes.now) }
    ensures by_count { FailsByCount result (K.faults_of sink.old) (K.faults_of sink.new) }
{
    let mut written = 0;
    while written < bytes.len() {
        written += sink.put(&bytes[written..])?;
    }
    Ok(())
}

/// Bytes in memory, taken in pieces, with calls that fail as told.
#[derive(Debug, Drop)]
pub struct MemorySink {
    held: Vec<u8>,
    piece: usize,
    failing: Vec<u64>,
    calls: u64,
    faults: u64,
}

impl Model for MemorySink {
    ghost use Rattle.std.specs.Prelude.{◌≤◌};
    ghost use Rattle.cas_lines.specs.Sink.{MemorySinkState};

    ghost Value = { MemorySinkState };

    ghost view = { λ s. record { held = s.held.items; piece = s.piece; failing = s.failing.items; calls = s.calls; faults = s.faults } };

    ghost invariant = { λ s. 1 ≤ s.piece };
}

impl MemorySink {
    /// An empty sink that takes at most `piece` bytes in one call, and fails at the calls of `put` whose numbers, from
    /// 1, stand in `failing`. After 2^64 - 1 calls the number stands still.
    pub fn new(alloc: Global, piece: usize, failing: Vec<u64>) -> MemorySink
        requires { 1 ≤ piece }
        ensures held { result.held ≡ [] }
        ensures piece { result.piece ≡ piece }
        ensures failing { result.failing ≡ failing.items }
        ensures calls { result.calls ≡ 0 }
        ensures faults { result.faults ≡ 0 }
    {
        MemorySink {
            held: Vec::new(alloc),
            piece,
            failing,
            calls: 0,
            faults: 0,
        }
    }

    /// What was put in so far.
    pub fn bytes(&self) -> &[u8]
        ensures { result.now ≡ self.now.held }
    {
        self.held.as_slice()
    }
}

impl Sink for MemorySink {
    ghost contents = { λ s. Some s.held };

    ghost faults_of = { λ s. s.faults };

    /// Fails at the calls that were named, and elsewhere only where there is no memory. Else it takes as many bytes as
    /// there are and as a piece has.
    fn put(&mut self, bytes: &[u8]) -> Result<usize, Failed>
        ensures bound { IfOk result (λ count. count ≤ length bytes.now) }
        ensures progress { IfOk result (λ count. 0 < length bytes.now → 0 < count) }
        ensures bytes { WriteAppends (Some self.old.held) (Some self.new.held) result bytes.now }
        ensures by_count { FailsByCount result self.old.faults self.new.faults }
        ensures fails { Contains self.old.failing (call_after self.old.calls) → IsErr result }
        ensures count { IfOk result (λ count. count ≡ min self.old.piece (length bytes.now)) }
        ensures counted { self.new.calls ≡ call_after self.old.calls }
        ensures kept { (self.new.piece ≡ self.old.piece) × (self.new.failing ≡ self.old.failing) }
    {
        self.calls = self.calls.saturating_add(1);
        let count = self.piece.min(bytes.len());
        if self.failing.contains(&self.calls)
            || self.held.extend_from_slice(&bytes[..count]).is_err()
        {
            self.faults = raised(self.faults);
            return Err(Failed);
        }
        Ok(count)
    }

    /// How many calls failed.
    fn faults(&self) -> u64 {
        self.faults
    }
}

/// One of std's writers. It tells nothing of its bytes. Each error of the writer is a fault, and so is its answer 0
/// where there are bytes. It is never flushed, so give it a writer that keeps nothing back.
#[derive(Debug, Drop)]
pub struct StdSink<W> {
    writer: W,
    faults: u64,
}

impl<W: Write> StdSink<W> {
    /// The sink over this writer, with no fault so far.
    pub fn over(writer: W) -> StdSink<W>
        ensures { ⟦<StdSink<W> as Sink>⟧.faults_of result ≡ 0 }
    {
        StdSink { writer, faults: 0 }
    }
}

/// Writes once, or again for as long as a signal cuts in.
fn write_whole_call<W: Write>(writer: &mut W, bytes: &[u8]) -> io::Result<usize>
    ensures { IfOk result (λ count. count ≤ length bytes.now) }
{
    for _ in 0..u64::MAX {
        match writer.write(bytes) {
            Err(error) if error.kind() == ErrorKind::Interrupted => {}
            answer => return answer,
        }
    }
    writer.write(bytes)
}

impl<W: Write> Sink for StdSink<W> {
    ghost contents = { λ _. None };

    ghost faults_of = { λ s. s.faults };

    fn put(&mut self, bytes: &[u8]) -> Result<usize, Failed> {
        match write_whole_call(&mut self.writer, bytes) {
            Ok(count) if 0 < count || bytes.is_empty() => Ok(count),
            _ => {
                self.faults = raised(self.faults);
                Err(Failed)
            }
        }
    }

    fn faults(&self) -> u64 {
        self.faults
    }
}
