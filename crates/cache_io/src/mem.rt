//! A source and a sink in memory, with plans of faults.

ghost use Rattle.std.specs.Prelude.{◌≡◌, ◌≤◌, ◌<◌, ◌-◌, ◌^◌, ◌↔◌, [], length, min, take, OnOk, IfOk, IsErrOf};
ghost use Rattle.std.specs.Io.{ReadsAtMost};
ghost use Rattle.std.specs.Io.KnownBytes.{ReadConsumes, WriteAppends};
ghost use Rattle.cache_base.specs.Causes.{HasCause, one_more};

use crate::{Sink, SinkFault, Source, SourceFault};
use cache_base::{Bytes, Numbers};
use std::alloc::Global;

// Copies as long a prefix as the buffer takes, and no more than `most`.
fn fill(from: &[u8], buf: &mut [u8], most: usize) -> usize
    ensures count { result ≡ min (length from.now) (min (length buf.old) most) }
    ensures front { take result buf.new ≡ take result from.now }
{
    let n = from.len().min(buf.len().min(most));
    buf[..n].copy_from_slice(&from[..n]);
    n
}

/// Bytes in memory, which are read from the beginning. Calls with planned numbers, from 1 on, fail, and the others give
/// no more than a piece.
#[derive(Drop)]
pub struct MemSource {
    bytes: Bytes,
    at: usize,
    planned: Numbers,
    piece: usize,
    calls: u64,
    faults: u64,
    ghost within: { at ≤ length bytes },
    ghost some: { 0 < piece },
}

impl MemSource {
    ghost use Rattle.cache_io.specs.Mem.{left_in, failing_reads, piece_of, read_faults_of, reads_of};

    /// A source that never fails.
    pub fn new(alloc: Global, bytes: Bytes) -> MemSource
        ensures left { left_in result ≡ bytes }
        ensures plan { failing_reads result ≡ [] }
        ensures piece { piece_of result ≡ 2 ^ 64 - 1 }
        ensures calls { reads_of result ≡ 0 }
        ensures faults { read_faults_of result ≡ 0 }
    {
        MemSource::with_plan(bytes, Numbers::new(alloc), usize::MAX)
    }

    /// A source of which the reads with these numbers fail, and the others give at most `piece` bytes.
    pub fn with_plan(bytes: Bytes, fail: Numbers, piece: usize) -> MemSource
        requires { 0 < piece }
        ensures left { left_in result ≡ bytes }
        ensures plan { failing_reads result ≡ fail }
        ensures piece { piece_of result ≡ piece }
        ensures calls { reads_of result ≡ 0 }
        ensures faults { read_faults_of result ≡ 0 }
    {
        MemSource {
            bytes,
            at: 0,
            planned: fail,
            piece,
            calls: 0,
            faults: 0,
        }
    }
}

impl Source for MemSource {
    ghost use Rattle.std.specs.Prelude.{Some};
    ghost use Rattle.cache_io.specs.Mem.{left_in, failing_reads, piece_of, reads_of, FailsNextRead};

    ghost left = { λ s. Some (left_in s) };

    ghost faults = { λ s. s.faults };

    fn read(&mut self, buf: &mut [u8]) -> Result<usize, SourceFault>
        requires { 0 < length buf.old }
        ensures bound { ReadsAtMost result buf.new }
        ensures bytes { ReadConsumes (Some (left_in self.old))
            (Some (left_in self.new)) result buf.new }
        ensures cause { HasCause (IsErrOf result SourceFault.Failed)
            self.old.faults self.new.faults }
        ensures count { IfOk result (λ n.
            n ≡ min (length (left_in self.old)) (min (length buf.old) (piece_of self.old))) }
        ensures fails { IsErrOf result SourceFault.Failed ↔ FailsNextRead self.old }
        ensures calls { reads_of self.new ≡ one_more (reads_of self.old) }
        ensures plan { (failing_reads self.new ≡ failing_reads self.old)
            × (piece_of self.new ≡ piece_of self.old) }
    {
        self.calls = self.calls.saturating_add(1);
        if self.planned.has(self.calls) {
            self.faults = self.faults.saturating_add(1);
            return Err(SourceFault::Failed);
        }
        let n = fill(&self.bytes.as_slice()[self.at..], buf, self.piece);
        self.at += n;
        Ok(n)
    }
}

/// A sink that keeps what it takes. Calls with planned numbers, from 1 on, fail.
#[derive(Drop)]
pub struct MemSink {
    bytes: Bytes,
    planned: Numbers,
    calls: u64,
    faults: u64,
}

impl MemSink {
    ghost use Rattle.cache_io.specs.Mem.{taken_in, failing_writes, write_faults_of, writes_of};

    /// A sink that never fails.
    pub fn new(alloc: Global) -> MemSink
        ensures taken { taken_in result ≡ [] }
        ensures plan { failing_writes result ≡ [] }
        ensures calls { writes_of result ≡ 0 }
        ensures faults { write_faults_of result ≡ 0 }
    {
        MemSink::with_plan(alloc, Numbers::new(alloc))
    }

    /// A sink of which the writes with these numbers fail.
    pub fn with_plan(alloc: Global, fail: Numbers) -> MemSink
        ensures taken { taken_in result ≡ [] }
        ensures plan { failing_writes result ≡ fail }
        ensures calls { writes_of result ≡ 0 }
        ensures faults { write_faults_of result ≡ 0 }
    {
        MemSink {
            bytes: Bytes::new(alloc),
            planned: fail,
            calls: 0,
            faults: 0,
        }
    }

    /// The bytes that were taken so far.
    pub fn bytes(&self) -> &[u8]
        ensures { result.now ≡ taken_in self.now }
    {
        self.bytes.as_slice()
    }
}

impl Sink for MemSink {
    ghost use Rattle.std.specs.Prelude.{Some};
    ghost use Rattle.cache_io.specs.Mem.{taken_in, failing_writes, writes_of, FailsNextWrite};

    ghost taken = { λ s. Some (taken_in s) };

    ghost faults = { λ s. s.faults };

    fn write(&mut self, b: &[u8]) -> Result<usize, SinkFault>
        requires { 0 < length b.now }
        ensures bound { IfOk result (λ n. (0 < n) × (n ≤ length b.now)) }
        ensures bytes { WriteAppends (Some (taken_in self.old))
            (Some (taken_in self.new)) result b.now }
        ensures cause { HasCause (IsErrOf result SinkFault.Failed) self.old.faults self.new.faults }
        ensures whole { IfOk result (λ n. n ≡ length b.now) }
        ensures fails { IsErrOf result SinkFault.Failed ↔ FailsNextWrite self.old }
        ensures done { OnOk result (¬ (FailsNextWrite self.old)) }
        ensures calls { writes_of self.new ≡ one_more (writes_of self.old) }
        ensures plan { failing_writes self.new ≡ failing_writes self.old }
    {
        self.calls = self.calls.saturating_add(1);
        if self.planned.has(self.calls) {
            self.faults = self.faults.saturating_add(1);
            return Err(SinkFault::Failed);
        }
        match self.bytes.extend(b) {
            Ok(()) => Ok(b.len()),
            Err(_) => Err(SinkFault::Memory),
        }
    }
}
