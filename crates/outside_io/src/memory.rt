//! A source and a sink in memory, some of whose calls fail as they are told.
ghost use Rattle.std.specs.Prelude.{◌≡◌, ◌<◌, ◌≤◌, ◌+◌, ◌-◌, List, [], length, take, min, Some, slice_range, is_err, IfOk, IsErrOf, IsTrue, ◌↔◌};
ghost use Rattle.std.specs.Io.{ReadsAtMost, WritesAtMost};
ghost use Rattle.std.specs.Io.KnownBytes.{ReadConsumes, WriteAppends};
ghost use Rattle.outside_io.specs.Outside.{count_after, is_write_fault};
ghost use Rattle.outside_io.specs.Memory.{next_fails, one_more_call};

use crate::errors::{Failed, WriteError};
use crate::traits::{Sink, Source};
use std::alloc::Global;
use std::marker::Model;

/// Counts the calls of a source or a sink, from 1, and fails those whose numbers are listed.
#[derive(Debug, Drop)]
struct Failing {
    fail: Vec<u64>,
    made: u64,
    faults: u64,
}

impl Model for Failing {
    ghost use Rattle.outside_io.specs.Memory.{Calls};

    ghost Value = { Calls };

    ghost view = { λ f. record { failing = f.fail.items; made = f.made; faults = f.faults } };
}

impl Failing {
    fn new(fail: Vec<u64>) -> Failing
        ensures { result ≡ record { failing = fail.items; made = 0; faults = 0 } }
    {
        Failing {
            fail,
            made: 0,
            faults: 0,
        }
    }

    /// Counts one more call, and says whether it fails.
    fn next_fails(&mut self) -> bool
        ensures answer { result ≡ next_fails self.old }
        ensures after { self.new ≡ one_more_call self.old }
    {
        self.made = self.made.saturating_add(1);
        let fails = self.fail.contains(&self.made);
        if fails {
            self.faults = self.faults.saturating_add(1);
        }
        fails
    }
}

/// Copies the first bytes of `rest` that fit, at most `piece` of them, and says how many.
pub fn give(rest: &[u8], piece: usize, buf: &mut [u8]) -> usize
    ensures count { result ≡ min piece (min (length buf.old) (length rest.now)) }
    ensures given { take result buf.new ≡ take result rest.now }
{
    let count = piece.min(buf.len().min(rest.len()));
    buf[..count].copy_from_slice(&rest[..count]);
    count
}

/// A source of bytes in memory, some of whose calls fail.
///
/// Contracts see the bytes to come, how many a read gives at most, and its calls.
#[derive(Debug, Drop)]
pub struct MemorySource {
    bytes: Vec<u8>,
    at: usize,
    piece: usize,
    failing: Failing,
}

impl Model for MemorySource {
    ghost use Rattle.std.specs.Prelude.{◌<◌, ◌≤◌, length, drop};
    ghost use Rattle.outside_io.specs.Memory.{Giving};

    ghost Value = { Giving };

    ghost view = { λ s. record { rest = drop s.at s.bytes.items; piece = s.piece; calls = s.failing } };

    ghost invariant = { λ s. (0 < s.piece) × (s.at ≤ length s.bytes.items) };
}

impl MemorySource {
    /// A source of these bytes that gives at most `piece` of them per call.
    ///
    /// The calls of `read` are counted from 1, up to the last value of `u64`, where the count
    /// stays. Those whose numbers stand in `fail` fail, and give nothing.
    pub fn new(_alloc: Global, bytes: Vec<u8>, piece: usize, fail: Vec<u64>) -> MemorySource
        requires { 0 < piece }
        ensures rest { result.rest ≡ bytes.items }
        ensures piece { result.piece ≡ piece }
        ensures calls { result.calls ≡ record { failing = fail.items; made = 0; faults = 0 } }
    {
        MemorySource {
            bytes,
            at: 0,
            piece,
            failing: Failing::new(fail),
        }
    }
}

impl Source for MemorySource {
    ghost left = { λ s. Some s.rest };

    ghost faults = { λ s. s.calls.faults };

    #[tactic(auto, using(crate::proofs::Streams::given_rest))]
    fn read(&mut self, buf: &mut [u8]) -> Result<usize, Failed>
        requires { 0 < length buf.old }
        ensures bound { ReadsAtMost result buf.new }
        ensures bytes { ReadConsumes (Some self.old.rest) (Some self.new.rest) result buf.new }
        ensures faults { self.new.calls.faults ≡ count_after (is_err result) self.old.calls.faults }

        // What this source says beyond any source.
        ensures fails { is_err result ≡ next_fails self.old.calls }
        ensures count { IfOk result (λ n. n ≡ min self.old.piece (min (length buf.old) (length self.old.rest))) }
        ensures calls { self.new.calls ≡ one_more_call self.old.calls }
        ensures piece { self.new.piece ≡ self.old.piece }
    {
        if self.failing.next_fails() {
            return Err(Failed);
        }
        let count = give(&self.bytes[self.at..], self.piece, buf);
        self.at += count;
        Ok(count)
    }
}

/// A sink that keeps its bytes in memory, and some of whose calls fail.
///
/// Contracts see the bytes taken so far, how many a write takes at most, and its calls.
#[derive(Debug, Drop)]
pub struct MemorySink {
    bytes: Vec<u8>,
    piece: usize,
    failing: Failing,
}

impl Model for MemorySink {
    ghost use Rattle.std.specs.Prelude.{◌<◌};
    ghost use Rattle.outside_io.specs.Memory.{Taking};

    ghost Value = { Taking };

    ghost view = { λ s. record { taken = s.bytes.items; piece = s.piece; calls = s.failing } };

    ghost invariant = { λ s. 0 < s.piece };
}

impl MemorySink {
    /// An empty sink that takes at most `piece` bytes per call.
    ///
    /// The calls of `write` are counted from 1, up to the last value of `u64`, where the count
    /// stays. Those whose numbers stand in `fail` fail, and take nothing.
    pub fn new(alloc: Global, piece: usize, fail: Vec<u64>) -> MemorySink
        requires { 0 < piece }
        ensures taken { result.taken ≡ [] }
        ensures piece { result.piece ≡ piece }
        ensures calls { result.calls ≡ record { failing = fail.items; made = 0; faults = 0 } }
    {
        MemorySink {
            bytes: Vec::new(alloc),
            piece,
            failing: Failing::new(fail),
        }
    }

    /// The bytes taken so far.
    pub fn written(&self) -> &[u8]
        ensures { result.now ≡ self.now.taken }
    {
        self.bytes.as_slice()
    }
}

impl Sink for MemorySink {
    ghost written = { λ s. Some s.taken };

    ghost faults = { λ s. s.calls.faults };

    fn write(&mut self, piece: &[u8]) -> Result<usize, WriteError>
        requires { 0 < length piece.now }
        ensures some { IfOk result (λ n. 0 < n) }
        ensures bound { WritesAtMost result piece.now }
        ensures bytes { WriteAppends (Some self.old.taken) (Some self.new.taken) result piece.now }
        ensures faults { self.new.calls.faults ≡ count_after (is_write_fault result) self.old.calls.faults }

        // What this sink says beyond any sink.
        ensures fails { IsErrOf result WriteError.Fault ↔ IsTrue (next_fails self.old.calls) }
        ensures count { IfOk result (λ n. n ≡ min self.old.piece (length piece.now)) }
        ensures calls { self.new.calls ≡ one_more_call self.old.calls }
        ensures piece { self.new.piece ≡ self.old.piece }
    {
        if self.failing.next_fails() {
            return Err(WriteError::Fault);
        }
        let count = self.piece.min(piece.len());
        self.bytes.extend_from_slice(&piece[..count])?;
        Ok(count)
    }
}
