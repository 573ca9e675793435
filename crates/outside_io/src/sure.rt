//! A source and a sink in memory that never fail.
ghost use Rattle.std.specs.Prelude.{◌≡◌, ◌<◌, ◌≤◌, length, min, drop, Some, [], is_ok, is_err, IfOk, IsTrue};
ghost use Rattle.std.specs.Io.{ReadsAtMost, WritesAtMost};
ghost use Rattle.std.specs.Io.KnownBytes.{ReadConsumes, WriteAppends};
ghost use Rattle.outside_io.specs.Outside.{count_after, is_write_fault};

use crate::errors::{Failed, WriteError};
use crate::memory::give;
use crate::traits::{Sink, Source};
use std::alloc::Global;
use std::marker::Model;

/// A source of bytes in memory that never fails: its count of faults is the constant 0.
///
/// Contracts see the bytes to come, and how many a read gives at most.
#[derive(Debug, Drop)]
pub struct SureSource {
    bytes: Vec<u8>,
    at: usize,
    piece: usize,
}

impl Model for SureSource {
    ghost use Rattle.std.specs.Prelude.{◌<◌, ◌≤◌, length, drop};
    ghost use Rattle.outside_io.specs.Memory.{Rest};

    ghost Value = { Rest };

    ghost view = { λ s. record { rest = drop s.at s.bytes.items; piece = s.piece } };

    ghost invariant = { λ s. (0 < s.piece) × (s.at ≤ length s.bytes.items) };
}

impl SureSource {
    /// A source of these bytes that gives at most `piece` of them per call.
    pub fn new(_alloc: Global, bytes: Vec<u8>, piece: usize) -> SureSource
        requires { 0 < piece }
        ensures rest { result.rest ≡ bytes.items }
        ensures piece { result.piece ≡ piece }
    {
        SureSource {
            bytes,
            at: 0,
            piece,
        }
    }
}

impl Source for SureSource {
    ghost left = { λ s. Some s.rest };

    ghost faults = { λ s. 0 };

    #[tactic(auto, using(crate::proofs::Streams::given_rest))]
    fn read(&mut self, buf: &mut [u8]) -> Result<usize, Failed>
        requires { 0 < length buf.old }
        ensures bound { ReadsAtMost result buf.new }
        ensures bytes { ReadConsumes (Some self.old.rest) (Some self.new.rest) result buf.new }
        ensures faults { 0 ≡ count_after (is_err result) 0 }

        // What this source says beyond any source.
        ensures sure { IsTrue (is_ok result) }
        ensures count { IfOk result (λ n. n ≡ min self.old.piece (min (length buf.old) (length self.old.rest))) }
        ensures piece { self.new.piece ≡ self.old.piece }
    {
        let count = give(&self.bytes[self.at..], self.piece, buf);
        self.at += count;
        Ok(count)
    }
}

/// A sink that keeps its bytes in memory and takes each piece whole, where there is memory: its
/// count of faults is the constant 0.
///
/// Contracts see the bytes taken so far.
#[derive(Debug, Drop)]
pub struct SureSink {
    bytes: Vec<u8>,
}

impl Model for SureSink {
    ghost use Rattle.std.specs.Prelude.{ℕ, List};

    ghost Value = { List ℕ };

    ghost view = { λ s. s.bytes.items };
}

impl SureSink {
    /// An empty sink.
    pub fn new(alloc: Global) -> SureSink
        ensures { result ≡ [] }
    {
        SureSink {
            bytes: Vec::new(alloc),
        }
    }

    /// The bytes taken so far.
    pub fn written(&self) -> &[u8]
        ensures { result.now ≡ self.now }
    {
        self.bytes.as_slice()
    }
}

impl Sink for SureSink {
    ghost written = { λ s. Some s };

    ghost faults = { λ s. 0 };

    fn write(&mut self, piece: &[u8]) -> Result<usize, WriteError>
        requires { 0 < length piece.now }
        ensures some { IfOk result (λ n. 0 < n) }
        ensures bound { WritesAtMost result piece.now }
        ensures bytes { WriteAppends (Some self.old) (Some self.new) result piece.now }
        ensures faults { 0 ≡ count_after (is_write_fault result) 0 }

        // What this sink says beyond any sink.
        ensures whole { IfOk result (λ n. n ≡ length piece.now) }
    {
        self.bytes.extend_from_slice(piece)?;
        Ok(piece.len())
    }
}
