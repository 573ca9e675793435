//! Adapters of the standard library's readers and writers.
ghost use Rattle.std.specs.Prelude.{◌≡◌};
ghost use Rattle.outside_io.specs.Outside.{next_count};

use crate::errors::{Failed, WriteError};
use crate::traits::{Sink, Source};
use std::io::{Read, Write};

/// A source over a reader. It tells what the reader tells: of standard input, nothing.
///
/// Each error of the reader, of whatever kind, is a fault, and is counted. A call reads once: it
/// doesn't try again. No contract can see that.
#[derive(Drop)]
pub struct StdSource<R> {
    inner: R,
    faults: u64,
}

impl<R: Read> StdSource<R> {
    /// A source whose count of faults is 0.
    pub fn new(inner: R) -> StdSource<R>
        ensures left { ⟦<StdSource<R> as Source>⟧.left result ≡ R.remaining inner }
        ensures faults { ⟦<StdSource<R> as Source>⟧.faults result ≡ 0 }
    {
        StdSource { inner, faults: 0 }
    }
}

impl<R: Read> Source for StdSource<R> {
    ghost left = { λ s. R.remaining s.inner };

    ghost faults = { λ s. s.faults };

    fn read(&mut self, buf: &mut [u8]) -> Result<usize, Failed> {
        match self.inner.read(buf) {
            Ok(count) => Ok(count),
            Err(_) => {
                count_one(&mut self.faults);
                Err(Failed)
            }
        }
    }
}

/// A sink over a writer. It tells what the writer tells: of standard output, nothing.
///
/// Each error of the writer, of whatever kind, is a fault, and so is a write that takes nothing;
/// both are counted. A call writes once: it doesn't try again. No contract can see that.
#[derive(Drop)]
pub struct StdSink<W> {
    inner: W,
    faults: u64,
}

impl<W: Write> StdSink<W> {
    /// A sink whose count of faults is 0.
    pub fn new(inner: W) -> StdSink<W>
        ensures written { ⟦<StdSink<W> as Sink>⟧.written result ≡ W.contents inner }
        ensures faults { ⟦<StdSink<W> as Sink>⟧.faults result ≡ 0 }
    {
        StdSink { inner, faults: 0 }
    }
}

impl<W: Write> Sink for StdSink<W> {
    ghost written = { λ s. W.contents s.inner };

    ghost faults = { λ s. s.faults };

    fn write(&mut self, piece: &[u8]) -> Result<usize, WriteError> {
        match self.inner.write(piece) {
            Ok(count) if count > 0 => Ok(count),
            _ => {
                count_one(&mut self.faults);
                Err(WriteError::Fault)
            }
        }
    }
}

/// Counts one more fault; the count stays at the last value of `u64` once it is there.
fn count_one(faults: &mut u64)
    ensures { faults.new ≡ next_count faults.old }
{
    *faults = faults.saturating_add(1);
}
