//! What a source of bytes and a sink of bytes promise.
ghost use Rattle.std.specs.Prelude.{◌≡◌, ℕ, ◌<◌, ◌≤◌, List, length, Option, IfOk, is_err};
ghost use Rattle.std.specs.Io.{ReadsAtMost, WritesAtMost};
ghost use Rattle.std.specs.Io.KnownBytes.{ReadConsumes, WriteAppends};
ghost use Rattle.outside_io.specs.Outside.{count_after, is_write_fault};

use crate::errors::{Failed, WriteError};

/// Gives bytes in order.
pub trait Source {
    /// The bytes to come, where they are told.
    ghost left: { Self → Option (List ℕ) };

    /// How many reads failed, up to the last value of `u64`.
    ghost faults: { Self → ℕ };

    /// Puts the next bytes at the front of `buf`, and says how many they are: 0 only at the end.
    ///
    /// # Errors
    ///
    /// `Failed` where a read failed, by which alone the count of faults rises, and by one: the bytes
    /// to come stay as they were, and `buf` holds any bytes.
    fn read(&mut self, buf: &mut [u8]) -> Result<usize, Failed>
        requires { 0 < length buf.old }
        ensures bound { ReadsAtMost result buf.new }
        ensures bytes { ReadConsumes (left self.old) (left self.new) result buf.new }
        ensures faults { faults self.new ≡ count_after (is_err result) (faults self.old) };
}

/// Takes bytes in order.
pub trait Sink {
    /// The bytes taken so far, where they are told.
    ghost written: { Self → Option (List ℕ) };

    /// How many writes failed, up to the last value of `u64`.
    ghost faults: { Self → ℕ };

    /// Appends the first bytes of `piece`, and says how many they are: at least one.
    ///
    /// # Errors
    ///
    /// `Fault` where a write failed or nothing was taken, by which alone the count of faults rises,
    /// and by one, and `Memory` where there was none. The bytes taken so far stay as they were.
    fn write(&mut self, piece: &[u8]) -> Result<usize, WriteError>
        requires { 0 < length piece.now }
        ensures some { IfOk result (λ n. 0 < n) }
        ensures bound { WritesAtMost result piece.now }
        ensures bytes { WriteAppends (written self.old) (written self.new) result piece.now }
        ensures faults { faults self.new ≡ count_after (is_write_fault result) (faults self.old) };
}
