//! Why a read or a write gave nothing, or not all.
ghost use Rattle.std.specs.Prelude.{◌≡◌};
ghost use Rattle.outside_io.specs.declared.errors.ReadError.TheVariants as read;
ghost use Rattle.outside_io.specs.declared.errors.WriteError.TheVariants as write;

use std::alloc::AllocError;
use thiserror::Error;

/// A read failed, and gave no byte.
#[derive(Clone, Copy, PartialEq, Eq, Debug, Error)]
#[error("a read failed")]
pub struct Failed;

/// Why bytes were not written whole.
#[derive(Clone, Copy, PartialEq, Eq, Debug, Error)]
pub enum WriteError {
    /// A write failed, or nothing of a piece was taken; the sink's count of faults rose.
    #[error("a write failed")]
    Fault,
    /// There was no memory.
    #[error("out of memory")]
    Memory,
}

/// Why bytes were not read to their end.
#[derive(Clone, Copy, PartialEq, Eq, Debug, Error)]
pub enum ReadError {
    /// A read failed; the source's count of faults rose.
    #[error("a read failed")]
    Fault,
    /// More bytes came than the limit, which is a number of bytes.
    #[error("more than {limit} bytes")]
    TooLong { limit: usize },
    /// There was no memory.
    #[error("out of memory")]
    Memory,
}

impl From<Failed> for ReadError {
    ghost from_gives = { λ _ e. e ≡ read.Fault };

    fn from(_failed: Failed) -> ReadError {
        ReadError::Fault
    }
}

impl From<AllocError> for ReadError {
    ghost from_gives = { λ _ e. e ≡ read.Memory };

    fn from(_error: AllocError) -> ReadError {
        ReadError::Memory
    }
}

impl From<AllocError> for WriteError {
    ghost from_gives = { λ _ e. e ≡ write.Memory };

    fn from(_error: AllocError) -> WriteError {
        WriteError::Memory
    }
}
