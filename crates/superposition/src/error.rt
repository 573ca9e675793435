//! Why a list of inferences wasn't appended whole.
ghost use Rattle.std.specs.Prelude.{◌≡◌};
ghost use Rattle.superposition.specs.declared.error.InferError.TheVariants as infer_error;

use std::alloc::AllocError;
use thiserror::Error;

/// Why a call stopped before the end of the list: the inferences before the next one were appended.
#[derive(Debug, Drop, Error)]
pub enum InferError {
    /// The next conclusion has more than 4,096 symbols.
    #[error("the next conclusion has {symbols} symbols")]
    Big {
        /// How many it has, or 1,000,000 where there are more.
        symbols: u64,
    },
    /// There was no memory.
    #[error("out of memory")]
    Memory,
}

impl From<AllocError> for InferError {
    ghost from_gives = { λ _ e. e ≡ infer_error.Memory };

    fn from(_error: AllocError) -> InferError {
        InferError::Memory
    }
}
