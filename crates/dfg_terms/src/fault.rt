//! Why a problem could not be read.

ghost use Rattle.std.specs.Prelude.{◌≡◌};
ghost use Rattle.dfg_terms.specs.declared.fault.InputError.TheVariants.{Memory};

use std::alloc::AllocError;
use thiserror::Error;

/// A limit of the reader.
#[derive(Clone, Copy, Debug, PartialEq, Eq)]
pub enum Limit {
    /// 65,536 symbols; found at the name of the next one.
    Symbols,
    /// 255 arguments; found at the number, its place is the symbol's name.
    Arity,
    /// Formulas and terms that nest 1,000 deep; found where a deeper one begins.
    Depth,
}

/// What is wrong at a place.
#[derive(Clone, Copy, Debug, PartialEq, Eq)]
pub enum FaultKind {
    /// A token that doesn't fit there.
    Unexpected,
    /// A name that is declared as nothing that may stand there.
    Undeclared,
    /// A symbol with another number of arguments than declared; a count past the last `u32` is told as that.
    Arity {
        /// How many arguments it was declared with.
        declared: u32,
        /// How many were read.
        found: u32,
    },
    /// A name that was declared before.
    DeclaredTwice,
    /// The second conjecture of a problem.
    SecondConjecture,
    /// A form of the syntax that isn't read.
    OutsideProfile,
    /// More than the reader takes.
    LimitReached(Limit),
}

/// The first fault from left to right.
#[derive(Clone, Copy, Debug, PartialEq, Eq)]
pub struct ReadFault {
    /// The place of its token: the offset of the first byte, from 0, or the input's length at its end.
    pub at: usize,
    /// What is wrong there.
    pub kind: FaultKind,
}

/// Why there is no problem.
#[derive(Debug, Drop, Error)]
pub enum InputError {
    /// The bytes spell no problem.
    #[error("the input has a fault")]
    Fault(ReadFault),
    /// There was no memory.
    #[error("out of memory")]
    Memory,
}

impl From<AllocError> for InputError {
    ghost from_gives = { λ _ e. e ≡ Memory };

    fn from(_error: AllocError) -> InputError {
        InputError::Memory
    }
}
