//! What a check answers.
ghost use Rattle.std.specs.Prelude.{◌≡◌};
ghost use Rattle.refutation_check.specs.declared.fault.CheckError.TheVariants.{Memory};

use proof_steps::Statement;
use std::alloc::AllocError;
use thiserror::Error;

/// That the lines are a proof.
#[derive(Clone, Copy, Debug, PartialEq, Eq)]
pub struct Refutation {
    /// How many steps the proof has.
    pub steps: u32,
}

/// What is wrong with a line.
#[derive(Clone, Copy, Debug, PartialEq, Eq)]
pub enum CheckKind {
    /// A parent is not the number of an earlier line.
    Parent,
    /// The rule doesn't apply, or concludes more than 4,096 symbols.
    Shape,
    /// The line states another clause than its step concludes.
    Clause,
    /// The line states the clause with other dependencies than its step concludes.
    Dependencies,
    /// No line is wrong, but the last one isn't the empty clause without dependencies.
    Last,
}

/// The first line that is wrong.
#[derive(Debug, Drop)]
pub struct CheckFault {
    /// The number of the line, from 1; 0 where there is no line.
    pub step: u32,
    /// What is wrong with it.
    pub kind: CheckKind,
    /// What the line states, where its clause or its dependencies are wrong.
    pub found: Option<Statement>,
    /// What its step concludes, where its clause or its dependencies are wrong.
    pub wanted: Option<Statement>,
}

/// Why the lines are not accepted.
#[derive(Debug, Drop, Error)]
pub enum CheckError {
    /// They are not a proof.
    #[error("the proof has a fault")]
    Fault(CheckFault),
    /// There was no memory.
    #[error("out of memory")]
    Memory,
}

impl From<AllocError> for CheckError {
    ghost from_gives = { λ _ e. e ≡ Memory };

    fn from(_error: AllocError) -> CheckError {
        CheckError::Memory
    }
}
