//! What the program answers, and the exit status of each answer.
ghost use Rattle.std.specs.Prelude.{◌≡◌};
ghost use Rattle.prover_top.specs.Answers.{status_of};

use dfg_reader::ReadFault;

/// What the program answers.
#[derive(Clone, Copy, PartialEq, Eq, Debug)]
pub enum Answer {
    /// The empty clause was published without assumptions, or is an input clause; the text has the proof.
    ProofFound,
    /// Nothing is left to choose at a leaf: the case is complete.
    Completion {
        /// The leaf, from 0, the root.
        node: u32,
        /// How many clauses are kept there.
        kept: u32,
        /// How many of them are put off; none yet.
        put_off: u32,
    },
    /// As many clauses were chosen as may be.
    Rounds {
        count: u32,
    },
    /// The next steps would pass the limit of steps.
    Steps {
        limit: u32,
    },
    /// An inference has more than 4,096 symbols; they are counted up to 1,000,000.
    Size {
        symbols: u64,
    },
    /// The words don't fit.
    Words,
    /// The input's first fault.
    Input(ReadFault),
    /// More than 16,777,216 bytes came.
    TooLong,
    /// A read failed.
    ReadFault,
    /// There was no memory.
    Memory,
}

impl Answer {
    /// The exit status of the answer, where no write fails.
    pub fn status(self) -> u8
        ensures { result ≡ status_of self }
    {
        match self {
            Answer::ProofFound => 0,
            Answer::Completion { .. } => 1,
            Answer::Rounds { .. } => 2,
            Answer::Steps { .. } => 2,
            Answer::Size { .. } => 2,
            Answer::Words => 3,
            Answer::Input(_) => 4,
            Answer::TooLong => 5,
            Answer::ReadFault => 6,
            Answer::Memory => 8,
        }
    }
}
