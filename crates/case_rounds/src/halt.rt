//! Why a round stops.
ghost use Rattle.std.specs.Prelude.{◌≡◌};
ghost use Rattle.case_rounds.specs.declared.halt.Halt.TheVariants as halt;

use std::alloc::AllocError;

/// Why a round stopped before all was inferred.
#[derive(Clone, Copy, Debug, PartialEq, Eq)]
pub enum Halt {
    /// The last line states the empty clause.
    Closed,
    /// A conclusion of the given clause with the clause of this number, from 1, has more than 4,096 symbols: their
    /// number, or 1,000,000 where there are more.
    Big { partner: u32, symbols: u64 },
    /// There was no memory.
    Memory,
}

impl From<AllocError> for Halt {
    ghost from_gives = { λ _ e. e ≡ halt.Memory };

    fn from(_error: AllocError) -> Halt {
        Halt::Memory
    }
}
