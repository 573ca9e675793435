//! Why a problem has no clause set.

use thiserror::Error;

/// Why a problem has no clause set; entries count from 1.
#[derive(Debug, Drop, Error)]
pub enum FormError {
    /// The clauses up to this entry number more than 65,536.
    #[error("entry {entry}: the clauses up to this entry number more than 65536")]
    Many {
        /// The entry's number.
        entry: u32,
    },
    /// A Skolem symbol of this entry would be the 65,537th symbol.
    #[error("entry {entry}: there are 65536 symbols, and more are wanted")]
    Symbols {
        /// The entry's number.
        entry: u32,
    },
    /// A clause of this entry has more than 4,096 symbols.
    #[error("entry {entry}: a clause has {symbols} symbols")]
    Big {
        /// The entry's number.
        entry: u32,
        /// How many symbols the clause has, or 1,000,000 where there are more.
        symbols: u64,
    },
    /// There was no memory.
    #[error("out of memory")]
    Memory,
}
