//! Why a clause is not gathered.

/// Why literals were not added to a clause.
#[derive(Debug, Drop)]
pub enum Stop {
    /// The clause would have more than 1,000,000 symbols.
    Huge,
    /// There was no memory.
    Memory,
}
