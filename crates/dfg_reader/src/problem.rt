//! What is read.

use crate::formula::Formula;
use spl_symbols::Signature;
use spl_terms::Items;

/// What an entry is in its problem.
#[derive(Clone, Copy, Debug, PartialEq, Eq)]
pub enum Role {
    /// A formula that holds.
    Axiom,
    /// The formula to be proved, which counts negated.
    Conjecture,
    /// A clause that holds; clauses of both origins are taken as they stand.
    Clause,
}

/// A formula or clause of a problem.
#[derive(Debug, Drop)]
pub struct Entry {
    /// What it is in its problem.
    pub role: Role,
    /// What it says.
    pub formula: Formula,
    /// The place of the first token of its item, as of its word `formula` or `clause`, from 0.
    pub at: usize,
}

/// A problem as it was read.
#[derive(Drop)]
pub struct Problem {
    /// The declared symbols, in the order of the text.
    pub signature: Signature,
    /// The formulas and clauses in the order of the text.
    pub entries: Items<Entry>,
    /// The places of the proof lists.
    pub proofs: Items<usize>,
    /// The place of the word `end_problem`.
    pub end_at: usize,
}
