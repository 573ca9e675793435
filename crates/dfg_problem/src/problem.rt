//! What is read.

use formulas::Entry;
use spl_symbols::Signature;
use spl_terms::Items;

/// A problem as it was read.
#[derive(Drop)]
pub struct Problem {
    /// The declared symbols, in the order of the text.
    pub signature: Signature,
    /// The declarations, formulas and clauses in the order of the text.
    pub entries: Items<Entry>,
    /// The places of the words `list_of_proof`, from 0.
    pub proofs: Items<usize>,
    /// The place of the word `end_problem`, from 0.
    pub end_at: usize,
}
