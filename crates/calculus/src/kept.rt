//! A premise of inferences: a clause that is kept, by its number.
use proof_steps::Statement;

/// A clause with its number, its dependencies and its selected literal.
#[derive(Debug, Drop)]
pub struct Kept {
    /// The number of the clause, from 1.
    pub number: u32,
    /// The clause, and the assumptions on which it depends.
    pub statement: Statement,
    /// The place in the antecedent, from 0, of the literal that was selected (Weidenbach 2001, the section on selection).
    pub selected: Option<usize>,
}
