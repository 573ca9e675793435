//! Clauses out of short texts, for programs that try or time what works on clauses.
#![tactic(auto)]

mod makers;
mod rows;

pub use makers::{atoms, clause, is_clause, part, symbol, term, terms};
pub use rows::{Row, number};
