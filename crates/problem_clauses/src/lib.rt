//! The clauses of a problem that was read: its entries meet the conditions of the clause normal form.
#![tactic(auto)]

mod clauses;

pub use clauses::clauses_of_problem;
