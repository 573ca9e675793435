//! Clause normal form: what the clauses of formulas are, that they stand for them in every finite structure, and how they are
//! made.
#![tactic(auto)]

mod arities;
mod clause;
mod error;
mod filed;
mod forming;
mod gathering;
mod laws;
mod problem;
mod scope;
mod scoping;
mod stop;
mod variables;
mod walk;

pub use clause::clause_at;
pub use error::FormError;
pub use laws::{clauses_are_counted, clauses_stand};
pub use problem::{ClauseSet, clauses_of};
pub use variables::add_variables;
