//! Problems in DFG syntax from their bytes: the problem that the bytes spell, or the first fault with its place.
//!
//! The grammar that is accepted so far stands in `docs/grammar.md`: descriptions, functions and predicates, and lists
//! of clauses without variables and equations. It is that of SPASS Input Syntax 1.5 in this project's profile.
#![tactic(auto)]

mod clauses;
mod declarations;
mod descriptions;
mod fault;
mod formula;
mod ground_clauses;
mod marks;
mod problem;
mod reader;
mod symbols;
mod terms;

pub use fault::{FaultKind, InputError, Limit, ReadFault};
pub use formula::Formula;
pub use ground_clauses::clauses_of;
pub use problem::{Entry, Problem, Role};
pub use reader::read_problem;
