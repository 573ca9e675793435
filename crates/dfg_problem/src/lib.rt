//! Whole problems of DFG syntax from their bytes, or the first fault with its place: the lists of formulas, clauses and
//! declarations.
//!
//! The rules are those of SPASS Input Syntax 1.5 in the form that `docs/input.md` states.
#![tactic(auto)]

mod build;
mod declarations;
mod entries;
mod keywords;
mod lists;
mod problem;
mod reader;

pub use problem::Problem;
pub use reader::read_problem;
