//! Formulas and clauses of DFG syntax from their tokens, or the first fault with its place.
//!
//! The rules are those of SPASS Input Syntax 1.5 in the form that `docs/grammar.md` states.
#![tactic(auto)]

mod build;
mod declaration;
mod items;
mod reader;
mod shape;

pub use build::sort_atom;
pub use declaration::term_declaration;
pub use items::sort_named;
pub use reader::{Level, Text, formula};
pub use shape::Shape;
