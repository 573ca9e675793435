//! Formulas of first-order logic with equality: blocks of quantified variables behind a plain tree, negation normal form,
//! and how many clauses a formula gives; and the entries of a problem, which are formulas.
#![tactic(auto)]

mod ascending;
mod counts;
mod entry;
mod formula;
mod tree;

pub use ascending::bindings_ascend;
pub use counts::{Count, Counts};
pub use entry::{Entry, Role};
pub use formula::{Case, Formula};
pub use tree::Tree;
