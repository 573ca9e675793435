//! The parts of a problem that hold no formulas: its head, the descriptions, the list of symbols, and lists that are
//! passed over.
//!
//! The rules are those of SPASS Input Syntax 1.5 in the form that `docs/input.md` states.
#![tactic(auto)]

mod descriptions;
mod head;
mod passing;
mod symbols;

pub use descriptions::description_list;
pub use head::problem_head;
pub use passing::pass_over;
pub use symbols::symbol_list;
