//! Terms and atoms of DFG syntax from their tokens, or the first fault with its place; what formulas, clauses and proof
//! lists are read with.
//!
//! The rules are those of SPASS Input Syntax 1.5 in the form that `docs/grammar.md` states.
#![tactic(auto)]

mod fault;
mod marks;
mod numbers;
mod scope;
mod symbols;
mod terms;
mod variables;

pub use fault::{FaultKind, InputError, Limit, ReadFault};
pub use marks::{
    bytes_of, identifier, kind_is_name, mark, name, next_is_mark, next_is_name, next_is_word,
    place, refused, spelled_name, text, unexpected, word,
};
pub use numbers::{arity, numeral};
pub use scope::Scope;
pub use symbols::{Found, Place, check_arity, lookup, symbol_named};
pub use terms::{atom, term};
pub use variables::{Context, Variables};
