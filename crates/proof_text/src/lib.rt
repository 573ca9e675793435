//! The text of a proof list.
//!
//! Each line of a proof has a line of text with its number, its clause, its rule, its parents and the pairs of the
//! rule; `specs/Texts.antt` has the grammar as one function per kind of thing.
#![tactic(auto)]

mod lines;
mod lists;
mod words;

pub use lines::print_proof;
pub use words::{push_bytes, push_number};
