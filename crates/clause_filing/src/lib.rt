//! Values filed under the atoms of clauses: a quick way from a clause to those that may be its subclauses, or resolve with
//! it.
//!
//! `specs/Filings.antt` says what is filed, and what is found.
#![tactic(auto)]

mod filing;
mod keys;

pub use filing::{Entry, Filing};
pub use keys::{AFTER_ARROW, BEFORE_ARROW, clause_mask, is_within, key};
