//! The proof of a clause, taken out of the table of a run.
//!
//! The ledger of a table has many steps that lead to nothing. `extract` takes those that lead to one clause, in order
//! and renumbered from 1: `specs/Extracting.antt` says which these are. `first_contradiction` says of which clause the
//! proof is a refutation.
#![tactic(auto)]

mod extracting;
mod marking;
mod renumbering;
mod searching;

pub use extracting::extract;
pub use searching::first_contradiction;
