//! Subsumption: a substitution that maps the atoms of one clause to different atoms of another, and an index of clauses in
//! which those that may subsume a given one are found.
//!
//! `specs/Subsuming.antt` says what is answered, `specs/Held.antt` what the index holds.
#![tactic(auto)]

mod atoms;
mod candidates;
mod counting;
mod features;
mod index;
mod placing;
mod slots;
mod subsuming;
mod trie;

pub use index::FeatureIndex;
pub use subsuming::subsumes;
