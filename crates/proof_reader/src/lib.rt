//! A proof list read back: the lines that its text spells, or its first fault with its place.
//!
//! The text is the one that `proof_text` prints; `docs/proofs.md` says what stands in it.
#![tactic(auto)]

mod dependencies;
mod lines;
mod lists;
mod pairs;
mod spellings;

pub use lines::read_proof;
