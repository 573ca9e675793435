//! The superposition calculus in words: which steps are inferences of two clauses or of one, which reduce a clause, what
//! a set of clauses covers, which notes justify that a clause is hidden, and which sorts a term has.
//!
//! `specs/` holds these words, each with its public source, and the laws that their callers need; `proofs/` computes
//! examples of them. The code here is the types of which the words speak.
#![tactic(auto)]

mod kept;
mod laws;
mod note;

pub use kept::Kept;
pub use laws::no_unifier_is_lost;
pub use note::{Edit, HideNote, Why};
