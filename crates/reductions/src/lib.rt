//! Reductions of clauses: tautologies, the steps that make a clause smaller, each as a line of a proof, and notes that hide
//! what was reduced or is subsumed.
//!
//! The crate `calculus` says in `specs/Reductions.antt` what a reduction step is, and in `specs/Notes.antt` what a note is;
//! `specs/Lines.antt`, `specs/Hidden.antt` and `specs/Chains.antt` say what is answered.
#![tactic(auto)]

mod atoms;
mod condensing;
mod folding;
mod hiding;
mod judging;
mod matching;
mod noting;
mod own;
mod reducing;
mod replacing;
mod rewriting;
mod subterms;
mod trivial;
mod walking;
mod words;

pub use hiding::backward;
pub use noting::note_for;
pub use own::reduce_self;
pub use reducing::reduce_by;
pub use trivial::tautology;
