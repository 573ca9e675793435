//! Checks of proofs: whether a list of lines is a proof, or which of its lines is the first one that is wrong.
//!
//! `specs/Faults.antt` says what is wrong with a line, and `proof_steps` which lists of lines are proofs.
#![tactic(auto)]

mod checking;
mod comparing;
mod fault;

pub use checking::check;
pub use fault::{CheckError, CheckFault, CheckKind, Refutation};
