//! Problems that are made by rule, to measure and to test a prover.
//!
//! `specs/Generated.antt` has the text of each of them.
#![tactic(auto)]

mod making;

pub use making::make;
