//! The inferences of two clauses and of one, in the order of their definitions, each with its conclusion.
//!
//! `specs/Appending.antt` says what a call appends, and when it is refused; the lists themselves are those of the crate
//! `calculus`.
#![tactic(auto)]

mod appending;
mod building;
mod counting;
mod equations;
mod error;
mod inferring;
mod ordering;
mod own;
mod pairs;
mod placing;
mod premises;
mod raising;
mod refusing;
mod resolution;
mod rewriting;
mod sizing;
mod unifiers;
mod upper;
mod viewing;

pub use calculus::Kept;
pub use error::InferError;
pub use inferring::{infer_pair, infer_self};
pub use own::{equality_factorings, factorings, reflections};
pub use resolution::resolutions;
pub use rewriting::superpositions;
