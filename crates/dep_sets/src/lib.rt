//! The assumptions on which a statement of a proof depends.
#![tactic(auto)]

mod deps;

pub use deps::{Assumption, Deps};
