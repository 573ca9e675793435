//! The steps that resolve a clause's constraint, one atom after the other (Weidenbach 2001, the section on sorts; that the
//! first unsolved atom is taken is this project's own).
#![tactic(auto)]

mod sorting;

pub use sorting::{solved, sort_steps, unsolved_atom};
