//! How a clause is parted: its components, its two parts, and the negation of one of its atoms.
//!
//! `specs/Parts.antt` has the definitions, `specs/Marking.antt` how marks are worked out list by list, and
//! `proofs/Examples.antt` the parts of small clauses. That a component shares no variable with the rest is
//! `component_apart` of `proofs/Closure.antt`.
#![tactic(auto)]

mod components;
mod negations;
mod parts;

pub use negations::negation;
pub use parts::{Parts, in_order, part_of_side, split_of};
