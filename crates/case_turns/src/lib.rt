//! Appending what a worker computed in a round to the table, in a turn of the worker; and the loop of a worker that is
//! alone: it claims a case, chooses clauses, computes and appends their rounds, and ends where nothing is left to do.
//!
//! `specs/Turns.antt` says what becomes of a batch, `specs/Desks.antt` what a worker keeps from round to round, and
//! `specs/Working.antt` what holds while it works.
#![tactic(auto)]

mod appending;
mod cases;
mod desk;
mod leaves;

pub use appending::{Appended, append};
pub use cases::alone;
