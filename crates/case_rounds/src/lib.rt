//! A round: what a worker computes from its view of the case, outside of any turn.
//!
//! `specs/Rounds.antt` says what a round's lines and its end are, of the view alone; `specs/Appending.antt` how they are to
//! be appended to a journal for which the view stands; `specs/Events.antt` which events they become.
#![tactic(auto)]

mod belonging;
mod halt;
mod inferring;
mod keeping;
mod laws;
mod round;
mod round_lines;
mod shifting;

pub use laws::{rounds_can_be_appended, rounds_wait, steps_over_the_base_stay};
pub use round::{Batch, Finish, compute_round};
