//! Closing cases: where both sides of a split are closed, the node above is closed too.
#![tactic(auto)]

mod case_step;
mod closing;
mod settling;

pub use closing::{close, number_after};
pub use settling::settle;
