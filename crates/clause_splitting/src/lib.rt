//! Splitting a chosen clause into two cases.
#![tactic(auto)]

mod splitting;
mod steps;

pub use splitting::split;
pub use steps::split_event;
