//! A tally that workers share by turns.
#![tactic(auto)]

mod entry;
mod finished;
mod tally;
mod work;

pub use entry::Entry;
pub use tally::Tally;
pub use work::{append_once, enter_at_once, greatest_at_turn, tally_by_turns};
