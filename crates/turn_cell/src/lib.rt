//! One value that threads share by turns. A seat that takes the turn finds a value whose list of entries begins with all that it had seen, and that has no entry of its own that it doesn't know.
#![tactic(auto)]

mod cell;
mod rule;
mod seat;
mod told;
mod turn;
mod view;

pub use cell::{NoCell, TurnCell};
pub use seat::Seat;
pub use told::Told;
pub use turn::Turn;
