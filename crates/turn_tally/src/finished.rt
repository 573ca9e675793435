//! What a worker gives back.
use crate::tally::Tally;
use turn_cell::Seat;

/// A seat whose worker has ended.
#[derive(Drop)]
pub struct Finished {
    /// The seat, with those that were joined into it.
    pub seat: Seat<Tally>,
    /// Whether there was memory for each entry.
    pub complete: bool,
}
