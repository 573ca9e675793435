//! An entry of a tally.

/// Which seat made an entry, and the entry's number among those of the seat, from 1 on.
#[derive(Clone, Copy, Debug, PartialEq, Eq)]
pub struct Entry {
    /// The number of the seat.
    pub seat: u64,
    /// The number of the entry.
    pub number: u64,
}
