//! A test of the turn cell: what no clause says of two seats, that one is refused while the other has the turn.
#![tactic(auto)]

#[cfg(test)]
mod two_seats;
