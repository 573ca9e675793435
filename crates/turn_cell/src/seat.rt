//! A thread's place at a cell.
ghost use Rattle.std.specs.Prelude.{◌≡◌};

use crate::told::Told;
use crate::view::View;
use atomic_table::Seat as Token;
use std::marker::Model;

/// A place at a cell, which one thread has at a time. Contracts see it as a `SeatSeen`: its cell, its number, the setting of the cell's value, the list that it has seen, the numbers joined into it, whether it is in a turn, the turn word that its last try found, and how many times it tried.
#[derive(Drop)]
pub struct Seat<T: Told> {
    pub(crate) number: u64,
    pub(crate) token: Token<Option<T>, View<T::Entry, T::Setting>>,
}

impl<T: Told> Model for Seat<T> {
    ghost use Rattle.turn_cell.specs.Seats.{SeatSeen};
    ghost use Rattle.turn_cell.specs.Rule.{seat_seen, Sits};

    ghost Value = { SeatSeen T.Entry T.Setting };

    ghost view = { λ s. seat_seen s.token.table_id s.token.me.0 };

    ghost invariant = { λ s. Sits s.number s.token.me };
}

impl<T: Told> Seat<T> {
    /// The seat's number, from 1 on, with which it marks the entries that it appends.
    pub fn number(&self) -> u64
        ensures { result ≡ self.now.number }
    {
        self.number
    }
}
