//! The value, for the time of a turn.
ghost use Rattle.std.specs.Prelude.{◌≡◌};
ghost use Rattle.std.specs.Borrow.{Lends, sem};
ghost use Rattle.turn_cell.specs.contracts.turn.Turn.{the_row};
ghost use Rattle.turn_cell.specs.Lent.{with_value};

use crate::seat::Seat;
use crate::told::Told;
use std::marker::Model;
use std::snapshot::Snapshot;

/// The value, for the time of a turn. Contracts see it as a `TurnSeen`: the value, the cell, the number of the seat that has the turn, and the value's list when the turn began.
///
/// It can't be dropped: `leave` alone takes it.
pub struct Turn<T: Told> {
    pub(crate) value: T,
    // The seat as it was when the turn began, for proofs alone.
    pub(crate) entry: Snapshot<Seat<T>>,
}

impl<T: Told> Model for Turn<T> {
    ghost use Rattle.turn_cell.specs.Seats.{TurnSeen, turn_of};

    ghost Value = { TurnSeen T T.Entry };

    ghost view = { λ t. turn_of t.entry.value t.value t.entry.value.seen };
}

impl<T: Told> Turn<T> {
    /// The value.
    pub fn value(&self) -> &T
        ensures { result.now ≡ self.now.value }
    {
        &self.value
    }

    /// The value, to be changed. `leave` asks that its list has only grown, by entries of the seat, and that its setting is the same.
    pub fn value_mut(&mut self) -> &mut T
        ensures* writes_back { sem 𝓛 (Lends (the_row T.row T.Entry.row T.Setting.row T.Told) T.row self.entry result (with_value self.old)) }
        ensures value { result.now ≡ self.old.value }
    {
        &mut self.value
    }
}
