//! The rule of the table, and the names of its steps.
ghost use Rattle.std.specs.Prelude.{List, []};
ghost use Rattle.turn_cell.specs.Rule.{Stores, IsConsistent, first_view, Enters, Leaves, Looks, dealt_from, dealt, both, spent_view};

use crate::told::Told;
use crate::view::View;
use atomic_table::{Join, Play, Split, TableRule};
use std::marker::{Brand, PhantomData};
use std::snapshot::Snapshot;

/// What the table is told when it is made. The value is for proofs alone.
#[derive(Drop)]
pub struct About<T> {
    pub start: Snapshot<T>,
    pub seats: u64,
}

/// The rule under which threads share the table.
pub struct ByTurns<T> {
    of: PhantomData<T>,
}

impl<T: Told> TableRule<Option<T>, View<T::Entry, T::Setting>, About<T>> for ByTurns<T> {
    ghost holds = { λ key. IsConsistent T.told T.seat_of T.setting key.seats };

    ghost first = { λ key. first_view (T.setting key.start.value) key.seats };
}

/// A try for the turn.
pub struct Enter<T> {
    of: PhantomData<T>,
}

impl<T: Told> Play<Option<T>, View<T::Entry, T::Setting>> for Enter<T> {
    ghost then = { Enters T.told T.seat_of T.setting };
}

/// The end of a turn.
pub struct Leave<T> {
    of: PhantomData<T>,
}

impl<T: Told> Play<Option<T>, View<T::Entry, T::Setting>> for Leave<T> {
    ghost then = { Leaves };
}

/// A look at what the two seats of the last join had.
pub struct Look<T> {
    of: PhantomData<T>,
}

impl<T: Told> Play<Option<T>, View<T::Entry, T::Setting>> for Look<T> {
    ghost then = { Looks T.seat_of };
}

/// A seat is dealt from the first one.
pub struct Deal;

impl<E, G> Split<View<E, G>> for Deal {
    ghost left = { dealt_from };

    ghost right = { dealt };
}

/// One seat is joined into another.
pub struct Both;

impl<E, G> Join<View<E, G>> for Both {
    ghost both = { both };

    ghost spent = { spent_view };
}

/// Names a list. The proof of a call picks it.
pub trait Listed<E> {
    ghost list: { List E };
}

impl<E> Listed<E> for Brand {
    ghost list = { [] };
}

/// The store of the new length, in a turn.
pub struct Store<T, L> {
    of: PhantomData<(T, L)>,
}

impl<T: Told, L: Listed<T::Entry>> Play<Option<T>, View<T::Entry, T::Setting>> for Store<T, L> {
    ghost then = { Stores L.list };
}
