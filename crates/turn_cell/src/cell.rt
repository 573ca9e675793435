//! The cell.
ghost use Rattle.std.specs.Prelude.{◌≡◌, ℕ, ◌+◌, ◌-◌, ◌<◌, ◌≤◌, vec_capacity, true, false, MatchOption, IfSome, IfNone, Some, [], ◌∷◌, IfOk, IfErr, vec_len, slice_get, length};
ghost use Rattle.turn_cell.specs.Lists.{Appends, Continues, HasAllSeats, IsOfSeats};
ghost use Rattle.turn_cell.specs.Seats.{had, new_seat, tried, in_turn, after_turn, joined_with, turn_of, HoldsTurn};
ghost use Rattle.turn_cell.specs.Rule.{grown, cell_of, dealing, Deals, IsFirst, DealsAll};

use crate::rule::{About, Both, ByTurns, Deal, Enter, Leave, Listed, Look, Store};
use crate::seat::Seat;
use crate::told::Told;
use crate::turn::Turn;
use crate::view::View;
use atomic_table::{Refused, Seat as Token, Shared, Table};
use crossbeam_utils::Backoff;
use std::alloc::Global;
use std::marker::{Brand, Model};
use std::snapshot::Snapshot;
use std::sync::Wait;

/// There was no memory for a cell. The value comes back.
#[derive(Drop)]
pub struct NoCell<T> {
    /// The value that was passed.
    pub value: T,
}

/// One value, of which one seat at a time has the turn. Contracts see a cell as which it is, and its number of seats.
///
/// It can't be dropped: `end` alone takes it, and gives the value back.
pub struct TurnCell<T: Told> {
    table: Table<Option<T>, View<T::Entry, T::Setting>, About<T>, ByTurns<T>, Global>,
}

impl<T: Told> Model for TurnCell<T> {
    ghost use Rattle.std.specs.Prelude.{◌≡◌};
    ghost use Rattle.turn_cell.specs.Seats.{Cell};

    ghost Value = { Cell };

    ghost view = { λ c. record { table = c.table.shared.table_id; seats = c.table.shared.key.seats } };

    ghost invariant = { λ c. (c.table.shared.table_id.words ≡ 2) × (c.table.shared.table_id.slots ≡ 1) };
}

type Words<T> = Shared<
    Option<T>,
    View<<T as Told>::Entry, <T as Told>::Setting>,
    About<T>,
    ByTurns<T>,
>;

// A seat of the next number, dealt from the first one.
fn deal<T: Told>(words: &Words<T>, first: &mut Seat<T>, number: u64, left: u64) -> Seat<T>
    requires words { words.now.table_id.words ≡ 2 }
    requires first { (g : T.Setting)
        × (first.old ≡ dealing (cell_of words.now.table_id words.now.key.seats) g number (left + 1)) }
    ensures first { Deals (cell_of words.now.table_id words.now.key.seats) number left first.old first.new result }
{
    let token = words.split_seat::<Deal>(&mut first.token);
    Seat { number, token }
}

// The first seat stands in the row. The others come behind it.
fn deal_all<T: Told>(words: &Words<T>, all: &mut Vec<Seat<T>>, seats: u32)
    requires words { words.now.table_id.words ≡ 2 }
    requires some { 0 < seats }
    requires room { (vec_len all.old ≡ 1) × (seats ≤ vec_capacity all.old) }
    requires first { (g : T.Setting)
        × IsFirst (cell_of words.now.table_id words.now.key.seats) g (seats - 1) all.old.items }
    ensures count { vec_len all.new ≡ seats }
    ensures each { DealsAll (cell_of words.now.table_id words.now.key.seats) seats all.old.items all.new.items }
{
    for number in 1..seats {
        let next = deal(
            words,
            &mut all[0],
            u64::from(number) + 1,
            u64::from(seats - number - 1),
        );
        all.push_reserved(next);
    }
}

// The new length, in the turn. `_value` is for the proof alone, which picks its list.
fn store_length<T: Told, L: Listed<T::Entry>>(
    words: &Words<T>,
    token: &mut Token<Option<T>, View<T::Entry, T::Setting>>,
    count: u64,
    _value: &T,
)
    requires words { (token.old.table_id ≡ words.now.table_id) × (words.now.table_id.words ≡ 2) }
    requires inside { (token.old.me.0.spent ≡ false) × (token.old.me.0.inside ≡ true) }
    requires list { (count ≡ length L.list) × Appends T.seat_of token.old.me.0.number token.old.me.0.seen L.list }
    ensures token { (token.new.table_id ≡ token.old.table_id) × (token.new.id ≡ token.old.id) }
    ensures view { token.new.me ≡ (grown token.old.me.0 L.list, token.old.me.1) }
{
    words.store::<Store<T, L>>(token, 1, count);
}

impl<T: Told> TurnCell<T> {
    /// A cell with this value, and its seats, with the numbers from 1 on in order. Where there is no memory the value comes back.
    pub fn new(
        alloc: Global,
        value: T,
        seats: u32,
    ) -> Result<(TurnCell<T>, Vec<Seat<T>>), NoCell<T>>
        requires some { 0 < seats }
        requires empty { T.told value ≡ [] }
        ensures cell { IfOk result (λ r. r.0.seats ≡ seats) }
        ensures count { IfOk result (λ r. vec_len r.1 ≡ seats) }
        ensures each { IfOk result (λ r. (k : ℕ) (s : _) → slice_get r.1.items k ≡ Some s
            → s ≡ new_seat r.0 (k + 1) (T.setting value)) }
        ensures err { IfErr result (λ e. e.value ≡ value) }
    {
        let Ok(mut all) = Vec::with_capacity(alloc, seats as usize) else {
            return Err(NoCell { value });
        };
        let Ok(mut slots) = Vec::with_capacity(alloc, 1) else {
            return Err(NoCell { value });
        };
        let about = About {
            start: Snapshot::of(&value),
            seats: u64::from(seats),
        };
        slots.push_reserved(Some(value));
        match Table::new(alloc, &[0, 0], slots, &about) {
            Ok((table, token)) => {
                all.push_reserved(Seat { number: 1, token });
                deal_all(&table.shared, &mut all, seats);
                Ok((TurnCell { table }, all))
            }
            Err(Refused { mut slots }) => {
                let Some(Some(value)) = slots.pop() else {
                    unreachable!()
                };
                slots.destroy_empty();
                Err(NoCell { value })
            }
        }
    }

    /// One try for the turn, in one step on the turn word. None exactly where the word, as this step found it, wasn't 0. The seat's count of tries is raised by this step, and by one, whatever the answer. It takes no memory.
    pub fn try_enter(&self, seat: &mut Seat<T>) -> Option<Turn<T>>
        requires cell { seat.old.cell ≡ self.now }
        ensures exactly { MatchOption result (0 < seat.new.found) (λ _. seat.new.found ≡ 0) }
        ensures refused { IfNone result (seat.new ≡ tried seat.old seat.new.found) }
        ensures holder { IfNone result (HoldsTurn seat.old seat.new.found) }
        ensures outside { IfSome result (λ _. seat.old.inside ≡ false) }
        ensures seat { IfSome result (λ t. seat.new ≡ in_turn seat.old (T.told t.value)) }
        ensures turn { IfSome result (λ t. t ≡ turn_of seat.old t.value (T.told t.value)) }
        ensures setting { IfSome result (λ t. seat.old.setting ≡ Some (T.setting t.value)) }
        ensures list { IfSome result (λ t. Continues T.seat_of (had seat.old) seat.old.seen (T.told t.value)) }
        ensures ours { IfSome result (λ t. IsOfSeats T.seat_of seat.old.cell.seats (T.told t.value)) }
    {
        let shared = &self.table.shared;
        let found = shared.compare_exchange::<Enter<T>>(&mut seat.token, 0, 0, seat.number);
        if found != 0 {
            return None;
        }
        let Some(value) = shared.exchange(&mut seat.token, 0, None) else {
            unreachable!()
        };
        let entry = Snapshot::of(&*seat);
        Some(Turn { value, entry })
    }

    /// The turn, for which it tries again until it has it. It waits longer between two tries the more of them there were.
    pub fn enter<R: Wait>(&self, rt: &R, seat: &mut Seat<T>) -> Turn<T>
        requires cell { seat.old.cell ≡ self.now }
        ensures outside { seat.old.inside ≡ false }
        ensures seat { seat.new ≡ record (in_turn seat.old (T.told result.value)) { tries = seat.new.tries } }
        ensures tries { seat.old.tries < seat.new.tries }
        ensures turn { result ≡ turn_of seat.old result.value (T.told result.value) }
        ensures setting { seat.old.setting ≡ Some (T.setting result.value) }
        ensures list { Continues T.seat_of (had seat.old) seat.old.seen (T.told result.value) }
        ensures ours { IsOfSeats T.seat_of seat.old.cell.seats (T.told result.value) }
    {
        let backoff = Backoff::new();
        for _ in rt.forever() {
            if let Some(turn) = self.try_enter(seat) {
                return turn;
            }
            backoff.snooze();
        }
        unreachable!()
    }

    /// Ends the turn. The seat has then seen the whole list. It takes no memory.
    pub fn leave(&self, turn: Turn<T>, seat: &mut Seat<T>)
        requires cell { seat.old.cell ≡ self.now }
        requires inside { seat.old.inside ≡ true }
        requires turn { (turn.cell ≡ seat.old.cell) × (turn.number ≡ seat.old.number) × (turn.entry ≡ seat.old.seen) }
        requires setting { seat.old.setting ≡ Some (T.setting turn.value) }
        requires list { Appends T.seat_of turn.number turn.entry (T.told turn.value) }
        ensures seen { seat.new ≡ after_turn seat.old (T.told turn.value) }
    {
        let shared = &self.table.shared;
        let Turn { value, entry: _ } = turn;
        let count = value.count();
        store_length::<T, Brand>(shared, &mut seat.token, count, &value);
        let before = shared.exchange(&mut seat.token, 0, Some(value));
        let None = before else { unreachable!() };
        shared.store::<Leave<T>>(&mut seat.token, 0, 0);
    }

    /// Takes in another seat, with its numbers. Of both lists that were seen the longer one counts. It takes no memory.
    pub fn join(&self, into: &mut Seat<T>, other: Seat<T>)
        requires cell { (into.old.cell ≡ self.now) × (other.cell ≡ self.now) }
        requires outside { (into.old.inside ≡ false) × (other.inside ≡ false) }
        ensures joined { into.new ≡ joined_with into.old other }
        ensures into { Continues T.seat_of (had into.old) into.old.seen into.new.seen }
        ensures other { Continues T.seat_of (had other) other.seen into.new.seen }
    {
        let Seat { number: _, token } = other;
        self.table.shared.join_seat::<Both>(&mut into.token, token);
        self.table.shared.load::<Look<T>>(&mut into.token, 1);
    }

    /// The value, once every other seat was joined into the last one. It takes no memory.
    pub fn end(self, last: Seat<T>) -> T
        requires cell { last.cell ≡ self }
        requires outside { last.inside ≡ false }
        requires all { HasAllSeats self.seats (had last) }
        ensures setting { last.setting ≡ Some (T.setting result) }
        ensures list { Continues T.seat_of (had last) last.seen (T.told result) }
        ensures ours { IsOfSeats T.seat_of self.seats (T.told result) }
    {
        let TurnCell { table } = self;
        let Seat { number: _, token } = last;
        let mut closed = table.close_with(token);
        let Some(value) = closed.take(0) else {
            unreachable!()
        };
        closed.free();
        value
    }
}
