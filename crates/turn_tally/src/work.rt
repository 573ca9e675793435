//! Workers that share one tally by turns.
ghost use Rattle.std.specs.Prelude.{◌≡◌, ℕ, ◌+◌, ◌*◌, ◌<◌, ◌≤◌, ◌++◌, ◌∷◌, [], true, false, Some, IfOk, OnOk, OnErr, slice_get, vec_len, length};
ghost use Rattle.std.specs.Thread.{IsSync};
ghost use Rattle.turn_cell.specs.Lists.{Continues, entries_of, HasAllSeats};
ghost use Rattle.turn_cell.specs.Seats.{had, in_turn, new_seat, turn_of};
ghost use Rattle.turn_tally.specs.Tallies.{tally_entry, greatest_of, entries_upto, seat_of};
ghost use Rattle.turn_tally.specs.Runs.{HasWorked, IsDone};

use crate::finished::Finished;
use crate::tally::Tally;
use std::alloc::{AllocError, Global};
use std::sync::Wait;
use std::thread::{Threads, join};
use turn_cell::{Seat, Told, Turn, TurnCell};

/// One turn, in which the seat appends an entry with this number. Where there is no memory for it, the turn appends nothing.
pub fn append_once<R: Wait>(
    rt: &R,
    cell: &TurnCell<Tally>,
    seat: &mut Seat<Tally>,
    number: u64,
) -> Result<(), AllocError>
    requires cell { seat.old.cell ≡ cell.now }
    requires outside { seat.old.inside ≡ false }
    requires limit { (l : ℕ) × (seat.old.setting ≡ Some l) × (number ≤ l) }
    ensures seat { HasWorked seat.old seat.new }
    ensures ok { OnOk result (entries_of seat_of seat.old.number seat.new.seen
        ≡ entries_of seat_of seat.old.number seat.old.seen ++ tally_entry seat.old.number number ∷ []) }
    ensures err { OnErr result (entries_of seat_of seat.old.number seat.new.seen ≡ entries_of seat_of seat.old.number seat.old.seen) }
{
    let mut turn = cell.enter(rt, seat);
    let appended = turn.value_mut().append(seat.number(), number);
    cell.leave(turn, seat);
    appended
}

/// One turn, in which the seat asks for the greatest number. Whoever wrote it down, it is that of the list that the seat has then seen.
pub fn greatest_at_turn<R: Wait>(rt: &R, cell: &TurnCell<Tally>, seat: &mut Seat<Tally>) -> u64
    requires cell { seat.old.cell ≡ cell.now }
    requires outside { seat.old.inside ≡ false }
    ensures seat { HasWorked seat.old seat.new }
    ensures greatest { result ≡ greatest_of seat.new.seen }
    ensures limit { (limit : ℕ) → seat.old.setting ≡ Some limit → result ≤ limit }
{
    let turn = cell.enter(rt, seat);
    let greatest = turn.value().greatest();
    cell.leave(turn, seat);
    greatest
}

// The turns of one worker, which appends the entries 1 to `turns`.
fn work<R: Wait>(rt: &R, cell: &TurnCell<Tally>, mut seat: Seat<Tally>, turns: u32) -> Finished
    requires { seat ≡ new_seat cell.now seat.number turns }
    ensures done { IsDone cell.now turns result.seat result.complete }
    ensures number { had result.seat ≡ seat.number ∷ [] }
{
    for number in 0..turns {
        if append_once(rt, cell, &mut seat, u64::from(number) + 1).is_err() {
            return Finished {
                seat,
                complete: false,
            };
        }
    }
    Finished {
        seat,
        complete: true,
    }
}

// The seat of one worker is joined into that of others.
fn merge(cell: &TurnCell<Tally>, all: Finished, one: Finished) -> Finished
    requires cell { (all.seat.cell ≡ cell.now) × (one.seat.cell ≡ cell.now) }
    requires outside { (all.seat.inside ≡ false) × (one.seat.inside ≡ false) }
    ensures done { (n : ℕ) → IsDone cell.now n all.seat all.complete → IsDone cell.now n one.seat one.complete
        → IsDone cell.now n result.seat result.complete }
    ensures numbers { had result.seat ≡ had all.seat ++ had one.seat }
{
    let Finished { mut seat, complete } = all;
    cell.join(&mut seat, one.seat);
    Finished {
        seat,
        complete: complete && one.complete,
    }
}

// A worker for each seat, each in a thread of its own. The seats that come back are joined into one.
fn work_all<R: Threads + Wait + Sync>(
    rt: &R,
    cell: &TurnCell<Tally>,
    mut seats: Vec<Seat<Tally>>,
    turns: u32,
) -> Finished
    requires some { 0 < vec_len seats }
    requires each { (k : ℕ) (s : _) → slice_get seats.items k ≡ Some s → s ≡ new_seat cell.now (k + 1) turns }
    ensures done { IsDone cell.now turns result.seat result.complete }
    ensures all { HasAllSeats (vec_len seats) (had result.seat) }
{
    let Some(last) = seats.pop() else {
        unreachable!()
    };
    if seats.is_empty() {
        return work(rt, cell, last, turns);
    }
    let (all, one) = join(
        rt,
        move || -> Finished
            requires { IsSync R.row × (0 < vec_len seats)
                × ((k : ℕ) (s : _) → slice_get seats.items k ≡ Some s → s ≡ new_seat cell.now (k + 1) turns) }
            ensures done { IsDone cell.entry.now turns result.seat result.complete }
            ensures all { HasAllSeats (vec_len seats) (had result.seat) }
        { work_all(rt, cell, seats, turns) },
        move || -> Finished
            requires { last ≡ new_seat cell.now last.number turns }
            ensures done { IsDone cell.entry.now turns result.seat result.complete }
            ensures number { had result.seat ≡ last.number ∷ [] }
        { work(rt, cell, last, turns) },
    );
    merge(cell, all, one)
}

/// Workers in threads of their own share one tally by turns, and each appends entries with the numbers 1 to `turns`. Whatever order the turns come in, of each worker's seat the tally that comes back has just these, in order, and nothing else.
pub fn tally_by_turns<R: Threads + Wait + Sync>(
    rt: &R,
    alloc: Global,
    workers: u32,
    turns: u32,
) -> Result<Tally, AllocError>
    requires some { 0 < workers }
    ensures limit { IfOk result (λ t. t.limit ≡ turns) }
    ensures entries { IfOk result (λ t. (k : ℕ) → 0 < k → k ≤ workers
        → entries_of seat_of k t.entries ≡ entries_upto k turns) }
    ensures count { IfOk result (λ t. length t.entries ≡ workers * turns) }
{
    let Ok((cell, seats)) = TurnCell::new(alloc, Tally::new(alloc, u64::from(turns)), workers)
    else {
        return Err(AllocError);
    };
    let Finished { seat, complete } = work_all(rt, &cell, seats, turns);
    let tally = cell.end(seat);
    if complete { Ok(tally) } else { Err(AllocError) }
}

/// The turn, at the first try: no other seat of the cell is left that could have it.
pub fn enter_at_once<T: Told>(cell: &TurnCell<T>, seat: &mut Seat<T>) -> Turn<T>
    requires cell { seat.old.cell ≡ cell.now }
    requires outside { seat.old.inside ≡ false }
    requires all { HasAllSeats cell.now.seats (had seat.old) }
    ensures seat { seat.new ≡ in_turn seat.old (T.told result.value) }
    ensures turn { result ≡ turn_of seat.old result.value (T.told result.value) }
    ensures setting { seat.old.setting ≡ Some (T.setting result.value) }
    ensures list { Continues T.seat_of (had seat.old) seat.old.seen (T.told result.value) }
{
    let Some(turn) = cell.try_enter(seat) else {
        unreachable!()
    };
    turn
}
