//! A seat tries for the turn while another one has it, and finds afterwards what that one appended.
ghost use Rattle.std.specs.Prelude.{◌≡◌, false, IfSome};
ghost use Rattle.turn_cell.specs.Seats.{new_seat};
ghost use Rattle.turn_tally.specs.Runs.{HasWorked};

use std::alloc::Global;
use std::sync::Wait;
use std::test::*;
use turn_cell::{Seat, TurnCell};
use turn_tally::{Entry, Tally, enter_at_once, greatest_at_turn};

/// Takes the turn with the first seat, appends 7, and tries with the second seat meanwhile. Whether the turn came, the entry found memory, and the second try was refused.
fn try_both(cell: &TurnCell<Tally>, first: &mut Seat<Tally>, second: &mut Seat<Tally>) -> [bool; 3]
    requires first { first.old ≡ new_seat cell.now 1 9 }
    requires second { second.old ≡ new_seat cell.now 2 9 }
    ensures first { HasWorked first.old first.new }
    ensures second { HasWorked second.old second.new }
{
    let Some(mut turn) = cell.try_enter(first) else {
        return [false; 3];
    };
    let appended = turn.value_mut().append(1, 7).is_ok();
    let refused = is_refused(cell, second);
    cell.leave(turn, first);
    [true, appended, refused]
}

/// Tries with a seat, and leaves the turn if it comes.
fn is_refused(cell: &TurnCell<Tally>, seat: &mut Seat<Tally>) -> bool
    requires cell { seat.old.cell ≡ cell.now }
    requires outside { seat.old.inside ≡ false }
    ensures { HasWorked seat.old seat.new }
{
    match cell.try_enter(seat) {
        None => true,
        Some(turn) => {
            cell.leave(turn, seat);
            false
        }
    }
}

/// The entries that a seat finds at its turn, if it comes at once: how many there are, and the last.
fn found_by(cell: &TurnCell<Tally>, seat: &mut Seat<Tally>) -> Option<(usize, Entry)>
    requires cell { seat.old.cell ≡ cell.now }
    requires outside { seat.old.inside ≡ false }
    ensures { HasWorked seat.old seat.new }
{
    let turn = cell.try_enter(seat)?;
    let entries = turn.value().entries();
    let found = entries.last().map(|entry| (entries.len(), *entry));
    cell.leave(turn, seat);
    found
}

/// A cell with its two seats.
struct Pair {
    cell: TurnCell<Tally>,
    first: Seat<Tally>,
    second: Seat<Tally>,
}

fn make_pair(alloc: Global) -> Option<Pair>
    ensures cell { IfSome result (λ p. p.cell.seats ≡ 2) }
    ensures first { IfSome result (λ p. p.first ≡ new_seat p.cell 1 9) }
    ensures second { IfSome result (λ p. p.second ≡ new_seat p.cell 2 9) }
{
    let Ok((cell, mut seats)) = TurnCell::new(alloc, Tally::new(alloc, 9), 2) else {
        return None;
    };
    let Some(second) = seats.pop() else {
        unreachable!()
    };
    let Some(first) = seats.pop() else {
        unreachable!()
    };
    Some(Pair {
        cell,
        first,
        second,
    })
}

/// What came of the tries, what the second seat found, what the first one found afterwards, and the tally.
#[derive(Drop)]
struct Played {
    tries: [bool; 3],
    found: Option<(usize, Entry)>,
    greatest: u64,
    tally: Tally,
}

fn play<R: Wait>(rt: &R, pair: Pair) -> Played
    requires cell { pair.cell.seats ≡ 2 }
    requires first { pair.first ≡ new_seat pair.cell 1 9 }
    requires second { pair.second ≡ new_seat pair.cell 2 9 }
    ensures { result.tally.limit ≡ 9 }
{
    let Pair {
        cell,
        mut first,
        mut second,
    } = pair;
    let tries = try_both(&cell, &mut first, &mut second);
    let found = found_by(&cell, &mut second);
    let greatest = greatest_at_turn(rt, &cell, &mut first);
    cell.join(&mut first, second);
    let turn = enter_at_once(&cell, &mut first);
    cell.leave(turn, &mut first);
    let tally = cell.end(first);
    Played {
        tries,
        found,
        greatest,
        tally,
    }
}

#[test]
fn a_seat_waits_for_the_turn_of_another(rt: HostRuntime) -> Result<(), Fail> {
    let played = play(&rt, make_pair(rt.alloc()).ok_or("memory")?);
    assert_eq!(rt; played.tries, [true; 3]);
    assert_eq!(rt; played.found, Some((1, Entry { seat: 1, number: 7 })));
    assert_eq!(rt; played.greatest, 7);
    assert_eq!(rt; played.tally.greatest(), 7);
    assert_eq!(rt; played.tally.limit(), 9);
    Ok(())
}
