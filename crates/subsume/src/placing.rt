//! The search for places, atom by atom, with bindings that are undone in place.
ghost use Rattle.std.specs.Prelude.{◌≡◌, ◌+◌, ◌<◌, ◌∷◌, false, length, get_or, IfOk, OnOk};
ghost use Rattle.subsume.specs.Placing.{plain, plain_one, AreWithin, ArePlaced, AreFirstPlaced, AreFirstPlacedAs, PlacedOrNot, AreBoundBelow, IsRestored};

use crate::atoms::{AtomToMap, match_atom};
use spl_terms::Atom;
use std::alloc::AllocError;
use unify::Bindings;

/// Maps the first atom to its target with this number, with the sides of an equation exchanged where `turned` says so,
/// and then the others.
///
/// Where there is no way to do so, the bindings and the places in use are again what they were.
#[cycle(placing)]
fn place_as<'a>(
    first: &AtomToMap<'a>,
    place: usize,
    turned: bool,
    rest: &[AtomToMap<'a>],
    used: &mut [bool],
    found: &mut Bindings<'a>,
) -> Result<bool, AllocError>
    requires within { AreWithin found.old.0 (length used.old) (plain_one first.now ∷ plain rest.now) }
    requires bound { AreBoundBelow found.old.0 found.old.1 }
    requires there { place < length first.now.targets.now }
    requires free { get_or used.old (first.now.first + place) false ≡ false }
    ensures placed { IfOk result (PlacedOrNot
        (λ g. AreFirstPlacedAs turned g used.old (plain_one first.now) (plain rest.now) place)
        found.old.1 found.new.1) }
    ensures restored { IfOk result (IsRestored used.old used.new found.old found.new) }
    ensures bound { OnOk result (AreBoundBelow found.old.0 found.new.1) }
    ensures as_many { OnOk result (found.new.0 ≡ found.old.0) }
{
    let before = found.count();
    if !match_atom(first.atom, &first.targets[place], turned, found)? {
        found.undo(before);
        return Ok(false);
    }
    used[first.first + place] = true;
    if place_all(rest, used, found)? {
        return Ok(true);
    }
    used[first.first + place] = false;
    found.undo(before);
    Ok(false)
}

/// Maps the first atom to its target with this number, if that is free, and then the others.
#[cycle(placing)]
fn place_first<'a>(
    first: &AtomToMap<'a>,
    place: usize,
    rest: &[AtomToMap<'a>],
    used: &mut [bool],
    found: &mut Bindings<'a>,
) -> Result<bool, AllocError>
    requires within { AreWithin found.old.0 (length used.old) (plain_one first.now ∷ plain rest.now) }
    requires bound { AreBoundBelow found.old.0 found.old.1 }
    requires there { place < length first.now.targets.now }
    ensures placed { IfOk result (PlacedOrNot
        (λ g. AreFirstPlaced g used.old (plain_one first.now) (plain rest.now) place)
        found.old.1 found.new.1) }
    ensures restored { IfOk result (IsRestored used.old used.new found.old found.new) }
    ensures bound { OnOk result (AreBoundBelow found.old.0 found.new.1) }
    ensures as_many { OnOk result (found.new.0 ≡ found.old.0) }
{
    if used[first.first + place] {
        return Ok(false);
    }
    if place_as(first, place, false, rest, used, found)? {
        return Ok(true);
    }
    match first.atom {
        Atom::Holds(_, _) => Ok(false),
        Atom::Equal(_, _) => {
            let placed = place_as(first, place, true, rest, used, found)?;
            Ok(placed)
        }
    }
}

/// Maps the atoms to free places, different atoms to different ones. It goes on from the bindings so far; where it answers
/// true, they are such that all that agrees with them maps the atoms so. Where there is no such mapping, it answers false,
/// and the bindings and the places in use are again what they were. The only error is want of memory.
#[cycle(placing)]
pub(crate) fn place_all<'a>(
    atoms: &[AtomToMap<'a>],
    used: &mut [bool],
    found: &mut Bindings<'a>,
) -> Result<bool, AllocError>
    requires within { AreWithin found.old.0 (length used.old) (plain atoms.now) }
    requires bound { AreBoundBelow found.old.0 found.old.1 }
    ensures placed { IfOk result (PlacedOrNot (λ g. ArePlaced g used.old (plain atoms.now)) found.old.1 found.new.1) }
    ensures restored { IfOk result (IsRestored used.old used.new found.old found.new) }
    ensures bound { OnOk result (AreBoundBelow found.old.0 found.new.1) }
    ensures as_many { OnOk result (found.new.0 ≡ found.old.0) }
{
    match atoms {
        [] => Ok(true),
        [first, rest @ ..] => {
            for place in 0..first.targets.len() {
                if place_first(first, place, rest, used, found)? {
                    return Ok(true);
                }
            }
            Ok(false)
        }
    }
}
