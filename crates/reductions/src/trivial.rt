//! Tautologies, and antecedent equations whose sides are equal.
ghost use Rattle.std.specs.Prelude.{◌≡◌, position, IfOk, MatchOption};
ghost use Rattle.spl_truth.specs.Redundancy.{has_equal_sides, is_tautology};
ghost use Rattle.reductions.specs.Lines.{IsOwnReductionLine, HasNoTrivialEquation};

use crate::words::{line_from, unchanged};
use proof_steps::{Line, Rule, Statement, without};
use spl_terms::{Atom, Clause, Part};
use spl_truth::is_tautology;
use std::alloc::{AllocError, Global};

/// Whether a succedent atom is the same, up to exchanged sides, as an atom of the antecedent or the constraint, or is an
/// equation with equal sides (Weidenbach 2001, the section on reductions). Such a clause is always true, and needed
/// nowhere. It takes no memory.
pub fn tautology(clause: &Clause) -> bool
    ensures { result ≡ is_tautology clause.now }
{
    is_tautology(clause)
}

fn has_equal_sides(atom: &Atom) -> bool
    ensures { result ≡ has_equal_sides atom.now }
{
    match atom {
        Atom::Holds(_, _) => false,
        Atom::Equal(left, right) => left.equals(right),
    }
}

/// The place of the first equation with equal sides, from 0; none where there is none.
fn first_trivial(atoms: &[Atom]) -> Option<usize>
    ensures { result ≡ position has_equal_sides atoms.now }
{
    atoms.iter().position(|atom| has_equal_sides(atom))
}

/// The line that removes the first antecedent equation with equal sides, which is always true; none where there is none.
pub(crate) fn remove_trivial(
    alloc: Global,
    number: u32,
    target: &Statement,
) -> Result<Option<Line>, AllocError>
    ensures { IfOk result (λ made. MatchOption made
        (HasNoTrivialEquation target.now.clause)
        (IsOwnReductionLine number target.now)) }
{
    let Some(place) = first_trivial(target.clause.antecedent.as_slice()) else {
        return Ok(None);
    };
    if place > 4_294_967_295 {
        return Err(AllocError);
    }
    let left = without(Part::Antecedent, place, target.clause.copy(alloc)?);
    let stated = Statement {
        clause: left.into_ordered(alloc)?,
        deps: target.deps.copy()?,
    };
    let s = unchanged(alloc, &target.clause)?;
    let j = place as u32;
    let line = line_from(alloc, Rule::Reflex { j, s }, number, stated)?;
    Ok(Some(line))
}
