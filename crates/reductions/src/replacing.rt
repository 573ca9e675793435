//! Matching replacement resolution: a clause of one atom takes an instance of it out of another clause.
ghost use Rattle.std.specs.Prelude.{◌≡◌, ◌<◌, true, length, IfOk, MatchOption};
ghost use Rattle.spl_terms.specs.Clauses.{atoms_of, in_order, part_of};
ghost use Rattle.spl_terms.specs.InOrder.{IsInOrder};
ghost use Rattle.spl_terms.specs.declared.clause.Part.TheVariants.{Succedent};
ghost use Rattle.proof_steps.specs.Steps.{without, is_negative};
ghost use Rattle.calculus.specs.Inferences.{clause_of};
ghost use Rattle.reductions.specs.Matched.{single};
ghost use Rattle.reductions.specs.Lines.{IsReductionLineBy, IsKeptBefore, IsKeptBehind, NothingIsReplaced};

use crate::matching::first_match;
use crate::words::{line_from_both, unchanged, variables};
use calculus::Kept;
use dep_sets::Deps;
use proof_steps::{Line, Rule, Statement, without};
use spl_terms::{Atom, Clause, Part};
use std::alloc::{AllocError, Global};

/// The one atom of a clause that has no other, and its part; none where there are more or none.
fn single_atom(clause: &Clause) -> Option<(Part, &Atom)>
    ensures { MatchOption result
        (length (atoms_of clause.now) ≡ 1 → ⊥)
        (λ x. clause.now ≡ single x.0 x.1.now) }
{
    match (
        clause.part(Part::Constraint),
        clause.part(Part::Antecedent),
        clause.part(Part::Succedent),
    ) {
        ([atom], [], []) => Some((Part::Constraint, atom)),
        ([], [atom], []) => Some((Part::Antecedent, atom)),
        ([], [], [atom]) => Some((Part::Succedent, atom)),
        _ => None,
    }
}

/// A copy of the clause without the atom at this place, in order, with these dependencies.
fn stated_without(
    alloc: Global,
    part: Part,
    place: usize,
    clause: &Clause,
    deps: Deps,
) -> Result<Statement, AllocError>
    requires { place < length (part_of clause.now part) }
    ensures { IfOk result (λ stated. stated ≡ record { clause = in_order (without part place clause.now); deps = deps }) }
{
    let left = without(part, place, clause.copy(alloc)?);
    Ok(Statement {
        clause: left.into_ordered(alloc)?,
        deps,
    })
}

/// Takes the first atom of this part of the target out that is an instance of the one atom of the other clause, which
/// stands in its succedent.
fn replace_before(
    alloc: Global,
    number: u32,
    target: &Statement,
    by: &Kept,
    atom: &Atom,
    part: Part,
) -> Result<Option<Line>, AllocError>
    requires single { clause_of by.now ≡ single Succedent atom.now }
    requires in_order { IsInOrder (clause_of by.now) }
    requires apart { number ≡ by.now.number → ⊥ }
    requires negative { is_negative part ≡ true }
    ensures { IfOk result (λ made. MatchOption made
        (IsKeptBefore part target.now.clause atom.now)
        (IsReductionLineBy number target.now by.now)) }
{
    let vars = variables(alloc, &by.statement.clause)?;
    let Some((place, s)) = first_match(alloc, atom, target.clause.part(part), vars)? else {
        return Ok(None);
    };
    if place > 4_294_967_295 {
        return Err(AllocError);
    }
    let deps = by.statement.deps.union(&target.deps)?;
    let stated = stated_without(alloc, part, place, &target.clause, deps)?;
    let t = unchanged(alloc, &target.clause)?;
    let (i, j) = (0, place as u32);
    let rule = Rule::Resolve { i, part, j, s, t };
    let line = line_from_both(alloc, rule, by.number, number, stated)?;
    Ok(Some(line))
}

/// Takes the first atom of the succedent of the target out that is an instance of the one atom of the other clause, which
/// stands in this part of it.
fn replace_behind(
    alloc: Global,
    number: u32,
    target: &Statement,
    by: &Kept,
    atom: &Atom,
    part: Part,
) -> Result<Option<Line>, AllocError>
    requires single { clause_of by.now ≡ single part atom.now }
    requires in_order { IsInOrder (clause_of by.now) }
    requires apart { number ≡ by.now.number → ⊥ }
    requires negative { is_negative part ≡ true }
    ensures { IfOk result (λ made. MatchOption made
        (IsKeptBehind target.now.clause atom.now)
        (IsReductionLineBy number target.now by.now)) }
{
    let vars = variables(alloc, &by.statement.clause)?;
    let succedent = target.clause.part(Part::Succedent);
    let Some((place, t)) = first_match(alloc, atom, succedent, vars)? else {
        return Ok(None);
    };
    if place > 4_294_967_295 {
        return Err(AllocError);
    }
    let deps = target.deps.union(&by.statement.deps)?;
    let stated = stated_without(alloc, Part::Succedent, place, &target.clause, deps)?;
    let s = unchanged(alloc, &target.clause)?;
    let (i, j) = (place as u32, 0);
    let rule = Rule::Resolve { i, part, j, s, t };
    let line = line_from_both(alloc, rule, number, by.number, stated)?;
    Ok(Some(line))
}

/// The line that takes an atom out of the target which is an instance of the one atom of the other clause, and stands on
/// the other side of the arrow; none exactly where there is none. The first atom is taken, in constraint, antecedent,
/// succedent.
pub(crate) fn replace_by(
    alloc: Global,
    number: u32,
    target: &Statement,
    by: &Kept,
) -> Result<Option<Line>, AllocError>
    requires in_order { IsInOrder (clause_of by.now) }
    requires apart { number ≡ by.now.number → ⊥ }
    ensures { IfOk result (λ made. MatchOption made
        (NothingIsReplaced target.now.clause (clause_of by.now))
        (IsReductionLineBy number target.now by.now)) }
{
    let Some((part, atom)) = single_atom(&by.statement.clause) else {
        return Ok(None);
    };
    match part {
        Part::Constraint | Part::Antecedent => {
            let made = replace_behind(alloc, number, target, by, atom, part)?;
            Ok(made)
        }
        Part::Succedent => {
            let first = replace_before(alloc, number, target, by, atom, Part::Constraint)?;
            if let Some(line) = first {
                return Ok(Some(line));
            }
            let second = replace_before(alloc, number, target, by, atom, Part::Antecedent)?;
            Ok(second)
        }
    }
}
