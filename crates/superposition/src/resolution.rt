//! Resolution.
ghost use Rattle.std.specs.Prelude.{◌≡◌, ◌≤◌, Some};
ghost use Rattle.std.specs.List.{flat_map};
ghost use Rattle.spl_terms.specs.Clauses.{clause_symbols};
ghost use Rattle.spl_terms.specs.InOrder.{IsInOrder};
ghost use Rattle.spl_terms.specs.declared.clause.Part.TheVariants.{Antecedent, Succedent};
ghost use Rattle.proof_steps.specs.Spots.{atom_at};
ghost use Rattle.proof_steps.specs.Steps.{is_negative};
ghost use Rattle.calculus.specs.Inferences.{clause_of, resolve, resolutions};
ghost use Rattle.superposition.specs.Appending.{Appended};
ghost use Rattle.superposition.specs.Words.{AreInPlace};
ghost use Rattle.superposition.specs.Pairs.{IsPair};
ghost use Rattle.superposition.specs.Premises.{IsPrepared};

use crate::appending::append_from_both;
use crate::building::{Literals, resolvent_of};
use crate::error::InferError;
use crate::pairs::Pair;
use crate::premises::{Premise, eligible_in, variables};
use crate::unifiers::unifier_apart;
use calculus::{Kept, no_unifier_is_lost};
use proof_steps::{Line, Rule};
use spl_terms::{Atom, Part};
use std::alloc::Global;

/// Whether atoms of this part are false where the clause is true by it.
fn is_negative(part: Part) -> bool
    ensures { result ≡ is_negative part }
{
    match part {
        Part::Constraint | Part::Antecedent => true,
        Part::Succedent => false,
    }
}

/// Resolves an atom of the succedent of p with an atom of this part of q, if they have a unifier.
fn resolve(
    alloc: Global,
    pair: Pair,
    part: Part,
    first: (u32, &Atom),
    second: (u32, &Atom),
    out: &mut Vec<Line>,
) -> Result<(), InferError>
    requires pair { IsPair pair }
    requires first { atom_at Succedent first.0 (clause_of pair.p.now) ≡ Some first.1.now }
    requires second { atom_at part second.0 (clause_of pair.q.now) ≡ Some second.1.now }
    ensures { Appended
        (resolve part pair.entry.p.now pair.entry.q.now
        (first.entry.0, first.entry.1.now) (second.entry.0, second.entry.1.now))
        out.old.items out.new.items result }
{
    no_unifier_is_lost();
    let (i, a) = first;
    let (j, b) = second;
    if !is_negative(part) {
        return Ok(());
    }
    let literals = Literals { i, part, j };
    let found = match unifier_apart(alloc, pair, literals, a, b) {
        Ok(found) => found,
        Err(error) => return Err(error),
    };
    let Some((s, t)) = found else {
        return Ok(());
    };
    let (p, q) = (&pair.p.statement.clause, &pair.q.statement.clause);
    let made = resolvent_of(alloc, literals, (p, &s), (q, &t))?;
    let rule = Rule::Resolve { i, part, j, s, t };
    append_from_both(alloc, pair.p, pair.q, Some(made), rule, out)
}

/// Resolves an atom of the succedent of p with each of these atoms of this part of q.
fn resolve_each(
    alloc: Global,
    pair: Pair,
    part: Part,
    first: (u32, &Atom),
    atoms: &[(u32, &Atom)],
    out: &mut Vec<Line>,
) -> Result<(), InferError>
    requires pair { IsPair pair }
    requires first { atom_at Succedent first.0 (clause_of pair.p.now) ≡ Some first.1.now }
    requires atoms { AreInPlace (clause_of pair.q.now) part atoms.now }
    ensures { Appended
        (flat_map (λ y. resolve part pair.entry.p.now pair.entry.q.now (first.entry.0, first.entry.1.now)
        (y.0, y.1.now)) atoms.now)
        out.old.items out.new.items result }
{
    for k in 0..atoms.len() {
        if let Err(error) = resolve(alloc, pair, part, first, atoms[k], out) {
            return Err(error);
        }
    }
    Ok(())
}

/// Resolves each of these atoms of the succedent of p with each of those of this part of q.
fn resolve_all(
    alloc: Global,
    pair: Pair,
    part: Part,
    places: &[(u32, &Atom)],
    atoms: &[(u32, &Atom)],
    out: &mut Vec<Line>,
) -> Result<(), InferError>
    requires pair { IsPair pair }
    requires places { AreInPlace (clause_of pair.p.now) Succedent places.now }
    requires atoms { AreInPlace (clause_of pair.q.now) part atoms.now }
    ensures { Appended
        (flat_map (λ x. flat_map (λ y. resolve part pair.entry.p.now pair.entry.q.now (x.0, x.1.now) (y.0, y.1.now))
        atoms.now) places.now)
        out.old.items out.new.items result }
{
    for k in 0..places.len() {
        if let Err(error) = resolve_each(alloc, pair, part, places[k], atoms, out) {
            return Err(error);
        }
    }
    Ok(())
}

/// Resolves the eligible atoms of the succedent of the first premise with those of the antecedent of the second one.
pub(crate) fn resolve_premises(
    alloc: Global,
    p: &Premise,
    q: &Premise,
    out: &mut Vec<Line>,
) -> Result<(), InferError>
    requires p_found { IsPrepared p.now }
    requires q_found { IsPrepared q.now }
    ensures { Appended (resolutions Antecedent p.now.kept.now q.now.kept.now) out.old.items out.new.items result }
{
    let Some(pair) = Pair::new(p.kept, p.variables, q.kept, q.variables) else {
        return Err(InferError::Memory);
    };
    resolve_all(
        alloc,
        pair,
        Part::Antecedent,
        p.succedent.as_slice(),
        q.antecedent.as_slice(),
        out,
    )
}

/// Appends the resolvents of the eligible predicate atoms of the succedent of p with those of this part of q, in the
/// order of their places.
///
/// # Errors
///
/// `Big` exactly where the next conclusion has more than 4,096 symbols; `Memory` only where there is no memory. What
/// comes before it in the list was appended.
pub fn resolutions(
    alloc: Global,
    part: Part,
    p: &Kept,
    q: &Kept,
    out: &mut Vec<Line>,
) -> Result<(), InferError>
    requires p_in_order { IsInOrder (clause_of p.now) }
    requires q_in_order { IsInOrder (clause_of q.now) }
    requires p_size { clause_symbols (clause_of p.now) ≤ 4096 }
    requires q_size { clause_symbols (clause_of q.now) ≤ 4096 }
    ensures { Appended (resolutions part p.now q.now) out.old.items out.new.items result }
{
    let places = eligible_in(alloc, p, Part::Succedent)?;
    let atoms = eligible_in(alloc, q, part)?;
    let first = variables(alloc, &p.statement.clause)?;
    let second = variables(alloc, &q.statement.clause)?;
    let Some(pair) = Pair::new(p, first, q, second) else {
        return Err(InferError::Memory);
    };
    resolve_all(alloc, pair, part, places.as_slice(), atoms.as_slice(), out)
}
