//! What paramodulation concludes from two clauses under substitutions, without the instances of the clauses.
ghost use Rattle.std.specs.Prelude.{◌≡◌, ◌<◌, ◌++◌, None, Some, fold, sum_by, length, option_map, slice_get, IfOk, MatchBool, MatchOption};
ghost use Rattle.spl_terms.specs.Terms.{replace};
ghost use Rattle.spl_terms.specs.Clauses.{atom_symbols, clause_symbols, added, distinct, part_of, replace_in_atom, in_order};
ghost use Rattle.spl_terms.specs.declared.clause.Part.TheVariants.{Succedent};
ghost use Rattle.spl_truth.specs.Truth.{entry, apply};
ghost use Rattle.proof_steps.specs.Spots.{changed_at, with_part, with_term_under, with_term_at};
ghost use Rattle.proof_steps.specs.Steps.{without, joined, paramodulated, states, within};

use crate::comparing::equal_instances;
use crate::equation_rules::{sides_at, without_succedent};
use crate::instances::KeptAtoms;
use crate::ordering::ordered;
use crate::step::Statement;
use crate::subterms::{Applied, changed_atom_symbols, instance_term, with_term_under};
use dep_sets::Deps;
use spl_terms::{Atom, Clause, Items, Part, Spot, Term, at};
use spl_truth::replaced;
use std::alloc::{AllocError, Global};

/// An equation: its place in the succedent, from 0, and whether it is read from right to left.
#[derive(Clone, Copy, Debug)]
pub struct Equation {
    pub i: u32,
    pub right: bool,
}

impl Equation {
    /// The equation at this place, read in this direction.
    pub fn new(i: u32, right: bool) -> Equation
        ensures { (result.i ≡ i) × (result.right ≡ right) }
    {
        Equation { i, right }
    }
}

/// A clause and the substitution under which it is taken.
#[derive(Clone, Copy)]
pub struct Instance<'a> {
    pub clause: &'a Clause,
    pub entries: &'a [Term],
}

// ---- the test

/// The second side of the equation and the atom that is changed, where the first side stands at the spot; nothing where
/// paramodulation concludes nothing. It takes no memory.
fn changes<'a>(
    equation: Equation,
    spot: &Spot,
    p: Instance<'a>,
    q: Instance<'a>,
) -> Option<(&'a Term, &'a Atom)>
    ensures { MatchOption result
        (paramodulated equation.i equation.right spot.now (apply p.entry.entries.now p.entry.clause.now)
        (apply q.entry.entries.now q.entry.clause.now) ≡ None)
        (λ found. (paramodulated equation.i equation.right spot.now (apply p.entry.entries.now p.entry.clause.now)
        (apply q.entry.entries.now q.entry.clause.now) ≡ Some (in_order (joined
        (without Succedent equation.i (apply p.entry.entries.now p.entry.clause.now))
        (with_term_at spot.now (replace (entry p.entry.entries.now) found.0.now) (apply q.entry.entries.now q.entry.clause.now)))))
        × (equation.i < length p.entry.clause.now.succedent)
        × (slice_get (part_of q.entry.clause.now spot.now.part) spot.now.place ≡ Some found.1.now)) }
{
    let Some((first, second)) = sides_at(equation.right, p.clause.succedent.as_slice(), equation.i)
    else {
        return None;
    };
    let Some(atom) = at(q.clause.part(spot.part), spot.place as usize) else {
        return None;
    };
    let Some((term, entries)) = instance_term(spot.path.as_slice(), atom, q.entries) else {
        return None;
    };
    if !equal_instances(term, entries, first, p.entries) {
        return None;
    }
    Some((second, atom))
}

// ---- the conclusion

/// The atom under the substitution with the new term at the end of the path; none past 4,096 symbols. It is counted before
/// it is built.
fn changed_atom(
    alloc: Global,
    path: &[u32],
    new: Applied,
    atom: &Atom,
    entries: &[Term],
) -> Result<Option<Atom>, AllocError>
    ensures { IfOk result (λ made. MatchOption made
        (4096 < atom_symbols (with_term_under path.now (replace (entry new.entry.entries.now) new.entry.term.now)
        (replace_in_atom (entry entries.now) atom.now)))
        (λ a. a ≡ with_term_under path.now (replace (entry new.entry.entries.now) new.entry.term.now)
        (replace_in_atom (entry entries.now) atom.now))) }
{
    if changed_atom_symbols(path, new, atom, entries, 4097) > 4096 {
        return Ok(None);
    }
    let term = replaced(alloc, new.entries, new.term)?;
    Ok(Some(with_term_under(alloc, path, &term, atom, entries)?))
}

/// Keeps the atoms of a part of the clause under its substitution, with the changed one at its spot; false where there
/// would be more than 4,096 symbols.
fn add_part(
    kept: &mut KeptAtoms,
    alloc: Global,
    of: Part,
    q: Instance,
    spot: &Spot,
    changed: &Atom,
) -> Result<bool, AllocError>
    requires { spot.now.place < length (part_of q.clause.now spot.now.part) }
    ensures { IfOk result (λ fits. MatchBool fits
        (kept.new ≡ fold added kept.old (part_of (with_part (changed_at spot.now.place (λ a. changed.now)) spot.now.part
        (apply q.entry.entries.now q.entry.clause.now)) of))
        (4096 < sum_by atom_symbols (fold added kept.old (part_of (with_part (changed_at spot.now.place (λ a. changed.now))
        spot.now.part (apply q.entry.entries.now q.entry.clause.now)) of)))) }
{
    let atoms = q.clause.part(of);
    match (of, spot.part) {
        (Part::Constraint, Part::Constraint)
        | (Part::Antecedent, Part::Antecedent)
        | (Part::Succedent, Part::Succedent) => {
            kept.add_changed(alloc, q.entries, atoms, spot.place as usize, changed)
        }
        _ => kept.add_instances(alloc, q.entries, atoms),
    }
}

/// One part of both clauses under their substitutions, with the changed atom at its spot in the second one, without
/// repeated atoms; none where they have more than 4,096 symbols.
fn part_of_both(
    alloc: Global,
    of: Part,
    p: Instance,
    q: Instance,
    spot: &Spot,
    changed: &Atom,
) -> Result<Option<Items<Atom>>, AllocError>
    requires { spot.now.place < length (part_of q.clause.now spot.now.part) }
    ensures { IfOk result (λ made. MatchOption made
        (4096 < sum_by atom_symbols (distinct (part_of (apply p.entry.entries.now p.entry.clause.now) of
        ++ part_of (with_part (changed_at spot.now.place (λ a. changed.now)) spot.now.part
        (apply q.entry.entries.now q.entry.clause.now)) of)))
        (λ kept. kept ≡ distinct (part_of (apply p.entry.entries.now p.entry.clause.now) of
        ++ part_of (with_part (changed_at spot.now.place (λ a. changed.now)) spot.now.part
        (apply q.entry.entries.now q.entry.clause.now)) of))) }
{
    let mut kept = KeptAtoms::new(alloc);
    if !kept.add_instances(alloc, p.entries, p.clause.part(of))? {
        return Ok(None);
    }
    if !add_part(&mut kept, alloc, of, q, spot, changed)? {
        return Ok(None);
    }
    Ok(Some(kept.into_atoms()))
}

/// Both clauses under their substitutions, with the changed atom at its spot in the second one, without repeated atoms;
/// none only where a part has more than 4,096 symbols, and so the conclusion.
fn joined_instances(
    alloc: Global,
    p: Instance,
    q: Instance,
    spot: &Spot,
    changed: &Atom,
) -> Result<Option<Clause>, AllocError>
    requires { spot.now.place < length (part_of q.clause.now spot.now.part) }
    ensures { IfOk result (λ made. MatchOption made
        (4096 < clause_symbols (in_order (joined (apply p.entry.entries.now p.entry.clause.now)
        (with_part (changed_at spot.now.place (λ a. changed.now)) spot.now.part (apply q.entry.entries.now q.entry.clause.now)))))
        (λ kept. in_order kept ≡ in_order (joined (apply p.entry.entries.now p.entry.clause.now)
        (with_part (changed_at spot.now.place (λ a. changed.now)) spot.now.part (apply q.entry.entries.now q.entry.clause.now))))) }
{
    let Some(constraint) = part_of_both(alloc, Part::Constraint, p, q, spot, changed)? else {
        return Ok(None);
    };
    let Some(antecedent) = part_of_both(alloc, Part::Antecedent, p, q, spot, changed)? else {
        return Ok(None);
    };
    let Some(succedent) = part_of_both(alloc, Part::Succedent, p, q, spot, changed)? else {
        return Ok(None);
    };
    Ok(Some(Clause {
        constraint,
        antecedent,
        succedent,
    }))
}

/// The first clause without the equation and the second with its other side at the spot, both under their substitutions
/// and without repeated atoms; none only where a part has more than 4,096 symbols, and so the conclusion.
fn paramodulant(
    alloc: Global,
    i: u32,
    spot: &Spot,
    side: &Term,
    atom: &Atom,
    p: Instance,
    q: Instance,
) -> Result<Option<Clause>, AllocError>
    requires equation { i < length p.clause.now.succedent }
    requires there { slice_get (part_of q.clause.now spot.now.part) spot.now.place ≡ Some atom.now }
    ensures { IfOk result (λ made. MatchOption made
        (4096 < clause_symbols (in_order (joined (without Succedent i (apply p.entry.entries.now p.entry.clause.now))
        (with_term_at spot.now (replace (entry p.entry.entries.now) side.now) (apply q.entry.entries.now q.entry.clause.now)))))
        (λ kept. in_order kept ≡ in_order (joined (without Succedent i (apply p.entry.entries.now p.entry.clause.now))
        (with_term_at spot.now (replace (entry p.entry.entries.now) side.now) (apply q.entry.entries.now q.entry.clause.now))))) }
{
    let new = Applied {
        term: side,
        entries: p.entries,
    };
    let Some(changed) = changed_atom(alloc, spot.path.as_slice(), new, atom, q.entries)? else {
        return Ok(None);
    };
    let rest = without_succedent(i as usize, p.clause.copy(alloc)?);
    let first = Instance {
        clause: &rest,
        entries: p.entries,
    };
    joined_instances(alloc, first, q, spot, &changed)
}

/// What paramodulation concludes from two clauses under their substitutions, with these dependencies; nothing past 4,096
/// symbols, of which nothing is built.
pub fn ordered_paramodulant(
    alloc: Global,
    equation: Equation,
    spot: &Spot,
    p: Instance,
    q: Instance,
    deps: Deps,
) -> Result<Option<Statement>, AllocError>
    ensures { IfOk result (λ made. made ≡ within (option_map (λ c. states c deps) (paramodulated equation.i equation.right
        spot.now (apply p.entry.entries.now p.entry.clause.now) (apply q.entry.entries.now q.entry.clause.now)))) }
{
    let Some((side, atom)) = changes(equation, spot, p, q) else {
        return Ok(None);
    };
    match paramodulant(alloc, equation.i, spot, side, atom, p, q)? {
        Some(made) => ordered(alloc, made, deps),
        None => Ok(None),
    }
}
