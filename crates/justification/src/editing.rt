//! Edits: equations that rewrite a clause, at one spot after another.
ghost use Rattle.std.specs.Prelude.{◌≡◌, ◌++◌, ◌∷◌, [], None, Some, fold, option_and_then, slice_get, IfOk, IsSomeAnd, MatchBool, MatchOption};
ghost use Rattle.std.specs.Option.{option_copied};
ghost use Rattle.spl_terms.specs.Terms.{term_eq, replace};
ghost use Rattle.spl_truth.specs.Truth.{entry};
ghost use Rattle.proof_steps.specs.Spots.{changed_at};
ghost use Rattle.proof_steps.specs.Steps.{has_entries, sides_of};
ghost use Rattle.justification.specs.Instances.{instance_sides, edited_from};
ghost use Rattle.calculus.specs.Notes.{EditState, unit_atom, edited_atom, edited_at, edit_once, edited};

use crate::subterms::{set_term_under, term_under};
use calculus::Edit;
use proof_steps::{Statement, numbered};
use spl_terms::{Atom, Clause, Items, Part, Spot, Term, order_of};
use spl_truth::{Subst, applied_symbols, replaced};
use std::alloc::{AllocError, Global};

/// A clause while it is edited.
#[derive(Drop)]
pub struct Rewriting {
    /// What stands there now.
    pub now: Clause,
    /// All atoms that have stood there, each in its part.
    pub ever: Clause,
}

/// An equation in the direction in which it rewrites, and the substitution under which its sides are taken.
#[derive(Clone, Copy)]
struct Rewrite<'a> {
    first: &'a Term,
    second: &'a Term,
    entries: &'a [Term],
}

// ---- the equation

/// Whether the substitution has one entry for each variable of the clause.
pub fn has_entries(alloc: Global, subst: &Subst, clause: &Clause) -> Result<bool, AllocError>
    ensures { IfOk result (λ yes. yes ≡ has_entries subst.now.terms clause.now) }
{
    let order = order_of(alloc, clause)?;
    Ok(subst.terms.len() == order.len())
}

/// The one atom of a clause that has no other, where it is in the succedent.
fn unit_atom(clause: &Clause) -> Option<&Atom>
    ensures { option_copied result ≡ unit_atom clause.now }
{
    if !clause.constraint.is_empty() || !clause.antecedent.is_empty() {
        return None;
    }
    match clause.succedent.as_slice() {
        [atom] => Some(atom),
        _ => None,
    }
}

/// The sides of a clause that is an equation, read from left to right, or from right to left; none where it is none.
fn sides(right_to_left: bool, clause: &Clause) -> Option<(&Term, &Term)>
    ensures { MatchOption result
        (option_and_then (sides_of right_to_left) (unit_atom clause.now) ≡ None)
        (λ both. option_and_then (sides_of right_to_left) (unit_atom clause.now) ≡ Some (both.0.now, both.1.now)) }
{
    match unit_atom(clause) {
        Some(Atom::Equal(left, right)) => {
            if right_to_left {
                Some((right, left))
            } else {
                Some((left, right))
            }
        }
        _ => None,
    }
}

// ---- one edit

/// Whether the term is the pattern with each variable replaced by its entry. No larger instance is built.
#[tactic(auto, using(crate::proofs::Sizes::sizes_differ))]
fn is_instance(
    alloc: Global,
    term: &Term,
    pattern: &Term,
    entries: &[Term],
) -> Result<bool, AllocError>
    ensures { IfOk result (λ yes. yes ≡ term_eq term.now (replace (entry entries.now) pattern.now)) }
{
    let size = term.symbols();
    if applied_symbols(pattern, entries, size.saturating_add(1)) != size {
        return Ok(false);
    }
    let made = replaced(alloc, entries, pattern)?;
    Ok(term.equals(&made))
}

/// Rewrites the subterm at the end of the path in the atom; false, and nothing is changed, where it isn't the first side.
fn edit_atom(
    alloc: Global,
    path: &[u32],
    rewrite: Rewrite,
    atom: &mut Atom,
) -> Result<bool, AllocError>
    ensures { IfOk result (λ yes. MatchBool yes
        (edited_atom path.now atom.old (instance_sides rewrite.entry.entries.now rewrite.entry.first.now rewrite.entry.second.now) ≡ Some atom.new)
        (edited_atom path.now atom.old (instance_sides rewrite.entry.entries.now rewrite.entry.first.now rewrite.entry.second.now) ≡ None)) }
{
    let Some(there) = term_under(path, atom) else {
        return Ok(false);
    };
    if !is_instance(alloc, there, rewrite.first, rewrite.entries)? {
        return Ok(false);
    }
    let new = replaced(alloc, rewrite.entries, rewrite.second)?;
    set_term_under(path, new, atom);
    Ok(true)
}

/// Rewrites the atom at this place of a part, and keeps a copy of what it became; false where that can't be done.
fn edit_part(
    alloc: Global,
    place: usize,
    path: &[u32],
    rewrite: Rewrite,
    now: &mut Items<Atom>,
    ever: &mut Items<Atom>,
) -> Result<bool, AllocError>
    ensures { IfOk result (λ yes. MatchBool yes
        (IsSomeAnd (option_and_then (λ a. edited_atom path.now a (instance_sides rewrite.entry.entries.now rewrite.entry.first.now rewrite.entry.second.now)) (slice_get now.old place))
        (λ a. (now.new ≡ changed_at place (λ b. a) now.old) × (ever.new ≡ ever.old ++ a ∷ [])))
        (option_and_then (λ a. edited_atom path.now a (instance_sides rewrite.entry.entries.now rewrite.entry.first.now rewrite.entry.second.now)) (slice_get now.old place) ≡ None)) }
{
    if place >= now.len() {
        return Ok(false);
    }
    let mut made = now.as_slice()[place].copy(alloc)?;
    if !edit_atom(alloc, path, rewrite, &mut made)? {
        return Ok(false);
    }
    ever.push(made.copy(alloc)?)?;
    now.set(place, made);
    Ok(true)
}

/// Rewrites the subterm at the spot; false where it isn't the first side.
fn edit_at(
    alloc: Global,
    spot: &Spot,
    rewrite: Rewrite,
    clause: &mut Rewriting,
) -> Result<bool, AllocError>
    ensures { IfOk result (λ yes. MatchBool yes
        (edited_at (record { now = clause.old.now; ever = clause.old.ever }) spot.now
        (instance_sides rewrite.entry.entries.now rewrite.entry.first.now rewrite.entry.second.now)
        ≡ Some (record { now = clause.new.now; ever = clause.new.ever }))
        (edited_at (record { now = clause.old.now; ever = clause.old.ever }) spot.now
        (instance_sides rewrite.entry.entries.now rewrite.entry.first.now rewrite.entry.second.now)
        ≡ None)) }
{
    let (place, path) = (spot.place as usize, spot.path.as_slice());
    match spot.part {
        Part::Constraint => edit_part(
            alloc,
            place,
            path,
            rewrite,
            &mut clause.now.constraint,
            &mut clause.ever.constraint,
        ),
        Part::Antecedent => edit_part(
            alloc,
            place,
            path,
            rewrite,
            &mut clause.now.antecedent,
            &mut clause.ever.antecedent,
        ),
        Part::Succedent => edit_part(
            alloc,
            place,
            path,
            rewrite,
            &mut clause.now.succedent,
            &mut clause.ever.succedent,
        ),
    }
}

/// Applies an edit; false where its equation isn't there or is none, or doesn't rewrite what stands at the spot.
#[tactic(auto, using(crate::proofs::EditSteps::edit_laws))]
fn edit_once(
    alloc: Global,
    earlier: &[Statement],
    edit: &Edit,
    clause: &mut Rewriting,
) -> Result<bool, AllocError>
    ensures { IfOk result (λ yes. MatchBool yes
        (edit_once earlier.now (record { now = clause.old.now; ever = clause.old.ever }) edit.now
        ≡ Some (record { now = clause.new.now; ever = clause.new.ever }))
        (edit_once earlier.now (record { now = clause.old.now; ever = clause.old.ever }) edit.now ≡ None)) }
{
    let Some(equation) = numbered(earlier, edit.equation) else {
        return Ok(false);
    };
    let Some((first, second)) = sides(edit.right_to_left, &equation.clause) else {
        return Ok(false);
    };
    if !has_entries(alloc, &edit.subst, &equation.clause)? {
        return Ok(false);
    }
    let rewrite = Rewrite {
        first,
        second,
        entries: edit.subst.terms.as_slice(),
    };
    edit_at(alloc, &edit.spot, rewrite, clause)
}

// ---- all edits

/// Applies the edits one after another; false where one can't be applied.
fn edit_all(
    alloc: Global,
    earlier: &[Statement],
    edits: &[Edit],
    clause: &mut Rewriting,
) -> Result<bool, AllocError>
    ensures { IfOk result (λ yes. MatchBool yes
        (edited_from earlier.now (Some (record { now = clause.old.now; ever = clause.old.ever })) edits.now
        ≡ Some (record { now = clause.new.now; ever = clause.new.ever }))
        (edited_from earlier.now (Some (record { now = clause.old.now; ever = clause.old.ever })) edits.now ≡ None)) }
{
    for edit in edits {
        if !edit_once(alloc, earlier, edit, clause)? {
            return Ok(false);
        }
    }
    Ok(true)
}

/// A copy of the clause after all edits, in order; none where one of them can't be applied.
pub fn edited(
    alloc: Global,
    earlier: &[Statement],
    clause: &Clause,
    edits: &[Edit],
) -> Result<Option<Rewriting>, AllocError>
    ensures { IfOk result (λ made. MatchOption made
        (edited earlier.now clause.now edits.now ≡ None)
        (λ all. edited earlier.now clause.now edits.now ≡ Some (record { now = all.now; ever = all.ever }))) }
{
    let mut made = Rewriting {
        now: clause.copy(alloc)?,
        ever: clause.copy(alloc)?,
    };
    if edit_all(alloc, earlier, edits, &mut made)? {
        Ok(Some(made))
    } else {
        Ok(None)
    }
}
