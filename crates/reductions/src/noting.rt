//! Notes of chains of reductions: the edits by which a clause becomes one into which the end of the chain maps.
ghost use Rattle.std.specs.Prelude.{◌≡◌, ◌<◌, true, Some, None, length, map, slice_get, Contains, IfOk, OnOk, IsSomeAnd, MatchBool, MatchOption};
ghost use Rattle.std.specs.List.{list_any};
ghost use Rattle.spl_terms.specs.declared.clause.Clause.{Clause};
ghost use Rattle.spl_terms.specs.declared.term.Term.{Term};
ghost use Rattle.spl_terms.specs.Terms.{replace};
ghost use Rattle.spl_terms.specs.Clauses.{is_same, part_of};
ghost use Rattle.spl_terms.specs.InOrder.{IsInOrder};
ghost use Rattle.spl_truth.specs.Truth.{entry};
ghost use Rattle.spl_truth.specs.Redundancy.{Subsumes};
ghost use Rattle.calculus.specs.Inferences.{clause_of};
ghost use Rattle.reductions.specs.Rewriting.{IsEquation};
ghost use Rattle.reductions.specs.Chains.{HasNumber, HaveOneClause, AreInOrder, IsChain, IsNoteOf, rewriting_of, ShrinksOrRewrites};
ghost use Rattle.reductions.specs.Chains.{to_other_side, AreTurned, IsMovedPath, IsImageEdit, EditsAlong};

use crate::subterms::set_term_at;
use calculus::{Edit, HideNote, Kept, Why};
use proof_steps::{Line, Rule, Statement};
use spl_terms::{Atom, Clause, Items, Spot, Term, same_atom};
use spl_truth::{Subst, applied_atom, replaced};
use std::alloc::{AllocError, Global};
use subsume::subsumes;

// ---- what a line rewrites

/// What a step of rewriting does.
#[derive(Clone, Copy, Debug)]
struct Rewriting<'a> {
    /// The number of the equation, from 1.
    equation: u32,
    /// Whether the right side is replaced by the left one.
    right_to_left: bool,
    /// Where it is replaced.
    spot: &'a Spot,
    /// One entry for each variable of the equation.
    s: &'a Subst,
}

/// What the step of the line rewrites; none where it doesn't rewrite.
fn rewriting_of(line: &Line) -> Option<Rewriting<'_>>
    ensures { MatchOption result
        (rewriting_of line.now.step ≡ None)
        (λ r. rewriting_of line.now.step ≡ Some (r.equation, r.right_to_left, r.spot.now, r.s.now)) }
{
    match (&line.step.rule, line.step.parents.as_slice()) {
        (
            Rule::Paramodulate {
                right_to_left,
                spot,
                s,
                ..
            },
            [equation, _],
        ) => Some(Rewriting {
            equation: *equation,
            right_to_left: *right_to_left,
            spot,
            s,
        }),
        _ => None,
    }
}

/// The listed clause with this number.
fn listed_as(listed: &[Kept], number: u32) -> Option<&Kept>
    ensures { MatchOption result
        (HasNumber listed.now number → ⊥)
        (λ kept. Contains listed.now kept.now × (kept.now.number ≡ number)) }
{
    for kept in listed {
        if kept.number == number {
            return Some(kept);
        }
    }
    None
}

/// The side that is put in where the clause is an equation, which is the second one as it is read.
fn new_side(clause: &Clause, right_to_left: bool) -> Option<&Term>
    ensures { (l r : Term) → IsEquation right_to_left clause.now l r → IsSomeAnd result (λ side. side.now ≡ r) }
{
    match clause.succedent.as_slice() {
        [Atom::Equal(left, right)] => Some(if right_to_left { left } else { right }),
        _ => None,
    }
}

// ---- the same in a clause into which the one before the line maps

/// The place of the first atom that is the same, from 0; none where there is none.
fn place_of(atom: &Atom, atoms: &[Atom]) -> Option<usize>
    ensures { MatchOption result
        (list_any (is_same atom.now) atoms.now ≡ true → ⊥)
        (λ place. IsSomeAnd (slice_get atoms.now place) (λ b. is_same atom.now b ≡ true)) }
{
    for (place, other) in atoms.iter().enumerate() {
        if same_atom(atom, other) {
            return Some(place);
        }
    }
    None
}

/// Whether the atoms, which are the same, are equations of which one has the sides of the other one exchanged.
fn are_turned(atom: &Atom, other: &Atom) -> bool
    requires { is_same atom.now other.now ≡ true }
    ensures { MatchBool result (AreTurned atom.now other.now) (atom.now ≡ other.now) }
{
    match (atom, other) {
        (Atom::Equal(left, _), Atom::Equal(first, _)) => !left.equals(first),
        _ => false,
    }
}

/// The path as one of the other atom: where the sides are exchanged it leads to the other side.
fn moved_path(
    alloc: Global,
    atom: &Atom,
    other: &Atom,
    path: &[u32],
) -> Result<Items<u32>, AllocError>
    requires { is_same atom.now other.now ≡ true }
    ensures { IfOk result (λ moved. IsMovedPath atom.now other.now path.now moved) }
{
    let mut moved = Items::from_slice(alloc, path)?;
    if are_turned(atom, other) {
        turn_path(moved.as_mut_slice());
    }
    Ok(moved)
}

/// Turns a path to a term of an equation into one of the equation with its sides exchanged.
fn turn_path(path: &mut [u32])
    ensures { path.new ≡ to_other_side path.old }
{
    if !path.is_empty() {
        path[0] = if path[0] == 0 { 1 } else { 0 };
    }
}

/// The terms under the substitution.
fn instances(alloc: Global, entries: &[Term], terms: &[Term]) -> Result<Items<Term>, AllocError>
    ensures { IfOk result (λ made. made ≡ map (replace (entry entries.now)) terms.now) }
{
    let mut made = Items::with_room(alloc, terms.len())?;
    for term in terms {
        made.push(replaced(alloc, entries, term)?)?;
    }
    Ok(made)
}

/// The edit that does in the clause what the step did in the one that maps into it.
fn edit_for(
    alloc: Global,
    rewriting: Rewriting,
    current: &Clause,
    now: &Clause,
) -> Result<Edit, AllocError>
    requires in_order { IsInOrder current.now }
    requires maps { Subsumes current.now now.now }
    requires there { rewriting.spot.now.place < length (part_of current.now rewriting.spot.now.part) }
    ensures { IfOk result (IsImageEdit rewriting.entry.equation rewriting.entry.right_to_left
        rewriting.entry.spot.now rewriting.entry.s.now current.now now.now) }
{
    let by = subsumes(alloc, current, now)?.unwrap();
    let spot = rewriting.spot;
    let atom = &current.part(spot.part)[spot.place as usize];
    let image = applied_atom(alloc, by.terms.as_slice(), atom)?;
    let atoms = now.part(spot.part);
    let place = place_of(&image, atoms).unwrap();
    if place > 4_294_967_295 {
        return Err(AllocError);
    }
    let path = moved_path(alloc, &image, &atoms[place], spot.path.as_slice())?;
    let terms = instances(alloc, by.terms.as_slice(), rewriting.s.terms.as_slice())?;
    Ok(Edit {
        equation: rewriting.equation,
        subst: Subst { terms },
        right_to_left: rewriting.right_to_left,
        spot: Spot {
            part: spot.part,
            place: place as u32,
            path,
        },
    })
}

/// Does in the clause what the line did in the one that maps into it, and adds the edit.
fn edit_along(
    alloc: Global,
    line: &Line,
    current: &Clause,
    listed: &[Kept],
    now: &mut Clause,
    edits: &mut Items<Edit>,
) -> Result<(), AllocError>
    requires in_order { IsInOrder current.now }
    requires listed_in_order { AreInOrder listed.now }
    requires one_clause { HaveOneClause listed.now }
    requires maps { Subsumes current.now now.old }
    requires does { ShrinksOrRewrites listed.now current.now line.now }
    ensures along { OnOk result (EditsAlong listed.now line.now now.old now.new edits.old edits.new) }
    ensures maps { OnOk result (Subsumes line.now.stated.clause now.new) }
{
    let Some(rewriting) = rewriting_of(line) else {
        return Ok(());
    };
    let edit = edit_for(alloc, rewriting, current, now)?;
    let equation = listed_as(listed, rewriting.equation).unwrap();
    let side = new_side(&equation.statement.clause, rewriting.right_to_left).unwrap();
    let new = replaced(alloc, edit.subst.terms.as_slice(), side)?;
    set_term_at(&edit.spot, new, now);
    edits.push(edit)?;
    Ok(())
}

// ---- all lines

/// The note that hides the clause with this number, from 1, since the reducts lead from it to the clause `reduct`, which is
/// kept: each line of them is a reduction step (Weidenbach 2001, the section on reductions) of what the one before it states,
/// by itself or by one of the listed clauses. The reasons are the reduct and the equations by which the clause was
/// rewritten. Neither the reduct nor any clause that reduces has this number.
///
/// Each rewriting is done once more, in a copy of the whole clause, where the reduct of each line stays mapped; to find how
/// it is takes as long as `subsumes`.
///
/// # Errors
///
/// Only where there is no memory.
pub fn note_for(
    alloc: Global,
    number: u32,
    target: &Statement,
    reducts: &[Line],
    reduct: u32,
    listed: &[Kept],
) -> Result<HideNote, AllocError>
    requires in_order { IsInOrder target.now.clause }
    requires listed_in_order { AreInOrder listed.now }
    requires chain { IsChain number listed.now number target.now.clause reducts.now }
    requires apart { reduct ≡ number → ⊥ }
    ensures { IfOk result (IsNoteOf number target.now.clause reducts.now reduct listed.now) }
{
    let mut now = target.clause.copy(alloc)?;
    let mut edits = Items::new(alloc);
    let mut current = &target.clause;
    for line in reducts {
        edit_along(alloc, line, current, listed, &mut now, &mut edits)?;
        current = &line.stated.clause;
    }
    let subst = subsumes(alloc, current, &now)?.unwrap();
    Ok(HideNote {
        hidden: number,
        why: Why::Rewritten {
            reduct,
            subst,
            edits,
        },
    })
}
