//! The search for a substitution that maps a clause into itself without one of its atoms.
ghost use Rattle.std.specs.Prelude.{◌≡◌, ◌++◌, ◌<◌, ℕ, true, length, remove, IfOk, OnOk, IsPermutation};
ghost use Rattle.std.specs.List.{list_any};
ghost use Rattle.spl_terms.specs.declared.clause.Part.{Part};
ghost use Rattle.spl_terms.specs.Clauses.{atom_terms, is_same, part_of, replace_in_atom};
ghost use Rattle.spl_truth.specs.Unifiers.{HaveVariablesBelow};
ghost use Rattle.proof_steps.specs.Steps.{without};
ghost use Rattle.reductions.specs.Folding.{Folds, FoldsSomewhere, in_part, atoms_in_parts, plain, remainder, turned_if};
ghost use Rattle.reductions.specs.Folding.{AreMapped, HaveAtomsBelow, AreBoundBelow, Searched};

use crate::atoms::match_atom;
use spl_terms::{Atom, Clause, Part};
use std::alloc::{AllocError, Global};
use unify::Bindings;

/// An atom, and the part of its clause in which it stands.
#[derive(Clone, Copy, Debug)]
pub(crate) struct PartAtom<'a> {
    /// The part.
    pub(crate) part: Part,
    /// The atom.
    pub(crate) atom: &'a Atom,
}

/// A clause without one of its atoms, where it stands.
#[derive(Clone, Copy, Debug)]
pub(crate) struct Remainder<'a> {
    /// The clause.
    pub(crate) clause: &'a Clause,
    /// The part of the atom that is left out.
    pub(crate) part: Part,
    /// Its place there, from 0.
    pub(crate) place: usize,
}

// ---- the atoms

/// Adds the atoms of a part.
fn add_atoms<'a>(
    part: Part,
    atoms: &'a [Atom],
    list: &mut Vec<PartAtom<'a>>,
) -> Result<(), AllocError>
    ensures { OnOk result (plain list.new.items ≡ plain list.old.items ++ in_part part atoms.now) }
{
    for atom in atoms {
        list.push(PartAtom { part, atom })?;
    }
    Ok(())
}

/// The atoms of the clause, in any order.
fn listed_atoms<'a>(alloc: Global, clause: &'a Clause) -> Result<Vec<PartAtom<'a>>, AllocError>
    ensures { IfOk result (λ atoms. plain atoms.items ≡ atoms_in_parts clause.now) }
{
    let mut atoms = Vec::new(alloc);
    add_atoms(Part::Constraint, clause.part(Part::Constraint), &mut atoms)?;
    add_atoms(Part::Antecedent, clause.part(Part::Antecedent), &mut atoms)?;
    add_atoms(Part::Succedent, clause.part(Part::Succedent), &mut atoms)?;
    Ok(atoms)
}

/// The atoms of the clause, those with many symbols first, since these leave least open.
pub(crate) fn ordered_atoms<'a>(
    alloc: Global,
    clause: &'a Clause,
) -> Result<Vec<PartAtom<'a>>, AllocError>
    ensures { IfOk result (λ atoms. IsPermutation (atoms_in_parts clause.now) (plain atoms.items)) }
{
    let mut atoms = listed_atoms(alloc, clause)?;
    atoms.sort_unstable_by_key(|item| u64::MAX - item.atom.symbols());
    Ok(atoms)
}

/// The atoms before and behind the one at this place, from 0.
fn around(atoms: &[Atom], place: usize) -> (&[Atom], &[Atom])
    requires { place < length atoms.now }
    ensures { result.0.now ++ result.1.now ≡ remove atoms.now place }
{
    (&atoms[..place], &atoms[place + 1..])
}

/// The atoms of this part that are left, in two pieces.
fn left_in<'a>(into: Remainder<'a>, of: Part) -> (&'a [Atom], &'a [Atom])
    requires { into.place < length (part_of into.clause.now into.part) }
    ensures { result.0.now ++ result.1.now ≡ part_of (remainder into.entry) of }
{
    let atoms = into.clause.part(of);
    match (of, into.part) {
        (Part::Constraint, Part::Constraint)
        | (Part::Antecedent, Part::Antecedent)
        | (Part::Succedent, Part::Succedent) => around(atoms, into.place),
        _ => (atoms, &[]),
    }
}

// ---- the search

/// Makes the target of the atom, with the sides of an equation exchanged where `turned` says so, and then maps the others.
///
/// Where there is no way to do so, the bindings are again what they were.
#[cycle(folding)]
fn map_as<'a>(
    atom: &'a Atom,
    target: &'a Atom,
    turned: bool,
    rest: &[PartAtom<'a>],
    into: Remainder<'a>,
    found: &mut Bindings<'a>,
) -> Result<bool, AllocError>
    requires there { into.place < length (part_of into.clause.now into.part) }
    requires below { HaveVariablesBelow found.old.0 (atom_terms atom.now) }
    requires rest_below { HaveAtomsBelow found.old.0 (plain rest.now) }
    requires bound { AreBoundBelow found.old.0 found.old.1 }
    ensures { IfOk result (Searched
        (λ g. (turned_if turned (replace_in_atom g atom.now) ≡ target.now)
        × AreMapped g (remainder into.entry) (plain rest.now))
        found.old found.new) }
{
    let before = found.count();
    if !match_atom(atom, target, turned, found)? {
        found.undo(before);
        return Ok(false);
    }
    if map_all(rest, into, found)? {
        return Ok(true);
    }
    found.undo(before);
    Ok(false)
}

/// Makes an atom that is the same as the target of the atom, and then maps the others.
#[cycle(folding)]
fn map_to<'a>(
    atom: &'a Atom,
    target: &'a Atom,
    rest: &[PartAtom<'a>],
    into: Remainder<'a>,
    found: &mut Bindings<'a>,
) -> Result<bool, AllocError>
    requires there { into.place < length (part_of into.clause.now into.part) }
    requires below { HaveVariablesBelow found.old.0 (atom_terms atom.now) }
    requires rest_below { HaveAtomsBelow found.old.0 (plain rest.now) }
    requires bound { AreBoundBelow found.old.0 found.old.1 }
    ensures { IfOk result (Searched
        (λ g. (is_same (replace_in_atom g atom.now) target.now ≡ true)
        × AreMapped g (remainder into.entry) (plain rest.now))
        found.old found.new) }
{
    if map_as(atom, target, false, rest, into, found)? {
        return Ok(true);
    }
    match atom {
        Atom::Holds(_, _) => Ok(false),
        Atom::Equal(_, _) => {
            let mapped = map_as(atom, target, true, rest, into, found)?;
            Ok(mapped)
        }
    }
}

/// Makes an atom that is the same as one of the targets of the atom, and then maps the others.
#[cycle(folding)]
fn map_to_some<'a>(
    atom: &'a Atom,
    targets: &'a [Atom],
    rest: &[PartAtom<'a>],
    into: Remainder<'a>,
    found: &mut Bindings<'a>,
) -> Result<bool, AllocError>
    requires there { into.place < length (part_of into.clause.now into.part) }
    requires below { HaveVariablesBelow found.old.0 (atom_terms atom.now) }
    requires rest_below { HaveAtomsBelow found.old.0 (plain rest.now) }
    requires bound { AreBoundBelow found.old.0 found.old.1 }
    ensures { IfOk result (Searched
        (λ g. (list_any (is_same (replace_in_atom g atom.now)) targets.now ≡ true)
        × AreMapped g (remainder into.entry) (plain rest.now))
        found.old found.new) }
{
    for target in targets {
        if map_to(atom, target, rest, into, found)? {
            return Ok(true);
        }
    }
    Ok(false)
}

/// Maps the atom to one that is left in this part, and then the others.
#[cycle(folding)]
fn map_first<'a>(
    part: Part,
    atom: &'a Atom,
    rest: &[PartAtom<'a>],
    into: Remainder<'a>,
    found: &mut Bindings<'a>,
) -> Result<bool, AllocError>
    requires there { into.place < length (part_of into.clause.now into.part) }
    requires below { HaveVariablesBelow found.old.0 (atom_terms atom.now) }
    requires rest_below { HaveAtomsBelow found.old.0 (plain rest.now) }
    requires bound { AreBoundBelow found.old.0 found.old.1 }
    ensures { IfOk result (Searched
        (λ g. (list_any (is_same (replace_in_atom g atom.now)) (part_of (remainder into.entry) part) ≡ true)
        × AreMapped g (remainder into.entry) (plain rest.now))
        found.old found.new) }
{
    let (before, behind) = left_in(into, part);
    if map_to_some(atom, before, rest, into, found)? {
        return Ok(true);
    }
    let mapped = map_to_some(atom, behind, rest, into, found)?;
    Ok(mapped)
}

/// Maps each atom to one that is left in its part. It goes on from the bindings so far; where it answers true, they are
/// such that all that agrees with them maps the atoms so. Where there is no such mapping, it answers false, and the
/// bindings are again what they were. The only error is want of memory.
#[cycle(folding)]
fn map_all<'a>(
    atoms: &[PartAtom<'a>],
    into: Remainder<'a>,
    found: &mut Bindings<'a>,
) -> Result<bool, AllocError>
    requires there { into.place < length (part_of into.clause.now into.part) }
    requires below { HaveAtomsBelow found.old.0 (plain atoms.now) }
    requires bound { AreBoundBelow found.old.0 found.old.1 }
    ensures { IfOk result (Searched
        (λ g. AreMapped g (remainder into.entry) (plain atoms.now))
        found.old found.new) }
{
    match atoms {
        [] => Ok(true),
        [first, rest @ ..] => {
            let mapped = map_first(first.part, first.atom, rest, into, found)?;
            Ok(mapped)
        }
    }
}

// ---- all places

/// Maps the clause, whose atoms are these in some order, into itself without the atom at this place. That one is mapped
/// first, so that nothing else is tried where no other atom of its part is an instance of it.
fn fold_at<'a>(
    into: Remainder<'a>,
    atoms: &[PartAtom<'a>],
    found: &mut Bindings<'a>,
) -> Result<bool, AllocError>
    requires there { into.place < length (part_of into.clause.now into.part) }
    requires atoms { IsPermutation (atoms_in_parts into.clause.now) (plain atoms.now) }
    requires below { HaveAtomsBelow found.old.0 (plain atoms.now) }
    requires bound { AreBoundBelow found.old.0 found.old.1 }
    ensures { IfOk result (Searched
        (λ g. Folds g into.entry.part into.entry.place into.entry.clause.now)
        found.old found.new) }
{
    let first = &into.clause.part(into.part)[into.place];
    let mapped = map_first(into.part, first, atoms, into, found)?;
    Ok(mapped)
}

/// Maps the clause into itself without an atom of this part.
fn fold_in<'a>(
    clause: &'a Clause,
    part: Part,
    atoms: &[PartAtom<'a>],
    found: &mut Bindings<'a>,
) -> Result<bool, AllocError>
    requires atoms { IsPermutation (atoms_in_parts clause.now) (plain atoms.now) }
    requires below { HaveAtomsBelow found.old.0 (plain atoms.now) }
    requires bound { AreBoundBelow found.old.0 found.old.1 }
    ensures { IfOk result (Searched
        (λ g. (place : ℕ) × Folds g part place clause.now)
        found.old found.new) }
{
    for place in 0..clause.part(part).len() {
        let into = Remainder {
            clause,
            part,
            place,
        };
        if fold_at(into, atoms, found)? {
            return Ok(true);
        }
    }
    Ok(false)
}

/// Maps the clause, whose atoms are these in some order, into itself without one of them. Where there is no way to do so,
/// it answers false. The only error is want of memory.
pub(crate) fn fold_clause<'a>(
    clause: &'a Clause,
    atoms: &[PartAtom<'a>],
    found: &mut Bindings<'a>,
) -> Result<bool, AllocError>
    requires atoms { IsPermutation (atoms_in_parts clause.now) (plain atoms.now) }
    requires below { HaveAtomsBelow found.old.0 (plain atoms.now) }
    requires bound { AreBoundBelow found.old.0 found.old.1 }
    ensures { IfOk result (Searched (λ g. FoldsSomewhere g clause.now) found.old found.new) }
{
    if fold_in(clause, Part::Constraint, atoms, found)? {
        return Ok(true);
    }
    if fold_in(clause, Part::Antecedent, atoms, found)? {
        return Ok(true);
    }
    let folded = fold_in(clause, Part::Succedent, atoms, found)?;
    Ok(folded)
}
