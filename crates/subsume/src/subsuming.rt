//! Whether one clause subsumes another, and by which substitution.
ghost use Rattle.std.specs.Prelude.{◌≡◌, ◌+◌, ℕ, [], length, get_or, false, IfOk, MatchOption, IsPermutation};
ghost use Rattle.spl_terms.specs.declared.term.Term.{Term};
ghost use Rattle.spl_terms.specs.InOrder.{IsInOrder, variables};
ghost use Rattle.spl_truth.specs.Truth.{entry};
ghost use Rattle.spl_truth.specs.Redundancy.{Subsumes};
ghost use Rattle.subsume.specs.Placing.{plain, all_to_map, AreWithin, ArePlaced};
ghost use Rattle.subsume.specs.Subsuming.{SubsumesBy};

use crate::atoms::AtomToMap;
use crate::candidates::add_atoms;
use crate::counting::may_subsume;
use crate::placing::place_all;
use spl_terms::{Clause, Part, order_of};
use spl_truth::Subst;
use std::alloc::{AllocError, Global};
use unify::Bindings;

/// The sum; there is no memory for lists that are longer than the last number.
fn sum_of(one: usize, other: usize) -> Result<usize, AllocError>
    ensures { IfOk result (λ sum. sum ≡ one + other) }
{
    match one.checked_add(other) {
        Some(sum) => Ok(sum),
        None => Err(AllocError),
    }
}

/// How many variables the clause has.
fn variables_of(alloc: Global, clause: &Clause) -> Result<u32, AllocError>
    ensures { IfOk result (λ count. count ≡ variables clause.now) }
{
    let count = order_of(alloc, clause)?.len();
    if count > 4_294_967_295 {
        return Err(AllocError);
    }
    Ok(count as u32)
}

/// Marks of so many places, none of which is in use.
fn unused(alloc: Global, count: usize) -> Result<Vec<bool>, AllocError>
    ensures as_many { IfOk result (λ used. length used.items ≡ count) }
    ensures free { IfOk result (λ used. (q : ℕ) → get_or used.items q false ≡ false) }
{
    let mut used = Vec::with_capacity(alloc, count)?;
    for _ in 0..count {
        used.push(false)?;
    }
    Ok(used)
}

/// The atoms of c, each with the atoms of the same part of d, in any order; none where an atom has no candidate there.
fn listed_atoms<'a>(
    alloc: Global,
    c: &'a Clause,
    d: &'a Clause,
) -> Result<Option<Vec<AtomToMap<'a>>>, AllocError>
    ensures { IfOk result (λ found. MatchOption found
        (Subsumes c.now d.now → ⊥)
        (λ atoms. plain atoms.items ≡ all_to_map c.now d.now)) }
{
    let constraint = d.part(Part::Constraint);
    let antecedent = d.part(Part::Antecedent);
    let succedent = d.part(Part::Succedent);
    let mut atoms = Vec::new(alloc);
    if !add_atoms(c.part(Part::Constraint), constraint, 0, &mut atoms)? {
        return Ok(None);
    }
    let first = constraint.len();
    if !add_atoms(c.part(Part::Antecedent), antecedent, first, &mut atoms)? {
        return Ok(None);
    }
    let first = sum_of(first, antecedent.len())?;
    if !add_atoms(c.part(Part::Succedent), succedent, first, &mut atoms)? {
        return Ok(None);
    }
    Ok(Some(atoms))
}

/// The same list, with those first that leave least open: few candidates, and then many symbols.
fn ordered_atoms<'a>(
    alloc: Global,
    c: &'a Clause,
    d: &'a Clause,
) -> Result<Option<Vec<AtomToMap<'a>>>, AllocError>
    ensures { IfOk result (λ found. MatchOption found
        (Subsumes c.now d.now → ⊥)
        (λ atoms. IsPermutation (all_to_map c.now d.now) (plain atoms.items))) }
{
    match listed_atoms(alloc, c, d)? {
        None => Ok(None),
        Some(mut atoms) => {
            atoms.sort_unstable_by_key(|atom| (atom.candidates, u64::MAX - atom.symbols));
            Ok(Some(atoms))
        }
    }
}

/// The entries of the variables below `vars` by which the atoms are mapped to different ones of so many places; none where
/// they can't be mapped so.
fn placed<'a>(
    alloc: Global,
    atoms: &[AtomToMap<'a>],
    count: usize,
    vars: u32,
) -> Result<Option<Subst>, AllocError>
    requires { AreWithin vars count (plain atoms.now) }
    ensures { IfOk result (λ found. MatchOption found
        ((g : ℕ → Term) → ArePlaced g [] (plain atoms.now) → ⊥)
        (λ s. (length s.terms ≡ vars) × ArePlaced (entry s.terms) [] (plain atoms.now))) }
{
    let mut used = unused(alloc, count)?;
    let mut found = Bindings::new(alloc, vars)?;
    if place_all(atoms, used.as_mut_slice(), &mut found)? {
        Ok(Some(found.entries(alloc, vars)?))
    } else {
        Ok(None)
    }
}

/// A substitution by which c subsumes d (Weidenbach 2001, the section on reductions): it maps each atom of c to an atom that
/// is the same, up to exchanged sides, as one of the same part of d, and different places of c to different places of d. It
/// has an entry for each variable of c. None exactly where there is no such substitution. Variables of d stand for
/// themselves, also where c has one with the same number.
///
/// Most pairs are told apart by numbers of atoms and symbols, or since an atom of c has no candidate in d; these tests take
/// time that grows with the product of the numbers of atoms, at most. Behind them stands a search that maps the atoms of c
/// one after another, those with the fewest candidates first. To subsume is NP-complete, so the search takes exponential
/// time for some clauses: where many atoms of c have one predicate and share few variables with those before them, and d
/// has many atoms of that predicate. It nests as deep as c has atoms, and as its terms are.
///
/// # Errors
///
/// Only where there is no memory.
pub fn subsumes(alloc: Global, c: &Clause, d: &Clause) -> Result<Option<Subst>, AllocError>
    requires { IsInOrder c.now }
    ensures { IfOk result (λ found. MatchOption found
        (Subsumes c.now d.now → ⊥)
        (λ s. SubsumesBy c.now d.now s.terms)) }
{
    if !may_subsume(c, d) {
        return Ok(None);
    }
    match ordered_atoms(alloc, c, d)? {
        None => Ok(None),
        Some(atoms) => {
            let before = sum_of(d.constraint.len(), d.antecedent.len())?;
            let count = sum_of(before, d.succedent.len())?;
            let vars = variables_of(alloc, c)?;
            let found = placed(alloc, atoms.as_slice(), count, vars)?;
            Ok(found)
        }
    }
}
