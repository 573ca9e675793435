//! Whether a given substitution maps the atoms of a clause to those of another one. Each image is counted before it is built.
ghost use Rattle.std.specs.Prelude.{◌≡◌, ◌≤◌, ◌<◌, ◌++◌, ◌∷◌, [], true, false, ◌&&◌, ◌↔◌, IsTrue, min, not, map, sum_by, IfOk, MatchBool, MatchOption, OnOk};
ghost use Rattle.std.specs.List.{list_all, list_any};
ghost use Rattle.spl_terms.specs.declared.clause.Part.{Part};
ghost use Rattle.spl_terms.specs.Clauses.{atom_symbols, clause_symbols, is_same, part_of, replace_in_atom};
ghost use Rattle.spl_terms.specs.InOrder.{are_different};
ghost use Rattle.spl_truth.specs.Truth.{entry};
ghost use Rattle.spl_truth.specs.Redundancy.{Maps, MapsApart, EachPart};
ghost use Rattle.justification.specs.Tests.{are_mapped, are_mapped_apart, passes_at_parts};

use spl_terms::{Atom, Clause, Items, Term, contains_same, symbols_of};
use spl_truth::{Subst, applied_atom, applied_atom_symbols};
use std::alloc::{AllocError, Global};

/// The atom with each variable replaced by its entry, if it has at most so many symbols. No larger one is built.
fn image(
    alloc: Global,
    entries: &[Term],
    atom: &Atom,
    limit: u64,
) -> Result<Option<Atom>, AllocError>
    ensures { IfOk result (λ made. MatchOption made
        (limit < min (atom_symbols (replace_in_atom (entry entries.now) atom.now)) 18446744073709551615)
        (λ a. a ≡ replace_in_atom (entry entries.now) atom.now)) }
{
    if applied_atom_symbols(entries, atom, limit.saturating_add(1)) > limit {
        return Ok(None);
    }
    Ok(Some(applied_atom(alloc, entries, atom)?))
}

/// Whether each atom becomes, where the variables are replaced, the same as one of the others, which have at most so many
/// symbols.
#[tactic(auto, using(crate::proofs::Sizes::too_large))]
fn all_mapped(
    alloc: Global,
    entries: &[Term],
    atoms: &[Atom],
    into: &[Atom],
    limit: u64,
) -> Result<bool, AllocError>
    requires { min (sum_by atom_symbols into.now) 18446744073709551615 ≤ limit }
    ensures { IfOk result (λ yes. yes ≡ are_mapped (entry entries.now) atoms.now into.now) }
{
    for atom in atoms {
        if !is_mapped(alloc, entries, atom, into, limit)? {
            return Ok(false);
        }
    }
    Ok(true)
}

/// Whether the atom becomes, where the variables are replaced, the same as one of the others.
#[tactic(auto, using(crate::proofs::Sizes::too_large))]
fn is_mapped(
    alloc: Global,
    entries: &[Term],
    atom: &Atom,
    into: &[Atom],
    limit: u64,
) -> Result<bool, AllocError>
    requires { min (sum_by atom_symbols into.now) 18446744073709551615 ≤ limit }
    ensures { IfOk result (λ yes. yes ≡ list_any (is_same (replace_in_atom (entry entries.now) atom.now)) into.now) }
{
    match image(alloc, entries, atom, limit)? {
        Some(made) => Ok(contains_same(into, &made)),
        None => Ok(false),
    }
}

/// Keeps the image of the atom, if it is the same as one of the others and as none of the images so far.
#[tactic(auto, using(crate::proofs::Sizes::too_large))]
fn add_image(
    alloc: Global,
    entries: &[Term],
    atom: &Atom,
    into: &[Atom],
    limit: u64,
    images: &mut Items<Atom>,
) -> Result<bool, AllocError>
    requires { min (sum_by atom_symbols into.now) 18446744073709551615 ≤ limit }
    ensures answer { IfOk result (λ yes. yes ≡ (list_any (is_same (replace_in_atom (entry entries.now) atom.now)) into.now
        && not (list_any (is_same (replace_in_atom (entry entries.now) atom.now)) images.old))) }
    ensures kept { IfOk result (λ yes. yes ≡ true → images.new ≡ images.old ++ replace_in_atom (entry entries.now) atom.now ∷ []) }
{
    let Some(made) = image(alloc, entries, atom, limit)? else {
        return Ok(false);
    };
    if !contains_same(into, &made) || contains_same(images.as_slice(), &made) {
        return Ok(false);
    }
    images.push(made)?;
    Ok(true)
}

/// Whether each atom becomes the same as one of the others, and no two become the same.
fn all_mapped_apart(
    alloc: Global,
    entries: &[Term],
    atoms: &[Atom],
    into: &[Atom],
    limit: u64,
) -> Result<bool, AllocError>
    requires { min (sum_by atom_symbols into.now) 18446744073709551615 ≤ limit }
    ensures { IfOk result (λ yes. yes ≡ are_mapped_apart (entry entries.now) atoms.now into.now) }
{
    let mut images = Items::new(alloc);
    for atom in atoms {
        if !add_image(alloc, entries, atom, into, limit, &mut images)? {
            return Ok(false);
        }
    }
    Ok(true)
}

/// Whether each atom of each part becomes the same as one of that part of the other clause.
#[tactic(auto, using(crate::proofs::Sizes::part_laws))]
pub fn parts_mapped(
    alloc: Global,
    entries: &[Term],
    clause: &Clause,
    into: &Clause,
) -> Result<bool, AllocError>
    ensures { IfOk result (λ yes. yes ≡ passes_at_parts (are_mapped (entry entries.now)) clause.now into.now) }
{
    let limit = symbols_of(into);
    let constraint = clause.constraint.as_slice();
    if !all_mapped(
        alloc,
        entries,
        constraint,
        into.constraint.as_slice(),
        limit,
    )? {
        return Ok(false);
    }
    let antecedent = clause.antecedent.as_slice();
    if !all_mapped(
        alloc,
        entries,
        antecedent,
        into.antecedent.as_slice(),
        limit,
    )? {
        return Ok(false);
    }
    let succedent = clause.succedent.as_slice();
    all_mapped(alloc, entries, succedent, into.succedent.as_slice(), limit)
}

/// The same, where no two atoms of a part become the same.
#[tactic(auto, using(crate::proofs::Sizes::part_laws))]
fn parts_mapped_apart(
    alloc: Global,
    entries: &[Term],
    clause: &Clause,
    into: &Clause,
) -> Result<bool, AllocError>
    ensures { IfOk result (λ yes. yes ≡ passes_at_parts (are_mapped_apart (entry entries.now)) clause.now into.now) }
{
    let limit = symbols_of(into);
    let constraint = clause.constraint.as_slice();
    if !all_mapped_apart(
        alloc,
        entries,
        constraint,
        into.constraint.as_slice(),
        limit,
    )? {
        return Ok(false);
    }
    let antecedent = clause.antecedent.as_slice();
    if !all_mapped_apart(
        alloc,
        entries,
        antecedent,
        into.antecedent.as_slice(),
        limit,
    )? {
        return Ok(false);
    }
    let succedent = clause.succedent.as_slice();
    all_mapped_apart(alloc, entries, succedent, into.succedent.as_slice(), limit)
}

/// Whether the substitution maps each part of the clause into that part of the other one, different places to different
/// places; no part of the other one has two atoms that are the same.
pub fn maps_apart(
    alloc: Global,
    subst: &Subst,
    clause: &Clause,
    into: &Clause,
) -> Result<bool, AllocError>
    requires { (part : Part) → are_different (part_of into.now part) ≡ true }
    ensures { IfOk result (λ yes. IsTrue yes ↔ EachPart (MapsApart (entry subst.now.terms)) clause.now into.now) }
{
    let passes = parts_mapped_apart(alloc, subst.terms.as_slice(), clause, into)?;
    Ok(passes)
}
