//! How many symbols a conclusion has without its repeated atoms, before its unifier is written out from the bindings.
ghost use Rattle.std.specs.Prelude.{◌≡◌, ℕ, List, [], ◌∷◌, ◌++◌, ◌<◌, ◌≤◌, map, IfOk, IfErr};
ghost use Rattle.spl_terms.specs.declared.atom.Atom.{Atom};
ghost use Rattle.spl_terms.specs.declared.clause.Clause.{Clause};
ghost use Rattle.spl_terms.specs.Clauses.{distinct, replace_in_atom};
ghost use Rattle.spl_truth.specs.Truth.{entry};
ghost use Rattle.unify.specs.Bindings.{IsTriangular};
ghost use Rattle.superposition.specs.Sizes.{entries_from, Counts, AreCounted, atoms_by, Refuses};

use crate::counting::{is_vast, symbols_of_atoms};
use crate::error::InferError;
use crate::viewing::atom_of;
use spl_terms::{Atom, Items, contains_same};
use std::alloc::{AllocError, Global};
use unify::Bindings;

// ---- atoms one after another

/// Counts an atom with those that are kept, and keeps it, unless one that is the same is kept.
fn count_atom(kept: &mut Items<Atom>, count: u64, atom: Atom) -> Result<u64, AllocError>
    ensures { (atoms : List Atom) → count < 1000000 → AreCounted count kept.old atoms
        → IfOk result (λ n. AreCounted n kept.new (atoms ++ atom ∷ [])) }
{
    if contains_same(kept.as_slice(), &atom) {
        return Ok(count);
    }
    let symbols = atom.symbols();
    kept.push(atom)?;
    Ok(count.saturating_add(symbols))
}

/// Counts the instance of an atom with those that are kept, which is built only where it has fewer than 1,000,000 symbols,
/// as they have.
fn count_instance<'a>(
    alloc: Global,
    bindings: &Bindings<'a>,
    from: u32,
    past: u32,
    atom: &Atom,
    kept: &mut Items<Atom>,
    count: u64,
) -> Result<u64, AllocError>
    requires { IsTriangular bindings.now.0 bindings.now.1 }
    ensures { (atoms : List Atom) → AreCounted count kept.old atoms → IfOk result (λ n. AreCounted n kept.new
        (atoms ++ replace_in_atom (entry (entries_from from past bindings.now.1)) atom.now ∷ [])) }
{
    if count >= 1_000_000 {
        return Ok(count);
    }
    if is_vast(bindings, from, past, atom) {
        return Ok(1_000_000);
    }
    let made = atom_of(alloc, bindings, from, past, atom)?;
    count_atom(kept, count, made)
}

/// Counts the instances of the atoms with those that are kept, one after another.
fn count_instances<'a>(
    alloc: Global,
    bindings: &Bindings<'a>,
    from: u32,
    past: u32,
    atoms: &[Atom],
    kept: &mut Items<Atom>,
    count: u64,
) -> Result<u64, AllocError>
    requires { IsTriangular bindings.now.0 bindings.now.1 }
    ensures { (earlier : List Atom) → AreCounted count kept.old earlier → IfOk result (λ n. AreCounted n kept.new
        (earlier ++ map (replace_in_atom (entry (entries_from from past bindings.now.1))) atoms.now)) }
{
    let mut total = count;
    for atom in atoms {
        total = count_instance(alloc, bindings, from, past, atom, kept, total)?;
    }
    Ok(total)
}

// ---- parts

/// The atoms of a part of a conclusion, before the unifier is applied: those of the first premise before and behind what
/// is taken out of it, and those of the second one, between which stand changed ones whose variables are raised already.
#[derive(Clone, Copy)]
pub(crate) struct Origins<'a> {
    pub(crate) before: &'a [Atom],
    pub(crate) behind: &'a [Atom],
    pub(crate) others: &'a [Atom],
    pub(crate) changed: &'a [Atom],
    pub(crate) rest: &'a [Atom],
}

/// How many symbols the part has without repeated atoms, or 1,000,000 or more.
fn part_symbols<'a>(
    alloc: Global,
    bindings: &Bindings<'a>,
    first: u32,
    both: u32,
    x: Origins,
) -> Result<u64, AllocError>
    requires { IsTriangular bindings.now.0 bindings.now.1 }
    ensures { IfOk result (λ n. Counts n (distinct (atoms_by first both bindings.now.1 x.entry))) }
{
    let mut kept = Items::new(alloc);
    let p_before = count_instances(alloc, bindings, 0, first, x.before, &mut kept, 0)?;
    let p_all = count_instances(alloc, bindings, 0, first, x.behind, &mut kept, p_before)?;
    let q_before = count_instances(alloc, bindings, first, both, x.others, &mut kept, p_all)?;
    let changed = count_instances(alloc, bindings, 0, both, x.changed, &mut kept, q_before)?;
    count_instances(alloc, bindings, first, both, x.rest, &mut kept, changed)
}

/// How many symbols the part has with repeated atoms, or the limit where it has as many or more.
fn repeated_symbols<'a>(
    bindings: &Bindings<'a>,
    first: u32,
    both: u32,
    x: Origins,
    limit: u64,
) -> u64
    requires { IsTriangular bindings.now.0 bindings.now.1 }
    ensures { result ≤ limit }
{
    let before = symbols_of_atoms(bindings, 0, first, x.before, limit);
    let p = before + symbols_of_atoms(bindings, 0, first, x.behind, limit - before);
    let others = p + symbols_of_atoms(bindings, first, both, x.others, limit - p);
    let changed = others + symbols_of_atoms(bindings, 0, both, x.changed, limit - others);
    changed + symbols_of_atoms(bindings, first, both, x.rest, limit - changed)
}

// ---- conclusions

/// Refuses more than 4,096 symbols.
fn refuse(constraint: u64, antecedent: u64, succedent: u64) -> Result<(), InferError>
    ensures { (c : Clause) → Counts constraint (distinct c.constraint) → Counts antecedent (distinct c.antecedent)
        → Counts succedent (distinct c.succedent) → IfErr result (Refuses c) }
{
    let symbols = constraint
        .saturating_add(antecedent)
        .saturating_add(succedent);
    if symbols > 4096 {
        return Err(InferError::Big {
            symbols: symbols.min(1_000_000),
        });
    }
    Ok(())
}

/// Whether the parts have no more than so many symbols, where repeated atoms count each time.
pub(crate) fn are_small<'a>(
    bindings: &Bindings<'a>,
    first: u32,
    both: u32,
    parts: (Origins, Origins, Origins),
    limit: u64,
) -> bool
    requires { IsTriangular bindings.now.0 bindings.now.1 }
{
    let (constraint, antecedent, succedent) = parts;
    let past = limit.saturating_add(1);
    let sorts = repeated_symbols(bindings, first, both, constraint, past);
    let both_parts = sorts + repeated_symbols(bindings, first, both, antecedent, past - sorts);
    let left = past - both_parts;
    repeated_symbols(bindings, first, both, succedent, left) < left
}

/// Refuses a conclusion of more than 4,096 symbols. Where it has no more with its repeated atoms, nothing is built; else
/// its atoms are built one after another, until they have 1,000,000 symbols, and an atom that has as many is not.
pub(crate) fn refuse_big<'a>(
    alloc: Global,
    bindings: &Bindings<'a>,
    first: u32,
    both: u32,
    parts: (Origins, Origins, Origins),
) -> Result<(), InferError>
    requires { IsTriangular bindings.now.0 bindings.now.1 }
    ensures { (c : Clause)
        → atoms_by first both bindings.now.1 parts.entry.0 ≡ c.constraint
        → atoms_by first both bindings.now.1 parts.entry.1 ≡ c.antecedent
        → atoms_by first both bindings.now.1 parts.entry.2 ≡ c.succedent
        → IfErr result (Refuses c) }
{
    let (constraint, antecedent, succedent) = parts;
    if are_small(bindings, first, both, parts, 4096) {
        return Ok(());
    }
    let sorts = part_symbols(alloc, bindings, first, both, constraint)?;
    let negative = part_symbols(alloc, bindings, first, both, antecedent)?;
    let positive = part_symbols(alloc, bindings, first, both, succedent)?;
    refuse(sorts, negative, positive)
}
