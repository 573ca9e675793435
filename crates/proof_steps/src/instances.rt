//! Atoms under a substitution, each counted before it is built, of which no two that are the same are kept.
ghost use Rattle.std.specs.Prelude.{◌≡◌, ◌<◌, ◌≤◌, [], length, map, fold, sum_by, Some, option_map, IfOk, MatchBool, MatchOption};
ghost use Rattle.spl_terms.specs.Clauses.{atom_symbols, clause_symbols, added, distinct, replace_in_atom, in_order};
ghost use Rattle.spl_truth.specs.Truth.{entry, apply};
ghost use Rattle.proof_steps.specs.Spots.{changed_at};
ghost use Rattle.proof_steps.specs.Steps.{states, within};

use crate::ordering::ordered;
use crate::step::Statement;
use dep_sets::Deps;
use spl_terms::{Atom, Clause, Items, Term, contains_same};
use spl_truth::{applied_atom, applied_atom_symbols};
use std::alloc::{AllocError, Global};
use std::marker::Model;

/// Atoms of which no two are the same up to exchanged sides, with at most 4,096 symbols together.
#[derive(Drop)]
pub struct KeptAtoms {
    atoms: Items<Atom>,
    /// How many symbols the atoms have together.
    symbols: u64,
}

impl Model for KeptAtoms {
    ghost use Rattle.std.specs.Prelude.{◌≡◌, ◌≤◌, List, sum_by};
    ghost use Rattle.std.specs.Coded.{codes};
    ghost use Rattle.spl_terms.specs.contracts.term.Term as term;
    ghost use Rattle.spl_terms.specs.declared.atom.Atom.{Atom};
    ghost use Rattle.spl_terms.specs.Clauses.{atom_symbols};

    ghost Value = { List Atom };

    ghost coded = { Prim.hlevel (codes, term.the_row.coded) };

    ghost view = { λ k. k.atoms };

    ghost invariant = { λ k. (k.symbols ≡ sum_by atom_symbols k.atoms) × (k.symbols ≤ 4096) };
}

impl KeptAtoms {
    /// No atoms; it takes no memory.
    pub fn new(alloc: Global) -> KeptAtoms
        ensures { result ≡ [] }
    {
        KeptAtoms {
            atoms: Items::new(alloc),
            symbols: 0,
        }
    }

    /// Keeps an atom of at most 4,096 symbols, of which this is the count, unless one that is the same is kept; false where
    /// there would be more than 4,096 symbols.
    fn add(&mut self, atom: Atom, size: u64) -> Result<bool, AllocError>
        requires counted { size ≡ atom_symbols atom }
        requires small { size ≤ 4096 }
        ensures { IfOk result (λ fits. MatchBool fits
            (self.new ≡ added self.old atom)
            (4096 < sum_by atom_symbols (added self.old atom))) }
    {
        if contains_same(self.atoms.as_slice(), &atom) {
            return Ok(true);
        }
        let count = self.symbols + size;
        if count > 4096 {
            return Ok(false);
        }
        self.atoms.push(atom)?;
        self.symbols = count;
        Ok(true)
    }

    /// Keeps the atom under the substitution, unless one that is the same is kept; false where there would be more than
    /// 4,096 symbols. It is counted before it is built.
    fn add_instance(
        &mut self,
        alloc: Global,
        entries: &[Term],
        atom: &Atom,
    ) -> Result<bool, AllocError>
        ensures { IfOk result (λ fits. MatchBool fits
            (self.new ≡ added self.old (replace_in_atom (entry entries.now) atom.now))
            (4096 < sum_by atom_symbols (added self.old (replace_in_atom (entry entries.now) atom.now)))) }
    {
        let size = applied_atom_symbols(entries, atom, 4097);
        if size > 4096 {
            return Ok(false);
        }
        let made = applied_atom(alloc, entries, atom)?;
        self.add(made, size)
    }

    /// Keeps the atoms under the substitution, one after another, of which no two are the same; false where there would
    /// be more than 4,096 symbols. Each is counted before it is built.
    pub fn add_instances(
        &mut self,
        alloc: Global,
        entries: &[Term],
        atoms: &[Atom],
    ) -> Result<bool, AllocError>
        ensures { IfOk result (λ fits. MatchBool fits
            (self.new ≡ fold added self.old (map (replace_in_atom (entry entries.now)) atoms.now))
            (4096 < sum_by atom_symbols (fold added self.old (map (replace_in_atom (entry entries.now)) atoms.now)))) }
    {
        for atom in atoms {
            if !self.add_instance(alloc, entries, atom)? {
                return Ok(false);
            }
        }
        Ok(true)
    }

    /// Keeps the atoms under the substitution, one after another, with another atom at this place; false where there would
    /// be more than 4,096 symbols.
    pub fn add_changed(
        &mut self,
        alloc: Global,
        entries: &[Term],
        atoms: &[Atom],
        place: usize,
        changed: &Atom,
    ) -> Result<bool, AllocError>
        requires { place < length atoms.now }
        ensures { IfOk result (λ fits. MatchBool fits
            (self.new ≡ fold added self.old (changed_at place (λ a. changed.now) (map (replace_in_atom (entry entries.now)) atoms.now)))
            (4096 < sum_by atom_symbols (fold added self.old
            (changed_at place (λ a. changed.now) (map (replace_in_atom (entry entries.now)) atoms.now))))) }
    {
        if !self.add_instances(alloc, entries, &atoms[..place])? {
            return Ok(false);
        }
        if !self.add_instance(alloc, &[], changed)? {
            return Ok(false);
        }
        self.add_instances(alloc, entries, &atoms[place + 1..])
    }

    /// The atoms, in their memory.
    pub fn into_atoms(self) -> Items<Atom>
        ensures { result ≡ self }
    {
        let KeptAtoms { atoms, .. } = self;
        atoms
    }
}

/// The atoms under the substitution without repeated ones; none where they have more than 4,096 symbols.
fn distinct_instances(
    alloc: Global,
    entries: &[Term],
    atoms: &[Atom],
) -> Result<Option<Items<Atom>>, AllocError>
    ensures { IfOk result (λ made. MatchOption made
        (4096 < sum_by atom_symbols (distinct (map (replace_in_atom (entry entries.now)) atoms.now)))
        (λ kept. kept ≡ distinct (map (replace_in_atom (entry entries.now)) atoms.now))) }
{
    let mut kept = KeptAtoms::new(alloc);
    if kept.add_instances(alloc, entries, atoms)? {
        Ok(Some(kept.into_atoms()))
    } else {
        Ok(None)
    }
}

/// The clause under the substitution without repeated atoms; none only where a part of it has more than 4,096 symbols,
/// and so the clause in order. Nothing larger is built.
fn distinct_instance(
    alloc: Global,
    entries: &[Term],
    clause: &Clause,
) -> Result<Option<Clause>, AllocError>
    ensures { IfOk result (λ made. MatchOption made
        (4096 < clause_symbols (in_order (apply entries.now clause.now)))
        (λ kept. in_order kept ≡ in_order (apply entries.now clause.now))) }
{
    let Some(constraint) = distinct_instances(alloc, entries, clause.constraint.as_slice())? else {
        return Ok(None);
    };
    let Some(antecedent) = distinct_instances(alloc, entries, clause.antecedent.as_slice())? else {
        return Ok(None);
    };
    let Some(succedent) = distinct_instances(alloc, entries, clause.succedent.as_slice())? else {
        return Ok(None);
    };
    Ok(Some(Clause {
        constraint,
        antecedent,
        succedent,
    }))
}

/// The clause under the substitution, in order and with these dependencies; nothing past 4,096 symbols, of which nothing
/// is built.
pub fn ordered_instance(
    alloc: Global,
    entries: &[Term],
    clause: &Clause,
    deps: Deps,
) -> Result<Option<Statement>, AllocError>
    ensures { IfOk result (λ made. made ≡ within (Some (states (in_order (apply entries.now clause.now)) deps))) }
{
    match distinct_instance(alloc, entries, clause)? {
        Some(made) => ordered(alloc, made, deps),
        None => Ok(None),
    }
}

/// The clause, if there is one, under the substitution, in order and with these dependencies; nothing past 4,096 symbols,
/// of which nothing is built.
pub fn stated_instance(
    alloc: Global,
    entries: &[Term],
    part: Option<Clause>,
    deps: Deps,
) -> Result<Option<Statement>, AllocError>
    ensures { IfOk result (λ made. made ≡ within (option_map (λ c. states (in_order (apply entries.now c)) deps) part)) }
{
    match part {
        Some(clause) => ordered_instance(alloc, entries, &clause, deps),
        None => Ok(None),
    }
}
