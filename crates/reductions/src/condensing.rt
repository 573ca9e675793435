//! Condensation: an instance of a clause with fewer atoms that subsumes it.
ghost use Rattle.std.specs.Prelude.{◌≡◌, map, length, IfOk, OnOk, MatchOption, ℕ};
ghost use Rattle.spl_terms.specs.declared.term.Term.{Term};
ghost use Rattle.spl_terms.specs.Clauses.{added, distinct, at_lists, replace_in_atom};
ghost use Rattle.spl_terms.specs.InOrder.{IsInOrder, variables};
ghost use Rattle.spl_truth.specs.Truth.{entry, apply};
ghost use Rattle.reductions.specs.Folding.{FoldsSomewhere};
ghost use Rattle.reductions.specs.Lines.{IsOwnReductionLine, IsCondensed};

use crate::folding::{fold_clause, ordered_atoms};
use crate::words::{line_from, variables};
use proof_steps::{Line, Rule, Statement};
use spl_terms::{Atom, Clause, Items, Term, contains_same};
use spl_truth::{Subst, applied_atom};
use std::alloc::{AllocError, Global};
use unify::Bindings;

// ---- the substitution

/// A substitution that maps the clause into itself without one of its atoms, with an entry for each variable of it; none
/// where there is none.
fn folding(alloc: Global, clause: &Clause) -> Result<Option<Subst>, AllocError>
    requires { IsInOrder clause.now }
    ensures { IfOk result (λ found. MatchOption found
        ((g : ℕ → Term) → FoldsSomewhere g clause.now → ⊥)
        (λ s. (length s.terms ≡ variables clause.now) × FoldsSomewhere (entry s.terms) clause.now)) }
{
    let vars = variables(alloc, clause)?;
    let atoms = ordered_atoms(alloc, clause)?;
    let mut found = Bindings::new(alloc, vars)?;
    if fold_clause(clause, atoms.as_slice(), &mut found)? {
        Ok(Some(found.entries(alloc, vars)?))
    } else {
        Ok(None)
    }
}

// ---- the instance

/// Adds the instance of the atom, unless one that is the same is there.
fn add_instance(
    alloc: Global,
    entries: &[Term],
    atom: &Atom,
    made: &mut Items<Atom>,
) -> Result<(), AllocError>
    ensures { OnOk result (made.new ≡ added made.old (replace_in_atom (entry entries.now) atom.now)) }
{
    let image = applied_atom(alloc, entries, atom)?;
    if contains_same(made.as_slice(), &image) {
        return Ok(());
    }
    made.push(image)
}

/// The instances of the atoms of which no two are the same. None of them is built twice.
fn distinct_instances(
    alloc: Global,
    entries: &[Term],
    atoms: &[Atom],
) -> Result<Items<Atom>, AllocError>
    ensures { IfOk result (λ made. made ≡ distinct (map (replace_in_atom (entry entries.now)) atoms.now)) }
{
    let mut made = Items::new(alloc);
    for atom in atoms {
        add_instance(alloc, entries, atom, &mut made)?;
    }
    Ok(made)
}

/// The instance of the clause without repeated atoms.
fn distinct_instance(alloc: Global, s: &Subst, clause: &Clause) -> Result<Clause, AllocError>
    ensures { IfOk result (λ made. made ≡ at_lists distinct (apply s.now.terms clause.now)) }
{
    let entries = s.terms.as_slice();
    Ok(Clause {
        constraint: distinct_instances(alloc, entries, clause.constraint.as_slice())?,
        antecedent: distinct_instances(alloc, entries, clause.antecedent.as_slice())?,
        succedent: distinct_instances(alloc, entries, clause.succedent.as_slice())?,
    })
}

/// The line that condenses the clause; none exactly where it is condensed.
pub(crate) fn condense(
    alloc: Global,
    number: u32,
    target: &Statement,
) -> Result<Option<Line>, AllocError>
    requires { IsInOrder target.now.clause }
    ensures { IfOk result (λ made. MatchOption made
        (IsCondensed target.now.clause)
        (IsOwnReductionLine number target.now)) }
{
    let Some(s) = folding(alloc, &target.clause)? else {
        return Ok(None);
    };
    let stated = Statement {
        clause: distinct_instance(alloc, &s, &target.clause)?.into_ordered(alloc)?,
        deps: target.deps.copy()?,
    };
    let line = line_from(alloc, Rule::Factor { s }, number, stated)?;
    Ok(Some(line))
}
