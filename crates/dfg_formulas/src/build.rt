//! Formulas from their parts.

ghost use Rattle.std.specs.Prelude.{◌≡◌, ◌≤◌, [], ◌∷◌, IfOk};
ghost use Rattle.spl_terms.specs.declared.term.Term.{Var};
ghost use Rattle.spl_terms.specs.declared.atom.Atom.TheVariants.{Holds};
ghost use Rattle.formulas.specs.declared.tree.Tree as tree;
ghost use Rattle.dfg_formulas.specs.Quantifiers.{of_sort, guard, guarded, block, quantified};
ghost use Rattle.dfg_formulas.specs.Formulas.{constant, joined};

use formulas::Formula;
use spl_terms::{Atom, Items, Symbol, Term};
use std::alloc::{AllocError, Global};

/// `true` or `false`.
pub fn constant(value: bool) -> Formula
    ensures { result ≡ constant value }
{
    if value {
        Formula::always()
    } else {
        Formula::never()
    }
}

/// All of the parts, or one of them.
pub fn joined(all: bool, parts: Items<Formula>) -> Formula
    ensures { result ≡ joined all parts }
{
    if all {
        Formula::conjunction(parts)
    } else {
        Formula::disjunction(parts)
    }
}

/// That the variable of this number is of the sort.
pub fn sort_atom(alloc: Global, sort: Symbol, number: u32) -> Result<Formula, AllocError>
    ensures { IfOk result (λ f. f ≡ tree.Atom (Holds sort (Var number ∷ []))) }
{
    let mut args = Items::with_room(alloc, 1)?;
    args.push(Term::Var(number))?;
    Ok(Formula::atom(Atom::Holds(sort, args)))
}

/// All of the sorts at once; the one where there is one.
fn guard(sorts: Items<Formula>) -> Formula
    ensures { result ≡ guard sorts }
{
    let mut sorts = sorts;
    if sorts.len() == 1 {
        if let Some(sort) = sorts.pop() {
            return sort;
        }
    }
    Formula::conjunction(sorts)
}

/// Both formulas.
fn both(alloc: Global, first: Formula, second: Formula) -> Result<Formula, AllocError>
    ensures { IfOk result (λ f. f ≡ tree.And (first ∷ (second ∷ []))) }
{
    let mut parts = Items::with_room(alloc, 2)?;
    parts.push(first)?;
    parts.push(second)?;
    Ok(Formula::conjunction(parts))
}

/// The formula for variables of these sorts.
fn guarded(
    alloc: Global,
    all: bool,
    sorts: Items<Formula>,
    part: Formula,
) -> Result<Formula, AllocError>
    ensures { IfOk result (λ f. f ≡ guarded all sorts part) }
{
    if sorts.is_empty() {
        return Ok(part);
    }
    let guard = guard(sorts);
    if all {
        Formula::implication(alloc, guard, part)
    } else {
        both(alloc, guard, part)
    }
}

/// The formula for all, or for some, values of the variables, which are of these sorts.
pub fn quantified(
    alloc: Global,
    all: bool,
    first: u32,
    count: u32,
    sorts: Items<Formula>,
    part: Formula,
) -> Result<Formula, AllocError>
    requires { 1 ≤ count }
    ensures { IfOk result (λ f. f ≡ quantified all first count sorts part) }
{
    let part = guarded(alloc, all, sorts, part)?;
    if all {
        Formula::for_all(alloc, first, count, part)
    } else {
        Formula::for_some(alloc, first, count, part)
    }
}
