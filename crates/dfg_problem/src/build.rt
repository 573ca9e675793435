//! Formulas that declarations stand for.

ghost use Rattle.std.specs.Prelude.{◌≡◌, ◌++◌, [], ◌∷◌, ℕ, map, length, IfOk, OnOk};
ghost use Rattle.spl_terms.specs.declared.term.Term.{Var};
ghost use Rattle.spl_terms.specs.declared.atom.Atom.TheVariants.{Holds};
ghost use Rattle.formulas.specs.declared.tree.Tree as tree;
ghost use Rattle.dfg_problem.specs.Declarations.{is_of, inclusion, variables, with_sort, sort_atoms, argument_sorts};

use dfg_formulas::sort_atom;
use formulas::Formula;
use spl_terms::{Atom, Items, Symbol, Term};
use std::alloc::{AllocError, Global};

/// For all x: S(x) implies T(x).
pub fn inclusion(alloc: Global, sort: Symbol, wider: Symbol) -> Result<Formula, AllocError>
    ensures { IfOk result (λ f. f ≡ inclusion sort wider) }
{
    let left = sort_atom(alloc, sort, 0)?;
    let right = sort_atom(alloc, wider, 0)?;
    Formula::for_all(alloc, 0, 1, Formula::implication(alloc, left, right)?)
}

/// The first so many variables.
#[tactic(auto, using(crate::specs::DeclaredLaws::one_variable_more))]
fn variables(alloc: Global, count: u32) -> Result<Items<Term>, AllocError>
    ensures { IfOk result (λ terms. terms ≡ variables count) }
{
    let mut terms = Items::with_room(alloc, count as usize)?;
    for number in 0..count {
        terms.push(Term::Var(number))?;
    }
    Ok(terms)
}

/// Adds that the next variable is of the sort.
fn push_sort(alloc: Global, atoms: &mut Items<Formula>, sort: Symbol) -> Result<(), AllocError>
    ensures { OnOk result (atoms.new ≡ with_sort atoms.old sort) }
{
    if atoms.len() > 4294967295 {
        return Err(AllocError);
    }
    let number = atoms.len() as u32;
    atoms.push(sort_atom(alloc, sort, number)?)
}

/// That each variable is of the sort at its place.
fn sort_atoms(alloc: Global, sorts: &[Symbol]) -> Result<Items<Formula>, AllocError>
    ensures { IfOk result (λ atoms. atoms ≡ sort_atoms sorts.now) }
{
    let mut atoms = Items::with_room(alloc, sorts.len())?;
    for sort in sorts {
        push_sort(alloc, &mut atoms, *sort)?;
    }
    Ok(atoms)
}

/// For all x1, .., xn: P(x1,..,xn) implies S1(x1) and .. and Sn(xn).
pub fn argument_sorts(
    alloc: Global,
    predicate: Symbol,
    sorts: &[Symbol],
) -> Result<Formula, AllocError>
    ensures { IfOk result (λ f. f ≡ argument_sorts predicate sorts.now) }
{
    if sorts.len() > 4294967295 {
        return Err(AllocError);
    }
    let count = sorts.len() as u32;
    let atom = Formula::atom(Atom::Holds(predicate, variables(alloc, count)?));
    let all = Formula::conjunction(sort_atoms(alloc, sorts)?);
    let part = Formula::implication(alloc, atom, all)?;
    if count == 0 {
        return Ok(part);
    }
    Formula::for_all(alloc, 0, count, part)
}
