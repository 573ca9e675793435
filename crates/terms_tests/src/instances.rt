//! Instances of clauses, their limit, and what is true and trivial.
use crate::clauses::refused;
use clause_texts::{Row, atoms, clause, is_clause, symbol, term, terms};
use spl_terms::{Items, Term, same_clause};
use spl_truth::{Subst, apply, holds, instance, is_ground, is_tautology, replaced};
use std::alloc::{AllocError, Global};

/// `instance TERMS CLAUSE CLAUSE yes|no`: the instance by both calls, and whether it is without variables.
pub fn instances(alloc: Global, row: &Row) -> Result<bool, AllocError> {
    let subst = Subst {
        terms: terms(alloc, row.text(1))?,
    };
    let given = clause(alloc, row.text(2))?;
    let Ok(applied) = apply(alloc, &subst, &given) else {
        return Ok(false);
    };
    let made = instance(alloc, &subst, &given)?;
    Ok(
        same_clause(&applied, &made)
            && is_ground(&made) == row.says(4)
            && is_clause(alloc, Some(made), row.text(3))?,
    )
}

/// `replaced TERMS TERM TERM`
pub fn replacement(alloc: Global, row: &Row) -> Result<bool, AllocError> {
    let entries = terms(alloc, row.text(1))?;
    let made = replaced(alloc, entries.as_slice(), &term(alloc, row.text(2))?)?;
    let wanted = term(alloc, row.text(3))?;
    Ok(made.equals(&wanted))
}

/// `apply CLAUSE ARGUMENTS SYMBOLS`: how many symbols `apply` refuses, or 0, where the variable 0 becomes a symbol with so
/// many arguments.
pub fn applied(alloc: Global, row: &Row) -> Result<bool, AllocError> {
    let arguments = row.number(2) as usize;
    let mut args = Items::with_room(alloc, arguments)?;
    for _ in 0..arguments {
        args.push(Term::Var(1))?;
    }
    let mut entries = Items::with_room(alloc, 1)?;
    entries.push(Term::App(symbol(b'c'), args))?;
    let given = clause(alloc, row.text(1))?;
    let answer = refused(apply(alloc, &Subst { terms: entries }, &given))?;
    Ok(answer == row.number(3) as u64)
}

/// `truth ATOMS CLAUSE yes|no yes|no yes|no`: whether the clause is true where nothing is, where the atoms are, and always.
pub fn truth(alloc: Global, row: &Row) -> Result<bool, AllocError> {
    let assignment = atoms(alloc, row.text(1))?;
    let given = clause(alloc, row.text(2))?;
    Ok(
        holds(&[], &given) == row.says(3)
            && holds(assignment.as_slice(), &given) == row.says(4)
            && is_tautology(&given) == row.says(5),
    )
}
