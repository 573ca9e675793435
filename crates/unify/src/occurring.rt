//! Whether a variable occurs in a term seen through bindings; each bound variable is looked through once.
ghost use Rattle.std.specs.Prelude.{◌≡◌, ℕ, ◌||◌, ◌==◌, false, Some, IfOk, OnOk};
ghost use Rattle.std.specs.List.{list_any};
ghost use Rattle.spl_terms.specs.Terms.{replace};
ghost use Rattle.spl_truth.specs.Unifiers.{occurs};
ghost use Rattle.unify.specs.Bindings.{bound_to, substitution, IsFree, IsTriangular};
ghost use Rattle.unify.specs.Marks.{has_mark, AreApart};

use crate::bindings::Bindings;
use crate::triangular::dereferenced;
use spl_terms::Term;
use std::alloc::{AllocError, Global};

/// Whether the variable is marked; those past the end are not.
fn is_marked(marks: &[bool], variable: u32) -> bool
    ensures { result ≡ has_mark marks.now variable }
{
    match marks.get(variable as usize) {
        Some(marked) => *marked,
        None => false,
    }
}

/// Marks the variable. The only error is want of memory.
fn mark(marks: &mut Vec<bool>, variable: u32) -> Result<(), AllocError>
    ensures { OnOk result ((v : ℕ) → has_mark marks.new.items v ≡ (has_mark marks.old.items v || (v == variable))) }
{
    let place = variable as usize;
    while marks.len() <= place {
        marks.push(false)?;
    }
    marks[place] = true;
    Ok(())
}

/// Whether the variable occurs in the term with the bindings applied, given that it is in nothing that is marked.
#[cycle(occurring)]
fn occurs_beyond<'a>(
    bindings: &Bindings<'a>,
    marks: &mut Vec<bool>,
    variable: u32,
    term: &'a Term,
) -> Result<bool, AllocError>
    requires triangular { IsTriangular bindings.now.0 bindings.now.1 }
    requires apart { AreApart variable bindings.now.1 marks.old.items }
    ensures exact { IfOk result (λ found. found ≡ occurs variable (replace (substitution bindings.now.1) term.now)) }
    ensures apart { IfOk result (λ found. found ≡ false → AreApart variable bindings.now.1 marks.new.items) }
{
    match term {
        Term::App(_, args) => occurs_in(bindings, marks, variable, args.as_slice()),
        Term::Var(other) => match bindings.get(*other) {
            Some(bound) => occurs_through(bindings, marks, variable, *other, bound),
            None => Ok(variable == *other),
        },
    }
}

/// Whether the variable occurs in what the bound one stands for, which is marked if not.
#[cycle(occurring)]
fn occurs_through<'a>(
    bindings: &Bindings<'a>,
    marks: &mut Vec<bool>,
    variable: u32,
    bound: u32,
    term: &'a Term,
) -> Result<bool, AllocError>
    requires triangular { IsTriangular bindings.now.0 bindings.now.1 }
    requires apart { AreApart variable bindings.now.1 marks.old.items }
    requires bound { bound_to bindings.now.1 bound ≡ Some term.now }
    ensures exact { IfOk result (λ found. found ≡ occurs variable (substitution bindings.now.1 bound)) }
    ensures apart { IfOk result (λ found. found ≡ false → AreApart variable bindings.now.1 marks.new.items) }
{
    if is_marked(marks, bound) {
        return Ok(false);
    }
    if occurs_at(bindings, marks, variable, dereferenced(bindings, term))? {
        return Ok(true);
    }
    mark(marks, bound)?;
    Ok(false)
}

/// Whether the variable occurs in a term that is no bound variable.
#[cycle(occurring)]
fn occurs_at<'a>(
    bindings: &Bindings<'a>,
    marks: &mut Vec<bool>,
    variable: u32,
    term: &'a Term,
) -> Result<bool, AllocError>
    requires triangular { IsTriangular bindings.now.0 bindings.now.1 }
    requires apart { AreApart variable bindings.now.1 marks.old.items }
    requires free { IsFree bindings.now.1 term.now }
    ensures exact { IfOk result (λ found. found ≡ occurs variable (replace (substitution bindings.now.1) term.now)) }
    ensures apart { IfOk result (λ found. found ≡ false → AreApart variable bindings.now.1 marks.new.items) }
{
    match term {
        Term::Var(other) => Ok(variable == *other),
        Term::App(_, args) => occurs_in(bindings, marks, variable, args.as_slice()),
    }
}

/// Whether the variable occurs in one of the terms.
#[cycle(occurring)]
fn occurs_in<'a>(
    bindings: &Bindings<'a>,
    marks: &mut Vec<bool>,
    variable: u32,
    terms: &'a [Term],
) -> Result<bool, AllocError>
    requires triangular { IsTriangular bindings.now.0 bindings.now.1 }
    requires apart { AreApart variable bindings.now.1 marks.old.items }
    ensures exact { IfOk result (λ found. found ≡ list_any (λ t. occurs variable (replace (substitution bindings.now.1) t)) terms.now) }
    ensures apart { IfOk result (λ found. found ≡ false → AreApart variable bindings.now.1 marks.new.items) }
{
    for term in terms {
        if occurs_beyond(bindings, marks, variable, term)? {
            return Ok(true);
        }
    }
    Ok(false)
}

/// Whether the variable occurs in the term with the bindings applied. The variables that were looked through without
/// meeting it are marked, so each is looked through once, however often it occurs. The only error is want of memory,
/// which is taken only where there is a bound variable in the term.
pub(crate) fn occurs<'a>(
    alloc: Global,
    bindings: &Bindings<'a>,
    variable: u32,
    term: &'a Term,
) -> Result<bool, AllocError>
    requires { IsTriangular bindings.now.0 bindings.now.1 }
    ensures { IfOk result (λ found. found ≡ occurs variable (replace (substitution bindings.now.1) term.now)) }
{
    let mut marks = Vec::new(alloc);
    occurs_beyond(bindings, &mut marks, variable, term)
}
