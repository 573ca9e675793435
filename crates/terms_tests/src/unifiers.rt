//! Unifiers and matchers of terms over the first variables.
use clause_texts::{Row, symbol, term, terms};
use spl_terms::{Items, Term, all_equal};
use spl_truth::Subst;
use std::alloc::{AllocError, Global};
use unify::{
    Bindings, all_cover, all_fit, covers, fits, has_variables_below, have_variables_below,
    match_arguments, match_into, match_term, match_terms, unify, unify_arguments, unify_bound,
};

/// Whether the entries are those of the text, or there is no answer and the text says so.
pub(crate) fn is_answer(
    alloc: Global,
    found: &Option<Subst>,
    text: &str,
) -> Result<bool, AllocError> {
    let Some(subst) = found else {
        return Ok(text == "none");
    };
    let wanted = terms(alloc, text)?;
    Ok(text != "none" && all_equal(subst.terms.as_slice(), wanted.as_slice()))
}

/// `unify TERM TERM TERMS|none`: the most general unifier of terms over the variables 0, 1, 2.
pub fn unified(alloc: Global, row: &Row) -> Result<bool, AllocError> {
    let left = term(alloc, row.text(1))?;
    let right = term(alloc, row.text(2))?;
    if !has_variables_below(&left, 3) || !has_variables_below(&right, 3) {
        return Ok(false);
    }
    let found = unify(alloc, &left, &right, 3)?;
    Ok((found.is_none() || fits(&left, &right)) && is_answer(alloc, &found, row.text(3))?)
}

/// `match TERM TERM TERMS|none`: the matcher of the first to the second.
pub fn matched(alloc: Global, row: &Row) -> Result<bool, AllocError> {
    let pattern = term(alloc, row.text(1))?;
    let target = term(alloc, row.text(2))?;
    if !has_variables_below(&pattern, 3) {
        return Ok(false);
    }
    let found = match_into(alloc, &pattern, &target, 3)?;
    Ok((found.is_none() || covers(&pattern, &target)) && is_answer(alloc, &found, row.text(3))?)
}

/// `unify_arguments TERMS TERMS TERMS|none`: the same for lists of arguments over the variables 0 and 1.
pub fn unified_arguments(alloc: Global, row: &Row) -> Result<bool, AllocError> {
    let left = terms(alloc, row.text(1))?;
    let right = terms(alloc, row.text(2))?;
    let (left, right) = (left.as_slice(), right.as_slice());
    if !have_variables_below(left, 2) || !have_variables_below(right, 2) || !all_fit(left, right) {
        return Ok(false);
    }
    let found = unify_arguments(alloc, left, right, 2)?;
    is_answer(alloc, &found, row.text(3))
}

/// `match_arguments TERMS TERMS TERMS|none`: the same for a matcher, where the second list can't be matched to the first.
pub fn matched_arguments(alloc: Global, row: &Row) -> Result<bool, AllocError> {
    let left = terms(alloc, row.text(1))?;
    let right = terms(alloc, row.text(2))?;
    let (left, right) = (left.as_slice(), right.as_slice());
    if !have_variables_below(left, 2) || all_cover(right, left) {
        return Ok(false);
    }
    let found = match_arguments(alloc, left, right, 2)?;
    is_answer(alloc, &found, row.text(3))
}

/// The bindings of the terms' matcher, where the lists match only once these are undone.
fn bound_before(
    alloc: Global,
    pattern: &Term,
    target: &Term,
    more: &[Term],
    clashes: &[Term],
) -> Result<Option<Subst>, AllocError> {
    if !has_variables_below(pattern, 2) || !have_variables_below(more, 2) {
        return Ok(None);
    }
    let mut found = Bindings::new(alloc, 2)?;
    let first = match_term(pattern, target, &mut found)?;
    let second = match_terms(more, clashes, &mut found)?;
    let bound = found.entries(alloc, 2)?;
    found.undo(0);
    let third = match_terms(more, clashes, &mut found)?;
    Ok(if first && !second && third {
        Some(bound)
    } else {
        None
    })
}

/// `match_on TERM TERM TERMS TERMS TERMS`: what the terms bound, where the lists match only once that is undone.
pub fn matched_on(alloc: Global, row: &Row) -> Result<bool, AllocError> {
    let pattern = term(alloc, row.text(1))?;
    let target = term(alloc, row.text(2))?;
    let more = terms(alloc, row.text(3))?;
    let clashes = terms(alloc, row.text(4))?;
    let bound = bound_before(
        alloc,
        &pattern,
        &target,
        more.as_slice(),
        clashes.as_slice(),
    )?;
    is_answer(alloc, &bound, row.text(5))
}

/// `f` of twice this variable.
fn twice(alloc: Global, variable: u32) -> Result<Term, AllocError> {
    let mut args = Items::new(alloc);
    args.push(Term::Var(variable))?;
    args.push(Term::Var(variable))?;
    Ok(Term::App(symbol(b'f'), args))
}

/// A term with an argument for each variable from 1 to 60: the variable, or `f` of twice the one before it. At the end stand
/// the variable 0 and `f` of twice the last one, where that is asked for.
fn chain(alloc: Global, doubled: bool, closed: bool) -> Result<Term, AllocError> {
    let mut args = Items::new(alloc);
    for variable in 0..60 {
        if doubled {
            args.push(twice(alloc, variable)?)?;
        } else {
            args.push(Term::Var(variable + 1))?;
        }
    }
    if closed {
        args.push(if doubled {
            twice(alloc, 60)?
        } else {
            Term::Var(0)
        })?;
    }
    Ok(Term::App(symbol(b'h'), args))
}

/// `chain yes|no yes|no`: whether chains unify, the first word says whether they are closed. The last variable of one that
/// isn't stands for a term of more symbols than 64 bits count.
pub fn chains(alloc: Global, row: &Row) -> Result<bool, AllocError> {
    let left = chain(alloc, false, row.says(1))?;
    let right = chain(alloc, true, row.says(1))?;
    if !has_variables_below(&left, 61) || !has_variables_below(&right, 61) {
        return Ok(false);
    }
    let found = unify_bound(alloc, &left, &right, 61)?;
    Ok(found.is_some() == row.says(2))
}
