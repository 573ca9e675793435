//! Unifiers of atoms and of equations, found as bindings and written out once they are wanted.
ghost use Rattle.std.specs.Prelude.{◌≡◌, ◌≤◌, ◌<◌, map, drop, length, option_map, IfOk, IfErr, Some};
ghost use Rattle.spl_terms.specs.declared.term.Symbol.{Symbol};
ghost use Rattle.spl_terms.specs.declared.term.Term.{App};
ghost use Rattle.spl_truth.specs.Truth.{apply};
ghost use Rattle.spl_truth.specs.Unifiers.{HasVariablesBelow, HaveVariablesBelow, entries_below, unifier};
ghost use Rattle.calculus.specs.Inferences.{atom_unifier, sides_unifier, renamed_apart};
ghost use Rattle.unify.specs.Bindings.{substitution, IsTriangular};
ghost use Rattle.superposition.specs.Words.{IsAtomBelow};
ghost use Rattle.superposition.specs.Pairs.{IsPair, AreRestrictions, raised};
ghost use Rattle.superposition.specs.Sizes.{RefusesBy, StandIn, resolvent_by, reflected_by};

use crate::building::Literals;
use crate::error::InferError;
use crate::pairs::Pair;
use crate::raising::all_raised;
use crate::refusing::{refuse_instance, refuse_reflected, refuse_resolvent};
use spl_terms::{Atom, Clause, Items, Term};
use spl_truth::{Subst, laws};
use std::alloc::{AllocError, Global};
use unify::{Bindings, all_fit, unify_arguments_bound, unify_bound};

// ---- bindings written out

/// What the variables from one on and below another stand for. The only error is want of memory.
pub(crate) fn entries_from<'a>(
    alloc: Global,
    bindings: &Bindings<'a>,
    from: u32,
    past: u32,
) -> Result<Subst, AllocError>
    requires triangular { IsTriangular bindings.now.0 bindings.now.1 }
    requires order { from ≤ past }
    ensures { IfOk result (λ subst. subst.terms ≡ drop from (entries_below past (substitution bindings.now.1))) }
{
    let mut terms = Items::with_room(alloc, (past - from) as usize)?;
    for variable in from..past {
        terms.push(bindings.applied_entry(alloc, variable)?)?;
    }
    Ok(Subst { terms })
}

/// The unifier for which the bindings stand. The only error is want of memory.
pub(crate) fn written<'a>(
    alloc: Global,
    bindings: &Bindings<'a>,
    vars: u32,
) -> Result<Subst, AllocError>
    requires { IsTriangular bindings.now.0 bindings.now.1 }
    ensures { IfOk result (λ subst. subst.terms ≡ entries_below vars (substitution bindings.now.1)) }
{
    entries_from(alloc, bindings, 0, vars)
}

/// The entries of the first premise and those of the second one. The only error is want of memory.
pub(crate) fn restrictions<'a>(
    alloc: Global,
    bindings: &Bindings<'a>,
    pair: Pair,
) -> Result<(Subst, Subst), AllocError>
    requires triangular { IsTriangular bindings.now.0 bindings.now.1 }
    requires pair { IsPair pair }
    ensures { IfOk result (λ made. AreRestrictions pair.entry.first
        (Some (entries_below pair.entry.both (substitution bindings.now.1))) (Some made)) }
{
    let s = written(alloc, bindings, pair.first)?;
    let t = entries_from(alloc, bindings, pair.first, pair.both)?;
    Ok((s, t))
}

// ---- atoms of two premises

/// The unifier of two lists of arguments, where the variables of the second one are raised, if they have one.
fn unifier_of_arguments_apart(
    alloc: Global,
    pair: Pair,
    literals: Literals,
    args: &[Term],
    others: &[Term],
) -> Result<Option<(Subst, Subst)>, InferError>
    requires pair { IsPair pair }
    requires literals { StandIn pair literals }
    requires args_below { HaveVariablesBelow pair.both args.now }
    requires others_below { HaveVariablesBelow pair.both (map (raised pair.first) others.now) }
    ensures ok { (head : Symbol) → IfOk result (AreRestrictions pair.entry.first
        (unifier pair.entry.both (App head args.now) (App head (map (raised pair.entry.first) others.now)))) }
    ensures err { (head : Symbol) → IfErr result (RefusesBy
        (unifier pair.entry.both (App head args.now) (App head (map (raised pair.entry.first) others.now)))
        (resolvent_by pair.entry literals)) }
{
    laws::unifier_is_most_general();
    if !all_fit(args, others) {
        return Ok(None);
    }
    let higher = all_raised(alloc, pair.first, others)?;
    let Some(bindings) = unify_arguments_bound(alloc, args, higher.as_slice(), pair.both)? else {
        return Ok(None);
    };
    if let Err(error) = refuse_resolvent(alloc, &bindings, pair, literals) {
        return Err(error);
    }
    let both = restrictions(alloc, &bindings, pair)?;
    Ok(Some(both))
}

/// The unifier of two predicate atoms, where the variables of the second one are raised, if they have one. Their heads
/// are compared first. Nothing is written out where the resolvent would have more than 4,096 symbols.
pub(crate) fn unifier_apart(
    alloc: Global,
    pair: Pair,
    literals: Literals,
    a: &Atom,
    b: &Atom,
) -> Result<Option<(Subst, Subst)>, InferError>
    requires pair { IsPair pair }
    requires literals { StandIn pair literals }
    requires a_below { IsAtomBelow pair.both a.now }
    requires b_below { IsAtomBelow pair.both (renamed_apart pair.p.now b.now) }
    ensures ok { IfOk result (AreRestrictions pair.entry.first
        (atom_unifier pair.entry.both a.now (renamed_apart pair.entry.p.now b.now))) }
    ensures err { IfErr result (RefusesBy
        (atom_unifier pair.entry.both a.now (renamed_apart pair.entry.p.now b.now))
        (resolvent_by pair.entry literals)) }
{
    laws::unifier_is_most_general();
    match (a, b) {
        (Atom::Holds(head, args), Atom::Holds(other, others)) => {
            if !head.same(*other) {
                return Ok(None);
            }
            unifier_of_arguments_apart(alloc, pair, literals, args.as_slice(), others.as_slice())
        }
        _ => Ok(None),
    }
}

// ---- atoms of one premise

/// The unifier of two lists of arguments, if they have one.
fn unifier_of_arguments(
    alloc: Global,
    p: &Clause,
    args: &[Term],
    others: &[Term],
    vars: u32,
) -> Result<Option<Subst>, InferError>
    requires args_below { HaveVariablesBelow vars args.now }
    requires others_below { HaveVariablesBelow vars others.now }
    ensures ok { (head : Symbol) → IfOk result (λ found.
        option_map (λ s. s.terms) found ≡ unifier vars (App head args.now) (App head others.now)) }
    ensures err { (head : Symbol) → IfErr result (RefusesBy
        (unifier vars (App head args.now) (App head others.now)) (λ u. apply u p.now)) }
{
    let Some(bindings) = unify_arguments_bound(alloc, args, others, vars)? else {
        return Ok(None);
    };
    if let Err(error) = refuse_instance(alloc, &bindings, vars, p) {
        return Err(error);
    }
    let s = written(alloc, &bindings, vars)?;
    Ok(Some(s))
}

/// The unifier of two predicate atoms, if they have one. Their heads are compared first. Nothing is written out where the
/// instance of the clause would have more than 4,096 symbols.
pub(crate) fn unifier_of_atoms(
    alloc: Global,
    p: &Clause,
    a: &Atom,
    b: &Atom,
    vars: u32,
) -> Result<Option<Subst>, InferError>
    requires a_below { IsAtomBelow vars a.now }
    requires b_below { IsAtomBelow vars b.now }
    ensures ok { IfOk result (λ found. option_map (λ s. s.terms) found ≡ atom_unifier vars a.now b.now) }
    ensures err { IfErr result (RefusesBy (atom_unifier vars a.now b.now) (λ u. apply u p.now)) }
{
    laws::unifier_is_most_general();
    match (a, b) {
        (Atom::Holds(predicate, args), Atom::Holds(other, others)) => {
            if !predicate.same(*other) {
                return Ok(None);
            }
            unifier_of_arguments(alloc, p, args.as_slice(), others.as_slice(), vars)
        }
        _ => Ok(None),
    }
}

/// The unifier of two terms, if they have one. Nothing is written out where the clause without the equation at this place
/// of its antecedent would have an instance of more than 4,096 symbols.
fn unifier_of_terms(
    alloc: Global,
    p: &Clause,
    j: u32,
    left: &Term,
    right: &Term,
    vars: u32,
) -> Result<Option<Subst>, InferError>
    requires left_below { HasVariablesBelow vars left.now }
    requires right_below { HasVariablesBelow vars right.now }
    requires j { j < length p.now.antecedent }
    ensures ok { IfOk result (λ found. option_map (λ s. s.terms) found ≡ unifier vars left.now right.now) }
    ensures err { IfErr result (RefusesBy (unifier vars left.now right.now) (reflected_by p.now j)) }
{
    let Some(bindings) = unify_bound(alloc, left, right, vars)? else {
        return Ok(None);
    };
    if let Err(error) = refuse_reflected(alloc, &bindings, vars, p, j) {
        return Err(error);
    }
    let s = written(alloc, &bindings, vars)?;
    Ok(Some(s))
}

/// The unifier of the sides of an equation at a place of the antecedent, if they have one. Nothing is written out where
/// what equality resolution leaves of the clause would have more than 4,096 symbols.
pub(crate) fn unifier_of_sides(
    alloc: Global,
    p: &Clause,
    j: u32,
    atom: &Atom,
    vars: u32,
) -> Result<Option<Subst>, InferError>
    requires below { IsAtomBelow vars atom.now }
    requires j { j < length p.now.antecedent }
    ensures ok { IfOk result (λ found. option_map (λ s. s.terms) found ≡ sides_unifier vars atom.now) }
    ensures err { IfErr result (RefusesBy (sides_unifier vars atom.now) (reflected_by p.now j)) }
{
    match atom {
        Atom::Holds(_, _) => Ok(None),
        Atom::Equal(left, right) => unifier_of_terms(alloc, p, j, left, right, vars),
    }
}
