//! The inferences of one clause alone: factoring, equality resolution, equality factoring.
ghost use Rattle.std.specs.Prelude.{◌≡◌, ◌≤◌, ◌<◌, true, length, option_map, Some, IfOk, IfErr};
ghost use Rattle.std.specs.List.{flat_map};
ghost use Rattle.spl_terms.specs.Clauses.{clause_symbols, in_order};
ghost use Rattle.spl_terms.specs.InOrder.{IsInOrder, variables};
ghost use Rattle.spl_truth.specs.Unifiers.{HasVariablesBelow};
ghost use Rattle.spl_terms.specs.declared.clause.Part.TheVariants.{Antecedent};
ghost use Rattle.spl_truth.specs.Truth.{apply};
ghost use Rattle.proof_steps.specs.Spots.{atom_at};
ghost use Rattle.proof_steps.specs.Steps.{has_entries, reflection, equality_factoring};
ghost use Rattle.proof_steps.specs.declared.step.Rule.TheVariants.{Reflex};
ghost use Rattle.calculus.specs.Inferences.{clause_of, by_unifier, sides_unifier, factoring_unifier};
ghost use Rattle.calculus.specs.Inferences.{factorings, reflections, equality_factorings};
ghost use Rattle.superposition.specs.Appending.{Appended};
ghost use Rattle.superposition.specs.Words.{IsAtomBelow, AreLentBelow, AreInPlace};
ghost use Rattle.superposition.specs.Readings.{reading_of, factor_with, factor_apart};
ghost use Rattle.superposition.specs.Readings.{AreLeftSidesBelow, AreJudged, IsReadIn, AreReadIn};
ghost use Rattle.superposition.specs.Sizes.{RefusesBy, compared};
ghost use Rattle.superposition.specs.Standings.{IsStanding};
ghost use Rattle.superposition.specs.Premises.{IsPrepared};

use crate::appending::append_from;
use crate::equations::{Equation, readings_of};
use crate::error::InferError;
use crate::ordering::Standing;
use crate::premises::{Premise, atoms_in};
use crate::refusing::refuse_compared;
use crate::unifiers::{unifier_of_atoms, unifier_of_sides, written};
use crate::upper::is_left_upper;
use calculus::{Kept, no_unifier_is_lost};
use proof_steps::{Line, Rule, equality_factored, reflexed};
use spl_terms::{Atom, Clause, Part};
use spl_truth::{Subst, instance};
use std::alloc::{AllocError, Global};
use unify::unify_bound;

// ---- factoring

/// Factors an atom of the succedent with an atom at another place, if they have a unifier.
fn factor(
    alloc: Global,
    p: &Kept,
    vars: u32,
    first: (u32, &Atom),
    second: (u32, &Atom),
    out: &mut Vec<Line>,
) -> Result<(), InferError>
    requires vars { vars ≡ variables (clause_of p.now) }
    requires first_below { IsAtomBelow vars first.1.now }
    requires second_below { IsAtomBelow vars second.1.now }
    ensures { Appended
        (factor_with p.now (first.entry.0, first.entry.1.now) (second.entry.0, second.entry.1.now))
        out.old.items out.new.items result }
{
    let (i, a) = first;
    let (j, b) = second;
    if i == j {
        return Ok(());
    }
    let found = match unifier_of_atoms(alloc, &p.statement.clause, a, b, vars) {
        Ok(found) => found,
        Err(error) => return Err(error),
    };
    let Some(s) = found else {
        return Ok(());
    };
    let made = instance(alloc, &s, &p.statement.clause)?;
    append_from(alloc, p, Some(made), Rule::Factor { s }, out)
}

/// Factors an atom of the succedent with each of these at another place.
fn factor_each(
    alloc: Global,
    p: &Kept,
    vars: u32,
    first: (u32, &Atom),
    atoms: &[(u32, &Atom)],
    out: &mut Vec<Line>,
) -> Result<(), InferError>
    requires vars { vars ≡ variables (clause_of p.now) }
    requires first_below { IsAtomBelow vars first.1.now }
    requires atoms_below { AreLentBelow vars atoms.now }
    ensures { Appended
        (flat_map (λ y. factor_with p.now (first.entry.0, first.entry.1.now) (y.0, y.1.now)) atoms.now)
        out.old.items out.new.items result }
{
    for k in 0..atoms.len() {
        if let Err(error) = factor(alloc, p, vars, first, atoms[k], out) {
            return Err(error);
        }
    }
    Ok(())
}

/// Factors each of these atoms of the succedent with each of the others.
fn factor_all(
    alloc: Global,
    p: &Kept,
    vars: u32,
    places: &[(u32, &Atom)],
    atoms: &[(u32, &Atom)],
    out: &mut Vec<Line>,
) -> Result<(), InferError>
    requires vars { vars ≡ variables (clause_of p.now) }
    requires places_below { AreLentBelow vars places.now }
    requires atoms_below { AreLentBelow vars atoms.now }
    ensures { Appended
        (flat_map (λ x. flat_map (λ y. factor_with p.now (x.0, x.1.now) (y.0, y.1.now)) atoms.now) places.now)
        out.old.items out.new.items result }
{
    for k in 0..places.len() {
        if let Err(error) = factor_each(alloc, p, vars, places[k], atoms, out) {
            return Err(error);
        }
    }
    Ok(())
}

/// Factors each eligible atom of the succedent with each other one.
pub(crate) fn factor_premise(
    alloc: Global,
    p: &Premise,
    out: &mut Vec<Line>,
) -> Result<(), InferError>
    requires { IsPrepared p.now }
    ensures { Appended (factorings p.now.kept.now) out.old.items out.new.items result }
{
    let atoms = atoms_in(alloc, &p.kept.statement.clause, Part::Succedent)?;
    let places = p.succedent.as_slice();
    factor_all(alloc, p.kept, p.variables, places, atoms.as_slice(), out)
}

/// Appends what each eligible predicate atom of the succedent gives with each other one, in the order of their places.
///
/// # Errors
///
/// As of `resolutions`.
pub fn factorings(alloc: Global, p: &Kept, out: &mut Vec<Line>) -> Result<(), InferError>
    requires in_order { IsInOrder (clause_of p.now) }
    requires size { clause_symbols (clause_of p.now) ≤ 4096 }
    ensures { Appended (factorings p.now) out.old.items out.new.items result }
{
    let premise = Premise::new(alloc, p)?;
    factor_premise(alloc, &premise, out)
}

// ---- equality resolution

/// What equality resolution concludes by this substitution, before it is put in order.
fn reflected(alloc: Global, p: &Clause, j: u32, s: &Subst) -> Result<Option<Clause>, AllocError>
    requires { has_entries s.now.terms p.now ≡ true }
    ensures { IfOk result (λ made. option_map in_order made ≡ reflection j s.now.terms p.now) }
{
    let made = instance(alloc, s, p)?;
    Ok(reflexed(j, made))
}

/// Removes an equation of the antecedent, if its sides have a unifier.
fn reflect(
    alloc: Global,
    p: &Kept,
    vars: u32,
    place: (u32, &Atom),
    out: &mut Vec<Line>,
) -> Result<(), InferError>
    requires in_order { IsInOrder (clause_of p.now) }
    requires vars { vars ≡ variables (clause_of p.now) }
    requires there { atom_at Antecedent place.0 (clause_of p.now) ≡ Some place.1.now }
    requires below { IsAtomBelow vars place.1.now }
    ensures { Appended
        (by_unifier p.now (Reflex place.entry.0) (sides_unifier (variables (clause_of p.now)) place.entry.1.now))
        out.old.items out.new.items result }
{
    no_unifier_is_lost();
    let (j, atom) = place;
    let found = match unifier_of_sides(alloc, &p.statement.clause, j, atom, vars) {
        Ok(found) => found,
        Err(error) => return Err(error),
    };
    let Some(s) = found else {
        return Ok(());
    };
    let made = reflected(alloc, &p.statement.clause, j, &s)?;
    append_from(alloc, p, made, Rule::Reflex { j, s }, out)
}

/// Removes each of these equations of the antecedent.
fn reflect_all(
    alloc: Global,
    p: &Kept,
    vars: u32,
    places: &[(u32, &Atom)],
    out: &mut Vec<Line>,
) -> Result<(), InferError>
    requires in_order { IsInOrder (clause_of p.now) }
    requires vars { vars ≡ variables (clause_of p.now) }
    requires there { AreInPlace (clause_of p.now) Antecedent places.now }
    requires below { AreLentBelow vars places.now }
    ensures { Appended
        (flat_map (λ x. by_unifier p.now (Reflex x.0) (sides_unifier (variables (clause_of p.now)) x.1.now)) places.now)
        out.old.items out.new.items result }
{
    for k in 0..places.len() {
        if let Err(error) = reflect(alloc, p, vars, places[k], out) {
            return Err(error);
        }
    }
    Ok(())
}

/// Removes each eligible equation of the antecedent.
pub(crate) fn reflect_premise(
    alloc: Global,
    p: &Premise,
    out: &mut Vec<Line>,
) -> Result<(), InferError>
    requires { IsPrepared p.now }
    ensures { Appended (reflections p.now.kept.now) out.old.items out.new.items result }
{
    reflect_all(alloc, p.kept, p.variables, p.antecedent.as_slice(), out)
}

/// Appends what equality resolution concludes for each eligible equation of the antecedent, in the order of their
/// places.
///
/// # Errors
///
/// As of `resolutions`.
pub fn reflections(alloc: Global, p: &Kept, out: &mut Vec<Line>) -> Result<(), InferError>
    requires in_order { IsInOrder (clause_of p.now) }
    requires size { clause_symbols (clause_of p.now) ≤ 4096 }
    ensures { Appended (reflections p.now) out.old.items out.new.items result }
{
    let premise = Premise::new(alloc, p)?;
    reflect_premise(alloc, &premise, out)
}

// ---- equality factoring

/// What equality factoring concludes by this substitution, before it is put in order.
fn factored(
    alloc: Global,
    p: &Clause,
    e: Equation,
    d: Equation,
    s: &Subst,
) -> Result<Option<Clause>, AllocError>
    requires { has_entries s.now.terms p.now ≡ true }
    ensures { IfOk result (λ made. option_map in_order made ≡
        equality_factoring e.entry.place e.entry.right d.entry.place d.entry.right s.now.terms p.now) }
{
    let first = instance(alloc, s, p)?;
    equality_factored(alloc, e.place, e.right, d.place, d.right, first)
}

/// The unifier of the left sides of two equations, where they have one by which the left side of the first one isn't
/// below its right side. Nothing is written out where the conclusion would have more than 4,096 symbols.
fn unifier_in_order(
    alloc: Global,
    p: &Clause,
    vars: u32,
    e: Equation,
    d: Equation,
) -> Result<Option<Subst>, InferError>
    requires e_below { HasVariablesBelow vars e.left_side.now }
    requires d_below { HasVariablesBelow vars d.left_side.now }
    requires judged { IsStanding e.standing e.left_side.now e.right_side.now }
    requires place { e.place < length p.now.succedent }
    ensures ok { IfOk result (λ found. option_map (λ s. s.terms) found ≡
        factoring_unifier vars (reading_of e.entry) (reading_of d.entry)) }
    ensures err { IfErr result (RefusesBy (factoring_unifier vars (reading_of e.entry) (reading_of d.entry))
        (λ u. apply u (compared p.now e.entry.place e.entry.right_side.now d.entry.right_side.now))) }
{
    let Some(bindings) = unify_bound(alloc, e.left_side, d.left_side, vars)? else {
        return Ok(None);
    };
    let high = is_left_upper(alloc, &bindings, e)?;
    if !high {
        return Ok(None);
    }
    let sides = (e.right_side, d.right_side);
    if let Err(error) = refuse_compared(alloc, &bindings, vars, p, e.place, sides) {
        return Err(error);
    }
    let s = written(alloc, &bindings, vars)?;
    Ok(Some(s))
}

/// Factors an equation with one at another place, if their left sides have a unifier by which the left side of the
/// first isn't below its right side.
fn factor_equation(
    alloc: Global,
    p: &Kept,
    vars: u32,
    e: Equation,
    d: Equation,
    out: &mut Vec<Line>,
) -> Result<(), InferError>
    requires in_order { IsInOrder (clause_of p.now) }
    requires vars { vars ≡ variables (clause_of p.now) }
    requires e_below { HasVariablesBelow vars e.left_side.now }
    requires d_below { HasVariablesBelow vars d.left_side.now }
    requires judged { IsStanding e.standing e.left_side.now e.right_side.now }
    requires e_there { IsReadIn (clause_of p.now) e }
    requires d_there { IsReadIn (clause_of p.now) d }
    ensures { Appended
        (factor_apart p.now (reading_of e.entry) (reading_of d.entry))
        out.old.items out.new.items result }
{
    no_unifier_is_lost();
    if e.place == d.place {
        return Ok(());
    }
    let found = match unifier_in_order(alloc, &p.statement.clause, vars, e, d) {
        Ok(found) => found,
        Err(error) => return Err(error),
    };
    let Some(s) = found else {
        return Ok(());
    };
    let made = factored(alloc, &p.statement.clause, e, d, &s)?;
    let rule = Rule::EqFactor {
        i: e.place,
        i_right: e.right,
        j: d.place,
        j_right: d.right,
        s,
    };
    append_from(alloc, p, made, rule, out)
}

/// Factors an equation with each of these at another place.
fn factor_equation_with_each(
    alloc: Global,
    p: &Kept,
    vars: u32,
    e: Equation,
    others: &[Equation],
    out: &mut Vec<Line>,
) -> Result<(), InferError>
    requires in_order { IsInOrder (clause_of p.now) }
    requires vars { vars ≡ variables (clause_of p.now) }
    requires e_below { HasVariablesBelow vars e.left_side.now }
    requires others_below { AreLeftSidesBelow vars others.now }
    requires judged { IsStanding e.standing e.left_side.now e.right_side.now }
    requires e_there { IsReadIn (clause_of p.now) e }
    requires others_there { AreReadIn (clause_of p.now) others.now }
    ensures { Appended
        (flat_map (λ d. factor_apart p.now (reading_of e.entry) (reading_of d)) others.now)
        out.old.items out.new.items result }
{
    if let Standing::Lower = e.standing {
        return Ok(());
    }
    for k in 0..others.len() {
        if let Err(error) = factor_equation(alloc, p, vars, e, others[k], out) {
            return Err(error);
        }
    }
    Ok(())
}

/// Factors each of these equations with each of the others.
fn factor_equations(
    alloc: Global,
    p: &Kept,
    vars: u32,
    equations: &[Equation],
    others: &[Equation],
    out: &mut Vec<Line>,
) -> Result<(), InferError>
    requires in_order { IsInOrder (clause_of p.now) }
    requires vars { vars ≡ variables (clause_of p.now) }
    requires equations_below { AreLeftSidesBelow vars equations.now }
    requires others_below { AreLeftSidesBelow vars others.now }
    requires judged { AreJudged equations.now }
    requires equations_there { AreReadIn (clause_of p.now) equations.now }
    requires others_there { AreReadIn (clause_of p.now) others.now }
    ensures { Appended
        (flat_map (λ e. flat_map (λ d. factor_apart p.now (reading_of e) (reading_of d)) others.now) equations.now)
        out.old.items out.new.items result }
{
    for k in 0..equations.len() {
        if let Err(error) = factor_equation_with_each(alloc, p, vars, equations[k], others, out) {
            return Err(error);
        }
    }
    Ok(())
}

/// Factors each eligible equation of the succedent with each other one.
pub(crate) fn factor_equations_of(
    alloc: Global,
    p: &Premise,
    out: &mut Vec<Line>,
) -> Result<(), InferError>
    requires { IsPrepared p.now }
    ensures { Appended (equality_factorings p.now.kept.now) out.old.items out.new.items result }
{
    let equations = p.equations.as_slice();
    if equations.len() == 0 {
        return Ok(());
    }
    let atoms = atoms_in(alloc, &p.kept.statement.clause, Part::Succedent)?;
    let others = readings_of(alloc, atoms.as_slice())?;
    factor_equations(
        alloc,
        p.kept,
        p.variables,
        equations,
        others.as_slice(),
        out,
    )
}

/// Appends what each eligible equation of the succedent, in both directions, gives with each other equation there, in
/// both directions.
///
/// # Errors
///
/// As of `resolutions`.
pub fn equality_factorings(alloc: Global, p: &Kept, out: &mut Vec<Line>) -> Result<(), InferError>
    requires in_order { IsInOrder (clause_of p.now) }
    requires size { clause_symbols (clause_of p.now) ≤ 4096 }
    ensures { Appended (equality_factorings p.now) out.old.items out.new.items result }
{
    let premise = Premise::new(alloc, p)?;
    factor_equations_of(alloc, &premise, out)
}
