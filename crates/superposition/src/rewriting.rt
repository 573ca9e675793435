//! Superposition: an equation of one premise at the subterms of another.
ghost use Rattle.std.specs.Prelude.{◌≡◌, ℕ, List, ◌≤◌, ◌∷◌, ◌++◌, [], map, Some, slice_get, IfOk, IfErr, OnOk};
ghost use Rattle.std.specs.List.{flat_map, enumerate_from};
ghost use Rattle.spl_terms.specs.declared.term.Term.{Term};
ghost use Rattle.spl_terms.specs.declared.atom.Atom.TheVariants.{Equal};
ghost use Rattle.spl_terms.specs.declared.clause.Part.TheVariants.{Antecedent, Succedent};
ghost use Rattle.spl_terms.specs.Clauses.{clause_symbols};
ghost use Rattle.spl_terms.specs.InOrder.{IsInOrder};
ghost use Rattle.spl_truth.specs.Unifiers.{HasVariablesBelow, HaveVariablesBelow};
ghost use Rattle.proof_steps.specs.Spots.{term_under};
ghost use Rattle.spl_truth.specs.Truth.{entry};
ghost use Rattle.unify.specs.Bindings.{substitution, IsTriangular};
ghost use Rattle.calculus.specs.Inferences.{clause_of, renamed_apart, is_upper_side, rewriting_unifier};
ghost use Rattle.calculus.specs.Inferences.{paths_in, superpositions};
ghost use Rattle.superposition.specs.Appending.{Appended};
ghost use Rattle.superposition.specs.Words.{AreInPlace};
ghost use Rattle.superposition.specs.Pairs.{IsPair, AreRestrictions, raised};
ghost use Rattle.superposition.specs.Readings.{reading_of};
ghost use Rattle.superposition.specs.Sizes.{RefusesBy, paramodulant_by};
ghost use Rattle.superposition.specs.Premises.{IsPrepared};
ghost use Rattle.superposition.specs.Walks.{IsUsable, AreUsable, IsReady, IsUpperAt, IsSide};
ghost use Rattle.superposition.specs.Walks.{superpose_in, superpose_lent, superpose_in_parts};
ghost use Rattle.superposition.specs.Walks.{rewrite, rewrite_below, rewrite_argument};

use crate::appending::append_from_both;
use crate::building::paramodulant_of;
use crate::equations::Equation;
use crate::error::InferError;
use crate::ordering::{Standing, standings};
use crate::pairs::Pair;
use crate::premises::Premise;
use crate::raising::raised;
use crate::refusing::refuse_paramodulant;
use crate::unifiers::restrictions;
use crate::upper::{is_left_upper, is_upper_raised};
use calculus::{Kept, no_unifier_is_lost};
use proof_steps::{Line, Rule};
use spl_terms::{Atom, Items, Part, Spot, Term};
use spl_truth::{Subst, laws};
use std::alloc::{AllocError, Global};
use unify::{Bindings, fits, unify_bound};

/// An equation of the first premise on its way through an atom of the second one.
#[derive(Clone, Copy, Debug)]
pub(crate) struct Rewriting<'a> {
    /// Both premises.
    pub(crate) pair: Pair<'a>,
    /// The equation.
    pub(crate) equation: Equation<'a>,
    /// The part of the second premise in which the atom stands.
    pub(crate) part: Part,
    /// Its place there, from 0.
    pub(crate) place: u32,
    /// The atom.
    pub(crate) atom: &'a Atom,
    /// How the side of the atom on which the way lies stands to the other one; `Upper` in a predicate atom.
    side: Standing,
}

// ---- at one subterm

/// Whether the path lies in a side whose instance isn't below that of the other one, where that isn't known of all
/// instances.
fn is_path_upper<'a>(
    alloc: Global,
    bindings: &Bindings<'a>,
    r: Rewriting,
    path: &[u32],
) -> Result<bool, AllocError>
    requires triangular { IsTriangular bindings.now.0 bindings.now.1 }
    requires pair { IsPair r.pair }
    requires upper { IsUpperAt r path.now }
    ensures { IfOk result (λ yes. (u : List Term) → entry u ≡ substitution bindings.now.1
        → yes ≡ is_upper_side u (renamed_apart r.entry.pair.p.now r.entry.atom.now) path.now) }
{
    if let Standing::Upper = r.side {
        return Ok(true);
    }
    let lift = r.pair.first;
    match r.atom {
        Atom::Holds(_, _) => Ok(true),
        Atom::Equal(left, right) => match path {
            [] => Ok(false),
            [side, ..] => {
                if *side == 0 {
                    is_upper_raised(alloc, bindings, lift, left, right)
                } else {
                    is_upper_raised(alloc, bindings, lift, right, left)
                }
            }
        },
    }
}

/// The unifier of the left side and the term at the end of the path, whose variables are raised already, where they have
/// one that keeps the order: the left side isn't below the right one, and the path lies in an upper side. Nothing is
/// written out where the paramodulant would have more than 4,096 symbols.
fn unifier_of_raised(
    alloc: Global,
    r: Rewriting,
    path: &[u32],
    term: &Term,
) -> Result<Option<(Subst, Subst)>, InferError>
    requires ready { IsReady r }
    requires stands { term_under path.now (renamed_apart r.pair.p.now r.atom.now) ≡ Some term.now }
    requires below { HasVariablesBelow r.pair.both term.now }
    requires upper { IsUpperAt r path.now }
    ensures ok { IfOk result (AreRestrictions r.entry.pair.first
        (rewriting_unifier r.entry.pair.both (reading_of r.entry.equation)
        (renamed_apart r.entry.pair.p.now r.entry.atom.now) path.now)) }
    ensures err { IfErr result (RefusesBy
        (rewriting_unifier r.entry.pair.both (reading_of r.entry.equation)
        (renamed_apart r.entry.pair.p.now r.entry.atom.now) path.now)
        (paramodulant_by r.entry.pair r.entry.equation.place
        (record { part = r.entry.part; place = r.entry.place; path = path.now })
        r.entry.equation.right_side.now)) }
{
    let Some(bindings) = unify_bound(alloc, r.equation.left_side, term, r.pair.both)? else {
        return Ok(None);
    };
    let high = is_left_upper(alloc, &bindings, r.equation)?;
    if !high {
        return Ok(None);
    }
    let upper = is_path_upper(alloc, &bindings, r, path)?;
    if !upper {
        return Ok(None);
    }
    if let Err(error) = refuse_paramodulant(alloc, &bindings, r, path) {
        return Err(error);
    }
    let both = restrictions(alloc, &bindings, r.pair)?;
    Ok(Some(both))
}

/// The same of the term as it stands in the atom; its head and those in it are compared first.
fn unifier_in_order(
    alloc: Global,
    r: Rewriting,
    path: &[u32],
    term: &Term,
) -> Result<Option<(Subst, Subst)>, InferError>
    requires ready { IsReady r }
    requires stands { term_under path.now (renamed_apart r.pair.p.now r.atom.now)
        ≡ Some (raised r.pair.first term.now) }
    requires below { HasVariablesBelow r.pair.both (raised r.pair.first term.now) }
    requires upper { IsUpperAt r path.now }
    ensures ok { IfOk result (AreRestrictions r.entry.pair.first
        (rewriting_unifier r.entry.pair.both (reading_of r.entry.equation)
        (renamed_apart r.entry.pair.p.now r.entry.atom.now) path.now)) }
    ensures err { IfErr result (RefusesBy
        (rewriting_unifier r.entry.pair.both (reading_of r.entry.equation)
        (renamed_apart r.entry.pair.p.now r.entry.atom.now) path.now)
        (paramodulant_by r.entry.pair r.entry.equation.place
        (record { part = r.entry.part; place = r.entry.place; path = path.now })
        r.entry.equation.right_side.now)) }
{
    laws::unifier_is_most_general();
    if !fits(r.equation.left_side, term) {
        return Ok(None);
    }
    let higher = raised(alloc, r.pair.first, term)?;
    unifier_of_raised(alloc, r, path, &higher)
}

/// Superposes the equation at this term, which stands at the end of the path, if they have a unifier that keeps
/// the order.
fn superpose(
    alloc: Global,
    r: Rewriting,
    path: &[u32],
    term: &Term,
    out: &mut Vec<Line>,
) -> Result<(), InferError>
    requires ready { IsReady r }
    requires stands { term_under path.now (renamed_apart r.pair.p.now r.atom.now)
        ≡ Some (raised r.pair.first term.now) }
    requires below { HasVariablesBelow r.pair.both (raised r.pair.first term.now) }
    requires upper { IsUpperAt r path.now }
    ensures { Appended (rewrite r.entry path.now) out.old.items out.new.items result }
{
    no_unifier_is_lost();
    let found = match unifier_in_order(alloc, r, path, term) {
        Ok(found) => found,
        Err(error) => return Err(error),
    };
    let Some((s, t)) = found else {
        return Ok(());
    };
    let (pair, e, part, place) = (r.pair, r.equation, r.part, r.place);
    let (p, q) = (&pair.p.statement.clause, &pair.q.statement.clause);
    let held = Items::from_slice(alloc, path)?;
    let spot = Spot {
        part,
        place,
        path: held,
    };
    let made = paramodulant_of(alloc, e.place, &spot, e.right_side, (p, &s), (q, &t))?;
    let rule = Rule::Paramodulate {
        i: e.place,
        right_to_left: e.right,
        spot,
        s,
        t,
    };
    append_from_both(alloc, pair.p, pair.q, Some(made), rule, out)
}

// ---- the walk through an atom

/// Goes on to the argument at this place.
fn go_into(path: &mut Vec<u32>, place: u32) -> Result<(), AllocError>
    ensures { OnOk result (path.new.items ≡ path.old.items ++ place ∷ []) }
{
    path.push(place)?;
    Ok(())
}

/// Superposes at a term, unless it is a variable, and then at all that stands in it.
#[cycle(walking)]
fn superpose_in_term(
    alloc: Global,
    r: Rewriting,
    path: &mut Vec<u32>,
    term: &Term,
    out: &mut Vec<Line>,
) -> Result<(), InferError>
    requires ready { IsReady r }
    requires stands { term_under path.old.items (renamed_apart r.pair.p.now r.atom.now)
        ≡ Some (raised r.pair.first term.now) }
    requires below { HasVariablesBelow r.pair.both (raised r.pair.first term.now) }
    requires upper { IsUpperAt r path.old.items }
    ensures appended { Appended
        (rewrite_below r.entry path.old.items (paths_in term.now))
        out.old.items out.new.items result }
    ensures path { OnOk result (path.new.items ≡ path.old.items) }
{
    match term {
        Term::Var(_) => Ok(()),
        Term::App(_, args) => {
            if let Err(error) = superpose(alloc, r, path.as_slice(), term, out) {
                return Err(error);
            }
            superpose_in_arguments(alloc, r, path, args.as_slice(), out)
        }
    }
}

/// Superposes at each of the arguments below the path, and at all that stands in them.
#[cycle(walking)]
fn superpose_in_arguments(
    alloc: Global,
    r: Rewriting,
    path: &mut Vec<u32>,
    terms: &[Term],
    out: &mut Vec<Line>,
) -> Result<(), InferError>
    requires ready { IsReady r }
    requires stand { (k : ℕ) (t : Term) → slice_get terms.now k ≡ Some t
        → term_under (path.old.items ++ k ∷ []) (renamed_apart r.pair.p.now r.atom.now) ≡ Some (raised r.pair.first t) }
    requires below { HaveVariablesBelow r.pair.both (map (raised r.pair.first) terms.now) }
    requires upper { (k : ℕ) → IsUpperAt r (path.old.items ++ k ∷ []) }
    ensures appended { Appended
        (flat_map (rewrite_argument r.entry path.old.items) (enumerate_from 0 terms.now))
        out.old.items out.new.items result }
    ensures path { OnOk result (path.new.items ≡ path.old.items) }
{
    if terms.len() > 4_294_967_295 {
        return Err(InferError::Memory);
    }
    for k in 0..terms.len() {
        go_into(path, k as u32)?;
        if let Err(error) = superpose_in_term(alloc, r, path, &terms[k], out) {
            return Err(error);
        }
        path.pop();
    }
    Ok(())
}

/// Superposes at a side of an equation, unless it is below the other one, and at all that stands in it.
fn superpose_in_side(
    alloc: Global,
    r: Rewriting,
    side: u32,
    term: &Term,
    out: &mut Vec<Line>,
) -> Result<(), InferError>
    requires ready { IsReady r }
    requires side { IsSide r side term.now }
    ensures { Appended (rewrite_argument r.entry [] (side, term.now)) out.old.items out.new.items result }
{
    if let Standing::Lower = r.side {
        return Ok(());
    }
    let mut path = Vec::new(alloc);
    go_into(&mut path, side)?;
    superpose_in_term(alloc, r, &mut path, term, out)
}

/// Superposes at both sides of an equation, and at all that stands in them.
fn superpose_in_sides(
    alloc: Global,
    r: Rewriting,
    left: &Term,
    right: &Term,
    out: &mut Vec<Line>,
) -> Result<(), InferError>
    requires ready { IsReady r }
    requires sides { r.atom.now ≡ Equal left.now right.now }
    ensures { Appended
        (rewrite_argument r.entry [] (0, left.now) ++ rewrite_argument r.entry [] (1, right.now))
        out.old.items out.new.items result }
{
    let (forth, back) = standings(left, right);
    let first = Rewriting { side: forth, ..r };
    if let Err(error) = superpose_in_side(alloc, first, 0, left, out) {
        return Err(error);
    }
    let second = Rewriting { side: back, ..r };
    superpose_in_side(alloc, second, 1, right, out)
}

/// Superposes at all subterms of the atom that are no variables.
fn superpose_in_atom(alloc: Global, r: Rewriting, out: &mut Vec<Line>) -> Result<(), InferError>
    requires { IsReady r }
    ensures { Appended
        (superpose_in r.entry.pair.p.now r.entry.pair.q.now (reading_of r.entry.equation) r.entry.part
        (r.entry.place, r.entry.atom.now))
        out.old.items out.new.items result }
{
    match r.atom {
        Atom::Holds(_, args) => {
            let mut path = Vec::new(alloc);
            superpose_in_arguments(alloc, r, &mut path, args.as_slice(), out)
        }
        Atom::Equal(left, right) => superpose_in_sides(alloc, r, left, right, out),
    }
}

// ---- all equations and atoms

/// Superposes the equation in each of these atoms of a part of the second premise.
fn superpose_in_atoms(
    alloc: Global,
    pair: Pair,
    equation: Equation,
    part: Part,
    atoms: &[(u32, &Atom)],
    out: &mut Vec<Line>,
) -> Result<(), InferError>
    requires pair { IsPair pair }
    requires equation { IsUsable pair equation }
    requires atoms { AreInPlace (clause_of pair.q.now) part atoms.now }
    ensures { Appended
        (flat_map (superpose_lent pair.entry.p.now pair.entry.q.now (reading_of equation.entry) part) atoms.now)
        out.old.items out.new.items result }
{
    for k in 0..atoms.len() {
        let y = atoms[k];
        let (place, atom) = y;
        let side = Standing::Upper;
        let r = Rewriting {
            pair,
            equation,
            part,
            place,
            atom,
            side,
        };
        if let Err(error) = superpose_in_atom(alloc, r, out) {
            return Err(error);
        }
    }
    Ok(())
}

/// Superposes the equation in these atoms of the antecedent, and then in these of the succedent.
fn superpose_in_both(
    alloc: Global,
    pair: Pair,
    equation: Equation,
    antecedent: &[(u32, &Atom)],
    succedent: &[(u32, &Atom)],
    out: &mut Vec<Line>,
) -> Result<(), InferError>
    requires pair { IsPair pair }
    requires equation { IsUsable pair equation }
    requires antecedent { AreInPlace (clause_of pair.q.now) Antecedent antecedent.now }
    requires succedent { AreInPlace (clause_of pair.q.now) Succedent succedent.now }
    ensures { Appended
        (superpose_in_parts pair.entry.p.now pair.entry.q.now antecedent.now succedent.now (reading_of equation.entry))
        out.old.items out.new.items result }
{
    if let Standing::Lower = equation.standing {
        return Ok(());
    }
    if let Err(error) = superpose_in_atoms(
        alloc,
        pair,
        equation,
        Part::Antecedent,
        antecedent,
        out,
    ) {
        return Err(error);
    }
    superpose_in_atoms(alloc, pair, equation, Part::Succedent, succedent, out)
}

/// Superposes each of these equations in these atoms of the antecedent and of the succedent.
fn superpose_all(
    alloc: Global,
    pair: Pair,
    equations: &[Equation],
    antecedent: &[(u32, &Atom)],
    succedent: &[(u32, &Atom)],
    out: &mut Vec<Line>,
) -> Result<(), InferError>
    requires pair { IsPair pair }
    requires equations { AreUsable pair equations.now }
    requires antecedent { AreInPlace (clause_of pair.q.now) Antecedent antecedent.now }
    requires succedent { AreInPlace (clause_of pair.q.now) Succedent succedent.now }
    ensures { Appended
        (flat_map (λ e. superpose_in_parts pair.entry.p.now pair.entry.q.now antecedent.now succedent.now (reading_of
        e)) equations.now)
        out.old.items out.new.items result }
{
    for k in 0..equations.len() {
        let equation = equations[k];
        if let Err(error) = superpose_in_both(alloc, pair, equation, antecedent, succedent, out) {
            return Err(error);
        }
    }
    Ok(())
}

/// Superposes each eligible equation of the first premise in the eligible atoms of the second one.
pub(crate) fn superpose_premises(
    alloc: Global,
    p: &Premise,
    q: &Premise,
    out: &mut Vec<Line>,
) -> Result<(), InferError>
    requires p_found { IsPrepared p.now }
    requires q_found { IsPrepared q.now }
    ensures { Appended (superpositions p.now.kept.now q.now.kept.now) out.old.items out.new.items result }
{
    let Some(pair) = Pair::new(p.kept, p.variables, q.kept, q.variables) else {
        return Err(InferError::Memory);
    };
    superpose_all(
        alloc,
        pair,
        p.equations.as_slice(),
        q.antecedent.as_slice(),
        q.succedent.as_slice(),
        out,
    )
}

/// Appends what each eligible equation of the succedent of p, read in both directions, gives at each subterm of the
/// eligible atoms of q that is no variable, in the order of a walk.
///
/// # Errors
///
/// As of `resolutions`.
pub fn superpositions(
    alloc: Global,
    p: &Kept,
    q: &Kept,
    out: &mut Vec<Line>,
) -> Result<(), InferError>
    requires p_in_order { IsInOrder (clause_of p.now) }
    requires q_in_order { IsInOrder (clause_of q.now) }
    requires p_size { clause_symbols (clause_of p.now) ≤ 4096 }
    requires q_size { clause_symbols (clause_of q.now) ≤ 4096 }
    ensures { Appended (superpositions p.now q.now) out.old.items out.new.items result }
{
    let first = Premise::new(alloc, p)?;
    let second = Premise::new(alloc, q)?;
    superpose_premises(alloc, &first, &second, out)
}
