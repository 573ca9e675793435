//! Most general unifiers by the rules of Martelli and Montanari.
ghost use Rattle.std.specs.Prelude.{◌≡◌, ◌<◌, ◌&&◌, ◌==◌, ◌↔◌, [], ◌∷◌, ◌++◌, length, option_map, None, IsTrue, IfOk, OnOk, IfSome, MatchOption};
ghost use Rattle.spl_terms.specs.Terms.{symbol_eq};
ghost use Rattle.spl_terms.specs.declared.term.Term.{Var, App};
ghost use Rattle.spl_truth.specs.Truth.{entry};
ghost use Rattle.spl_truth.specs.Unifiers.{entries_below, unifier, HasVariablesBelow, HaveVariablesBelow, HasNoUnifier, IsMostGeneral, Leads};
ghost use Rattle.unify.specs.Below.{EquationsBelow};
ghost use Rattle.unify.specs.Bindings.{bound_to, substitution, IsTriangular};
ghost use Rattle.unify.specs.Solving.{Eliminated, Progressed, Settled, outcome};
ghost use Rattle.unify.specs.Standing.{StandForUnifier};

use crate::bindings::Bindings;
use crate::equations::Equations;
use crate::fitting::{all_fit, fits};
use crate::occurring::occurs;
use crate::triangular::dereferenced;
use spl_terms::{Items, Symbol, Term};
use spl_truth::{Subst, laws};
use std::alloc::{AllocError, Global};

/// How far the equations were taken.
#[derive(Drop)]
enum Progress {
    /// Nothing was bound.
    Reduced,
    /// A variable was bound.
    Bound,
    /// There is no unifier.
    Failed,
}

/// Whether the term is this variable.
fn is_variable(term: &Term, variable: u32) -> bool
    ensures { IsTrue result ↔ (term.now ≡ Var variable) }
{
    match term {
        Term::Var(other) => variable == *other,
        Term::App(_, _) => false,
    }
}

/// Whether two applications have the same symbol and as many arguments.
fn same_head(symbol: Symbol, args: &[Term], other: Symbol, others: &[Term]) -> bool
    ensures { result ≡ (symbol_eq symbol other && (length args.now == length others.now)) }
{
    symbol.same(other) && args.len() == others.len()
}

/// Binds an unbound variable to the term, unless it occurs there.
fn eliminate<'a>(
    alloc: Global,
    bindings: &mut Bindings<'a>,
    variable: u32,
    term: &'a Term,
) -> Result<Progress, AllocError>
    requires triangular { IsTriangular bindings.old.0 bindings.old.1 }
    requires below { variable < bindings.old.0 }
    requires unbound { bound_to bindings.old.1 variable ≡ None }
    ensures eliminated { IfOk result (λ progress. Eliminated progress variable term.now bindings.old.1 bindings.new.1) }
    ensures as_many { bindings.new.0 ≡ bindings.old.0 }
{
    if occurs(alloc, bindings, variable, term)? {
        return Ok(Progress::Failed);
    }
    bindings.bind(variable, term)?;
    Ok(Progress::Bound)
}

/// Takes one equation: skips it, binds a variable, puts the equations of its arguments in front, or fails.
fn take_equation<'a>(
    alloc: Global,
    bindings: &mut Bindings<'a>,
    equations: &mut Equations<'a>,
    left: &'a Term,
    right: &'a Term,
) -> Result<Progress, AllocError>
    requires triangular { IsTriangular bindings.old.0 bindings.old.1 }
    requires below { EquationsBelow bindings.old.0 ((left.now, right.now) ∷ equations.old) }
    ensures progress { IfOk result (λ progress. Progressed bindings.old.0 progress
        bindings.old.1 ((left.now, right.now) ∷ equations.old)
        bindings.new.1 equations.new) }
    ensures as_many { bindings.new.0 ≡ bindings.old.0 }
{
    let left = dereferenced(bindings, left);
    let right = dereferenced(bindings, right);
    match left {
        Term::Var(variable) => {
            if is_variable(right, *variable) {
                return Ok(Progress::Reduced);
            }
            eliminate(alloc, bindings, *variable, right)
        }
        Term::App(symbol, args) => match right {
            Term::Var(variable) => eliminate(alloc, bindings, *variable, left),
            Term::App(other, others) => {
                let args = args.as_slice();
                let others = others.as_slice();
                if !same_head(*symbol, args, *other, others) {
                    return Ok(Progress::Failed);
                }
                equations.push_arguments(args, others)?;
                Ok(Progress::Reduced)
            }
        },
    }
}

/// Takes equations until a variable is bound, none is left, or there is no unifier.
fn bind_next<'a>(
    alloc: Global,
    bindings: &mut Bindings<'a>,
    equations: &mut Equations<'a>,
) -> Result<Progress, AllocError>
    requires triangular { IsTriangular bindings.old.0 bindings.old.1 }
    requires below { EquationsBelow bindings.old.0 equations.old }
    ensures settled { IfOk result (λ progress. Settled bindings.old.0 progress bindings.old.1 equations.old bindings.new.1 equations.new) }
    ensures as_many { bindings.new.0 ≡ bindings.old.0 }
{
    while let Some((left, right)) = equations.pop() {
        match take_equation(alloc, bindings, equations, left, right)? {
            Progress::Reduced => {}
            Progress::Bound => return Ok(Progress::Bound),
            Progress::Failed => return Ok(Progress::Failed),
        }
    }
    Ok(Progress::Reduced)
}

/// Whether the equations have a solution, which the bindings then stand for.
fn solve<'a>(
    alloc: Global,
    bindings: &mut Bindings<'a>,
    equations: &mut Equations<'a>,
) -> Result<bool, AllocError>
    requires triangular { IsTriangular bindings.old.0 bindings.old.1 }
    requires below { EquationsBelow bindings.old.0 equations.old }
    ensures leads { IfOk result (λ is_solved. Leads (substitution bindings.old.1) equations.old (outcome is_solved bindings.new.1)) }
    ensures triangular { IfOk result (λ is_solved. IsTrue is_solved → IsTriangular bindings.old.0 bindings.new.1) }
    ensures as_many { bindings.new.0 ≡ bindings.old.0 }
{
    loop {
        match bind_next(alloc, bindings, equations)? {
            Progress::Reduced => return Ok(true),
            Progress::Failed => return Ok(false),
            Progress::Bound => {}
        }
    }
}

/// Adds what the variable stands for, with the bindings applied, to the end of a list. The only error is want of memory.
fn push_entry<'a>(
    alloc: Global,
    bindings: &Bindings<'a>,
    variable: u32,
    entries: &mut Items<Term>,
) -> Result<(), AllocError>
    requires { IsTriangular bindings.now.0 bindings.now.1 }
    ensures { OnOk result (entries.new ≡ entries.old ++ substitution bindings.now.1 variable ∷ []) }
{
    entries.push(bindings.applied_entry(alloc, variable)?)
}

/// What the variables below `vars` stand for, with the bindings applied. The only error is want of memory.
fn applied_entries<'a>(
    alloc: Global,
    bindings: &Bindings<'a>,
    vars: u32,
) -> Result<Items<Term>, AllocError>
    requires { IsTriangular bindings.now.0 bindings.now.1 }
    ensures { IfOk result (λ entries. entries ≡ entries_below vars (substitution bindings.now.1)) }
{
    let mut entries = Items::with_room(alloc, vars as usize)?;
    for variable in 0..vars {
        push_entry(alloc, bindings, variable, &mut entries)?;
    }
    Ok(entries)
}

/// The bindings that solve the equations, if there are any. The only error is want of memory.
fn solution<'a>(
    alloc: Global,
    equations: &mut Equations<'a>,
    vars: u32,
) -> Result<Option<Bindings<'a>>, AllocError>
    requires { EquationsBelow vars equations.old }
    ensures leads { IfOk result (λ found. Leads Var equations.old (option_map (λ b. substitution b.1) found)) }
    ensures triangular { IfOk result (λ found. IfSome found (λ b. (b.0 ≡ vars) × IsTriangular b.0 b.1)) }
{
    let mut bindings = Bindings::new(alloc, vars)?;
    if !solve(alloc, &mut bindings, equations)? {
        return Ok(None);
    }
    Ok(Some(bindings))
}

/// The most general unifier of a and b as bindings of the variables below `vars`, before anything is copied: its
/// entries can be exponentially longer than the terms. None exactly where there is no unifier. The only error is want
/// of memory.
pub fn unify_bound<'a>(
    alloc: Global,
    a: &'a Term,
    b: &'a Term,
    vars: u32,
) -> Result<Option<Bindings<'a>>, AllocError>
    requires a_below { HasVariablesBelow vars a.now }
    requires b_below { HasVariablesBelow vars b.now }
    ensures exact { IfOk result (λ found. MatchOption found (unifier vars a.now b.now ≡ None) (StandForUnifier vars a.now b.now)) }
    ensures steps { IfOk result (λ found. Leads Var ((a.now, b.now) ∷ []) (option_map (λ b. substitution b.1) found)) }
    ensures general { IfOk result (λ found. MatchOption found (HasNoUnifier a.now b.now) (λ u. IsMostGeneral a.now b.now (substitution u.1))) }
{
    laws::steps_lead_to_unifier();
    laws::unifier_is_most_general();
    if !fits(a, b) {
        return Ok(None);
    }
    let mut equations = Equations::new(alloc);
    equations.push(a, b)?;
    solution(alloc, &mut equations, vars)
}

/// The most general unifier of a and b by the rules for lists of equations (Robinson 1965; Martelli and Montanari
/// 1982), with an entry for each variable below `vars`; none exactly where there is no unifier. An entry of a variable
/// that occurs in neither is the variable itself. The only error is want of memory.
pub fn unify(alloc: Global, a: &Term, b: &Term, vars: u32) -> Result<Option<Subst>, AllocError>
    requires a_below { HasVariablesBelow vars a.now }
    requires b_below { HasVariablesBelow vars b.now }
    ensures exact { IfOk result (λ found. option_map (λ s. s.terms) found ≡ unifier vars a.now b.now) }
    ensures steps { IfOk result (λ found. Leads Var ((a.now, b.now) ∷ []) (option_map (λ s. entry s.terms) found)) }
    ensures general { IfOk result (λ found. MatchOption found (HasNoUnifier a.now b.now) (λ s. IsMostGeneral a.now b.now (entry s.terms))) }
{
    let Some(bindings) = unify_bound(alloc, a, b, vars)? else {
        return Ok(None);
    };
    let terms = applied_entries(alloc, &bindings, vars)?;
    Ok(Some(Subst { terms }))
}

/// The same for lists of arguments, as bindings: what `unify_bound` answers for any one symbol applied to the left ones
/// and to the right ones.
pub fn unify_arguments_bound<'a>(
    alloc: Global,
    left: &'a [Term],
    right: &'a [Term],
    vars: u32,
) -> Result<Option<Bindings<'a>>, AllocError>
    requires left_below { HaveVariablesBelow vars left.now }
    requires right_below { HaveVariablesBelow vars right.now }
    ensures exact { (head : Symbol) → IfOk result (λ found. MatchOption found
        (unifier vars (App head left.now) (App head right.now) ≡ None)
        (StandForUnifier vars (App head left.now) (App head right.now))) }
    ensures general { (head : Symbol) → IfOk result (λ found. MatchOption found
        (HasNoUnifier (App head left.now) (App head right.now))
        (λ u. IsMostGeneral (App head left.now) (App head right.now) (substitution u.1))) }
{
    laws::steps_lead_to_unifier();
    laws::unifier_is_most_general();
    if !all_fit(left, right) {
        return Ok(None);
    }
    let mut equations = Equations::new(alloc);
    equations.push_arguments(left, right)?;
    solution(alloc, &mut equations, vars)
}

/// The same for lists of arguments: what `unify` answers for any one symbol applied to the left ones and to the right
/// ones, so that atoms of one predicate can be unified where they stand.
pub fn unify_arguments(
    alloc: Global,
    left: &[Term],
    right: &[Term],
    vars: u32,
) -> Result<Option<Subst>, AllocError>
    requires left_below { HaveVariablesBelow vars left.now }
    requires right_below { HaveVariablesBelow vars right.now }
    ensures exact { (head : Symbol) → IfOk result (λ found.
        option_map (λ s. s.terms) found ≡ unifier vars (App head left.now) (App head right.now)) }
    ensures general { (head : Symbol) → IfOk result (λ found. MatchOption found
        (HasNoUnifier (App head left.now) (App head right.now))
        (λ s. IsMostGeneral (App head left.now) (App head right.now) (entry s.terms))) }
{
    let Some(bindings) = unify_arguments_bound(alloc, left, right, vars)? else {
        return Ok(None);
    };
    let terms = applied_entries(alloc, &bindings, vars)?;
    Ok(Some(Subst { terms }))
}
