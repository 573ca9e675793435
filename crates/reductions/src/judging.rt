//! Directions in which an equation rewrites terms, by the order on terms.
ghost use Rattle.std.specs.Prelude.{◌≡◌, ◌≤◌, ◌↔◌, IsTrue, IfOk, MatchOption};
ghost use Rattle.std.specs.List.{list_all};
ghost use Rattle.spl_terms.specs.Terms.{term_symbols};
ghost use Rattle.spl_truth.specs.Unifiers.{HasVariablesBelow};
ghost use Rattle.reductions.specs.Rewriting.{all_bound, Covers, NeverFalls, IsJudged};

use kbo::{Order, compare, order_is_stable};
use spl_terms::Term;
use std::alloc::{AllocError, Global};
use unify::{Bindings, match_term};

/// An equation that is read in one direction.
#[derive(Clone, Copy, Debug)]
pub(crate) struct Rewrite<'a> {
    /// The side that is read first, of which instances are rewritten.
    pub(crate) left: &'a Term,
    /// The other side.
    pub(crate) right: &'a Term,
    /// A number above all variables of the left side.
    pub(crate) vars: u32,
    /// Whether the first side is greater than the other one, so that each of its instances is.
    pub(crate) always: bool,
}

// ---- variables

/// Whether each variable of the term is bound.
#[cycle(bound)]
#[tactic(auto, using(crate::proofs::Judged::bound_laws))]
fn is_bound<'a>(term: &Term, found: &Bindings<'a>) -> bool
    ensures { result ≡ all_bound found.now.1 term.now }
{
    match term {
        Term::Var(variable) => found.get(*variable).is_some(),
        Term::App(_, args) => are_bound(args.as_slice(), found),
    }
}

#[cycle(bound)]
fn are_bound<'a>(terms: &[Term], found: &Bindings<'a>) -> bool
    ensures { result ≡ list_all (all_bound found.now.1) terms.now }
{
    for term in terms {
        if !is_bound(term, found) {
            return false;
        }
    }
    true
}

/// Whether each variable of the second term occurs in the first one. Time grows with the sizes of both, not with their
/// product: each variable of the first term is marked by a binding to itself.
fn covers_variables(alloc: Global, term: &Term, other: &Term, vars: u32) -> Result<bool, AllocError>
    requires { HasVariablesBelow vars term.now }
    ensures { IfOk result (λ yes. IsTrue yes ↔ Covers term.now other.now) }
{
    let mut found = Bindings::new(alloc, vars)?;
    match_term(term, term, &mut found)?;
    Ok(is_bound(other, &found))
}

// ---- the direction

/// The same where it depends on the instance which side is greater.
fn judged_open<'a>(
    alloc: Global,
    left: &'a Term,
    right: &'a Term,
    vars: u32,
) -> Result<Option<Rewrite<'a>>, AllocError>
    requires { HasVariablesBelow vars left.now }
    ensures { IfOk result (λ made. MatchOption made
        (Covers left.now right.now → NeverFalls left.now right.now)
        (λ r. (r.left.now ≡ left.now) × (r.right.now ≡ right.now) × (r.vars ≡ vars) × IsJudged r)) }
{
    if covers_variables(alloc, left, right, vars)? {
        Ok(Some(Rewrite {
            left,
            right,
            vars,
            always: false,
        }))
    } else {
        Ok(None)
    }
}

/// The equation read from the first side to the other one, where instances of the first side can be greater than those of
/// the other one, and the other one has no further variables; none where no instance is rewritten.
pub(crate) fn judged<'a>(
    alloc: Global,
    left: &'a Term,
    right: &'a Term,
    vars: u32,
) -> Result<Option<Rewrite<'a>>, AllocError>
    requires below { HasVariablesBelow vars left.now }
    requires left_size { term_symbols left.now ≤ 4294967295 }
    requires right_size { term_symbols right.now ≤ 4294967295 }
    ensures { IfOk result (λ made. MatchOption made
        (Covers left.now right.now → NeverFalls left.now right.now)
        (λ r. (r.left.now ≡ left.now) × (r.right.now ≡ right.now) × (r.vars ≡ vars) × IsJudged r)) }
{
    order_is_stable();
    match compare(left, right) {
        Order::Greater => Ok(Some(Rewrite {
            left,
            right,
            vars,
            always: true,
        })),
        Order::Incomparable => judged_open(alloc, left, right, vars),
        Order::Less => Ok(None),
        Order::Equal => Ok(None),
    }
}
