//! Whether a side of an equation is upper for a unifier that stands as bindings, before it is written out.
ghost use Rattle.std.specs.Prelude.{◌≡◌, not, map, IfOk};
ghost use Rattle.spl_terms.specs.declared.term.Term.{Term};
ghost use Rattle.spl_terms.specs.Terms.{replace};
ghost use Rattle.spl_truth.specs.Orders.{is_below};
ghost use Rattle.unify.specs.Bindings.{substitution, IsTriangular};
ghost use Rattle.superposition.specs.Pairs.{raised};
ghost use Rattle.superposition.specs.Standings.{IsStanding};

use crate::equations::Equation;
use crate::ordering::{Standing, is_upper};
use spl_terms::{Items, Term};
use std::alloc::{AllocError, Global};
use unify::Bindings;

// ---- instances of terms whose variables are raised

#[cycle(lifting)]
#[tactic(auto, using(crate::proofs::Unified::replace_laws))]
fn raised_instance<'a>(
    alloc: Global,
    bindings: &Bindings<'a>,
    lift: u32,
    term: &Term,
) -> Result<Term, AllocError>
    requires { IsTriangular bindings.now.0 bindings.now.1 }
    ensures { IfOk result (λ made. made ≡ replace (substitution bindings.now.1) (raised lift term.now)) }
{
    match term {
        Term::Var(variable) => match lift.checked_add(*variable) {
            Some(higher) => bindings.applied_entry(alloc, higher),
            None => Err(AllocError),
        },
        Term::App(symbol, args) => {
            let made = raised_instances(alloc, bindings, lift, args.as_slice())?;
            Ok(Term::App(*symbol, made))
        }
    }
}

#[cycle(lifting)]
#[tactic(auto, using(crate::proofs::Unified::replace_laws))]
fn raised_instances<'a>(
    alloc: Global,
    bindings: &Bindings<'a>,
    lift: u32,
    terms: &[Term],
) -> Result<Items<Term>, AllocError>
    requires { IsTriangular bindings.now.0 bindings.now.1 }
    ensures { IfOk result (λ made. made ≡ map (replace (substitution bindings.now.1)) (map (raised lift) terms.now)) }
{
    let mut made = Items::with_room(alloc, terms.len())?;
    for term in terms {
        made.push(raised_instance(alloc, bindings, lift, term)?)?;
    }
    Ok(made)
}

// ---- sides

/// Whether the instance of the first term, whose variables are raised, isn't below that of the second one.
pub(crate) fn is_upper_raised<'a>(
    alloc: Global,
    bindings: &Bindings<'a>,
    lift: u32,
    left: &Term,
    right: &Term,
) -> Result<bool, AllocError>
    requires { IsTriangular bindings.now.0 bindings.now.1 }
    ensures { IfOk result (λ yes. yes ≡ not (is_below
        (replace (substitution bindings.now.1) (raised lift left.now))
        (replace (substitution bindings.now.1) (raised lift right.now)))) }
{
    let first = raised_instance(alloc, bindings, lift, left)?;
    let second = raised_instance(alloc, bindings, lift, right)?;
    is_upper(&first, &second)
}

/// Whether the instance of the left side isn't below that of the right one. Sides of which that is known of all
/// instances aren't looked at.
pub(crate) fn is_left_upper<'a>(
    alloc: Global,
    bindings: &Bindings<'a>,
    e: Equation<'a>,
) -> Result<bool, AllocError>
    requires triangular { IsTriangular bindings.now.0 bindings.now.1 }
    requires judged { IsStanding e.standing e.left_side.now e.right_side.now }
    ensures { IfOk result (λ yes. yes ≡ not (is_below
        (replace (substitution bindings.now.1) e.entry.left_side.now)
        (replace (substitution bindings.now.1) e.entry.right_side.now))) }
{
    match e.standing {
        Standing::Upper => Ok(true),
        Standing::Lower => Ok(false),
        Standing::Open => {
            let first = bindings.applied(alloc, e.left_side)?;
            let second = bindings.applied(alloc, e.right_side)?;
            is_upper(&first, &second)
        }
    }
}
