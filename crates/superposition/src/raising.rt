//! Terms with their variables raised, so that they have none in common with those of another clause.
ghost use Rattle.std.specs.Prelude.{◌≡◌, map, IfOk};
ghost use Rattle.superposition.specs.Pairs.{raised};

use spl_terms::{Items, Term};
use std::alloc::{AllocError, Global};

/// The term with this number added to each of its variables. The only error is want of memory, or of numbers for them.
#[cycle(raising)]
#[tactic(auto, using(crate::proofs::Unified::replace_laws))]
pub(crate) fn raised(alloc: Global, lift: u32, term: &Term) -> Result<Term, AllocError>
    ensures { IfOk result (λ made. made ≡ raised lift term.now) }
{
    match term {
        Term::Var(variable) => match lift.checked_add(*variable) {
            Some(higher) => Ok(Term::Var(higher)),
            None => Err(AllocError),
        },
        Term::App(symbol, args) => Ok(Term::App(
            *symbol,
            all_raised(alloc, lift, args.as_slice())?,
        )),
    }
}

/// The terms with this number added to each of their variables, as `raised` makes each of them.
#[cycle(raising)]
#[tactic(auto, using(crate::proofs::Unified::replace_laws))]
pub(crate) fn all_raised(
    alloc: Global,
    lift: u32,
    terms: &[Term],
) -> Result<Items<Term>, AllocError>
    ensures { IfOk result (λ made. made ≡ map (raised lift) terms.now) }
{
    let mut made = Items::with_room(alloc, terms.len())?;
    for term in terms {
        made.push(raised(alloc, lift, term)?)?;
    }
    Ok(made)
}
