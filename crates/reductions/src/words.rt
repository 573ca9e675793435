//! How many variables a clause has, the substitution that leaves it as it is, and lines of one parent.
ghost use Rattle.std.specs.Prelude.{◌≡◌, ◌∷◌, [], IfOk};
ghost use Rattle.spl_terms.specs.InOrder.{variables};
ghost use Rattle.calculus.specs.Reductions.{unchanged};

use proof_steps::{Line, Rule, Statement, Step};
use spl_terms::{Clause, Items, Term, order_of};
use spl_truth::Subst;
use std::alloc::{AllocError, Global};

/// How many variables the clause has.
pub(crate) fn variables(alloc: Global, clause: &Clause) -> Result<u32, AllocError>
    ensures { IfOk result (λ count. count ≡ variables clause.now) }
{
    let count = order_of(alloc, clause)?.len();
    if count > 4_294_967_295 {
        return Err(AllocError);
    }
    Ok(count as u32)
}

/// The substitution that leaves each variable of the clause as it is.
pub(crate) fn unchanged(alloc: Global, clause: &Clause) -> Result<Subst, AllocError>
    ensures { IfOk result (λ subst. subst ≡ unchanged clause.now) }
{
    let count = variables(alloc, clause)?;
    let mut terms = Items::with_room(alloc, count as usize)?;
    for variable in 0..count {
        terms.push(Term::Var(variable))?;
    }
    Ok(Subst { terms })
}

/// The line of a step with one parent.
pub(crate) fn line_from(
    alloc: Global,
    rule: Rule,
    parent: u32,
    stated: Statement,
) -> Result<Line, AllocError>
    ensures { IfOk result (λ line. line ≡ record { step = record { rule = rule; parents = parent ∷ [] }; stated = stated }) }
{
    let parents = Items::from_slice(alloc, &[parent])?;
    Ok(Line {
        step: Step { rule, parents },
        stated,
    })
}

/// The line of a step with two parents.
pub(crate) fn line_from_both(
    alloc: Global,
    rule: Rule,
    first: u32,
    second: u32,
    stated: Statement,
) -> Result<Line, AllocError>
    ensures { IfOk result (λ line. line ≡ record { step = record { rule = rule; parents = first ∷ second ∷ [] }; stated = stated }) }
{
    let parents = Items::from_slice(alloc, &[first, second])?;
    Ok(Line {
        step: Step { rule, parents },
        stated,
    })
}
