//! Reductions of a clause by itself.
ghost use Rattle.std.specs.Prelude.{IfOk, MatchOption};
ghost use Rattle.spl_terms.specs.InOrder.{IsInOrder};
ghost use Rattle.reductions.specs.Lines.{IsOwnReductionLine, HasNoOwnReduction};

use crate::condensing::condense;
use crate::trivial::remove_trivial;
use proof_steps::{Line, Statement};
use std::alloc::{AllocError, Global};

/// A step that reduces the clause with this number, from 1, by itself: an antecedent equation with equal sides is removed,
/// or the clause is condensed, which makes an instance of it that has fewer atoms and subsumes it (Weidenbach 2001, the
/// section on reductions; Joyner 1976). The line has the step, and what it makes of the clause. None exactly where there is
/// no such step. Equations are removed first, in the order of their places.
///
/// Whether a clause can be condensed is NP-complete. Atoms are compared pair by pair first; only where one of them matches
/// another one of its part is a mapping of all others looked for, which takes exponential time for some clauses: where many
/// atoms have one predicate and share few variables. The search nests as deep as the clause has atoms.
///
/// # Errors
///
/// Only where there is no memory.
pub fn reduce_self(
    alloc: Global,
    number: u32,
    target: &Statement,
) -> Result<Option<Line>, AllocError>
    requires { IsInOrder target.now.clause }
    ensures { IfOk result (λ made. MatchOption made
        (HasNoOwnReduction target.now.clause)
        (IsOwnReductionLine number target.now)) }
{
    if let Some(line) = remove_trivial(alloc, number, target)? {
        return Ok(Some(line));
    }
    let made = condense(alloc, number, target)?;
    Ok(made)
}
