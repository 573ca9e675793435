//! Reductions of a clause by another one.
ghost use Rattle.std.specs.Prelude.{◌≤◌, IfOk, MatchOption};
ghost use Rattle.spl_terms.specs.Clauses.{clause_symbols};
ghost use Rattle.spl_terms.specs.InOrder.{IsInOrder};
ghost use Rattle.calculus.specs.Inferences.{clause_of};
ghost use Rattle.reductions.specs.Lines.{IsReductionLineBy, HasNoReductionBy};

use crate::replacing::replace_by;
use crate::rewriting::rewrite_by;
use calculus::Kept;
use proof_steps::{Line, Statement};
use std::alloc::{AllocError, Global};

/// A step that reduces the clause with this number, from 1, by another clause, which has one atom (Weidenbach 2001, the
/// section on reductions). The line has the step, and what it makes of the clause. None exactly where there is no such
/// step; a clause with the same number reduces nothing.
///
/// Matching replacement resolution takes out an atom that is the same, up to exchanged sides, as an instance of the one
/// atom on the other side of the arrow; constraint and antecedent are one side. Rewriting replaces an instance of one side
/// of an equation of the succedent by that of the other side, which is less and has no further variables, at any subterm
/// (Knuth and Bendix 1970). Replacement is tried first, and then rewriting, from left to right and from right to left; of
/// several atoms or terms the first is taken, in the order of constraint, antecedent, succedent, a term before what stands
/// in it.
///
/// The target is walked once in each direction that the order leaves open; heads are compared before a term is matched,
/// and nothing is copied before a step is found.
///
/// # Errors
///
/// Only where there is no memory.
pub fn reduce_by(
    alloc: Global,
    number: u32,
    target: &Statement,
    by: &Kept,
) -> Result<Option<Line>, AllocError>
    requires in_order { IsInOrder (clause_of by.now) }
    requires size { clause_symbols (clause_of by.now) ≤ 4096 }
    ensures { IfOk result (λ made. MatchOption made
        (HasNoReductionBy number target.now.clause by.now)
        (IsReductionLineBy number target.now by.now)) }
{
    if number == by.number {
        return Ok(None);
    }
    let replaced = replace_by(alloc, number, target, by)?;
    if let Some(line) = replaced {
        return Ok(Some(line));
    }
    let rewritten = rewrite_by(alloc, number, target, by)?;
    Ok(rewritten)
}
