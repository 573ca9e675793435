//! A line at the end of the list, with its conclusion brought into order.
ghost use Rattle.std.specs.Prelude.{◌≡◌, [], ◌∷◌, ◌++◌, option_map, option_to_list, IfOk, OnOk, OnErr};
ghost use Rattle.spl_terms.specs.Clauses.{in_order};
ghost use Rattle.proof_steps.specs.Steps.{states};
ghost use Rattle.dep_sets.specs.Assumptions.{united};
ghost use Rattle.superposition.specs.Appending.{Appended};
ghost use Rattle.superposition.specs.Words.{line_of, line_of_both};

use crate::error::InferError;
use calculus::Kept;
use dep_sets::Deps;
use proof_steps::{Line, Rule, Statement, Step};
use spl_terms::{Clause, Items, PushError};
use std::alloc::{AllocError, Global};

/// Appends the line; on want of memory the list is as before.
fn push(out: &mut Vec<Line>, line: Line) -> Result<(), AllocError>
    ensures ok { OnOk result (out.new.items ≡ out.old.items ++ line ∷ []) }
    ensures err { OnErr result (out.new.items ≡ out.old.items) }
{
    out.push(line)?;
    Ok(())
}

/// Appends the line that states the clause in order, by this rule from these parents.
fn append(
    alloc: Global,
    made: Clause,
    rule: Rule,
    parents: Items<u32>,
    deps: Deps,
    out: &mut Vec<Line>,
) -> Result<(), InferError>
    ensures { Appended
        (record { step = record { rule = rule; parents = parents }; stated = states (in_order made) deps } ∷ [])
        out.old.items out.new.items result }
{
    match made.into_numbered(alloc) {
        Ok(clause) => {
            let line = Line {
                step: Step { rule, parents },
                stated: Statement { clause, deps },
            };
            push(out, line)?;
            Ok(())
        }
        Err(PushError::Big { symbols }) => Err(InferError::Big { symbols }),
        Err(PushError::Memory) => Err(InferError::Memory),
    }
}

/// The numbers of two premises, and the dependencies of both.
fn parents_of(alloc: Global, p: &Kept, q: &Kept) -> Result<(Items<u32>, Deps), AllocError>
    ensures { IfOk result (λ both.
        (both.0 ≡ p.now.number ∷ q.now.number ∷ []) × (both.1 ≡ united p.now.statement.deps q.now.statement.deps)) }
{
    let parents = Items::from_slice(alloc, &[p.number, q.number])?;
    let deps = p.statement.deps.union(&q.statement.deps)?;
    Ok((parents, deps))
}

/// The number of a premise, and its dependencies.
fn parent_of(alloc: Global, p: &Kept) -> Result<(Items<u32>, Deps), AllocError>
    ensures { IfOk result (λ both. (both.0 ≡ p.now.number ∷ []) × (both.1 ≡ p.now.statement.deps)) }
{
    let parents = Items::from_slice(alloc, &[p.number])?;
    let deps = p.statement.deps.copy()?;
    Ok((parents, deps))
}

/// Appends the line that states the clause in order, by this rule from two premises, if there is a clause.
pub(crate) fn append_from_both(
    alloc: Global,
    p: &Kept,
    q: &Kept,
    made: Option<Clause>,
    rule: Rule,
    out: &mut Vec<Line>,
) -> Result<(), InferError>
    ensures { Appended
        (option_to_list (option_map (line_of_both p.now q.now rule) made))
        out.old.items out.new.items result }
{
    let Some(clause) = made else {
        return Ok(());
    };
    match parents_of(alloc, p, q) {
        Ok((parents, deps)) => append(alloc, clause, rule, parents, deps, out),
        Err(_) => Err(InferError::Memory),
    }
}

/// Appends the line that states the clause in order, by this rule from one premise, if there is a clause.
pub(crate) fn append_from(
    alloc: Global,
    p: &Kept,
    made: Option<Clause>,
    rule: Rule,
    out: &mut Vec<Line>,
) -> Result<(), InferError>
    ensures { Appended (option_to_list (option_map (line_of p.now rule) made)) out.old.items out.new.items result }
{
    let Some(clause) = made else {
        return Ok(());
    };
    match parent_of(alloc, p) {
        Ok((parents, deps)) => append(alloc, clause, rule, parents, deps, out),
        Err(_) => Err(InferError::Memory),
    }
}
