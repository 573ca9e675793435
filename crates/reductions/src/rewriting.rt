//! Rewriting: a clause that is an equation replaces an instance of one side by the smaller one of the other.
ghost use Rattle.std.specs.Prelude.{◌≡◌, ◌≤◌, IfOk, MatchOption};
ghost use Rattle.spl_terms.specs.declared.atom.Atom.TheVariants.{Equal};
ghost use Rattle.spl_terms.specs.Clauses.{clause_symbols};
ghost use Rattle.spl_terms.specs.InOrder.{IsInOrder};
ghost use Rattle.spl_terms.specs.declared.term.Term.{Term};
ghost use Rattle.spl_truth.specs.Truth.{unit_clause};
ghost use Rattle.calculus.specs.Inferences.{clause_of};
ghost use Rattle.reductions.specs.Lines.{IsReductionLineBy};
ghost use Rattle.reductions.specs.Rewriting.{IsEquation, IsReadingOf, IsRewrittenIn, NothingIsRewrittenAs, NothingIsRewritten};

use crate::judging::{Rewrite, judged};
use crate::walking::{Rewritten, find_in_clause};
use crate::words::{line_from_both, unchanged, variables};
use calculus::Kept;
use proof_steps::{Line, Rule, Statement, paramodulated};
use spl_terms::{Atom, Clause, Items, Spot, Term};
use spl_truth::instance;
use std::alloc::{AllocError, Global};

/// The sides of a clause that is an equation and nothing else.
fn sides(clause: &Clause) -> Option<(&Term, &Term)>
    ensures { MatchOption result
        ((l r : Term) → clause.now ≡ unit_clause (Equal l r) → ⊥)
        (λ both. clause.now ≡ unit_clause (Equal both.0.now both.1.now)) }
{
    if !clause.constraint.is_empty() || !clause.antecedent.is_empty() {
        return None;
    }
    match clause.succedent.as_slice() {
        [Atom::Equal(left, right)] => Some((left, right)),
        _ => None,
    }
}

/// The line that rewrites the term that was found.
fn rewritten_line(
    alloc: Global,
    number: u32,
    target: &Statement,
    by: &Kept,
    right_to_left: bool,
    r: Rewrite,
    found: Rewritten,
) -> Result<Line, AllocError>
    requires apart { number ≡ by.now.number → ⊥ }
    requires reading { IsReadingOf right_to_left (clause_of by.now) r }
    requires found { IsRewrittenIn r target.now.clause found }
    ensures { IfOk result (IsReductionLineBy number target.now by.now) }
{
    let Rewritten {
        part,
        place,
        path,
        s,
    } = found;
    if place > 4_294_967_295 {
        return Err(AllocError);
    }
    let spot = Spot {
        part,
        place: place as u32,
        path: Items::from_vec(path),
    };
    let equation = instance(alloc, &s, &by.statement.clause)?;
    let copied = target.clause.copy(alloc)?;
    let made = paramodulated(alloc, 0, right_to_left, &spot, equation, copied)?.unwrap();
    let stated = Statement {
        clause: made.into_ordered(alloc)?,
        deps: by.statement.deps.union(&target.deps)?,
    };
    let t = unchanged(alloc, &target.clause)?;
    let rule = Rule::Paramodulate {
        i: 0,
        right_to_left,
        spot,
        s,
        t,
    };
    let line = line_from_both(alloc, rule, by.number, number, stated)?;
    Ok(line)
}

/// The line that rewrites the first term of the target which is an instance of the left side of the equation, and greater
/// than that of the right side; none exactly where there is none.
fn rewrite_as(
    alloc: Global,
    number: u32,
    target: &Statement,
    by: &Kept,
    right_to_left: bool,
    left: &Term,
    right: &Term,
) -> Result<Option<Line>, AllocError>
    requires apart { number ≡ by.now.number → ⊥ }
    requires in_order { IsInOrder (clause_of by.now) }
    requires size { clause_symbols (clause_of by.now) ≤ 4096 }
    requires equation { IsEquation right_to_left (clause_of by.now) left.now right.now }
    ensures { IfOk result (λ made. MatchOption made
        (NothingIsRewrittenAs right_to_left target.now.clause (clause_of by.now))
        (IsReductionLineBy number target.now by.now)) }
{
    let vars = variables(alloc, &by.statement.clause)?;
    let Some(r) = judged(alloc, left, right, vars)? else {
        return Ok(None);
    };
    let Some(found) = find_in_clause(alloc, r, &target.clause)? else {
        return Ok(None);
    };
    let line = rewritten_line(alloc, number, target, by, right_to_left, r, found)?;
    Ok(Some(line))
}

/// The line that rewrites a term of the target by the other clause, where that is an equation; none exactly where there is
/// none. The equation is read from left to right first.
pub(crate) fn rewrite_by(
    alloc: Global,
    number: u32,
    target: &Statement,
    by: &Kept,
) -> Result<Option<Line>, AllocError>
    requires apart { number ≡ by.now.number → ⊥ }
    requires in_order { IsInOrder (clause_of by.now) }
    requires size { clause_symbols (clause_of by.now) ≤ 4096 }
    ensures { IfOk result (λ made. MatchOption made
        (NothingIsRewritten target.now.clause (clause_of by.now))
        (IsReductionLineBy number target.now by.now)) }
{
    let Some((left, right)) = sides(&by.statement.clause) else {
        return Ok(None);
    };
    let forth = rewrite_as(alloc, number, target, by, false, left, right)?;
    if let Some(line) = forth {
        return Ok(Some(line));
    }
    let back = rewrite_as(alloc, number, target, by, true, right, left)?;
    Ok(back)
}
