//! All inferences of two clauses, and all of one.
ghost use Rattle.std.specs.Prelude.{◌≡◌, ◌≤◌};
ghost use Rattle.spl_terms.specs.Clauses.{clause_symbols};
ghost use Rattle.spl_terms.specs.InOrder.{IsInOrder};
ghost use Rattle.calculus.specs.Inferences.{clause_of, from_to, pair_inferences, own_inferences};
ghost use Rattle.superposition.specs.Appending.{Appended};
ghost use Rattle.superposition.specs.Premises.{IsPrepared};

use crate::error::InferError;
use crate::own::{factor_equations_of, factor_premise, reflect_premise};
use crate::premises::Premise;
use crate::resolution::resolve_premises;
use crate::rewriting::superpose_premises;
use calculus::Kept;
use proof_steps::Line;
use std::alloc::Global;

/// Appends the resolutions and then the superpositions with p as the premise of the succedent atom.
fn from_to<'a>(
    alloc: Global,
    p: &Premise<'a>,
    q: &Premise<'a>,
    out: &mut Vec<Line>,
) -> Result<(), InferError>
    requires p_found { IsPrepared p.now }
    requires q_found { IsPrepared q.now }
    ensures { Appended (from_to p.now.kept.now q.now.kept.now) out.old.items out.new.items result }
{
    if let Err(error) = resolve_premises(alloc, p, q, out) {
        return Err(error);
    }
    superpose_premises(alloc, p, q, out)
}

/// Appends the inferences of two premises, with each of them as the first one.
fn infer_from_both<'a>(
    alloc: Global,
    p: &Premise<'a>,
    q: &Premise<'a>,
    out: &mut Vec<Line>,
) -> Result<(), InferError>
    requires p_found { IsPrepared p.now }
    requires q_found { IsPrepared q.now }
    ensures { Appended (pair_inferences p.now.kept.now q.now.kept.now) out.old.items out.new.items result }
{
    if let Err(error) = from_to(alloc, p, q, out) {
        return Err(error);
    }
    from_to(alloc, q, p, out)
}

/// Appends the inferences of a premise with a copy of itself, and then those of the premise alone.
fn infer_from_one(alloc: Global, p: &Premise, out: &mut Vec<Line>) -> Result<(), InferError>
    requires { IsPrepared p.now }
    ensures { Appended (own_inferences p.now.kept.now) out.old.items out.new.items result }
{
    if let Err(error) = from_to(alloc, p, p, out) {
        return Err(error);
    }
    if let Err(error) = factor_premise(alloc, p, out) {
        return Err(error);
    }
    if let Err(error) = reflect_premise(alloc, p, out) {
        return Err(error);
    }
    factor_equations_of(alloc, p, out)
}

/// Appends the inferences of two clauses, with each of them as the first premise: resolution and superposition
/// (Weidenbach 2001, the section on superposition).
///
/// # Errors
///
/// `Big` exactly where the next conclusion has more than 4,096 symbols; `Memory` only where there is no memory, or an
/// instance of more than 4,294,967,295 symbols would have to be compared. What comes before it in the list was
/// appended.
#[tactic(auto, using(crate::proofs::Composing::no_memory))]
pub fn infer_pair(
    alloc: Global,
    given: &Kept,
    other: &Kept,
    out: &mut Vec<Line>,
) -> Result<(), InferError>
    requires given_in_order { IsInOrder (clause_of given.now) }
    requires other_in_order { IsInOrder (clause_of other.now) }
    requires given_size { clause_symbols (clause_of given.now) ≤ 4096 }
    requires other_size { clause_symbols (clause_of other.now) ≤ 4096 }
    ensures { Appended (pair_inferences given.now other.now) out.old.items out.new.items result }
{
    let first = Premise::new(alloc, given)?;
    let second = Premise::new(alloc, other)?;
    infer_from_both(alloc, &first, &second, out)
}

/// Appends the inferences of a clause with a copy of itself, and then those of the clause alone: factoring, equality
/// resolution, equality factoring (Weidenbach 2001, the section on superposition).
///
/// # Errors
///
/// As of `infer_pair`.
pub fn infer_self(alloc: Global, given: &Kept, out: &mut Vec<Line>) -> Result<(), InferError>
    requires in_order { IsInOrder (clause_of given.now) }
    requires size { clause_symbols (clause_of given.now) ≤ 4096 }
    ensures { Appended (own_inferences given.now) out.old.items out.new.items result }
{
    let premise = Premise::new(alloc, given)?;
    infer_from_one(alloc, &premise, out)
}
