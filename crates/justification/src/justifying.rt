//! Which notes justify that a clause is hidden.
ghost use Rattle.std.specs.Prelude.{◌≡◌, ◌==◌, ◌↔◌, ◌<◌, IsTrue, IfOk, true};
ghost use Rattle.std.specs.List.{list_any};
ghost use Rattle.spl_terms.specs.declared.clause.Part.{Part};
ghost use Rattle.spl_terms.specs.Clauses.{part_of};
ghost use Rattle.spl_terms.specs.InOrder.{are_different};
ghost use Rattle.proof_steps.specs.Covering.{IsVariant};
ghost use Rattle.calculus.specs.Notes.{IsSubsumedNote, IsRewrittenNote, IsReasoned, IsJustified};
ghost use Rattle.justification.specs.Hiding.{AreStatedInOrder, HasFollowing};
ghost use Rattle.justification.specs.Tests.{is_mapped, is_first_equation, is_mapped_result, is_rewritten, is_reason};

use crate::editing::{Rewriting, edited, has_entries};
use crate::mapping::{maps_apart, parts_mapped};
use calculus::{Edit, HideNote, Why};
use proof_steps::{Statement, numbered};
use spl_terms::{Clause, variant};
use spl_truth::{Subst, is_tautology};
use std::alloc::{AllocError, Global};

/// Whether one of the edits is by the equation with this number.
fn is_edited_by(edits: &[Edit], number: u32) -> bool
    ensures { result ≡ list_any (λ e. e.equation == number) edits.now }
{
    edits.iter().any(|edit| edit.equation == number)
}

/// Whether the clause with this number is one of the reasons.
fn is_reason(why: &Why, number: u32) -> bool
    ensures { result ≡ is_reason why.now number }
{
    match why {
        Why::Tautology => false,
        Why::Subsumed { by, .. } => *by == number,
        Why::Rewritten { reduct, edits, .. } => {
            *reduct == number || is_edited_by(edits.as_slice(), number)
        }
    }
}

/// Whether the number is that of the equation of the first edit.
fn is_first_equation(number: u32, edits: &[Edit]) -> bool
    ensures { result ≡ is_first_equation number edits.now }
{
    match edits {
        [] => false,
        [first, ..] => first.equation == number,
    }
}

/// Whether the first clause is no variant of the second one, or has the smaller number.
fn may_hide(by: u32, hidden: u32, reason: &Clause, clause: &Clause) -> bool
    ensures { IsTrue result ↔ (IsVariant reason.now clause.now → by < hidden) }
{
    by < hidden || !variant(reason, clause)
}

/// Whether the clause with the number `by` subsumes the hidden one by this substitution, and is older where the two are
/// variants.
fn is_subsumed(
    alloc: Global,
    earlier: &[Statement],
    hidden: u32,
    by: u32,
    subst: &Subst,
    clause: &Clause,
) -> Result<bool, AllocError>
    requires { (part : Part) → are_different (part_of clause.now part) ≡ true }
    ensures { IfOk result (λ yes. IsTrue yes ↔ IsSubsumedNote earlier.now hidden by subst.now clause.now) }
{
    let Some(reason) = numbered(earlier, by) else {
        return Ok(false);
    };
    if !may_hide(by, hidden, &reason.clause, clause) {
        return Ok(false);
    }
    if !has_entries(alloc, subst, &reason.clause)? {
        return Ok(false);
    }
    maps_apart(alloc, subst, &reason.clause, clause)
}

/// Whether the substitution maps the clause with the number `reduct` into this one.
fn is_mapped(
    alloc: Global,
    earlier: &[Statement],
    reduct: u32,
    subst: &Subst,
    clause: &Clause,
) -> Result<bool, AllocError>
    ensures { IfOk result (λ yes. yes ≡ is_mapped earlier.now reduct subst.now clause.now) }
{
    let Some(reason) = numbered(earlier, reduct) else {
        return Ok(false);
    };
    if !has_entries(alloc, subst, &reason.clause)? {
        return Ok(false);
    }
    parts_mapped(alloc, subst.terms.as_slice(), &reason.clause, clause)
}

/// Whether the clause with the number `reduct` maps into all that has stood there, or that is a tautology and `reduct` the
/// equation of the first edit.
fn is_mapped_result(
    alloc: Global,
    earlier: &[Statement],
    reduct: u32,
    subst: &Subst,
    edits: &[Edit],
    whole: &Rewriting,
) -> Result<bool, AllocError>
    ensures { IfOk result (λ yes. yes ≡ is_mapped_result earlier.now reduct subst.now edits.now (record { now = whole.entry.now.now; ever = whole.entry.now.ever })) }
{
    if is_first_equation(reduct, edits) && is_tautology(&whole.ever) {
        return Ok(true);
    }
    is_mapped(alloc, earlier, reduct, subst, &whole.ever)
}

/// Whether the edits apply to the clause and lead to what the clause with the number `reduct` maps into.
fn is_rewritten(
    alloc: Global,
    earlier: &[Statement],
    reduct: u32,
    subst: &Subst,
    edits: &[Edit],
    clause: &Clause,
) -> Result<bool, AllocError>
    ensures { IfOk result (λ yes. yes ≡ is_rewritten earlier.now reduct subst.now edits.now clause.now) }
{
    match edited(alloc, earlier, clause, edits)? {
        Some(whole) => is_mapped_result(alloc, earlier, reduct, subst, edits, &whole),
        None => Ok(false),
    }
}

/// Whether the case of the note holds for this clause.
fn is_reasoned(
    alloc: Global,
    earlier: &[Statement],
    hidden: u32,
    clause: &Clause,
    why: &Why,
) -> Result<bool, AllocError>
    requires { (part : Part) → are_different (part_of clause.now part) ≡ true }
    ensures { IfOk result (λ yes. IsTrue yes ↔ IsReasoned earlier.now hidden clause.now why.now) }
{
    match why {
        Why::Tautology => Ok(is_tautology(clause)),
        Why::Subsumed { by, subst } => is_subsumed(alloc, earlier, hidden, *by, subst, clause),
        Why::Rewritten {
            reduct,
            subst,
            edits,
        } => { is_rewritten(alloc, earlier, *reduct, subst, edits.as_slice(), clause) }
    }
}

/// Whether the note justifies that its clause is hidden (Weidenbach 2001, the section on reductions; the form of notes is
/// this project's own). Clauses have numbers from 1; a note that names one that isn't there justifies nothing.
///
/// The hidden clause is none of the reasons, and it is a tautology, or the clause named subsumes it by the substitution
/// (of two variants only the older one hides the other), or the edits apply to it one after another and the reduct maps
/// into all atoms that have stood there. Where these make a tautology, the equation of the first edit may stand for the
/// reduct. Substitutions have one entry for each variable of their clause.
///
/// No instance is built that is larger than what it is compared with; the edits work in place on one copy of the clause,
/// and keep one copy of each atom that they make. Time is taken by the square of the number of edits only where the
/// reduct is the first equation.
///
/// # Errors
///
/// Only where there is no memory.
pub fn justified(alloc: Global, note: &HideNote, earlier: &[Statement]) -> Result<bool, AllocError>
    requires in_order { AreStatedInOrder earlier.now }
    ensures exact { IfOk result (λ yes. IsTrue yes ↔ IsJustified note.now earlier.now) }
    ensures sound { IfOk result (λ yes. IsTrue yes → HasFollowing note.now earlier.now) }
{
    let Some(hidden) = numbered(earlier, note.hidden) else {
        return Ok(false);
    };
    if is_reason(&note.why, note.hidden) {
        return Ok(false);
    }
    is_reasoned(alloc, earlier, note.hidden, &hidden.clause, &note.why)
}
