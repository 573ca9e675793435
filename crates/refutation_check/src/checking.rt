//! The check of a list of lines.
ghost use Rattle.std.specs.Prelude.{◌≡◌, ◌↔◌, ◌<◌, ◌≤◌, ◌+◌, ◌^◌, length, IsTrue, IfOk, MatchResult, Ok, Err};
ghost use Rattle.std.specs.List.{All};
ghost use Rattle.spl_truth.specs.Truth.{Refuted};
ghost use Rattle.proof_steps.specs.Checked.{stated, IsConclusion, AreConclusions, EndsEmpty, Checked};
ghost use Rattle.refutation_check.specs.declared.fault.CheckFault.{CheckFault as Told};
ghost use Rattle.refutation_check.specs.Faults.{IsWrongBy, IsParentFault, IsShapeFault, IsClauseFault, IsDependenciesFault, IsFirstFault, IsLastFault, IsFault, IsErrorOf, OnFault, ComesUnlessMemory};

use crate::comparing::compare;
use crate::fault::{CheckError, CheckFault, CheckKind, Refutation};
use proof_steps::{Line, conclude_from_lines, is_contradiction, proofs_refute};
use spl_terms::Clause;
use std::alloc::Global;

/// A fault that tells neither statement.
fn fault(step: u32, kind: CheckKind) -> CheckError
    ensures { IsErrorOf (λ f. f ≡ record { step = step; kind = kind; found = None; wanted = None }) result }
{
    CheckError::Fault(CheckFault {
        step,
        kind,
        found: None,
        wanted: None,
    })
}

/// Whether each of the numbers is that of one of so many lines, from 1.
fn are_earlier(numbers: &[u32], count: usize) -> bool
    ensures { IsTrue result ↔ All (λ n. (1 ≤ n) × (n ≤ count)) numbers.now }
{
    numbers.iter().all(|n| *n >= 1 && *n as usize <= count)
}

/// Refuses the line that stands behind these where it doesn't state what its step concludes from them.
fn check_line(
    alloc: Global,
    input: &[Clause],
    earlier: &[Line],
    line: &Line,
) -> Result<(), CheckError>
    requires few { length earlier.now + 1 < 2 ^ 32 }
    ensures { MatchResult result (λ _. IsConclusion input.now (stated earlier.now) line.now)
        (IsErrorOf (λ f. (f.step ≡ length earlier.now + 1) × IsWrongBy f.kind input.now (stated earlier.now) line.now f)) }
{
    let step = earlier.len() as u32 + 1;
    if !are_earlier(line.step.parents.as_slice(), earlier.len()) {
        return Err(fault(step, CheckKind::Parent));
    }
    match conclude_from_lines(alloc, &line.step, input, earlier)? {
        Some(wanted) => compare(alloc, step, &line.stated, wanted),
        None => Err(fault(step, CheckKind::Shape)),
    }
}

/// Refuses the first line that doesn't state what its step concludes from the lines before it.
fn check_lines(alloc: Global, input: &[Clause], lines: &[Line]) -> Result<(), CheckError>
    requires few { length lines.now < 2 ^ 32 }
    ensures { MatchResult result (λ _. AreConclusions input.now lines.now)
        (IsErrorOf (λ f. IsFirstFault (IsWrongBy f.kind) input.now lines.now f)) }
{
    for (k, line) in lines.iter().enumerate() {
        check_line(alloc, input, &lines[..k], line)?;
    }
    Ok(())
}

fn ends_empty(lines: &[Line]) -> bool
    ensures { IsTrue result ↔ EndsEmpty lines.now }
{
    match lines.last() {
        Some(last) => is_contradiction(&last.stated),
        None => false,
    }
}

/// Refuses what is no proof.
fn judge(alloc: Global, input: &[Clause], lines: &[Line]) -> Result<Refutation, CheckError>
    requires few { length lines.now < 2 ^ 32 }
    ensures { MatchResult result (λ r. Checked input.now lines.now × (r.steps ≡ length lines.now))
        (IsErrorOf (IsFault input.now lines.now)) }
{
    check_lines(alloc, input, lines)?;
    let steps = lines.len() as u32;
    if ends_empty(lines) {
        Ok(Refutation { steps })
    } else {
        Err(fault(steps, CheckKind::Last))
    }
}

/// Checks a proof: each line has to state what its step concludes from the lines before it, in at most 4,096 symbols
/// (Weidenbach 2001, superposition and splitting), and the last one the empty clause without dependencies.
///
/// If so, finitely many ground instances of the input clauses and of the axioms of equality are true under no
/// assignment. Clauses are compared atom by atom, in order and with the sides of equations as they stand. Lines and
/// input clauses are numbered from 1; the input clauses need not be in order.
///
/// # Errors
///
/// The first line that is wrong, with what is wrong first in it: a parent that is no earlier line; a step that concludes
/// nothing; another clause than it concludes; other dependencies. Where no line is wrong, the last one, unless it is
/// the empty clause without dependencies.
pub fn check(alloc: Global, input: &[Clause], lines: &[Line]) -> Result<Refutation, CheckError>
    requires few { length lines.now < 2 ^ 32 }

    // Accepted exactly where the lines are a proof.
    ensures checked { IfOk result (λ _. Checked input.now lines.now) }
    ensures steps { IfOk result (λ r. r.steps ≡ length lines.now) }
    ensures refuted { IfOk result (λ _. Refuted input.now) }
    ensures accepted_always { Checked input.now lines.now
        → ComesUnlessMemory (Ok (record { steps = length lines.now })) result }

    // Refused exactly by the first fault.
    ensures parent { OnFault CheckKind.Parent result (IsFirstFault IsParentFault input.now lines.now) }
    ensures shape { OnFault CheckKind.Shape result (IsFirstFault IsShapeFault input.now lines.now) }
    ensures clause { OnFault CheckKind.Clause result (IsFirstFault IsClauseFault input.now lines.now) }
    ensures dependencies { OnFault CheckKind.Dependencies result (IsFirstFault IsDependenciesFault input.now lines.now) }
    ensures last { OnFault CheckKind.Last result (IsLastFault input.now lines.now) }
    ensures refused_always { (f : Told) → IsFault input.now lines.now f
        → ComesUnlessMemory (Err (CheckError.Fault f)) result }
{
    proofs_refute();
    judge(alloc, input, lines)
}
