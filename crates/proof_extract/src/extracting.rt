//! The lines that lead to a clause, taken out of a table.
ghost use Rattle.std.specs.Prelude.{◌≡◌, ◌≤◌, ◌<◌, ◌^◌, ◌++◌, length, IfOk, OnOk};
ghost use Rattle.spl_truth.specs.Truth.{Refuted};
ghost use Rattle.proof_steps.specs.Steps.{numbered};
ghost use Rattle.proof_steps.specs.Checked.{AreConclusions, Checked};
ghost use Rattle.case_journal.specs.Journal.{ledger, steps};
ghost use Rattle.proof_extract.specs.Extracting.{AreSplitsMarked, new_number, extracted, IsProofOf};
ghost use Rattle.proof_extract.specs.Marking.{counts_from, line_if_marked};
ghost use Rattle.proof_extract.specs.Contradictions.{IsContradictory};

use crate::marking::{ancestors, counts};
use crate::renumbering::new_line;
use proof_steps::{Line, proofs_refute};
use spl_terms::Items;
use split_tree::Table;
use std::alloc::{AllocError, Global};

/// How many lines are marked, where `counts` are those of the marks.
fn room(counts: &[u32]) -> usize {
    match counts.last() {
        Some(count) => *count as usize,
        None => 0,
    }
}

/// Adds the line with this number, renumbered, if it is marked.
fn add_line(
    alloc: Global,
    table: &Table,
    marks: &[bool],
    counts: &[u32],
    out: &mut Items<Line>,
    number: u32,
) -> Result<(), AllocError>
    requires counts { counts.now ≡ counts_from 0 marks.now }
    requires splits { AreSplitsMarked (ledger table.now.setting table.now.past) marks.now }
    requires some { 1 ≤ number }
    requires marked { number ≤ length marks.now }
    requires there { number ≤ steps table.now.setting table.now.past }
    ensures { OnOk result (out.new ≡ out.old ++ line_if_marked (new_number marks.now) (numbered marks.now number)
        (numbered (ledger table.now.setting table.now.past) number)) }
{
    if marks[number as usize - 1] {
        out.push(new_line(alloc, marks, counts, table.line(number))?)?;
    }
    Ok(())
}

/// The marked lines, renumbered from 1.
fn marked_lines(
    alloc: Global,
    table: &Table,
    marks: &[bool],
    counts: &[u32],
) -> Result<Items<Line>, AllocError>
    requires counts { counts.now ≡ counts_from 0 marks.now }
    requires splits { AreSplitsMarked (ledger table.now.setting table.now.past) marks.now }
    requires there { length marks.now ≤ steps table.now.setting table.now.past }
    requires few { length marks.now < 2 ^ 32 }
    ensures { IfOk result (λ made. made ≡ extracted marks.now (ledger table.now.setting table.now.past)) }
{
    let mut out = Items::with_room(alloc, room(counts))?;
    for k in 0..marks.len() {
        add_line(alloc, table, marks, counts, &mut out, k as u32 + 1)?;
    }
    Ok(out)
}

/// The steps that lead to the clause with this number, from 1, and no others: its line with its ancestors, in the
/// order of the ledger and renumbered from 1, in the lists of parents and in dependencies too.
///
/// Each line is still what its step concludes from the input and the lines before it. Where the clause is empty and
/// depends on no assumption, they are a proof.
///
/// # Errors
///
/// Only where there is no memory.
pub fn extract(alloc: Global, table: &Table, clause: u32) -> Result<Items<Line>, AllocError>
    requires some { 1 ≤ clause }
    requires there { clause ≤ steps table.now.setting table.now.past }
    ensures proof { IfOk result (IsProofOf (ledger table.now.setting table.now.past) clause) }
    ensures conclusions { IfOk result (AreConclusions table.now.setting.input) }
    ensures checked { IfOk result
        (λ proof. IsContradictory (ledger table.now.setting table.now.past) clause
        → Checked table.now.setting.input proof) }
    ensures refuted { IfOk result
        (λ proof. IsContradictory (ledger table.now.setting table.now.past) clause
        → Refuted table.now.setting.input) }
    ensures count { IfOk result (λ proof. length proof ≤ clause) }
{
    table.laws();
    proofs_refute();
    let marks = ancestors(alloc, table, clause)?;
    let counts = counts(alloc, marks.as_slice())?;
    marked_lines(alloc, table, marks.as_slice(), counts.as_slice())
}
