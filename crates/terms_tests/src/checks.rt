//! Lists of lines that are proofs, or which line is wrong and why.
use crate::steps::{conclusion, input_clauses, statement, step};
use clause_texts::Row;
use proof_steps::{Line, Statement};
use refutation_check::{CheckError, CheckFault, CheckKind, check};
use spl_terms::{Clause, same_clause};
use std::alloc::{AllocError, Global};

/// A line out of a text `STEP` or `STEP!CLAUSE!DEPS`: what it states where that is given, else what its step concludes.
fn line(alloc: Global, input: &[Clause], before: &[Line], text: &str) -> Result<Line, AllocError> {
    let fields = Row::split(alloc, text, '!')?;
    let step = step(alloc, fields.text(0))?;
    let stated = if fields.words().len() > 1 {
        statement(alloc, fields.text(1), fields.text(2))?
    } else {
        conclusion(alloc, input, before, &step)?
    };
    Ok(Line { step, stated })
}

/// The word for a kind of fault.
fn word(kind: CheckKind) -> &'static str {
    match kind {
        CheckKind::Parent => "parent",
        CheckKind::Shape => "shape",
        CheckKind::Clause => "clause",
        CheckKind::Dependencies => "dependencies",
        CheckKind::Last => "last",
    }
}

/// Whether the statement is the one of the text `CLAUSE!DEPS`, or there is none where the text is empty.
fn is_statement(alloc: Global, told: &Option<Statement>, text: &str) -> Result<bool, AllocError> {
    let Some(told) = told else {
        return Ok(text.is_empty());
    };
    let fields = Row::split(alloc, text, '!')?;
    let wanted = statement(alloc, fields.text(0), fields.text(1))?;
    Ok(same_clause(&told.clause, &wanted.clause) && told.deps.as_slice() == wanted.deps.as_slice())
}

/// Whether the fault is the one of the words from the fourth on: its line, its kind, what is found and what is wanted.
fn is_fault(alloc: Global, fault: &CheckFault, row: &Row) -> Result<bool, AllocError> {
    let found = is_statement(alloc, &fault.found, row.text(5))?;
    let wanted = is_statement(alloc, &fault.wanted, row.text(6))?;
    Ok(fault.step == row.number(3) && word(fault.kind) == row.text(4) && found && wanted)
}

/// `check CLAUSES LINES N accepted` or `check CLAUSES LINES N KIND FOUND WANTED`, with `;` between clauses and between lines:
/// that the lines are a proof from the clauses, of N steps, or that the line N is wrong.
pub fn checked(alloc: Global, row: &Row) -> Result<bool, AllocError> {
    let input = input_clauses(alloc, row.text(1))?;
    let mut lines = Vec::new(alloc);
    for text in Row::split(alloc, row.text(2), ';')?.words() {
        if !text.is_empty() {
            let line = line(alloc, input.as_slice(), lines.as_slice(), text.as_str())?;
            lines.push(line)?;
        }
    }
    if lines.len() > u32::MAX as usize {
        return Ok(false);
    }
    match check(alloc, input.as_slice(), lines.as_slice()) {
        Ok(proof) => Ok(row.text(4) == "accepted" && proof.steps == row.number(3)),
        Err(CheckError::Fault(fault)) => is_fault(alloc, &fault, row),
        Err(CheckError::Memory) => Ok(false),
    }
}
