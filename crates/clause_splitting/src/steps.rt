//! The steps of a Split, made of the clause's number and its parts alone: no table is read.
ghost use Rattle.std.specs.Prelude.{◌≡◌, ℕ, ◌<◌, ◌++◌, IfOk, OnOk, length, map, replicate, true, false, Some, if◌then◌else◌};
ghost use Rattle.spl_terms.specs.Clauses.{atoms_of};
ghost use Rattle.clause_parts.specs.Parts.{negated_atom};
ghost use Rattle.case_journal.specs.Legal.{negation_steps};
ghost use Rattle.clause_splitting.specs.Splitting.{assumption, AreAssumed, AreSplitLines, IsSplitEvent, IsNegationLine};

use case_journal::Event;
use clause_parts::{in_order, negation};
use dep_sets::{Assumption, Deps};
use proof_steps::{Line, Parts, Rule, Statement, Step};
use spl_terms::{Clause, Items};
use std::alloc::{AllocError, Global};

/// The line that assumes this clause on a side of the split of the clause with the number or, with a number `negated`,
/// as the negation of that atom of the left part.
fn assume_line(
    alloc: Global,
    clause: u32,
    side: u32,
    negated: Option<u32>,
    assumed: Clause,
) -> Result<Line, AllocError>
    ensures { IfOk result (λ line. line ≡ assumption clause side negated assumed) }
{
    Ok(Line {
        step: Step {
            rule: Rule::Assume { side, negated },
            parents: Items::from_slice(alloc, &[clause])?,
        },
        stated: Statement {
            clause: assumed,
            deps: Deps::one(
                alloc,
                Assumption {
                    split: clause,
                    side,
                },
            )?,
        },
    })
}

/// The line that assumes the negation of the atom with this number, from 0, of the left part.
fn negation_line(alloc: Global, clause: u32, number: u32, left: &Clause) -> Result<Line, AllocError>
    requires { number < length (atoms_of left.now) }
    ensures { IfOk result (IsNegationLine clause number left.now) }
{
    let atom = negation(alloc, number, left)?.unwrap();
    let assumed = in_order(alloc, atom)?;
    assume_line(alloc, clause, 2, Some(number), assumed)
}

/// The count as a number of 32 bits; more are answered as want of memory.
fn number_of(count: usize) -> Result<u32, AllocError>
    ensures { IfOk result (λ number. number ≡ count) }
{
    if count > u32::MAX as usize {
        return Err(AllocError);
    }
    Ok(count as u32)
}

/// How many atoms the clause has.
fn atom_count(clause: &Clause) -> usize
    ensures { result ≡ length (atoms_of clause.now) }
{
    let (constraint, antecedent, succedent) = (
        clause.constraint.as_slice(),
        clause.antecedent.as_slice(),
        clause.succedent.as_slice(),
    );
    constraint.len() + antecedent.len() + succedent.len()
}

/// How many negations are assumed: that of each atom of a left part without variables.
fn negation_count(parts: &Parts) -> Result<u32, AllocError>
    ensures { IfOk result (λ count. count
        ≡ (if parts.now.left_ground then length (atoms_of parts.now.left) else 0)) }
{
    if !parts.left_ground {
        return Ok(0);
    }
    number_of(atom_count(&parts.left))
}

/// Adds the lines that assume the negations of the first atoms of the left part.
fn add_negations(
    alloc: Global,
    clause: u32,
    parts: &Parts,
    count: u32,
    lines: &mut Items<Line>,
) -> Result<(), AllocError>
    requires there { (k : ℕ) → k < count → k < length (atoms_of parts.now.left) }
    requires ground { (k : ℕ) → k < count → parts.now.left_ground ≡ true }
    requires each { AreAssumed clause parts.now lines.old }
    ensures steps { OnOk result (map (λ l. l.step) lines.new
        ≡ map (λ l. l.step) lines.old ++ negation_steps clause 0 count) }
    ensures each { OnOk result (AreAssumed clause parts.now lines.new) }
{
    for number in 0..count {
        let line = negation_line(alloc, clause, number, &parts.left)?;
        lines.push(line)?;
    }
    Ok(())
}

/// The lines that a Split of the clause with the number adds to the ledger.
fn split_lines(alloc: Global, clause: u32, parts: &Parts) -> Result<Items<Line>, AllocError>
    ensures { IfOk result (AreSplitLines clause parts.now) }
{
    let count = negation_count(parts)?;
    let mut lines = Items::with_room(alloc, count as usize + 2)?;
    let left = assume_line(alloc, clause, 1, None, parts.left.copy(alloc)?)?;
    lines.push(left)?;
    let right = assume_line(alloc, clause, 2, None, parts.right.copy(alloc)?)?;
    lines.push(right)?;
    add_negations(alloc, clause, parts, count, &mut lines)?;
    Ok(lines)
}

/// That none of so many lines is put off.
fn none_put_off(alloc: Global, count: usize) -> Result<Items<bool>, AllocError>
    ensures { IfOk result (λ put_off. put_off ≡ replicate count false) }
{
    Ok(Items::from_vec(vec![in alloc; false; count]?))
}

/// The event that splits the clause with the number, whose parts these are, at the node: the left child of the node assumes
/// the left part of the clause; the right child assumes the right part and, where the left part has no variables, the
/// negation of each of its atoms (Weidenbach 2001, the section on splitting).
///
/// Nodes are numbered from 0, clauses from 1.
///
/// # Errors
///
/// Only where there is no memory.
pub fn split_event(
    alloc: Global,
    node: u32,
    clause: u32,
    parts: &Parts,
) -> Result<Event, AllocError>
    ensures { IfOk result (IsSplitEvent node clause parts.now) }
{
    let steps = split_lines(alloc, clause, parts)?;
    let put_off = none_put_off(alloc, steps.len())?;
    Ok(Event::Split {
        node,
        steps,
        put_off,
    })
}
