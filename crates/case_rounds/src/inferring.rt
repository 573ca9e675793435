//! All resolution conclusions of two clauses.
ghost use Rattle.std.specs.Prelude.{◌≡◌, ℕ, [], ◌++◌, ◌∷◌, length, OnOk, IfOk, IfErr};
ghost use Rattle.spl_terms.specs.declared.clause.Part.{Part};
ghost use Rattle.spl_terms.specs.Clauses.{part_of};
ghost use Rattle.proof_steps.specs.Steps.{ground_resolve};
ghost use Rattle.case_rounds.specs.Rounds.{Infers, AreInferences, HasAt, HasAll, IsStopOf};

use crate::halt::Halt;
use case_view::Kept;
use proof_steps::{Line, Rule, Statement, Step, resolve_statements};
use spl_terms::{Clause, Items, Part, PushError};
use spl_truth::Subst;
use std::alloc::{AllocError, Global};

/// Two literals: that of the succedent of a first clause, and one of the other parts of a second clause, with places from 0.
#[derive(Clone, Copy, Debug)]
pub struct LiteralPair {
    i: u32,
    part: Part,
    j: u32,
}

/// The step that resolves two lines without variables.
fn ground_resolve(alloc: Global, at: LiteralPair, m: u32, n: u32) -> Result<Step, AllocError>
    ensures { IfOk result (λ s. s ≡ ground_resolve at.i at.part at.j m n) }
{
    Ok(Step {
        rule: Rule::Resolve {
            i: at.i,
            part: at.part,
            j: at.j,
            s: Subst {
                terms: Items::new(alloc),
            },
            t: Subst {
                terms: Items::new(alloc),
            },
        },
        parents: Items::from_slice(alloc, &[m, n])?,
    })
}

/// How many atoms the part has; more than a number of 32 bits are answered as want of memory.
fn count_of(clause: &Clause, part: Part) -> Result<u32, AllocError>
    ensures { IfOk result (λ count. count ≡ length (part_of clause.now part)) }
{
    let count = clause.part(part).len();
    if count > u32::MAX as usize {
        return Err(AllocError);
    }
    Ok(count as u32)
}

/// Adds the line that states the conclusion at these places.
fn push_line(
    alloc: Global,
    p: &Kept,
    q: &Kept,
    at: LiteralPair,
    stated: Statement,
    lines: &mut Items<Line>,
) -> Result<(), AllocError>
    ensures { OnOk result (lines.new ≡ lines.old
        ++ record { step = ground_resolve at.i at.part at.j p.now.number q.now.number; stated = stated } ∷ []) }
{
    let step = ground_resolve(alloc, at, p.number, q.number)?;
    lines.push(Line { step, stated })?;
    Ok(())
}

/// Adds what resolution concludes at these places.
fn infer_at(
    alloc: Global,
    partner: u32,
    p: &Kept,
    q: &Kept,
    at: LiteralPair,
    lines: &mut Items<Line>,
) -> Result<(), Halt>
    ensures infers { OnOk result (Infers p.now q.now lines.old lines.new) }
    ensures has { OnOk result (HasAt lines.new p.now q.now at.i at.part at.j) }
    ensures stop { IfErr result (IsStopOf p.now q.now partner) }
{
    match resolve_statements(alloc, at.i, at.part, at.j, &p.stated, &q.stated) {
        Ok(Some(stated)) => {
            push_line(alloc, p, q, at, stated, lines)?;
            Ok(())
        }
        Ok(None) => Ok(()),
        Err(PushError::Big { symbols }) => Err(Halt::Big { partner, symbols }),
        Err(PushError::Memory) => Err(Halt::Memory),
    }
}

/// Adds what resolution concludes at the place `i` of the first clause and any place of the part of the second.
fn infer_row(
    alloc: Global,
    partner: u32,
    p: &Kept,
    q: &Kept,
    i: u32,
    part: Part,
    lines: &mut Items<Line>,
) -> Result<(), Halt>
    ensures infers { OnOk result (Infers p.now q.now lines.old lines.new) }
    ensures has { OnOk result ((j : ℕ) → HasAt lines.new p.now q.now i part j) }
    ensures stop { IfErr result (IsStopOf p.now q.now partner) }
{
    let count = count_of(&q.stated.clause, part)?;
    for j in 0..count {
        infer_at(alloc, partner, p, q, LiteralPair { i, part, j }, lines)?;
    }
    Ok(())
}

/// Adds what resolution concludes at the place `i` of the first clause and any place of the second.
fn infer_place(
    alloc: Global,
    partner: u32,
    p: &Kept,
    q: &Kept,
    i: u32,
    lines: &mut Items<Line>,
) -> Result<(), Halt>
    ensures infers { OnOk result (Infers p.now q.now lines.old lines.new) }
    ensures has { OnOk result ((part : Part) (j : ℕ) → HasAt lines.new p.now q.now i part j) }
    ensures stop { IfErr result (IsStopOf p.now q.now partner) }
{
    infer_row(alloc, partner, p, q, i, Part::Constraint, lines)?;
    infer_row(alloc, partner, p, q, i, Part::Antecedent, lines)?;
    Ok(())
}

/// All lines that resolution concludes from the succedent of the first clause and the second.
///
/// # Errors
///
/// `Big` with the number `partner` where one has more than 4,096 symbols.
pub fn inferences(alloc: Global, partner: u32, p: &Kept, q: &Kept) -> Result<Items<Line>, Halt>
    ensures are { IfOk result (λ lines. AreInferences p.now q.now lines) }
    ensures all { IfOk result (λ lines. HasAll lines p.now q.now) }
    ensures stop { IfErr result (IsStopOf p.now q.now partner) }
{
    let count = count_of(&p.stated.clause, Part::Succedent)?;
    let mut lines = Items::new(alloc);
    for i in 0..count {
        infer_place(alloc, partner, p, q, i, &mut lines)?;
    }
    Ok(lines)
}
