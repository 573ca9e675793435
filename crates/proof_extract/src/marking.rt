//! Which lines lead to a clause, and which numbers they get.
ghost use Rattle.std.specs.Prelude.{◌≡◌, ◌+◌, ◌∷◌, ◌<◌, ◌≤◌, ◌^◌, [], length, IfOk};
ghost use Rattle.case_journal.specs.Journal.{ledger, steps};
ghost use Rattle.proof_extract.specs.Extracting.{AreAncestors, marked_count};
ghost use Rattle.proof_extract.specs.Marking.{Marks, MarksParents, counts_from};

use spl_terms::Items;
use split_tree::Table;
use std::alloc::{AllocError, Global};

#[tactic(auto, using(crate::proofs::MarkLemmas::mark_laws))]
fn mark(marks: &mut Items<bool>, number: u32)
    ensures { Marks (number ∷ []) marks.old marks.new }
{
    if number > 0 && number as usize <= marks.len() {
        marks.set(number as usize - 1, true);
    }
}

#[tactic(auto, using(crate::proofs::MarkLemmas::mark_laws))]
fn mark_all(marks: &mut Items<bool>, numbers: &[u32])
    ensures { Marks numbers.now marks.old marks.new }
{
    match numbers {
        [] => {}
        [first, rest @ ..] => {
            mark(marks, *first);
            mark_all(marks, rest);
        }
    }
}

/// Marks the parents of the line with this number, if it is marked.
#[tactic(auto, using(crate::proofs::MarkLemmas::mark_laws))]
fn mark_parents(table: &Table, marks: &mut Items<bool>, number: u32)
    requires some { 1 ≤ number }
    requires there { number ≤ steps table.now.setting table.now.past }
    ensures { MarksParents (ledger table.now.setting table.now.past) number marks.old marks.new }
{
    if let Some(true) = marks.as_slice().get(number as usize - 1) {
        let line = table.line(number);
        mark_all(marks, line.step.parents.as_slice());
    }
}

/// The marks of the line with this number and of its ancestors: the line is marked, then each marked line's parents,
/// from the last line to the first.
pub(crate) fn ancestors(
    alloc: Global,
    table: &Table,
    clause: u32,
) -> Result<Items<bool>, AllocError>
    requires some { 1 ≤ clause }
    requires there { clause ≤ steps table.now.setting table.now.past }
    ensures { IfOk result (λ marks. AreAncestors (ledger table.now.setting table.now.past) clause marks) }
{
    table.laws();
    let mut marks = Items::from_vec(vec![in alloc; false; clause as usize]?);
    mark(&mut marks, clause);
    let mut number = clause;
    while number > 0 {
        mark_parents(table, &mut marks, number);
        number -= 1;
    }
    Ok(marks)
}

fn one_if(mark: bool) -> u32
    ensures { result ≡ marked_count (mark ∷ []) }
{
    if mark { 1 } else { 0 }
}

/// For each place how many marks are set up to it: the new number of a line that is marked there.
pub(crate) fn counts(alloc: Global, marks: &[bool]) -> Result<Vec<u32>, AllocError>
    requires { length marks.now < 2 ^ 32 }
    ensures { IfOk result (λ counts. counts.items ≡ counts_from 0 marks.now) }
{
    let mut counts = Vec::with_capacity(alloc, marks.len())?;
    let mut count = 0;
    for mark in marks {
        count += one_if(*mark);
        counts.push(count)?;
    }
    Ok(counts)
}
