//! Proving: a table, one worker's events, and what their journal says.
ghost use Rattle.std.specs.Prelude.{◌≡◌, ◌<◌, ◌≤◌, ◌^◌, [], length, IfOk, IfSome, IsSome, None, Some};
ghost use Rattle.spl_truth.specs.Truth.{Refuted};
ghost use Rattle.case_journal.specs.declared.event.End.TheVariants.{Proved};
ghost use Rattle.case_journal.specs.Journal.{ledger, nodes, steps};
ghost use Rattle.case_journal.specs.Ending.{reason};
ghost use Rattle.case_journal.specs.Legal.{IsLegalJournal};
ghost use Rattle.proof_extract.specs.Extracting.{IsProofOf};
ghost use Rattle.proof_extract.specs.Contradictions.{IsFirstContradiction};
ghost use Rattle.prover_top.specs.Endings.{kept_among, kept_count};
ghost use Rattle.prover_top.specs.Outcomes.{IsTableOf, IsProved, answer_of, IsAnswered, IsDecided};

use crate::answers::Answer;
use case_journal::End;
use case_turns::alone;
use proof_extract::{extract, first_contradiction};
use proof_steps::Line;
use spl_terms::Items;
use split_tree::Table;
use std::alloc::{AllocError, Global};

/// An answer, and the table and the proof behind it.
#[derive(Debug, Drop)]
pub struct Decided {
    pub answer: Answer,
    pub table: Option<Table>,
    /// The proof where the answer is one, else empty.
    pub proof: Items<Line>,
}

/// An answer without a table.
pub fn without_table(alloc: Global, answer: Answer) -> Decided
    ensures answer { result.answer ≡ answer }
    ensures table { result.table ≡ None }
    ensures proof { result.proof ≡ [] }
{
    Decided {
        answer,
        table: None,
        proof: Items::new(alloc),
    }
}

/// An answer of a table that gave no proof.
fn without_proof(alloc: Global, table: Table, answer: Answer) -> Decided
    ensures answer { result.answer ≡ answer }
    ensures table { result.table ≡ Some table }
    ensures proof { result.proof ≡ [] }
{
    Decided {
        answer,
        table: Some(table),
        proof: Items::new(alloc),
    }
}

// ---- proofs

/// The number of the first line that states a contradiction, from 1.
fn contradiction(table: &Table) -> u32
    requires { reason table.now.setting table.now.past ≡ Some Proved }
    ensures first { IsFirstContradiction (ledger table.now.setting table.now.past) result }
    ensures some { 1 ≤ result }
    ensures there { result ≤ steps table.now.setting table.now.past }
{
    table.journal_is_legal();
    match first_contradiction(table) {
        Some(number) => number,
        None => unreachable!(),
    }
}

/// The lines that lead to the first contradiction.
fn proof_in(alloc: Global, table: &Table) -> Result<Items<Line>, AllocError>
    requires proved { reason table.now.setting table.now.past ≡ Some Proved }
    ensures proved { IfOk result (λ proof. IsProved table.now proof) }
    ensures short { IfOk result (λ proof. length proof < 2 ^ 32) }
{
    let number = contradiction(table);
    let proof = extract(alloc, table, number)?;
    Ok(proof)
}

fn found(alloc: Global, table: Table) -> Decided
    requires { reason table.setting table.past ≡ Some Proved }
    ensures answered { IsAnswered table result.proof result.answer }
    ensures table { result.table ≡ Some table }
    ensures short { length result.proof < 2 ^ 32 }
{
    match proof_in(alloc, &table) {
        Ok(proof) => Decided {
            answer: Answer::ProofFound,
            table: Some(table),
            proof,
        },
        Err(_) => without_proof(alloc, table, Answer::Memory),
    }
}

// ---- other answers

/// How many clauses are kept at the node.
fn kept_count(table: &Table, node: u32) -> u32
    requires { node < nodes table.now.past }
    ensures { result ≡ kept_count table.now.setting table.now.past node }
{
    let mut count = 0;
    for k in 0..table.steps() {
        if table.kept(node, k + 1) {
            count += 1;
        }
    }
    count
}

/// The answer of a table for which proving has ended, for this reason.
fn answer_of(table: &Table, end: End) -> Answer
    requires legal { IsLegalJournal table.now.setting table.now.past }
    requires ended { reason table.now.setting table.now.past ≡ Some end }
    ensures { result ≡ answer_of table.now }
{
    match end {
        End::Proved => Answer::ProofFound,
        End::Completed { node } => Answer::Completion {
            node,
            kept: kept_count(table, node),
            put_off: 0,
        },
        End::Rounds => Answer::Rounds {
            count: table.limits().rounds,
        },
        End::Steps => Answer::Steps {
            limit: table.limits().steps,
        },
        End::Size { symbols } => Answer::Size { symbols },
        End::Memory => Answer::Memory,
    }
}

fn decide(alloc: Global, table: Table, end: End) -> Decided
    requires { reason table.setting table.past ≡ Some end }
    ensures answered { IsAnswered table result.proof result.answer }
    ensures table { result.table ≡ Some table }
    ensures legal { IsLegalJournal table.setting table.past }
    ensures short { length result.proof < 2 ^ 32 }
{
    table.journal_is_legal();
    match answer_of(&table, end) {
        Answer::ProofFound => found(alloc, table),
        answer => without_proof(alloc, table, answer),
    }
}

/// Proves with one worker until there is a reason to end, and says what came of it. The table comes back in each case,
/// also where memory runs out.
pub fn work(alloc: Global, mut table: Table) -> Decided
    requires begun { table.past ≡ [] }
    requires worker { table.setting.workers ≡ 1 }
    ensures decided { IsDecided table.setting.limits table.setting.input result.table result.proof result.answer }
    ensures short { length result.proof < 2 ^ 32 }
{
    let end = alone(alloc, &mut table);
    decide(alloc, table, end)
}
