//! The top call: what comes of words and of a problem's bytes.
ghost use Rattle.std.specs.Prelude.{◌≡◌, ◌≢◌, ◌⊎◌, ℕ, ◌<◌, ◌≤◌, ◌^◌, [], List, map, length, None, Ok, Err, IfOk, IfSome, IsSomeAnd, MatchResult};
ghost use Rattle.std.specs.String.{string_bytes};
ghost use Rattle.outside_io.specs.Outside.{Rose, CamePast, count_after};
ghost use Rattle.dfg_reader.specs.declared.fault.ReadFault.{ReadFault as Fault};
ghost use Rattle.prover_top.specs.Words.{limits_of};
ghost use Rattle.prover_top.specs.Answers.{reported_status};
ghost use Rattle.dfg_reader.specs.declared.problem.Problem.{Problem};
ghost use Rattle.dfg_reader.specs.Problems.{problem};
ghost use Rattle.dfg_reader.specs.GroundClauses.{clauses, HasLimits};
ghost use Rattle.prover_top.specs.Endings.{IsContradicted, IsComplete, IsSpent, IsFull, IsOversized};
ghost use Rattle.prover_top.specs.Outcomes.{call_of, IsRefused, IsFresh, IsStarted, IsEnded, answer_of, most_bytes};
ghost use Rattle.prover_top.specs.Reports.{HasTable, HasProof, IsRead, IsAnswerWritten, IsFinished, IsOutcome, IsUnlessMemory, IsOfProving, IsTold};

use crate::answers::Answer;
use crate::delivering::deliver;
use crate::proving::{Decided, without_table, work};
use crate::words::limits_of;
use case_journal::Limits;
use dfg_reader::{InputError, Problem, clauses_of, read_problem};
use outside_io::{ReadError, Sink, Source, read_all};
use spl_symbols::Signature;
use split_tree::Table;
use std::alloc::Global;

/// The most bytes that are read.
const MOST_BYTES: usize = 16_777_216;

/// What came of a call.
#[derive(Debug, Drop)]
pub struct Report {
    /// The exit status: that of the answer, or 7 where a write failed by a fault.
    pub status: u8,
    pub answer: Answer,
    /// Whether a write failed by a fault.
    pub write_failed: bool,
    /// The journal of what was done, where proving was begun.
    pub table: Option<Table>,
}

/// What stands before proving: a table, or the answer of a call that makes none; and the symbols of the problem.
struct Begun {
    start: Result<Table, Answer>,
    signature: Signature,
}

fn refused(alloc: Global, answer: Answer) -> Begun
    ensures { result.start ≡ Err answer }
{
    Begun {
        start: Err(answer),
        signature: Signature::new(alloc),
    }
}

/// The table of the clauses of a problem.
fn fresh(alloc: Global, problem: &Problem, limits: Limits) -> Result<Table, Answer>
    requires entries { HasLimits problem.now.entries }
    ensures fresh { MatchResult result (IsFresh limits (clauses problem.now.entries))
        (λ answer. answer ≡ Answer.Memory) }
{
    let Ok(input) = clauses_of(alloc, problem) else {
        return Err(Answer::Memory);
    };
    match Table::start(alloc, input.as_slice(), limits, 1) {
        Ok(table) => Ok(table),
        Err(_) => Err(Answer::Memory),
    }
}

fn solve(alloc: Global, problem: Problem, limits: Limits) -> Begun
    requires entries { HasLimits problem.entries }
    ensures fresh { MatchResult result.start (IsFresh limits (clauses problem.entries))
        (λ answer. answer ≡ Answer.Memory) }
    ensures signature { result.signature ≡ problem.signature }
{
    let start = fresh(alloc, &problem, limits);
    Begun {
        start,
        signature: problem.signature,
    }
}

fn read(alloc: Global, bytes: &[u8], limits: Limits) -> Begun
    requires few { length bytes.now ≤ most_bytes }
    ensures read { IsRead limits bytes.now result.signature result.start }
{
    match read_problem(alloc, bytes) {
        Ok(problem) => solve(alloc, problem, limits),
        Err(InputError::Fault(fault)) => refused(alloc, Answer::Input(fault)),
        Err(InputError::Memory) => refused(alloc, Answer::Memory),
    }
}

/// Looks at the words and reads the problem; its table is the last that is made.
#[tactic(auto, using(crate::proofs::Causes::start_laws))]
fn begin<S: Source>(alloc: Global, words: &[String], source: &mut S) -> Begun
    ensures started { IsStarted (call_of S.left S.faults (map string_bytes words.now) source.old source.new)
        result.signature result.start }
    ensures unread { limits_of (map string_bytes words.now) ≡ None → source.new ≡ source.old }
{
    let Some(limits) = limits_of(words) else {
        return refused(alloc, Answer::Words);
    };
    match read_all(alloc, source, MOST_BYTES) {
        Ok(bytes) => read(alloc, bytes.as_slice(), limits),
        Err(ReadError::Fault) => refused(alloc, Answer::ReadFault),
        Err(ReadError::TooLong { .. }) => refused(alloc, Answer::TooLong),
        Err(ReadError::Memory) => refused(alloc, Answer::Memory),
    }
}

/// Proves where there is a table.
fn ended(alloc: Global, start: Result<Table, Answer>) -> Decided
    requires fresh { IfOk start (λ t. (t.past ≡ []) × (t.setting.workers ≡ 1)) }
    ensures ended { IsEnded start result.table result.proof result.answer }
    ensures short { length result.proof < 2 ^ 32 }
{
    match start {
        Ok(table) => work(alloc, table),
        Err(answer) => without_table(alloc, answer),
    }
}

/// Writes the text of what was decided. The table is in the report, also where there is no memory for the text.
fn announce<K: Sink>(alloc: Global, sink: &mut K, signature: &Signature, decided: Decided) -> Report
    requires short { length decided.proof < 2 ^ 32 }
    ensures status { result.status ≡ reported_status result.write_failed result.answer }
    ensures table { result.table ≡ decided.table }
    ensures written { IsAnswerWritten signature.now decided.proof decided.answer
        result.answer result.write_failed (K.written sink.old) (K.written sink.new) }
    ensures counted { K.faults sink.new ≡ count_after result.write_failed (K.faults sink.old) }
{
    let Decided {
        answer,
        table,
        proof,
    } = decided;
    let delivery = deliver(alloc, sink, signature, proof.as_slice(), answer);
    Report {
        status: delivery.status(),
        answer: delivery.reported,
        write_failed: delivery.failed,
        table,
    }
}

/// From the table on: it is in the report, whatever the answer.
fn finish<K: Sink>(alloc: Global, sink: &mut K, begun: Begun) -> Report
    requires fresh { IfOk begun.start (λ t. (t.past ≡ []) × (t.setting.workers ≡ 1)) }
    ensures status { result.status ≡ reported_status result.write_failed result.answer }
    ensures finished { IsFinished begun.start begun.signature
        result.table result.answer result.write_failed (K.written sink.old) (K.written sink.new) }
    ensures counted { K.faults sink.new ≡ count_after result.write_failed (K.faults sink.old) }
{
    let Begun { start, signature } = begun;
    let decided = ended(alloc, start);
    announce(alloc, sink, &signature, decided)
}

/// `run_alone` as one clause, of which its clauses are consequences.
#[tactic(auto, using(crate::proofs::Causes::outcome_laws))]
fn respond<S: Source, K: Sink>(
    alloc: Global,
    words: &[String],
    source: &mut S,
    sink: &mut K,
) -> Report
    ensures status { result.status ≡ reported_status result.write_failed result.answer }
    ensures outcome { IsOutcome (call_of S.left S.faults (map string_bytes words.now) source.old source.new)
        result.table result.answer result.write_failed (K.written sink.old) (K.written sink.new) }
    ensures unread { limits_of (map string_bytes words.now) ≡ None → source.new ≡ source.old }
    ensures write_failed { K.faults sink.new ≡ count_after result.write_failed (K.faults sink.old) }
{
    let begun = begin(alloc, words, source);
    finish(alloc, sink, begun)
}

/// Does what the words say: reads a problem from the source, proves it, and writes the answer to the sink.
///
/// The words are `prove`, then `--rounds` with 0 to 1,000,000 (10,000 where it isn't given), `--steps` with 1 to
/// 1,000,000 (100,000), `--splits` with 0 to 10,000 (1,000) and `--workers` with 1, each at most once. At most
/// 16,777,217 bytes are read, and none where the words don't fit; the text of the answer is built whole before the first
/// write. The order of refusals is words, reading (a fault, then too long), grammar, proving, writing. Want of memory
/// may come at each stage and is the one answer without a cause; each other one has its cause in a clause here.
pub fn run_alone<S: Source, K: Sink>(
    alloc: Global,
    words: &[String],
    source: &mut S,
    sink: &mut K,
) -> Report
    ensures status { result.status ≡ reported_status result.write_failed result.answer }

    // The table: where it comes from, and the answer that its journal gives.
    ensures table { IfSome result.table (λ t.
        HasTable (map string_bytes words.now) (S.left source.old) (S.left source.new) t) }
    ensures answer { IfSome result.table (λ t. IsUnlessMemory (answer_of t) result.answer) }

    // A proof exactly where a contradiction ended proving, and what it shows.
    ensures proof { result.answer ≡ Answer.ProofFound → IsSomeAnd result.table HasProof }
    ensures proof_always { IfSome result.table (λ t.
        IsContradicted t → IsUnlessMemory Answer.ProofFound result.answer) }

    // Why proving ended otherwise.
    ensures completion { (node kept put_off : ℕ) → result.answer ≡ Answer.Completion node kept put_off
        → IsSomeAnd result.table (IsComplete node kept put_off) }
    ensures rounds { (count : ℕ) → result.answer ≡ Answer.Rounds count → IsSomeAnd result.table (IsSpent count) }
    ensures steps { (limit : ℕ) → result.answer ≡ Answer.Steps limit → IsSomeAnd result.table (IsFull limit) }
    ensures size { (symbols : ℕ) → result.answer ≡ Answer.Size symbols → IsSomeAnd result.table (IsOversized symbols) }

    // Refusals.
    ensures words { result.answer ≡ Answer.Words → limits_of (map string_bytes words.now) ≡ None }
    ensures words_always { limits_of (map string_bytes words.now) ≡ None → IsUnlessMemory Answer.Words result.answer }
    ensures unread { limits_of (map string_bytes words.now) ≡ None → source.new ≡ source.old }
    ensures fault { result.answer ≡ Answer.ReadFault → Rose (S.faults source.old) (S.faults source.new) }
    ensures fault_always { S.faults source.new ≢ S.faults source.old → IsUnlessMemory Answer.ReadFault result.answer }
    ensures too_long { result.answer ≡ Answer.TooLong → CamePast (S.left source.old) (S.left source.new) most_bytes }
    ensures input { (fault : Fault) → result.answer ≡ Answer.Input fault
        → IsRefused (S.left source.old) (S.left source.new) fault }

    // Where the source tells its bytes and no read fails.
    ensures too_long_always { (bytes : List ℕ)
        → IsTold (call_of S.left S.faults (map string_bytes words.now) source.old source.new) bytes
        → most_bytes < length bytes → IsUnlessMemory Answer.TooLong result.answer }
    ensures input_always { (bytes : List ℕ) (fault : Fault)
        → IsTold (call_of S.left S.faults (map string_bytes words.now) source.old source.new) bytes
        → length bytes ≤ most_bytes → problem bytes ≡ Err fault → IsUnlessMemory (Answer.Input fault) result.answer }
    ensures complete { (bytes : List ℕ) (read : Problem)
        → IsTold (call_of S.left S.faults (map string_bytes words.now) source.old source.new) bytes
        → length bytes ≤ most_bytes → problem bytes ≡ Ok read → IsOfProving result.answer }

    // What was written, and the counts of faults.
    ensures outcome { IsOutcome (call_of S.left S.faults (map string_bytes words.now) source.old source.new)
        result.table result.answer result.write_failed (K.written sink.old) (K.written sink.new) }
    ensures write_failed { K.faults sink.new ≡ count_after result.write_failed (K.faults sink.old) }
    ensures read_count { (S.faults source.new ≡ S.faults source.old)
        ⊎ Rose (S.faults source.old) (S.faults source.new) }
{
    respond(alloc, words, source, sink)
}
