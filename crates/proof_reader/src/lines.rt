//! The lines of a proof list.

ghost use Rattle.std.specs.Prelude.{◌≡◌, ◌+◌, ◌==◌, ◌<◌, ◌≤◌, ◌^◌, [], length};
ghost use Rattle.dfg_tokens.specs.declared.word.Word.TheVariants as words;
ghost use Rattle.dfg_terms.specs.Reading.{Gives, items};
ghost use Rattle.proof_reader.specs.ProofLists.{parent_count, more_numbers, parents_at, this_number, step_at, number_at, closing_at, line_at, head_at, proof_at, moved_error, proof};

use crate::dependencies::dependencies;
use crate::lists::clause;
use crate::pairs::{RuleName, rule};
use crate::spellings::{rule_name, spelled};
use dfg_formulas::Text;
use dfg_terms::{InputError, ReadFault, mark, next_is_word, numeral, unexpected, word};
use dfg_tokens::{Cursor, Mark, Word};
use proof_steps::{Line, Statement, Step};
use spl_symbols::Signature;
use spl_terms::Items;
use std::alloc::{AllocError, Global};

/// How many parents a rule has.
fn parent_count(name: RuleName) -> u32
    ensures { result ≡ parent_count name }
{
    match name {
        RuleName::Input => 0,
        RuleName::Factor | RuleName::Reflex | RuleName::EqFactor | RuleName::Assume => 1,
        RuleName::Resolve | RuleName::Paramodulate | RuleName::CaseLeft | RuleName::CaseRight => 2,
        RuleName::CaseBoth => 3,
    }
}

/// Reads so many more numbers, each with a comma before it.
#[tactic(auto, unfolding(crate::specs::ProofLists::more_numbers))]
fn more_numbers(
    bytes: &[u8],
    count: u32,
    numbers: &mut Items<u32>,
    tokens: &mut Cursor<'_>,
) -> Result<(), InputError>
    ensures { Gives (λ _. (numbers.new, tokens.new)) result (more_numbers bytes.now count numbers.old tokens.old) }
{
    if count == 0 {
        return Ok(());
    }
    mark(Mark::Comma, tokens)?;
    let number = numeral(bytes, tokens)?;
    numbers.push(number)?;
    more_numbers(bytes, count - 1, numbers, tokens)
}

/// So many numbers in brackets.
#[tactic(auto, unfolding(crate::specs::ProofLists::parents_at))]
fn parents(
    alloc: Global,
    bytes: &[u8],
    count: u32,
    tokens: &mut Cursor<'_>,
) -> Result<Items<u32>, InputError>
    ensures { Gives (λ x. (x, tokens.new)) result (parents_at bytes.now count tokens.old) }
{
    mark(Mark::OpenBracket, tokens)?;
    let mut numbers = Items::with_room(alloc, count as usize)?;
    if count > 0 {
        let first = numeral(bytes, tokens)?;
        numbers.push(first)?;
        more_numbers(bytes, count - 1, &mut numbers, tokens)?;
    }
    mark(Mark::CloseBracket, tokens)?;
    Ok(numbers)
}

/// The rule with its parents.
#[tactic(auto, unfolding(crate::specs::ProofLists::step_at))]
fn step<'t>(alloc: Global, text: &Text<'t, 't>, tokens: &mut Cursor<'_>) -> Result<Step, InputError>
    ensures { Gives (λ x. (x, tokens.new)) result (step_at text.now.bytes.now text.now.symbols.now tokens.old) }
{
    let name = rule_name(text.bytes, tokens)?;
    mark(Mark::Comma, tokens)?;
    let parents = parents(alloc, text.bytes, parent_count(name), tokens)?;
    mark(Mark::Comma, tokens)?;
    mark(Mark::OpenBracket, tokens)?;
    let rule = rule(alloc, text, name, tokens)?;
    Ok(Step { rule, parents })
}

/// Whether the number is the next one behind so many.
fn is_next(number: u32, count: usize) -> bool
    ensures { result ≡ (number == count + 1) }
{
    number != 0 && count == (number - 1) as usize
}

/// `step(N,`, where N is the next number behind so many.
#[tactic(auto, unfolding(crate::specs::ProofLists::number_at, crate::specs::ProofLists::this_number))]
fn next_number(bytes: &[u8], count: usize, tokens: &mut Cursor<'_>) -> Result<(), InputError>
    ensures { Gives (λ _. tokens.new) result (number_at bytes.now (count + 1) tokens.old) }
{
    spelled(bytes, b"step", tokens)?;
    mark(Mark::OpenParenthesis, tokens)?;
    let fault = unexpected(tokens);
    let number = numeral(bytes, tokens)?;
    if !is_next(number, count) {
        return Err(fault);
    }
    mark(Mark::Comma, tokens)
}

/// `]).`
#[tactic(auto, unfolding(crate::specs::ProofLists::closing_at))]
fn closing(tokens: &mut Cursor<'_>) -> Result<(), InputError>
    ensures { Gives (λ _. tokens.new) result (closing_at tokens.old) }
{
    mark(Mark::CloseBracket, tokens)?;
    mark(Mark::CloseParenthesis, tokens)?;
    mark(Mark::Dot, tokens)
}

/// Reads one more line, with the next number.
#[tactic(auto, unfolding(crate::specs::ProofLists::line_at))]
fn line<'t>(
    alloc: Global,
    text: &Text<'t, 't>,
    lines: &mut Items<Line>,
    tokens: &mut Cursor<'_>,
) -> Result<(), InputError>
    ensures { Gives (λ _. (lines.new, tokens.new)) result
        (line_at text.now.bytes.now text.now.symbols.now lines.old tokens.old) }
{
    next_number(text.bytes, lines.len(), tokens)?;
    let clause = clause(alloc, text, tokens)?;
    mark(Mark::Comma, tokens)?;
    let step = step(alloc, text, tokens)?;
    let deps = dependencies(alloc, text.bytes, tokens)?;
    closing(tokens)?;
    lines.push(Line {
        step,
        stated: Statement { clause, deps },
    })?;
    Ok(())
}

/// `list_of_proof(spl).`
#[tactic(auto, unfolding(crate::specs::ProofLists::head_at))]
fn head(bytes: &[u8], tokens: &mut Cursor<'_>) -> Result<(), InputError>
    ensures { Gives (λ _. tokens.new) result (head_at bytes.now tokens.old) }
{
    word(Word::ListOfProof, tokens)?;
    mark(Mark::OpenParenthesis, tokens)?;
    spelled(bytes, b"spl", tokens)?;
    mark(Mark::CloseParenthesis, tokens)?;
    mark(Mark::Dot, tokens)
}

/// The lines, up to the word that ends them, which is left.
#[tactic(auto, using(dfg_terms::specs::RoundLaws::rounds))]
fn lines<'t>(
    alloc: Global,
    text: &Text<'t, 't>,
    tokens: &mut Cursor<'_>,
) -> Result<Items<Line>, InputError>
    ensures { Gives (λ x. (x, tokens.new)) result
        (items words.EndOfList (line_at text.now.bytes.now text.now.symbols.now) (length text.now.bytes.now) [] tokens.old) }
{
    let mut lines = Items::new(alloc);
    for _ in 0..text.bytes.len() {
        if next_is_word(Word::EndOfList, tokens) {
            return Ok(lines);
        }
        line(alloc, text, &mut lines, tokens)?;
    }
    Err(unexpected(tokens))
}

/// The proof list that the tokens spell.
#[tactic(auto, unfolding(crate::specs::ProofLists::proof_at))]
fn proof_within<'t>(
    alloc: Global,
    text: &Text<'t, 't>,
    tokens: &mut Cursor<'_>,
) -> Result<Items<Line>, InputError>
    ensures { Gives (λ x. x) result (proof_at text.now.bytes.now text.now.symbols.now tokens.old) }
{
    head(text.bytes, tokens)?;
    let lines = lines(alloc, text, tokens)?;
    tokens.advance();
    mark(Mark::Dot, tokens)?;
    Ok(lines)
}

/// The error with its place counted from so much further.
fn moved(at: usize, error: InputError) -> InputError
    ensures { result ≡ moved_error at error }
{
    match error {
        InputError::Memory => InputError::Memory,
        InputError::Fault(fault) => InputError::Fault(ReadFault {
            at: at.saturating_add(fault.at),
            kind: fault.kind,
        }),
    }
}

/// The lines of the proof list at this offset of the bytes, or its first fault, with its place in the bytes.
///
/// Symbols are those of the signature, and variables are `?` and a number. Numbers have no leading zeros and are at most
/// 4,294,967,295. Atoms stand as they are written, repeated ones too; a rule has its own number of parents, and the
/// dependencies of a line ascend. Nothing is read past the `.` of `end_of_list.` An error is the first fault from left to
/// right, or want of memory; a term or an atom that nests deeper than 1,000 is a fault.
#[tactic(auto, unfolding(crate::specs::ProofLists::proof), using(crate::proofs::Moved::fails_moved))]
pub fn read_proof<'t>(
    alloc: Global,
    bytes: &'t [u8],
    at: usize,
    signature: &'t Signature,
) -> Result<Vec<Line>, InputError>
    requires within { at ≤ length bytes.now }
    requires few { length bytes.now < 2 ^ 32 }
    ensures { Gives (λ lines. lines.items) result (proof bytes.now at signature.now) }
{
    let (_, rest) = bytes.split_at(at);
    let text = Text {
        bytes: rest,
        symbols: signature,
    };
    match proof_within(alloc, &text, &mut Cursor::new(rest)) {
        Ok(lines) => Ok(lines.into_vec()),
        Err(error) => Err(moved(at, error)),
    }
}
