//! Whole problems.

ghost use Rattle.std.specs.Prelude.{◌≡◌, ◌<◌, ◌^◌, length, Ok, IfOk};
ghost use Rattle.dfg_reader.specs.declared.problem.Problem.{Problem};
ghost use Rattle.dfg_reader.specs.Grammar.{IsWritten};
ghost use Rattle.dfg_reader.specs.OfSignature.{AreOfSignature};
ghost use Rattle.dfg_reader.specs.Reading.{Gives};
ghost use Rattle.dfg_reader.specs.GroundClauses.{clauses, HasLimits, AreInOrder};
ghost use Rattle.dfg_reader.specs.Written.{AreSpelledIn};
ghost use Rattle.dfg_reader.specs.Problems.{head_at, problem_at, problem};

use crate::clauses::lists;
use crate::descriptions::descriptions;
use crate::fault::InputError;
use crate::ground_clauses::ReadClauses;
use crate::marks::{identifier, mark, place, tail, word};
use crate::problem::Problem;
use crate::symbols::signature_list;
use dfg_tokens::{Mark, Token, Word, tokens_of};
use spl_symbols::Signature;
use spl_terms::Items;
use std::alloc::Global;

/// The head, `begin_problem(id).`
#[tactic(auto, unfolding(crate::specs::Problems::head_at))]
fn head(tokens: &[Token]) -> Result<&[Token], InputError>
    ensures { Gives (λ rest. rest.now) result (head_at tokens.now) }
{
    let rest = word(Word::BeginProblem, tokens)?;
    let rest = mark(Mark::OpenParenthesis, rest)?;
    let (_, rest) = identifier(rest)?;
    let rest = mark(Mark::CloseParenthesis, rest)?;
    mark(Mark::Dot, rest)
}

/// The problem that the tokens of the bytes spell.
#[tactic(auto, unfolding(crate::specs::Problems::problem_at))]
fn problem(alloc: Global, bytes: &[u8], tokens: &[Token]) -> Result<Problem, InputError>
    ensures given { Gives (λ p. p) result (problem_at bytes.now tokens.now) }
    ensures limits { IfOk result (λ p. HasLimits p.entries) }
{
    let rest = head(tokens)?;
    let rest = descriptions(rest)?;
    let mut symbols = Signature::new(alloc);
    let rest = signature_list(alloc, bytes, &mut symbols, rest)?;
    let mut read = ReadClauses::new(alloc);
    let rest = lists(alloc, bytes, &symbols, &mut read, rest)?;
    mark(Mark::Dot, tail(rest))?;
    Ok(Problem {
        signature: symbols,
        entries: read.into_entries(),
        proofs: Items::new(alloc),
        end_at: place(rest),
    })
}

/// The problem that the bytes spell, or their first fault (SPASS Input Syntax 1.5, in the profile of
/// `docs/grammar.md`).
///
/// The bytes are fewer than 2^32. The grammar stands apart from reading, as a relation between bytes and problems
/// (`IsWritten`): what is read is written by the bytes, and each problem that they write is read. So at most one is.
///
/// The problem's clauses are at most 65,536 and each has at most 4,096 symbols, as
/// [`clauses_of`](crate::clauses_of) asks; they are in order: without repeated atoms, and without variables. Each
/// symbol of an entry is of the signature, a function in terms and a predicate or sort in atoms, with its kind and its
/// number of arguments. From each entry's place on, the tokens are, byte for byte, those of the clause as it is
/// written. An error is the first fault from left to right, or want of memory.
#[tactic(auto, unfolding(crate::specs::Problems::problem))]
pub fn read_problem(alloc: Global, bytes: &[u8]) -> Result<Problem, InputError>
    requires { length bytes.now < 2 ^ 32 }
    ensures exact { Gives (λ p. p) result (problem bytes.now) }
    ensures written { IfOk result (λ p. IsWritten bytes.now p) }
    ensures every { (p : Problem) → IsWritten bytes.now p → Gives (λ q. q) result (Ok p) }
    ensures of_signature { IfOk result (λ p. AreOfSignature p.signature p.entries) }
    ensures limits { IfOk result (λ p. HasLimits p.entries) }
    ensures ordered { IfOk result (λ p. AreInOrder (clauses p.entries)) }
    ensures spelled { IfOk result (λ p. AreSpelledIn bytes.now p.signature p.entries) }
{
    let tokens = tokens_of(alloc, bytes)?;
    problem(alloc, bytes, tokens.as_slice())
}
