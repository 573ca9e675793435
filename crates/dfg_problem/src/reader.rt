//! Whole problems.

ghost use Rattle.std.specs.Prelude.{◌≡◌, ◌<◌, ◌≤◌, ◌^◌, length, Ok, IfOk};
ghost use Rattle.dfg_tokens.specs.Cursors.{tail};
ghost use Rattle.dfg_terms.specs.Reading.{Gives, mark_at};
ghost use Rattle.dfg_problem.specs.declared.problem.Problem.{Problem};
ghost use Rattle.dfg_problem.specs.Problems.{problem_at, problem};
ghost use Rattle.dfg_problem.specs.Grammar.{IsProblem};
ghost use Rattle.dfg_problem.specs.WellFormed.{AreWellFormed};

use crate::lists::lists;
use crate::problem::Problem;
use dfg_formulas::Text;
use dfg_lists::{description_list, problem_head, symbol_list};
use dfg_terms::{InputError, next_is_mark, place, unexpected};
use dfg_tokens::{Cursor, Mark};
use spl_symbols::Signature;
use spl_terms::Items;
use std::alloc::Global;

/// The `.` behind the last word, with nothing read past it.
#[tactic(auto, unfolding(dfg_terms::specs::Reading::mark_at))]
fn last_dot(tokens: &mut Cursor<'_>) -> Result<(), InputError>
    ensures { Gives (λ _. tail tokens.new) result (mark_at Mark.Dot tokens.old) }
{
    if next_is_mark(Mark::Dot, tokens) {
        Ok(())
    } else {
        Err(unexpected(tokens))
    }
}

/// The problem that the tokens of the bytes spell.
#[tactic(auto, unfolding(crate::specs::Problems::problem_at))]
fn problem_within(
    alloc: Global,
    bytes: &[u8],
    tokens: &mut Cursor<'_>,
) -> Result<Problem, InputError>
    ensures { Gives (λ p. p) result (problem_at bytes.now tokens.old) }
{
    problem_head(tokens)?;
    description_list(bytes, tokens)?;
    let mut signature = Signature::new(alloc);
    symbol_list(alloc, bytes, &mut signature, tokens)?;
    let mut entries = Items::new(alloc);
    let mut proofs = Items::new(alloc);
    let text = Text {
        bytes,
        symbols: &signature,
    };
    lists(alloc, &text, &mut entries, &mut proofs, tokens)?;
    let end_at = place(tokens);
    tokens.advance();
    last_dot(tokens)?;
    Ok(Problem {
        signature,
        entries,
        proofs,
        end_at,
    })
}

/// The problem that the bytes spell, or their first fault (SPASS Input Syntax 1.5, in the profile of `docs/input.md`).
///
/// The bytes are fewer than 2^32. The grammar stands apart from reading, as a relation between bytes and problems
/// (`IsProblem`): what is read is written by the bytes, and each problem that they write is read. So at most one is.
/// Nothing is read past the `.` of `end_problem.` An error is the first fault from left to right, or want of memory.
/// The formula of each entry is closed, its bindings have numbers of their own, and its symbols are declared.
#[tactic(auto, unfolding(crate::specs::Problems::problem))]
pub fn read_problem(alloc: Global, bytes: &[u8]) -> Result<Problem, InputError>
    requires { length bytes.now < 2 ^ 32 }
    ensures exact { Gives (λ p. p) result (problem bytes.now) }
    ensures written { IfOk result (λ p. IsProblem bytes.now p) }
    ensures every { (p : Problem) → IsProblem bytes.now p → Gives (λ q. q) result (Ok p) }
    ensures well_formed { IfOk result (λ p. AreWellFormed p.signature p.entries) }
    ensures few { IfOk result (λ p. length p.entries ≤ length bytes.now) }
{
    let mut tokens = Cursor::new(bytes);
    problem_within(alloc, bytes, &mut tokens)
}
