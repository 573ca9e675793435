//! The assumptions that a line depends on.

ghost use Rattle.std.specs.Prelude.{◌≡◌, [], length, IfOk};
ghost use Rattle.dep_sets.specs.Assumptions.{is_before, IsAscending};
ghost use Rattle.dfg_terms.specs.Reading.{Gives, commas};
ghost use Rattle.proof_reader.specs.ProofLists.{may_follow, assumption_at, adding_assumption, deps_at};

use crate::spellings::{label, stray};
use dep_sets::{Assumption, Deps};
use dfg_terms::{InputError, mark, next_is_mark, numeral, unexpected};
use dfg_tokens::{Cursor, Mark};
use spl_terms::Items;
use std::alloc::{AllocError, Global};

/// Whether the assumption stands before the other in the order by split and then by side.
fn is_before(a: Assumption, b: Assumption) -> bool
    ensures { result ≡ is_before a b }
{
    a.split < b.split || (a.split == b.split && a.side < b.side)
}

/// Whether the assumption may stand behind these: it is greater than the last.
fn may_follow(before: &[Assumption], next: Assumption) -> bool
    ensures { result ≡ may_follow before.now next }
{
    match before.last() {
        None => true,
        Some(last) => is_before(*last, next),
    }
}

/// `r-i`: the number of the clause that was split, and the side.
#[tactic(auto, unfolding(crate::specs::ProofLists::assumption_at))]
fn assumption(bytes: &[u8], tokens: &mut Cursor<'_>) -> Result<Assumption, InputError>
    ensures { Gives (λ x. (x, tokens.new)) result (assumption_at bytes.now tokens.old) }
{
    let split = numeral(bytes, tokens)?;
    stray(b'-', tokens)?;
    let side = numeral(bytes, tokens)?;
    Ok(Assumption { split, side })
}

/// Reads one more assumption, which must be greater than the last.
#[tactic(auto, unfolding(crate::specs::ProofLists::adding_assumption), using(crate::proofs::Ascending::ascending_push))]
fn add_assumption(
    bytes: &[u8],
    found: &mut Items<Assumption>,
    tokens: &mut Cursor<'_>,
) -> Result<(), InputError>
    requires { IsAscending found.old }
    ensures read { Gives (λ _. (found.new, tokens.new)) result (adding_assumption bytes.now found.old tokens.old) }
    ensures ascending { IsAscending found.new }
{
    let fault = unexpected(tokens);
    let next = assumption(bytes, tokens)?;
    if !may_follow(found.as_slice(), next) {
        return Err(fault);
    }
    found.push(next)?;
    Ok(())
}

/// Assumptions with commas between them, in ascending order.
#[tactic(auto, using(dfg_terms::specs::RoundLaws::rounds))]
fn with_commas(
    alloc: Global,
    bytes: &[u8],
    tokens: &mut Cursor<'_>,
) -> Result<Items<Assumption>, InputError>
    ensures read { Gives (λ x. (x, tokens.new)) result
        (commas (adding_assumption bytes.now) (length bytes.now) [] tokens.old) }
    ensures ascending { IfOk result (λ x. IsAscending x) }
{
    let mut found = Items::new(alloc);
    for _ in 0..bytes.len() {
        add_assumption(bytes, &mut found, tokens)?;
        if !next_is_mark(Mark::Comma, tokens) {
            return Ok(found);
        }
        tokens.advance();
    }
    Err(unexpected(tokens))
}

/// The set of assumptions that are in ascending order, in time that grows little faster than their number.
#[tactic(auto, using(crate::proofs::Ascending::halved))]
fn set_of(alloc: Global, found: &[Assumption]) -> Result<Deps, AllocError>
    requires { IsAscending found.now }
    ensures { IfOk result (λ deps. deps ≡ found.now) }
{
    match found {
        [] => Ok(Deps::none(alloc)),
        [only] => Deps::one(alloc, *only),
        _ => {
            let (left, right) = found.split_at(found.len() / 2);
            let left = set_of(alloc, left)?;
            let right = set_of(alloc, right)?;
            left.union(&right)
        }
    }
}

/// The assumptions that a line depends on, in ascending order.
#[tactic(auto, unfolding(crate::specs::ProofLists::deps_at))]
pub fn dependencies(
    alloc: Global,
    bytes: &[u8],
    tokens: &mut Cursor<'_>,
) -> Result<Deps, InputError>
    ensures { Gives (λ x. (x, tokens.new)) result (deps_at bytes.now tokens.old) }
{
    label(bytes, b"dep", tokens)?;
    mark(Mark::OpenBracket, tokens)?;
    if next_is_mark(Mark::CloseBracket, tokens) {
        tokens.advance();
        return Ok(Deps::none(alloc));
    }
    let found = with_commas(alloc, bytes, tokens)?;
    mark(Mark::CloseBracket, tokens)?;
    let deps = set_of(alloc, found.as_slice())?;
    Ok(deps)
}
