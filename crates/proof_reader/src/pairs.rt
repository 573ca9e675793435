//! The pairs of a rule: a label, what it labels, and a comma.

ghost use Rattle.std.specs.Prelude.{◌≡◌, length, codes};
ghost use Rattle.dfg_terms.specs.Reading.{Gives};
ghost use Rattle.proof_reader.specs.Spellings.{number_pair, part_pair, direction_pair, side_at, side_pair, negated_at, negated_pair};
ghost use Rattle.proof_reader.specs.ProofLists.{subst_pair, path_pair, input_at, resolve_at, factor_at, spot_at, paramodulate_at, reflex_at, eq_factor_at, assume_at, pairs_at};

use crate::lists::{numbers, terms};
use crate::spellings::{direction, label, next_is_spelled, part};
use dfg_formulas::Text;
use dfg_terms::{InputError, mark, numeral, unexpected};
use dfg_tokens::{Cursor, Mark};
use proof_steps::Rule;
use spl_terms::{Items, Part, Spot};
use spl_truth::Subst;
use std::alloc::Global;

/// The name of a rule in a proof list.
#[derive(Clone, Copy, PartialEq, Eq, Debug)]
pub enum RuleName {
    /// `inp`, no parent.
    Input,
    /// `res`, two parents.
    Resolve,
    /// `fac`, one parent.
    Factor,
    /// `par`, two parents.
    Paramodulate,
    /// `ref`, one parent.
    Reflex,
    /// `eqf`, one parent.
    EqFactor,
    /// `asm`, one parent.
    Assume,
    /// `cal`, two parents.
    CaseLeft,
    /// `car`, two parents.
    CaseRight,
    /// `cab`, three parents.
    CaseBoth,
}

#[tactic(auto, unfolding(crate::specs::Spellings::number_pair))]
fn number_pair(bytes: &[u8], text: &[u8], tokens: &mut Cursor<'_>) -> Result<u32, InputError>
    ensures { Gives (λ x. (x, tokens.new)) result (number_pair bytes.now text.now tokens.old) }
{
    label(bytes, text, tokens)?;
    let number = numeral(bytes, tokens)?;
    mark(Mark::Comma, tokens)?;
    Ok(number)
}

#[tactic(auto, unfolding(crate::specs::Spellings::part_pair))]
fn part_pair(bytes: &[u8], any: bool, tokens: &mut Cursor<'_>) -> Result<Part, InputError>
    ensures { Gives (λ x. (x, tokens.new)) result (part_pair bytes.now any tokens.old) }
{
    label(bytes, b"part", tokens)?;
    let part = part(bytes, any, tokens)?;
    mark(Mark::Comma, tokens)?;
    Ok(part)
}

#[tactic(auto, unfolding(crate::specs::Spellings::direction_pair))]
fn direction_pair(bytes: &[u8], text: &[u8], tokens: &mut Cursor<'_>) -> Result<bool, InputError>
    ensures { Gives (λ x. (x, tokens.new)) result (direction_pair bytes.now text.now tokens.old) }
{
    label(bytes, text, tokens)?;
    let right_to_left = direction(bytes, tokens)?;
    mark(Mark::Comma, tokens)?;
    Ok(right_to_left)
}

#[tactic(auto, unfolding(crate::specs::Spellings::side_at))]
fn side(bytes: &[u8], tokens: &mut Cursor<'_>) -> Result<u32, InputError>
    ensures { Gives (λ x. (x, tokens.new)) result (side_at bytes.now tokens.old) }
{
    let fault = unexpected(tokens);
    let side = numeral(bytes, tokens)?;
    if side == 1 || side == 2 {
        Ok(side)
    } else {
        Err(fault)
    }
}

#[tactic(auto, unfolding(crate::specs::Spellings::side_pair))]
fn side_pair(bytes: &[u8], tokens: &mut Cursor<'_>) -> Result<u32, InputError>
    ensures { Gives (λ x. (x, tokens.new)) result (side_pair bytes.now tokens.old) }
{
    label(bytes, b"side", tokens)?;
    let side = side(bytes, tokens)?;
    mark(Mark::Comma, tokens)?;
    Ok(side)
}

#[tactic(auto, unfolding(crate::specs::Spellings::negated_at))]
fn negated(bytes: &[u8], tokens: &mut Cursor<'_>) -> Result<Option<u32>, InputError>
    ensures { Gives (λ x. (x, tokens.new)) result (negated_at bytes.now tokens.old) }
{
    if next_is_spelled(bytes, b"no", tokens) {
        tokens.advance();
        return Ok(None);
    }
    let number = numeral(bytes, tokens)?;
    Ok(Some(number))
}

#[tactic(auto, unfolding(crate::specs::Spellings::negated_pair))]
fn negated_pair(bytes: &[u8], tokens: &mut Cursor<'_>) -> Result<Option<u32>, InputError>
    ensures { Gives (λ x. (x, tokens.new)) result (negated_pair bytes.now tokens.old) }
{
    label(bytes, b"neg", tokens)?;
    let negated = negated(bytes, tokens)?;
    mark(Mark::Comma, tokens)?;
    Ok(negated)
}

#[tactic(auto, unfolding(crate::specs::ProofLists::subst_pair))]
fn subst_pair<'t>(
    alloc: Global,
    text: &Text<'t, 't>,
    name: &[u8],
    tokens: &mut Cursor<'_>,
) -> Result<Subst, InputError>
    ensures { Gives (λ x. (x, tokens.new)) result
        (subst_pair text.now.bytes.now text.now.symbols.now name.now tokens.old) }
{
    label(text.bytes, name, tokens)?;
    let terms = terms(alloc, text, tokens)?;
    mark(Mark::Comma, tokens)?;
    Ok(Subst { terms })
}

#[tactic(auto, unfolding(crate::specs::ProofLists::path_pair))]
fn path_pair(alloc: Global, bytes: &[u8], tokens: &mut Cursor<'_>) -> Result<Items<u32>, InputError>
    ensures { Gives (λ x. (x, tokens.new)) result (path_pair bytes.now tokens.old) }
{
    label(bytes, b"pos", tokens)?;
    let path = numbers(alloc, bytes, tokens)?;
    mark(Mark::Comma, tokens)?;
    Ok(path)
}

#[tactic(auto, unfolding(crate::specs::ProofLists::input_at))]
fn input(bytes: &[u8], tokens: &mut Cursor<'_>) -> Result<Rule, InputError>
    ensures { Gives (λ x. (x, tokens.new)) result (input_at bytes.now tokens.old) }
{
    let no = number_pair(bytes, b"no", tokens)?;
    Ok(Rule::Input { no })
}

#[tactic(auto, unfolding(crate::specs::ProofLists::resolve_at))]
fn resolve<'t>(
    alloc: Global,
    text: &Text<'t, 't>,
    tokens: &mut Cursor<'_>,
) -> Result<Rule, InputError>
    ensures { Gives (λ x. (x, tokens.new)) result (resolve_at text.now.bytes.now text.now.symbols.now tokens.old) }
{
    let i = number_pair(text.bytes, b"i", tokens)?;
    let part = part_pair(text.bytes, false, tokens)?;
    let j = number_pair(text.bytes, b"j", tokens)?;
    let s = subst_pair(alloc, text, b"s", tokens)?;
    let t = subst_pair(alloc, text, b"t", tokens)?;
    Ok(Rule::Resolve { i, part, j, s, t })
}

#[tactic(auto, unfolding(crate::specs::ProofLists::factor_at))]
fn factor<'t>(
    alloc: Global,
    text: &Text<'t, 't>,
    tokens: &mut Cursor<'_>,
) -> Result<Rule, InputError>
    ensures { Gives (λ x. (x, tokens.new)) result (factor_at text.now.bytes.now text.now.symbols.now tokens.old) }
{
    let s = subst_pair(alloc, text, b"s", tokens)?;
    Ok(Rule::Factor { s })
}

/// Where a term is replaced.
#[tactic(auto, unfolding(crate::specs::ProofLists::spot_at))]
fn spot(alloc: Global, bytes: &[u8], tokens: &mut Cursor<'_>) -> Result<Spot, InputError>
    ensures { Gives (λ x. (x, tokens.new)) result (spot_at bytes.now tokens.old) }
{
    let part = part_pair(bytes, true, tokens)?;
    let place = number_pair(bytes, b"j", tokens)?;
    let path = path_pair(alloc, bytes, tokens)?;
    Ok(Spot { part, place, path })
}

#[tactic(auto, unfolding(crate::specs::ProofLists::paramodulate_at))]
fn paramodulate<'t>(
    alloc: Global,
    text: &Text<'t, 't>,
    tokens: &mut Cursor<'_>,
) -> Result<Rule, InputError>
    ensures { Gives (λ x. (x, tokens.new)) result (paramodulate_at text.now.bytes.now text.now.symbols.now tokens.old) }
{
    let i = number_pair(text.bytes, b"i", tokens)?;
    let right_to_left = direction_pair(text.bytes, b"dir", tokens)?;
    let spot = spot(alloc, text.bytes, tokens)?;
    let s = subst_pair(alloc, text, b"s", tokens)?;
    let t = subst_pair(alloc, text, b"t", tokens)?;
    Ok(Rule::Paramodulate {
        i,
        right_to_left,
        spot,
        s,
        t,
    })
}

#[tactic(auto, unfolding(crate::specs::ProofLists::reflex_at))]
fn reflex<'t>(
    alloc: Global,
    text: &Text<'t, 't>,
    tokens: &mut Cursor<'_>,
) -> Result<Rule, InputError>
    ensures { Gives (λ x. (x, tokens.new)) result (reflex_at text.now.bytes.now text.now.symbols.now tokens.old) }
{
    let j = number_pair(text.bytes, b"j", tokens)?;
    let s = subst_pair(alloc, text, b"s", tokens)?;
    Ok(Rule::Reflex { j, s })
}

#[tactic(auto, unfolding(crate::specs::ProofLists::eq_factor_at))]
fn eq_factor<'t>(
    alloc: Global,
    text: &Text<'t, 't>,
    tokens: &mut Cursor<'_>,
) -> Result<Rule, InputError>
    ensures { Gives (λ x. (x, tokens.new)) result (eq_factor_at text.now.bytes.now text.now.symbols.now tokens.old) }
{
    let i = number_pair(text.bytes, b"i", tokens)?;
    let i_right = direction_pair(text.bytes, b"idir", tokens)?;
    let j = number_pair(text.bytes, b"j", tokens)?;
    let j_right = direction_pair(text.bytes, b"jdir", tokens)?;
    let s = subst_pair(alloc, text, b"s", tokens)?;
    Ok(Rule::EqFactor {
        i,
        i_right,
        j,
        j_right,
        s,
    })
}

#[tactic(auto, unfolding(crate::specs::ProofLists::assume_at))]
fn assume(bytes: &[u8], tokens: &mut Cursor<'_>) -> Result<Rule, InputError>
    ensures { Gives (λ x. (x, tokens.new)) result (assume_at bytes.now tokens.old) }
{
    let side = side_pair(bytes, tokens)?;
    let negated = negated_pair(bytes, tokens)?;
    Ok(Rule::Assume { side, negated })
}

/// The rule with this name, from the pairs that it has; each has a comma behind it.
#[tactic(auto, unfolding(crate::specs::ProofLists::pairs_at))]
pub fn rule<'t>(
    alloc: Global,
    text: &Text<'t, 't>,
    name: RuleName,
    tokens: &mut Cursor<'_>,
) -> Result<Rule, InputError>
    ensures { Gives (λ x. (x, tokens.new)) result (pairs_at text.now.bytes.now text.now.symbols.now name tokens.old) }
{
    match name {
        RuleName::Input => input(text.bytes, tokens),
        RuleName::Resolve => resolve(alloc, text, tokens),
        RuleName::Factor => factor(alloc, text, tokens),
        RuleName::Paramodulate => paramodulate(alloc, text, tokens),
        RuleName::Reflex => reflex(alloc, text, tokens),
        RuleName::EqFactor => eq_factor(alloc, text, tokens),
        RuleName::Assume => assume(text.bytes, tokens),
        RuleName::CaseLeft => Ok(Rule::CaseLeft),
        RuleName::CaseRight => Ok(Rule::CaseRight),
        RuleName::CaseBoth => Ok(Rule::CaseBoth),
    }
}
