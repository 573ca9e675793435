//! Lists of clauses.

ghost use Rattle.std.specs.Prelude.{◌≡◌, ◌<◌, ◌++◌, [], ◌∷◌, length, OnOk, true};
ghost use Rattle.dfg_reader.specs.Reading.{Gives, place, items, listed};
ghost use Rattle.dfg_reader.specs.GroundClauses.{formula_clauses, clauses, are_within_limits};
ghost use Rattle.dfg_reader.specs.Clauses.{unsigned_at, literal_at, literals_at, body_at, within_limits, label_at, clause_at, origin_at, form_at, is_refused_list, clauses_head_at, list_at};

use crate::fault::{FaultKind, InputError};
use crate::formula::Formula;
use crate::ground_clauses::ReadClauses;
use crate::marks::{
    identifier, mark, next_is_mark, next_is_word, place, refused, tail, unexpected, word,
};
use crate::problem::{Entry, Role};
use crate::terms::atom;
use dfg_tokens::{Mark, Token, Word};
use spl_symbols::Signature;
use spl_terms::Items;
use sqlite_items::Boxed;
use std::alloc::Global;

/// `true`, `false` or an atom, whose arguments may nest so deep.
#[tactic(auto, unfolding(crate::specs::Clauses::unsigned_at))]
fn unsigned<'a>(
    alloc: Global,
    bytes: &[u8],
    symbols: &Signature,
    depth: u32,
    tokens: &'a [Token],
) -> Result<(Formula, &'a [Token]), InputError>
    ensures { Gives (λ x. (x.0, x.1.now)) result (unsigned_at bytes.now symbols.now depth tokens.now) }
{
    if next_is_word(Word::True, tokens) {
        Ok((Formula::True, tail(tokens)))
    } else if next_is_word(Word::False, tokens) {
        Ok((Formula::False, tail(tokens)))
    } else if next_is_word(Word::Equal, tokens) {
        Err(refused(FaultKind::OutsideProfile, tokens))
    } else {
        let (atom, rest) = atom(alloc, bytes, symbols, depth, tokens)?;
        Ok((Formula::Atom(atom), rest))
    }
}

/// One of these or its negation, under which the arguments nest one deeper.
#[tactic(auto, unfolding(crate::specs::Clauses::literal_at))]
fn literal<'a>(
    alloc: Global,
    bytes: &[u8],
    symbols: &Signature,
    depth: u32,
    tokens: &'a [Token],
) -> Result<(Formula, &'a [Token]), InputError>
    requires { 0 < depth }
    ensures { Gives (λ x. (x.0, x.1.now)) result (literal_at bytes.now symbols.now depth tokens.now) }
{
    if next_is_word(Word::Not, tokens) {
        let rest = mark(Mark::OpenParenthesis, tail(tokens))?;
        let (inner, rest) = unsigned(alloc, bytes, symbols, depth - 1, rest)?;
        let rest = mark(Mark::CloseParenthesis, rest)?;
        Ok((Formula::Not(Boxed::new(alloc, inner)?), rest))
    } else {
        unsigned(alloc, bytes, symbols, depth, tokens)
    }
}

/// Literals with commas between them.
#[tactic(auto, using(crate::proofs::Rounds::rounds))]
fn literals<'a>(
    alloc: Global,
    bytes: &[u8],
    symbols: &Signature,
    depth: u32,
    tokens: &'a [Token],
) -> Result<(Items<Formula>, &'a [Token]), InputError>
    requires { 0 < depth }
    ensures { Gives (λ x. (x.0, x.1.now)) result (literals_at bytes.now symbols.now depth tokens.now) }
{
    let mut literals = Items::new(alloc);
    let mut rest = tokens;
    for _ in 0..tokens.len() {
        let (next, after) = literal(alloc, bytes, symbols, depth, rest)?;
        literals.push(next)?;
        rest = after;
        if !next_is_mark(Mark::Comma, rest) {
            return Ok((literals, rest));
        }
        rest = tail(rest);
    }
    Err(unexpected(rest))
}

/// The literals of a clause.
#[tactic(auto, unfolding(crate::specs::Clauses::body_at))]
fn body<'a>(
    alloc: Global,
    bytes: &[u8],
    symbols: &Signature,
    tokens: &'a [Token],
) -> Result<(Formula, &'a [Token]), InputError>
    ensures { Gives (λ x. (x.0, x.1.now)) result (body_at bytes.now symbols.now tokens.now) }
{
    if next_is_word(Word::Forall, tokens) {
        Err(refused(FaultKind::OutsideProfile, tokens))
    } else if next_is_word(Word::Or, tokens) {
        let rest = mark(Mark::OpenParenthesis, tail(tokens))?;
        let (literals, rest) = literals(alloc, bytes, symbols, 998, rest)?;
        let rest = mark(Mark::CloseParenthesis, rest)?;
        Ok((Formula::Or(literals), rest))
    } else {
        literal(alloc, bytes, symbols, 999, tokens)
    }
}

/// The clause may follow those read so far: it isn't too large, and there aren't too many.
#[tactic(auto, unfolding(crate::specs::Clauses::within_limits))]
fn within_limits(
    alloc: Global,
    read: &ReadClauses,
    body: &Formula,
    tokens: &[Token],
) -> Result<(), InputError>
    ensures given { Gives (λ x. x) result (within_limits read.now (place tokens.now) body.now) }
    ensures room { OnOk result (are_within_limits (clauses read.now ++ formula_clauses body.now) ≡ true) }
{
    if read.may_take(alloc, body)? {
        Ok(())
    } else {
        Err(refused(FaultKind::OutsideProfile, tokens))
    }
}

/// A label, if there is one.
#[tactic(auto, unfolding(crate::specs::Clauses::label_at))]
fn label(tokens: &[Token]) -> Result<&[Token], InputError>
    ensures { Gives (λ rest. rest.now) result (label_at tokens.now) }
{
    if next_is_mark(Mark::Comma, tokens) {
        let (_, rest) = identifier(tail(tokens))?;
        Ok(rest)
    } else {
        Ok(tokens)
    }
}

/// One item, `clause(C).` or `clause(C,label).`
#[tactic(auto, unfolding(crate::specs::Clauses::clause_at))]
fn clause<'a>(
    alloc: Global,
    bytes: &[u8],
    symbols: &Signature,
    read: &mut ReadClauses,
    tokens: &'a [Token],
) -> Result<&'a [Token], InputError>
    ensures { Gives (λ rest. (read.new, rest.now)) result (clause_at bytes.now symbols.now read.old tokens.now) }
{
    let rest = word(Word::Clause, tokens)?;
    let rest = mark(Mark::OpenParenthesis, rest)?;
    let (formula, rest) = body(alloc, bytes, symbols, rest)?;
    within_limits(alloc, read, &formula, tokens)?;
    let rest = label(rest)?;
    let rest = mark(Mark::CloseParenthesis, rest)?;
    let rest = mark(Mark::Dot, rest)?;
    let at = place(tokens);
    read.push(formula, at)?;
    Ok(rest)
}

/// The origin of the clauses, which has no effect.
#[tactic(auto, unfolding(crate::specs::Clauses::origin_at))]
fn origin(tokens: &[Token]) -> Result<&[Token], InputError>
    ensures { Gives (λ rest. rest.now) result (origin_at tokens.now) }
{
    if next_is_word(Word::Axioms, tokens) || next_is_word(Word::Conjectures, tokens) {
        Ok(tail(tokens))
    } else {
        Err(unexpected(tokens))
    }
}

/// The form of the clauses.
#[tactic(auto, unfolding(crate::specs::Clauses::form_at))]
fn form(tokens: &[Token]) -> Result<&[Token], InputError>
    ensures { Gives (λ rest. rest.now) result (form_at tokens.now) }
{
    if next_is_word(Word::Dnf, tokens) {
        return Err(refused(FaultKind::OutsideProfile, tokens));
    }
    word(Word::Cnf, tokens)
}

/// Whether a list begins that isn't read.
fn is_refused_list(tokens: &[Token]) -> bool
    ensures { result ≡ is_refused_list tokens.now }
{
    next_is_word(Word::ListOfDeclarations, tokens)
        || next_is_word(Word::ListOfFormulae, tokens)
        || next_is_word(Word::ListOfProof, tokens)
        || next_is_word(Word::ListOfSettings, tokens)
        || next_is_word(Word::ListOfTerms, tokens)
        || next_is_word(Word::ListOfSpecialFormulae, tokens)
        || next_is_word(Word::ListOfIncludes, tokens)
}

/// The head of a list, `list_of_clauses(axioms,cnf).`
#[tactic(auto, unfolding(crate::specs::Clauses::clauses_head_at))]
fn clauses_head(tokens: &[Token]) -> Result<&[Token], InputError>
    ensures { Gives (λ rest. rest.now) result (clauses_head_at tokens.now) }
{
    let rest = word(Word::ListOfClauses, tokens)?;
    let rest = mark(Mark::OpenParenthesis, rest)?;
    let rest = origin(rest)?;
    let rest = mark(Mark::Comma, rest)?;
    let rest = form(rest)?;
    let rest = mark(Mark::CloseParenthesis, rest)?;
    mark(Mark::Dot, rest)
}

/// The items of a list of clauses, up to its end, which is left.
#[tactic(auto, using(crate::proofs::Rounds::rounds))]
fn clauses<'a>(
    alloc: Global,
    bytes: &[u8],
    symbols: &Signature,
    read: &mut ReadClauses,
    tokens: &'a [Token],
) -> Result<&'a [Token], InputError>
    ensures { Gives (λ rest. (read.new, rest.now)) result
        (items Word.EndOfList (clause_at bytes.now symbols.now) (length tokens.now) read.old tokens.now) }
{
    let mut rest = tokens;
    for _ in 0..tokens.len() {
        if next_is_word(Word::EndOfList, rest) {
            return Ok(rest);
        }
        rest = clause(alloc, bytes, symbols, read, rest)?;
    }
    Err(unexpected(rest))
}

/// One list.
#[tactic(auto, unfolding(crate::specs::Clauses::list_at, crate::specs::Reading::listed))]
fn list<'a>(
    alloc: Global,
    bytes: &[u8],
    symbols: &Signature,
    read: &mut ReadClauses,
    tokens: &'a [Token],
) -> Result<&'a [Token], InputError>
    ensures { Gives (λ rest. (read.new, rest.now)) result (list_at bytes.now symbols.now read.old tokens.now) }
{
    if is_refused_list(tokens) {
        return Err(refused(FaultKind::OutsideProfile, tokens));
    }
    let rest = clauses_head(tokens)?;
    let rest = clauses(alloc, bytes, symbols, read, rest)?;
    mark(Mark::Dot, tail(rest))
}

/// The lists of a problem, up to its end, which is left.
#[tactic(auto, using(crate::proofs::Rounds::rounds))]
pub fn lists<'a>(
    alloc: Global,
    bytes: &[u8],
    symbols: &Signature,
    read: &mut ReadClauses,
    tokens: &'a [Token],
) -> Result<&'a [Token], InputError>
    ensures { Gives (λ rest. (read.new, rest.now)) result
        (items Word.EndProblem (list_at bytes.now symbols.now) (length tokens.now) read.old tokens.now) }
{
    let mut rest = tokens;
    for _ in 0..tokens.len() {
        if next_is_word(Word::EndProblem, rest) {
            return Ok(rest);
        }
        rest = list(alloc, bytes, symbols, read, rest)?;
    }
    Err(unexpected(rest))
}
