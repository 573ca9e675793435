//! Declarations of sorts.

ghost use Rattle.std.specs.Prelude.{◌≡◌, [], length};
ghost use Rattle.dfg_terms.specs.Reading.{Gives, adding, commas};
ghost use Rattle.dfg_problem.specs.Declarations.{sort_name_at, inclusion_at, sorts_behind, argument_sorts_at, declared_at};

use crate::build::{argument_sorts, inclusion};
use crate::keywords::{Keyword, next_is_keyword};
use dfg_formulas::{Text, sort_named, term_declaration};
use dfg_terms::{
    FaultKind, InputError, Place, Scope, check_arity, mark, name, next_is_mark, next_is_word,
    refused, symbol_named, unexpected,
};
use dfg_tokens::{Cursor, Mark, Word};
use formulas::Formula;
use spl_terms::{Items, Symbol};
use std::alloc::Global;

/// A sort, or a predicate of one argument.
#[tactic(auto, unfolding(crate::specs::Declarations::sort_name_at))]
fn sort_name(text: &Text<'_, '_>, tokens: &mut Cursor<'_>) -> Result<Symbol, InputError>
    ensures { Gives (λ s. (s, tokens.new)) result (sort_name_at text.now.bytes.now text.now.symbols.now tokens.old) }
{
    let name = name(tokens)?;
    sort_named(text, name)
}

/// `(S,T)`.
#[tactic(auto, unfolding(crate::specs::Declarations::inclusion_at))]
fn included(
    alloc: Global,
    text: &Text<'_, '_>,
    tokens: &mut Cursor<'_>,
) -> Result<Formula, InputError>
    ensures { Gives (λ f. (f, tokens.new)) result (inclusion_at text.now.bytes.now text.now.symbols.now tokens.old) }
{
    mark(Mark::OpenParenthesis, tokens)?;
    let sort = sort_name(text, tokens)?;
    mark(Mark::Comma, tokens)?;
    let wider = sort_name(text, tokens)?;
    mark(Mark::CloseParenthesis, tokens)?;
    Ok(inclusion(alloc, sort, wider)?)
}

/// Sorts with commas between them.
#[tactic(auto, using(dfg_terms::specs::RoundLaws::rounds))]
fn sort_names(
    alloc: Global,
    text: &Text<'_, '_>,
    tokens: &mut Cursor<'_>,
) -> Result<Items<Symbol>, InputError>
    ensures { Gives (λ sorts. (sorts, tokens.new)) result
        (commas (adding (sort_name_at text.now.bytes.now text.now.symbols.now))
        (length text.now.bytes.now) [] tokens.old) }
{
    let mut sorts = Items::new(alloc);
    for _ in 0..text.bytes.len() {
        let sort = sort_name(text, tokens)?;
        sorts.push(sort)?;
        if !next_is_mark(Mark::Comma, tokens) {
            return Ok(sorts);
        }
        tokens.advance();
    }
    Err(unexpected(tokens))
}

/// `,S1,..,Sn`, or nothing.
#[tactic(auto, unfolding(crate::specs::Declarations::sorts_behind))]
fn sorts_behind(
    alloc: Global,
    text: &Text<'_, '_>,
    tokens: &mut Cursor<'_>,
) -> Result<Items<Symbol>, InputError>
    ensures { Gives (λ sorts. (sorts, tokens.new)) result
        (sorts_behind text.now.bytes.now text.now.symbols.now tokens.old) }
{
    if next_is_mark(Mark::Comma, tokens) {
        tokens.advance();
        sort_names(alloc, text, tokens)
    } else {
        Ok(Items::new(alloc))
    }
}

/// `(P,S1,..,Sn)`.
#[tactic(auto, unfolding(crate::specs::Declarations::argument_sorts_at))]
fn sorted_arguments(
    alloc: Global,
    text: &Text<'_, '_>,
    tokens: &mut Cursor<'_>,
) -> Result<Formula, InputError>
    ensures { Gives (λ f. (f, tokens.new)) result
        (argument_sorts_at text.now.bytes.now text.now.symbols.now tokens.old) }
{
    mark(Mark::OpenParenthesis, tokens)?;
    let name = name(tokens)?;
    let found = symbol_named(text.bytes, text.symbols, Place::Atom, name)?;
    let sorts = sorts_behind(alloc, text, tokens)?;
    mark(Mark::CloseParenthesis, tokens)?;
    check_arity(name.at as usize, found, sorts.len())?;
    Ok(argument_sorts(alloc, found.symbol, sorts.as_slice())?)
}

/// A declaration without its `.`, and what it says; the end of the list and three words win over symbols of their
/// names.
#[tactic(auto, unfolding(crate::specs::Declarations::declared_at))]
pub fn declared(
    alloc: Global,
    text: &Text<'_, '_>,
    tokens: &mut Cursor<'_>,
) -> Result<Formula, InputError>
    ensures { Gives (λ f. (f, tokens.new)) result (declared_at text.now.bytes.now text.now.symbols.now tokens.old) }
{
    if next_is_word(Word::EndOfList, tokens) {
        Err(unexpected(tokens))
    } else if next_is_keyword(text.bytes, Keyword::Sort, tokens) {
        Err(refused(FaultKind::OutsideProfile, tokens))
    } else if next_is_keyword(text.bytes, Keyword::Subsort, tokens) {
        tokens.advance();
        included(alloc, text, tokens)
    } else if next_is_keyword(text.bytes, Keyword::Predicate, tokens) {
        tokens.advance();
        sorted_arguments(alloc, text, tokens)
    } else {
        let mut scope = Scope::new(alloc);
        let (formula, _) = term_declaration(alloc, text, &mut scope, 1000, 0, tokens)?;
        Ok(formula)
    }
}
