//! Terms and atoms.

ghost use Rattle.std.specs.Prelude.{◌≡◌, [], length, IfOk, OnOk};
ghost use Rattle.dfg_terms.specs.Reading.{Gives, commas};
ghost use Rattle.dfg_terms.specs.Grammar.{IsTermIn, IsAtomIn, EachIsRead};
ghost use Rattle.dfg_terms.specs.Terms.{leaf_of, too_deep, allows_equation, kept, keeping, arguments_at, application_at, sides_at, term_in, atom_in};

use crate::fault::{FaultKind, InputError, Limit};
use crate::marks::{mark, name, next_is_mark, next_is_word, refused, unexpected};
use crate::symbols::{Place, check_arity, symbol_named};
use crate::variables::Context;
use dfg_tokens::{Cursor, Mark, Word};
use spl_terms::{Atom, Items, Symbol, Term};
use std::alloc::{AllocError, Global};

/// Nesting goes no deeper than here.
#[tactic(auto, unfolding(crate::specs::Terms::too_deep))]
fn too_deep(context: &Context<'_, '_>, tokens: &mut Cursor<'_>) -> Result<Term, InputError>
    ensures { Gives (λ t. (t, tokens.new)) result (too_deep (leaf_of context.now.bytes.now context.now.variables) tokens.old) }
{
    if context.variables.term_begins(context.bytes, tokens) {
        Err(refused(FaultKind::LimitReached(Limit::Depth), tokens))
    } else {
        Err(unexpected(tokens))
    }
}

/// A term that may nest so deep.
#[cycle(term)]
#[tactic(auto, unfolding(crate::specs::Terms::term_at))]
fn term_within(
    alloc: Global,
    context: &Context<'_, '_>,
    depth: u32,
    tokens: &mut Cursor<'_>,
) -> Result<Term, InputError>
    ensures { Gives (λ t. (t, tokens.new)) result (term_in context.now depth tokens.old) }
{
    if depth == 0 {
        return too_deep(context, tokens);
    }
    match context.variables.variable(context.bytes, tokens)? {
        Some(number) => Ok(Term::Var(number)),
        None => {
            let (symbol, args) = application(alloc, context, Place::Term, depth - 1, tokens)?;
            Ok(Term::App(symbol, args))
        }
    }
}

/// A symbol with its arguments, which may nest so deep.
#[cycle(term)]
#[tactic(auto, unfolding(crate::specs::Terms::application_at))]
fn application(
    alloc: Global,
    context: &Context<'_, '_>,
    place: Place,
    depth: u32,
    tokens: &mut Cursor<'_>,
) -> Result<(Symbol, Items<Term>), InputError>
    ensures { Gives (λ x. (x.0, x.1, tokens.new)) result
        (application_at context.now.bytes.now context.now.symbols.now place (term_in context.now depth) tokens.old) }
{
    let name = name(tokens)?;
    let found = symbol_named(context.bytes, context.symbols, place, name)?;
    let (args, count) = arguments(alloc, context, depth, found.arity, tokens)?;
    check_arity(name.at as usize, found, count)?;
    Ok((found.symbol, args))
}

/// The arguments in parentheses, if there are any, with how many they are; no more are kept than are declared.
#[cycle(term)]
#[tactic(auto, unfolding(crate::specs::Terms::arguments_at))]
fn arguments(
    alloc: Global,
    context: &Context<'_, '_>,
    depth: u32,
    declared: u32,
    tokens: &mut Cursor<'_>,
) -> Result<(Items<Term>, usize), InputError>
    ensures { Gives (λ x. ((x.0, x.1), tokens.new)) result
        (arguments_at (length context.now.bytes.now) declared (term_in context.now depth) tokens.old) }
{
    if !next_is_mark(Mark::OpenParenthesis, tokens) {
        return Ok((Items::new(alloc), 0));
    }
    tokens.advance();
    let (args, count) = terms(alloc, context, depth, declared, tokens)?;
    mark(Mark::CloseParenthesis, tokens)?;
    Ok((args, count))
}

/// Adds the term, if more are declared.
fn keep(terms: &mut Items<Term>, declared: u32, next: Term) -> Result<(), AllocError>
    ensures { OnOk result (terms.new ≡ kept declared terms.old next) }
{
    if terms.len() < declared as usize {
        terms.push(next)?;
    }
    Ok(())
}

/// Terms with commas between them, with how many they are; no more are kept than are declared.
#[cycle(term)]
#[tactic(auto, using(crate::specs::RoundLaws::rounds))]
fn terms(
    alloc: Global,
    context: &Context<'_, '_>,
    depth: u32,
    declared: u32,
    tokens: &mut Cursor<'_>,
) -> Result<(Items<Term>, usize), InputError>
    ensures { Gives (λ x. ((x.0, x.1), tokens.new)) result
        (commas (keeping declared (term_in context.now depth)) (length context.now.bytes.now) ([], 0) tokens.old) }
{
    let mut terms = Items::with_room(alloc, declared as usize)?;
    for i in 0..context.bytes.len() {
        let next = term_within(alloc, context, depth, tokens)?;
        keep(&mut terms, declared, next)?;
        if !next_is_mark(Mark::Comma, tokens) {
            return Ok((terms, i + 1));
        }
        tokens.advance();
    }
    Err(unexpected(tokens))
}

/// The sides of an equation, behind its word; their terms may nest so deep.
#[tactic(auto, unfolding(crate::specs::Terms::sides_at))]
fn sides(
    alloc: Global,
    context: &Context<'_, '_>,
    depth: u32,
    tokens: &mut Cursor<'_>,
) -> Result<Atom, InputError>
    ensures { Gives (λ a. (a, tokens.new)) result (sides_at (term_in context.now depth) tokens.old) }
{
    mark(Mark::OpenParenthesis, tokens)?;
    let left = term_within(alloc, context, depth, tokens)?;
    mark(Mark::Comma, tokens)?;
    let right = term_within(alloc, context, depth, tokens)?;
    mark(Mark::CloseParenthesis, tokens)?;
    Ok(Atom::Equal(left, right))
}

/// Whether an equation may stand in this place.
fn allows_equation(place: Place) -> bool
    ensures { result ≡ allows_equation place }
{
    match place {
        Place::Atom | Place::Antecedent => true,
        Place::Term | Place::Constraint => false,
    }
}

/// An atom in its place, whose terms may nest so deep.
#[tactic(auto, unfolding(crate::specs::Terms::atom_with))]
fn atom_within(
    alloc: Global,
    context: &Context<'_, '_>,
    place: Place,
    depth: u32,
    tokens: &mut Cursor<'_>,
) -> Result<Atom, InputError>
    ensures { Gives (λ a. (a, tokens.new)) result (atom_in context.now place depth tokens.old) }
{
    if next_is_word(Word::Equal, tokens) {
        if !allows_equation(place) {
            return Err(unexpected(tokens));
        }
        tokens.advance();
        return sides(alloc, context, depth, tokens);
    }
    let (symbol, args) = application(alloc, context, place, depth, tokens)?;
    Ok(Atom::Holds(symbol, args))
}

/// A term that may nest so deep, or the first fault; a term without arguments has depth 1.
///
/// The grammar stands apart from reading, as a relation between tokens and terms (`IsTermIn`): what is read is written by
/// the tokens, and each term that they write, with no parenthesis behind it, is read. The tokens are no more than the
/// bytes of the text. An error is the first fault from left to right, or want of memory.
pub fn term(
    alloc: Global,
    context: &Context<'_, '_>,
    depth: u32,
    tokens: &mut Cursor<'_>,
) -> Result<Term, InputError>
    ensures exact { Gives (λ t. (t, tokens.new)) result (term_in context.now depth tokens.old) }
    ensures written { IfOk result (λ t. IsTermIn context.now depth t tokens.old tokens.new) }
    ensures every { EachIsRead context.now.bytes.now (IsTermIn context.now depth) result tokens.old tokens.new }
{
    context.symbols.names_are_identifiers();
    term_within(alloc, context, depth, tokens)
}

/// An atom in its place, whose terms may nest so deep, or the first fault.
///
/// What is read is written by the tokens (`IsAtomIn`), and each atom that they write, with no parenthesis behind it, is
/// read. The tokens are no more than the bytes of the text. An error is the first fault from left to right, or want of
/// memory.
pub fn atom(
    alloc: Global,
    context: &Context<'_, '_>,
    place: Place,
    depth: u32,
    tokens: &mut Cursor<'_>,
) -> Result<Atom, InputError>
    ensures exact { Gives (λ a. (a, tokens.new)) result (atom_in context.now place depth tokens.old) }
    ensures written { IfOk result (λ a. IsAtomIn context.now place depth a tokens.old tokens.new) }
    ensures every { EachIsRead context.now.bytes.now (IsAtomIn context.now place depth) result tokens.old tokens.new }
{
    context.symbols.names_are_identifiers();
    atom_within(alloc, context, place, depth, tokens)
}
