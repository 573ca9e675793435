//! Terms and atoms.

ghost use Rattle.std.specs.Prelude.{◌≡◌, ◌++◌, ◌+◌, [], ◌∷◌, length};
ghost use Rattle.dfg_reader.specs.Reading.{Gives, commas};
ghost use Rattle.dfg_reader.specs.Terms.{fits_place, fitting, symbol_named, checked_arity, too_deep, terms_at, arguments_at, application_at, term_at, atom_at};

use crate::declarations::lookup;
use crate::fault::{FaultKind, InputError, Limit, ReadFault};
use crate::marks::{mark, name, next_is_mark, spelled_name, tail, unexpected};
use crate::symbols::Found;
use dfg_tokens::{Mark, Token};
use spl_symbols::Signature;
use spl_terms::{Atom, Items, Kind, Symbol, Term};
use std::alloc::Global;

/// Whether a symbol of this kind may stand in a term's place, or else in an atom's.
fn fits_place(in_term: bool, kind: Kind) -> bool
    ensures { result ≡ fits_place in_term kind }
{
    match kind {
        Kind::Function => in_term,
        Kind::Predicate | Kind::Sort => !in_term,
    }
}

/// The symbol, if there is one and it fits its place.
fn fitting(in_term: bool, at: usize, found: Option<Found>) -> Result<Found, InputError>
    ensures { Gives (λ x. x) result (fitting in_term at found) }
{
    match found {
        Some(found) if fits_place(in_term, found.symbol.kind) => Ok(found),
        _ => Err(InputError::Fault(ReadFault {
            at,
            kind: FaultKind::Undeclared,
        })),
    }
}

/// The symbol that the name stands for in its place.
#[tactic(auto, unfolding(crate::specs::Terms::symbol_named))]
fn symbol_named(
    bytes: &[u8],
    symbols: &Signature,
    in_term: bool,
    token: Token,
) -> Result<Found, InputError>
    ensures { Gives (λ x. x) result (symbol_named bytes.now symbols.now in_term token) }
{
    let name = spelled_name(bytes, token)?;
    fitting(in_term, token.at as usize, lookup(symbols, name))
}

/// The symbol has as many arguments as were read.
#[tactic(auto, unfolding(crate::specs::Terms::checked_arity))]
fn check_arity(at: usize, found: Found, count: usize) -> Result<(), InputError>
    ensures { Gives (λ x. x) result (checked_arity at found count) }
{
    if found.arity as usize == count {
        return Ok(());
    }
    Err(InputError::Fault(ReadFault {
        at,
        kind: FaultKind::Arity {
            declared: found.arity,
            found: count.min(4294967295) as u32,
        },
    }))
}

/// Nesting goes no deeper than here.
#[tactic(auto, unfolding(crate::specs::Terms::too_deep))]
fn too_deep(tokens: &[Token]) -> Result<(Term, &[Token]), InputError>
    ensures { Gives (λ x. (x.0, x.1.now)) result (too_deep tokens.now) }
{
    let (name, _) = name(tokens)?;
    Err(InputError::Fault(ReadFault {
        at: name.at as usize,
        kind: FaultKind::LimitReached(Limit::Depth),
    }))
}

/// A term that may nest so deep.
#[cycle(term)]
#[tactic(auto, unfolding(crate::specs::Terms::term_at))]
fn term<'a>(
    alloc: Global,
    bytes: &[u8],
    symbols: &Signature,
    depth: u32,
    tokens: &'a [Token],
) -> Result<(Term, &'a [Token]), InputError>
    ensures { Gives (λ x. (x.0, x.1.now)) result (term_at bytes.now symbols.now depth tokens.now) }
{
    if depth == 0 {
        return too_deep(tokens);
    }
    let (symbol, args, rest) = application(alloc, bytes, symbols, true, depth - 1, tokens)?;
    Ok((Term::App(symbol, args), rest))
}

/// A symbol with its arguments, which may nest so deep.
#[cycle(term)]
#[tactic(auto, unfolding(crate::specs::Terms::application_at))]
fn application<'a>(
    alloc: Global,
    bytes: &[u8],
    symbols: &Signature,
    in_term: bool,
    depth: u32,
    tokens: &'a [Token],
) -> Result<(Symbol, Items<Term>, &'a [Token]), InputError>
    ensures { Gives (λ x. (x.0, x.1, x.2.now)) result
        (application_at bytes.now symbols.now in_term (term_at bytes.now symbols.now depth) tokens.now) }
{
    let (name, rest) = name(tokens)?;
    let found = symbol_named(bytes, symbols, in_term, name)?;
    let (args, rest) = arguments(alloc, bytes, symbols, depth, found.arity, rest)?;
    check_arity(name.at as usize, found, args.len())?;
    Ok((found.symbol, args, rest))
}

/// The arguments in parentheses, if there are any; room is taken for as many as are declared.
#[cycle(term)]
#[tactic(auto, unfolding(crate::specs::Terms::arguments_at))]
fn arguments<'a>(
    alloc: Global,
    bytes: &[u8],
    symbols: &Signature,
    depth: u32,
    declared: u32,
    tokens: &'a [Token],
) -> Result<(Items<Term>, &'a [Token]), InputError>
    ensures { Gives (λ x. (x.0, x.1.now)) result (arguments_at (term_at bytes.now symbols.now depth) tokens.now) }
{
    if !next_is_mark(Mark::OpenParenthesis, tokens) {
        return Ok((Items::new(alloc), tokens));
    }
    let (args, rest) = terms(alloc, bytes, symbols, depth, declared, tail(tokens))?;
    let rest = mark(Mark::CloseParenthesis, rest)?;
    Ok((args, rest))
}

/// Terms with commas between them; room is taken for as many as are declared.
#[cycle(term)]
#[tactic(auto, using(crate::proofs::Rounds::rounds))]
fn terms<'a>(
    alloc: Global,
    bytes: &[u8],
    symbols: &Signature,
    depth: u32,
    declared: u32,
    tokens: &'a [Token],
) -> Result<(Items<Term>, &'a [Token]), InputError>
    ensures { Gives (λ x. (x.0, x.1.now)) result (terms_at (term_at bytes.now symbols.now depth) tokens.now) }
{
    let mut terms = Items::with_room(alloc, declared as usize)?;
    let mut rest = tokens;
    for _ in 0..tokens.len() {
        let (next, after) = term(alloc, bytes, symbols, depth, rest)?;
        terms.push(next)?;
        rest = after;
        if !next_is_mark(Mark::Comma, rest) {
            return Ok((terms, rest));
        }
        rest = tail(rest);
    }
    Err(unexpected(rest))
}

/// An atom whose arguments may nest so deep.
#[tactic(auto, unfolding(crate::specs::Terms::atom_at))]
pub fn atom<'a>(
    alloc: Global,
    bytes: &[u8],
    symbols: &Signature,
    depth: u32,
    tokens: &'a [Token],
) -> Result<(Atom, &'a [Token]), InputError>
    ensures { Gives (λ x. (x.0, x.1.now)) result (atom_at bytes.now symbols.now depth tokens.now) }
{
    let (symbol, args, rest) = application(alloc, bytes, symbols, false, depth, tokens)?;
    Ok((Atom::Holds(symbol, args), rest))
}
