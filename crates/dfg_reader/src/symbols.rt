//! The list of symbols.

ghost use Rattle.std.specs.Prelude.{◌≡◌, ◌<◌, ◌≤◌, ◌^◌, ◌++◌, [], ◌∷◌, None, true, nat_le, length, OnOk, IfOk};
ghost use Rattle.dfg_tokens.specs.Names.{is_name};
ghost use Rattle.spl_symbols.specs.Symbols.{found};
ghost use Rattle.dfg_reader.specs.Reading.{Gives, commas, items, listed};
ghost use Rattle.dfg_reader.specs.Symbols.{new_name_at, arity_of, arity_at, open_entry, symbol_at, symbols_at, symbol_item_at, signature_at, is_refused_item};

use crate::declarations::declare;
use crate::fault::{FaultKind, InputError, Limit, ReadFault};
use crate::marks::{
    bytes_of, identifier, mark, name, next_is_mark, next_is_name, next_is_word, refused,
    spelled_name, tail, unexpected,
};
use dfg_tokens::{Mark, Token, Word, is_name};
use spl_symbols::Signature;
use spl_terms::{Kind, Symbol};
use std::alloc::Global;

/// A declared symbol with its number of arguments.
#[derive(Clone, Copy, Debug)]
pub struct Found {
    /// The symbol.
    pub symbol: Symbol,
    /// How many arguments it takes.
    pub arity: u32,
}

/// The name that the token spells, if it may be declared: it is new, and there is room for it.
#[tactic(auto, unfolding(crate::specs::Symbols::new_name_at))]
fn new_name<'a>(bytes: &'a [u8], symbols: &Signature, token: Token) -> Result<&'a str, InputError>
    ensures given { Gives (λ name. name.now) result (new_name_at bytes.now symbols.now token) }
    ensures new { IfOk result (λ name. found name.now symbols.now ≡ None) }
    ensures room { OnOk result (length symbols.now < 65536) }
    ensures named { IfOk result (λ name. is_name name.now ≡ true) }
{
    let name = spelled_name(bytes, token)?;
    if !is_name(name.as_bytes()) {
        return Err(InputError::Fault(ReadFault {
            at: token.at as usize,
            kind: FaultKind::Unexpected,
        }));
    }
    if symbols.find(name).is_some() {
        return Err(InputError::Fault(ReadFault {
            at: token.at as usize,
            kind: FaultKind::DeclaredTwice,
        }));
    }
    if symbols.count() >= 65536 {
        return Err(InputError::Fault(ReadFault {
            at: token.at as usize,
            kind: FaultKind::LimitReached(Limit::Symbols),
        }));
    }
    Ok(name)
}

/// The number that one to three digits spell.
#[tactic(auto, unfolding(crate::specs::Symbols::arity_of))]
fn arity_of(text: &[u8]) -> Option<u32>
    ensures { result ≡ arity_of text.now }
{
    if text.is_empty() || text.len() > 3 {
        return None;
    }
    let mut number: u32 = 0;
    for digit in text {
        if *digit < b'0' || *digit > b'9' {
            return None;
        }
        number = number * 10 + (*digit - b'0') as u32;
    }
    Some(number)
}

/// The number of arguments of an entry, as one to three digits spell it. The fault is Unexpected at its place.
#[tactic(auto, unfolding(crate::specs::Symbols::arity_at))]
pub fn arity<'a>(bytes: &[u8], tokens: &'a [Token]) -> Result<(u32, &'a [Token]), InputError>
    ensures { Gives (λ x. (x.0, x.1.now)) result (arity_at bytes.now tokens.now) }
{
    let (number, rest) = identifier(tokens)?;
    match arity_of(bytes_of(bytes, number)) {
        Some(arity) => Ok((arity, rest)),
        None => Err(unexpected(tokens)),
    }
}

/// The parenthesis of an entry; a name alone is outside the profile.
#[tactic(auto, unfolding(crate::specs::Symbols::open_entry))]
pub fn open(tokens: &[Token]) -> Result<&[Token], InputError>
    ensures { Gives (λ rest. rest.now) result (open_entry tokens.now) }
{
    if next_is_name(tokens) {
        return Err(refused(FaultKind::OutsideProfile, tokens));
    }
    mark(Mark::OpenParenthesis, tokens)
}

/// One entry, `(name,arity)`.
#[tactic(auto, unfolding(crate::specs::Symbols::symbol_at))]
fn symbol<'a>(
    alloc: Global,
    bytes: &[u8],
    kind: Kind,
    symbols: &mut Signature,
    tokens: &'a [Token],
) -> Result<&'a [Token], InputError>
    ensures { Gives (λ rest. (symbols.new, rest.now)) result (symbol_at bytes.now kind symbols.old tokens.now) }
{
    let rest = open(tokens)?;
    let (token, rest) = name(rest)?;
    let name = new_name(bytes, symbols, token)?;
    let rest = mark(Mark::Comma, rest)?;
    let (arity, rest) = arity(bytes, rest)?;
    if arity > 255 {
        return Err(InputError::Fault(ReadFault {
            at: token.at as usize,
            kind: FaultKind::LimitReached(Limit::Arity),
        }));
    }
    let rest = mark(Mark::CloseParenthesis, rest)?;
    declare(symbols, alloc, name, arity, kind)?;
    Ok(rest)
}

/// Entries with commas between them.
#[tactic(auto, using(crate::proofs::Rounds::rounds))]
fn entries<'a>(
    alloc: Global,
    bytes: &[u8],
    kind: Kind,
    symbols: &mut Signature,
    tokens: &'a [Token],
) -> Result<&'a [Token], InputError>
    ensures { Gives (λ rest. (symbols.new, rest.now)) result
        (commas (symbol_at bytes.now kind) (length tokens.now) symbols.old tokens.now) }
{
    let mut rest = tokens;
    for _ in 0..tokens.len() {
        rest = symbol(alloc, bytes, kind, symbols, rest)?;
        if !next_is_mark(Mark::Comma, rest) {
            return Ok(rest);
        }
        rest = tail(rest);
    }
    Err(unexpected(rest))
}

/// A list of entries, `[(name,arity),..].`
#[tactic(auto, unfolding(crate::specs::Symbols::symbols_at))]
fn symbol_list<'a>(
    alloc: Global,
    bytes: &[u8],
    kind: Kind,
    symbols: &mut Signature,
    tokens: &'a [Token],
) -> Result<&'a [Token], InputError>
    ensures { Gives (λ rest. (symbols.new, rest.now)) result (symbols_at bytes.now kind symbols.old tokens.now) }
{
    let rest = mark(Mark::OpenBracket, tokens)?;
    let rest = entries(alloc, bytes, kind, symbols, rest)?;
    let rest = mark(Mark::CloseBracket, rest)?;
    mark(Mark::Dot, rest)
}

/// Whether an item begins that isn't read.
fn is_refused_item(tokens: &[Token]) -> bool
    ensures { result ≡ is_refused_item tokens.now }
{
    next_is_word(Word::Operators, tokens)
        || next_is_word(Word::Quantifiers, tokens)
        || next_is_word(Word::Translpairs, tokens)
        || next_is_word(Word::Sorts, tokens)
}

/// One item: functions or predicates.
#[tactic(auto, unfolding(crate::specs::Symbols::symbol_item_at))]
fn symbol_item<'a>(
    alloc: Global,
    bytes: &[u8],
    symbols: &mut Signature,
    tokens: &'a [Token],
) -> Result<&'a [Token], InputError>
    ensures { Gives (λ rest. (symbols.new, rest.now)) result (symbol_item_at bytes.now symbols.old tokens.now) }
{
    if is_refused_item(tokens) {
        Err(refused(FaultKind::OutsideProfile, tokens))
    } else if next_is_word(Word::Functions, tokens) {
        symbol_list(alloc, bytes, Kind::Function, symbols, tail(tokens))
    } else if next_is_word(Word::Predicates, tokens) {
        symbol_list(alloc, bytes, Kind::Predicate, symbols, tail(tokens))
    } else {
        Err(unexpected(tokens))
    }
}

/// The items of a list of symbols, up to its end, which is left.
#[tactic(auto, using(crate::proofs::Rounds::rounds))]
fn symbol_items<'a>(
    alloc: Global,
    bytes: &[u8],
    symbols: &mut Signature,
    tokens: &'a [Token],
) -> Result<&'a [Token], InputError>
    ensures { Gives (λ rest. (symbols.new, rest.now)) result
        (items Word.EndOfList (symbol_item_at bytes.now) (length tokens.now) symbols.old tokens.now) }
{
    let mut rest = tokens;
    for _ in 0..tokens.len() {
        if next_is_word(Word::EndOfList, rest) {
            return Ok(rest);
        }
        rest = symbol_item(alloc, bytes, symbols, rest)?;
    }
    Err(unexpected(rest))
}

/// The list of symbols, if there is one.
#[tactic(auto, unfolding(crate::specs::Symbols::signature_at, crate::specs::Reading::listed))]
pub fn signature_list<'a>(
    alloc: Global,
    bytes: &[u8],
    symbols: &mut Signature,
    tokens: &'a [Token],
) -> Result<&'a [Token], InputError>
    ensures { Gives (λ rest. (symbols.new, rest.now)) result (signature_at bytes.now symbols.old tokens.now) }
{
    if next_is_word(Word::ListOfSymbols, tokens) {
        let rest = mark(Mark::Dot, tail(tokens))?;
        let rest = symbol_items(alloc, bytes, symbols, rest)?;
        mark(Mark::Dot, tail(rest))
    } else {
        Ok(tokens)
    }
}
