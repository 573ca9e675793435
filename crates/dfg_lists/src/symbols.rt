//! The list of symbols.

ghost use Rattle.std.specs.Prelude.{◌≡◌, ◌<◌, ◌++◌, [], ◌∷◌, None, true, length, OnOk, OnErr, IfOk};
ghost use Rattle.spl_terms.specs.declared.term.Kind.TheVariants.{Function, Predicate};
ghost use Rattle.dfg_tokens.specs.Names.{is_name};
ghost use Rattle.spl_symbols.specs.Symbols.{found};
ghost use Rattle.dfg_terms.specs.Reading.{Gives, commas, items};
ghost use Rattle.dfg_lists.specs.Lists.{new_name_at, open_entry, symbol_at, sort_at, bracketed, is_outside_item, symbol_item_at, signature_at};

use dfg_terms::{
    FaultKind, InputError, Limit, ReadFault, arity, mark, name, next_is_mark, next_is_name,
    next_is_word, refused, spelled_name, unexpected,
};
use dfg_tokens::{Cursor, Mark, Token, Word, is_name};
use spl_symbols::Signature;
use spl_terms::Kind;
use std::alloc::{AllocError, Global};

/// The name that the token spells, if it may be declared: it is new, and there is room for it.
#[tactic(auto, unfolding(crate::specs::Lists::new_name_at))]
fn new_name<'a>(bytes: &'a [u8], symbols: &Signature, token: Token) -> Result<&'a str, InputError>
    ensures given { Gives (λ name. name.now) result (new_name_at bytes.now symbols.now token) }
    ensures new { IfOk result (λ name. found name.now symbols.now ≡ None) }
    ensures room { OnOk result (length symbols.now < 65536) }
    ensures named { IfOk result (λ name. is_name name.now ≡ true) }
{
    let name = spelled_name(bytes, token)?;
    if !is_name(name.as_bytes()) {
        return Err(InputError::Fault(ReadFault {
            at: token.at as usize,
            kind: FaultKind::Unexpected,
        }));
    }
    if symbols.find(name).is_some() {
        return Err(InputError::Fault(ReadFault {
            at: token.at as usize,
            kind: FaultKind::DeclaredTwice,
        }));
    }
    if symbols.count() >= 65536 {
        return Err(InputError::Fault(ReadFault {
            at: token.at as usize,
            kind: FaultKind::LimitReached(Limit::Symbols),
        }));
    }
    Ok(name)
}

/// Declares an identifier that is no reserved word and is new, where there is room for it. An error is want of memory.
fn declare(
    symbols: &mut Signature,
    alloc: Global,
    name: &str,
    arity: u32,
    kind: Kind,
) -> Result<(), AllocError>
    requires named { is_name name.now ≡ true }
    requires new { found name.now symbols.old ≡ None }
    requires room { length symbols.old < 65536 }
    ensures ok { OnOk result (symbols.new ≡ symbols.old ++ record { name = name.now; arity = arity; kind = kind } ∷ []) }
    ensures err { OnErr result (symbols.new ≡ symbols.old) }
{
    match symbols.declare(alloc, name, arity, kind) {
        Ok(_) => Ok(()),
        Err(_) => Err(AllocError),
    }
}

/// The parenthesis of an entry; a name alone is outside the profile.
#[tactic(auto, unfolding(crate::specs::Lists::open_entry))]
fn open_entry(tokens: &mut Cursor<'_>) -> Result<(), InputError>
    ensures { Gives (λ _. tokens.new) result (open_entry tokens.old) }
{
    if next_is_name(tokens) {
        return Err(refused(FaultKind::OutsideProfile, tokens));
    }
    mark(Mark::OpenParenthesis, tokens)
}

/// One entry, `(name,arity)`.
#[tactic(auto, unfolding(crate::specs::Lists::symbol_at))]
fn symbol(
    alloc: Global,
    bytes: &[u8],
    kind: Kind,
    symbols: &mut Signature,
    tokens: &mut Cursor<'_>,
) -> Result<(), InputError>
    ensures { Gives (λ _. (symbols.new, tokens.new)) result (symbol_at bytes.now kind symbols.old tokens.old) }
{
    open_entry(tokens)?;
    let token = name(tokens)?;
    let name = new_name(bytes, symbols, token)?;
    mark(Mark::Comma, tokens)?;
    let arity = arity(bytes, tokens)?;
    if arity > 255 {
        return Err(InputError::Fault(ReadFault {
            at: token.at as usize,
            kind: FaultKind::LimitReached(Limit::Arity),
        }));
    }
    mark(Mark::CloseParenthesis, tokens)?;
    declare(symbols, alloc, name, arity, kind)?;
    Ok(())
}

/// One sort.
#[tactic(auto, unfolding(crate::specs::Lists::sort_at))]
fn sort(
    alloc: Global,
    bytes: &[u8],
    symbols: &mut Signature,
    tokens: &mut Cursor<'_>,
) -> Result<(), InputError>
    ensures { Gives (λ _. (symbols.new, tokens.new)) result (sort_at bytes.now symbols.old tokens.old) }
{
    let token = name(tokens)?;
    let name = new_name(bytes, symbols, token)?;
    declare(symbols, alloc, name, 1, Kind::Sort)?;
    Ok(())
}

/// Entries with commas between them.
#[tactic(auto, using(dfg_terms::specs::RoundLaws::rounds))]
fn entries(
    alloc: Global,
    bytes: &[u8],
    kind: Kind,
    symbols: &mut Signature,
    tokens: &mut Cursor<'_>,
) -> Result<(), InputError>
    ensures { Gives (λ _. (symbols.new, tokens.new)) result
        (commas (symbol_at bytes.now kind) (length bytes.now) symbols.old tokens.old) }
{
    for _ in 0..bytes.len() {
        symbol(alloc, bytes, kind, symbols, tokens)?;
        if !next_is_mark(Mark::Comma, tokens) {
            return Ok(());
        }
        tokens.advance();
    }
    Err(unexpected(tokens))
}

/// Sorts with commas between them.
#[tactic(auto, using(dfg_terms::specs::RoundLaws::rounds))]
fn sorts(
    alloc: Global,
    bytes: &[u8],
    symbols: &mut Signature,
    tokens: &mut Cursor<'_>,
) -> Result<(), InputError>
    ensures { Gives (λ _. (symbols.new, tokens.new)) result
        (commas (sort_at bytes.now) (length bytes.now) symbols.old tokens.old) }
{
    for _ in 0..bytes.len() {
        sort(alloc, bytes, symbols, tokens)?;
        if !next_is_mark(Mark::Comma, tokens) {
            return Ok(());
        }
        tokens.advance();
    }
    Err(unexpected(tokens))
}

/// `[(name,arity),..].`
#[tactic(auto, unfolding(crate::specs::Lists::bracketed))]
fn entry_list(
    alloc: Global,
    bytes: &[u8],
    kind: Kind,
    symbols: &mut Signature,
    tokens: &mut Cursor<'_>,
) -> Result<(), InputError>
    ensures { Gives (λ _. (symbols.new, tokens.new)) result
        (bracketed (symbol_at bytes.now kind) (length bytes.now) symbols.old tokens.old) }
{
    mark(Mark::OpenBracket, tokens)?;
    entries(alloc, bytes, kind, symbols, tokens)?;
    mark(Mark::CloseBracket, tokens)?;
    mark(Mark::Dot, tokens)?;
    Ok(())
}

/// `[S,..].`
#[tactic(auto, unfolding(crate::specs::Lists::bracketed))]
fn sort_list(
    alloc: Global,
    bytes: &[u8],
    symbols: &mut Signature,
    tokens: &mut Cursor<'_>,
) -> Result<(), InputError>
    ensures { Gives (λ _. (symbols.new, tokens.new)) result
        (bracketed (sort_at bytes.now) (length bytes.now) symbols.old tokens.old) }
{
    mark(Mark::OpenBracket, tokens)?;
    sorts(alloc, bytes, symbols, tokens)?;
    mark(Mark::CloseBracket, tokens)?;
    mark(Mark::Dot, tokens)?;
    Ok(())
}

/// Whether an item begins that is outside the profile.
fn is_outside_item(tokens: &Cursor<'_>) -> bool
    ensures { result ≡ is_outside_item tokens.now }
{
    next_is_word(Word::Operators, tokens)
        || next_is_word(Word::Quantifiers, tokens)
        || next_is_word(Word::Translpairs, tokens)
}

/// One item: functions, predicates or sorts.
#[tactic(auto, unfolding(crate::specs::Lists::symbol_item_at))]
fn symbol_item(
    alloc: Global,
    bytes: &[u8],
    symbols: &mut Signature,
    tokens: &mut Cursor<'_>,
) -> Result<(), InputError>
    ensures { Gives (λ _. (symbols.new, tokens.new)) result (symbol_item_at bytes.now symbols.old tokens.old) }
{
    if is_outside_item(tokens) {
        Err(refused(FaultKind::OutsideProfile, tokens))
    } else if next_is_word(Word::Functions, tokens) {
        tokens.advance();
        entry_list(alloc, bytes, Kind::Function, symbols, tokens)
    } else if next_is_word(Word::Predicates, tokens) {
        tokens.advance();
        entry_list(alloc, bytes, Kind::Predicate, symbols, tokens)
    } else if next_is_word(Word::Sorts, tokens) {
        tokens.advance();
        sort_list(alloc, bytes, symbols, tokens)
    } else {
        Err(unexpected(tokens))
    }
}

/// The items of the list, up to its end, which is left.
#[tactic(auto, using(dfg_terms::specs::RoundLaws::rounds))]
fn symbol_items(
    alloc: Global,
    bytes: &[u8],
    symbols: &mut Signature,
    tokens: &mut Cursor<'_>,
) -> Result<(), InputError>
    ensures { Gives (λ _. (symbols.new, tokens.new)) result
        (items Word.EndOfList (symbol_item_at bytes.now) (length bytes.now) symbols.old tokens.old) }
{
    for _ in 0..bytes.len() {
        if next_is_word(Word::EndOfList, tokens) {
            return Ok(());
        }
        symbol_item(alloc, bytes, symbols, tokens)?;
    }
    Err(unexpected(tokens))
}

/// The list of symbols, if there is one: its symbols stand behind those that are there, in the order of the text. The
/// bytes are the text.
///
/// A name is DeclaredTwice at its second place. LimitReached comes at the name, for the 65,537th symbol before the number
/// is read, and for more than 255 arguments behind it. A name alone among functions and predicates, and the words
/// `operators`, `quantifiers` and `translpairs` where an item may begin, are OutsideProfile. All else is Unexpected at the
/// first token that doesn't fit. After an error there may be more symbols than before.
#[tactic(auto, unfolding(crate::specs::Lists::signature_at, crate::specs::Lists::listed))]
pub fn symbol_list(
    alloc: Global,
    bytes: &[u8],
    symbols: &mut Signature,
    tokens: &mut Cursor<'_>,
) -> Result<(), InputError>
    ensures { Gives (λ _. (symbols.new, tokens.new)) result (signature_at bytes.now symbols.old tokens.old) }
{
    if next_is_word(Word::ListOfSymbols, tokens) {
        tokens.advance();
        mark(Mark::Dot, tokens)?;
        symbol_items(alloc, bytes, symbols, tokens)?;
        tokens.advance();
        mark(Mark::Dot, tokens)?;
    }
    Ok(())
}
