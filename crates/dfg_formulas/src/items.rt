//! Quantified variables, each with its sort or without one.

ghost use Rattle.std.specs.Prelude.{◌≡◌, ◌+◌, ◌≤◌, ◌<◌, ◌^◌, ◌++◌, [], length, take, Ok, OnOk, IfOk};
ghost use Rattle.dfg_terms.specs.Reading.{Gives, commas};
ghost use Rattle.dfg_formulas.specs.Formulas.{is_of_atoms, may_be_sort, sort_if, sort_named, sorted_item_at, item_at, adding_item, AddsItem};
ghost use Rattle.dfg_formulas.specs.Quantifiers.{of_sort};

use crate::build::sort_atom;
use crate::reader::Text;
use dfg_terms::{
    FaultKind, Found, InputError, ReadFault, Scope, bytes_of, lookup, mark, name, next_is_mark,
    spelled_name, unexpected,
};
use dfg_tokens::{Cursor, Mark, Token};
use formulas::Formula;
use spl_terms::{Items, Kind, Symbol};
use std::alloc::{AllocError, Global};

fn is_of_atoms(kind: Kind) -> bool
    ensures { result ≡ is_of_atoms kind }
{
    match kind {
        Kind::Function => false,
        Kind::Predicate | Kind::Sort => true,
    }
}

/// Whether the symbol is a sort, or a predicate of one argument.
fn may_be_sort(found: Found) -> bool
    ensures { result ≡ may_be_sort found }
{
    is_of_atoms(found.symbol.kind) && found.arity == 1
}

fn sort_if(at: usize, found: Option<Found>) -> Result<Symbol, InputError>
    ensures { Gives (λ s. s) result (sort_if at found) }
{
    match found {
        Some(found) if may_be_sort(found) => Ok(found.symbol),
        _ => Err(InputError::Fault(ReadFault {
            at,
            kind: FaultKind::Undeclared,
        })),
    }
}

/// The sort, or the predicate of one argument, that the name stands for. The fault is Undeclared at the name.
#[tactic(auto, unfolding(crate::specs::Formulas::sort_named))]
pub fn sort_named(text: &Text<'_, '_>, token: Token) -> Result<Symbol, InputError>
    ensures { Gives (λ s. s) result (sort_named text.now.bytes.now text.now.symbols.now token) }
{
    let name = spelled_name(text.bytes, token)?;
    sort_if(token.at as usize, lookup(text.symbols, name))
}

/// `S(x)`, behind the name of the sort: the sort, and the variable.
#[tactic(auto, unfolding(crate::specs::Formulas::sorted_item_at))]
fn sorted_item(
    text: &Text<'_, '_>,
    token: Token,
    tokens: &mut Cursor<'_>,
) -> Result<(Option<Symbol>, Token), InputError>
    ensures { Gives (λ x. ((x.0, x.1), tokens.new)) result
        (sorted_item_at text.now.bytes.now text.now.symbols.now token tokens.old) }
{
    let sort = sort_named(text, token)?;
    mark(Mark::OpenParenthesis, tokens)?;
    let name = name(tokens)?;
    mark(Mark::CloseParenthesis, tokens)?;
    Ok((Some(sort), name))
}

/// `x` or `S(x)`: the sort, if there is one, and the variable.
#[tactic(auto, unfolding(crate::specs::Formulas::item_at))]
fn item(text: &Text<'_, '_>, tokens: &mut Cursor<'_>) -> Result<(Option<Symbol>, Token), InputError>
    ensures { Gives (λ x. ((x.0, x.1), tokens.new)) result (item_at text.now.bytes.now text.now.symbols.now tokens.old) }
{
    let name = name(tokens)?;
    if next_is_mark(Mark::OpenParenthesis, tokens) {
        sorted_item(text, name, tokens)
    } else {
        Ok((None, name))
    }
}

/// The number of the binding that has so many of its quantifier before it. A text has fewer bindings than 2^32; more
/// would be want of memory.
pub fn number_after(first: u32, count: usize) -> Result<u32, AllocError>
    ensures is { IfOk result (λ n. n ≡ first + count) }
    ensures fits { OnOk result (first + count < 2 ^ 32) }
{
    if count > (4294967295 - first) as usize {
        return Err(AllocError);
    }
    Ok(first + count as u32)
}

/// Adds that the variable of this number is of the sort, if there is one.
fn push_sort(
    alloc: Global,
    sorts: &mut Items<Formula>,
    sort: Option<Symbol>,
    number: u32,
) -> Result<(), AllocError>
    ensures { OnOk result (sorts.new ≡ sorts.old ++ of_sort sort number) }
{
    match sort {
        None => Ok(()),
        Some(sort) => sorts.push(sort_atom(alloc, sort, number)?),
    }
}

/// Binds the variable of an item, which has so many of its quantifier before it.
fn add_item<'t>(
    alloc: Global,
    text: &Text<'_, 't>,
    scope: &mut Scope<'t>,
    sorts: &mut Items<Formula>,
    first: u32,
    count: usize,
    item: (Option<Symbol>, Token),
) -> Result<(), AllocError>
    ensures { OnOk result (AddsItem text.now.bytes.now first count item.0 item.1 scope.old scope.new sorts.old sorts.new) }
{
    let (sort, name) = item;
    let number = number_after(first, count)?;
    scope.bind(bytes_of(text.bytes, name), number)?;
    push_sort(alloc, sorts, sort, number)
}

/// Variables with commas between them, which are bound from here on: how many they are, and that they are of their sorts.
#[tactic(auto, using(dfg_terms::specs::RoundLaws::rounds))]
pub fn items<'t>(
    alloc: Global,
    text: &Text<'_, 't>,
    scope: &mut Scope<'t>,
    first: u32,
    tokens: &mut Cursor<'_>,
) -> Result<(usize, Items<Formula>), InputError>
    ensures given { Gives (λ x. (((scope.new, x.0), x.1), tokens.new)) result
        (commas (adding_item text.now.bytes.now text.now.symbols.now first) (length text.now.bytes.now) ((scope.old, 0), []) tokens.old) }
    ensures kept { OnOk result (take (length scope.old) scope.new ≡ scope.old) }
    ensures some { IfOk result (λ x. 1 ≤ x.0) }
{
    let mut sorts = Items::new(alloc);
    for i in 0..text.bytes.len() {
        let item = item(text, tokens)?;
        add_item(alloc, text, scope, &mut sorts, first, i, item)?;
        if !next_is_mark(Mark::Comma, tokens) {
            return Ok((i + 1, sorts));
        }
        tokens.advance();
    }
    Err(unexpected(tokens))
}
