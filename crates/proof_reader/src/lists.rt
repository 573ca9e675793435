//! Lists in brackets, and clauses.

ghost use Rattle.std.specs.Prelude.{◌≡◌, [], length};
ghost use Rattle.dfg_terms.specs.Reading.{Gives, adding, commas};
ghost use Rattle.dfg_terms.specs.Numbers.{numeral_at};
ghost use Rattle.proof_reader.specs.ProofLists.{term_of, atom_of, numbers_at, terms_at, atoms_at, clause_at};

use crate::spellings::spelled;
use dfg_formulas::Text;
use dfg_terms::{
    Context, InputError, Place, Variables, atom, mark, next_is_mark, numeral, term, unexpected,
};
use dfg_tokens::{Cursor, Mark};
use spl_terms::{Atom, Clause, Items, Term};
use std::alloc::Global;

/// Reads one more number.
fn add_number(
    bytes: &[u8],
    items: &mut Items<u32>,
    tokens: &mut Cursor<'_>,
) -> Result<(), InputError>
    ensures { Gives (λ _. (items.new, tokens.new)) result (adding (numeral_at bytes.now) items.old tokens.old) }
{
    let next = numeral(bytes, tokens)?;
    items.push(next)?;
    Ok(())
}

/// Numbers with commas between them.
#[tactic(auto, using(dfg_terms::specs::RoundLaws::rounds))]
fn some_numbers(
    alloc: Global,
    bytes: &[u8],
    tokens: &mut Cursor<'_>,
) -> Result<Items<u32>, InputError>
    ensures { Gives (λ x. (x, tokens.new)) result
        (commas (adding (numeral_at bytes.now)) (length bytes.now) [] tokens.old) }
{
    let mut items = Items::new(alloc);
    for _ in 0..bytes.len() {
        add_number(bytes, &mut items, tokens)?;
        if !next_is_mark(Mark::Comma, tokens) {
            return Ok(items);
        }
        tokens.advance();
    }
    Err(unexpected(tokens))
}

/// Numbers in brackets.
#[tactic(auto, unfolding(crate::specs::ProofLists::bracketed))]
pub fn numbers(
    alloc: Global,
    bytes: &[u8],
    tokens: &mut Cursor<'_>,
) -> Result<Items<u32>, InputError>
    ensures { Gives (λ x. (x, tokens.new)) result (numbers_at bytes.now tokens.old) }
{
    mark(Mark::OpenBracket, tokens)?;
    if next_is_mark(Mark::CloseBracket, tokens) {
        tokens.advance();
        return Ok(Items::new(alloc));
    }
    let items = some_numbers(alloc, bytes, tokens)?;
    mark(Mark::CloseBracket, tokens)?;
    Ok(items)
}

/// Reads one more term.
fn add_term<'t>(
    alloc: Global,
    text: &Text<'t, 't>,
    items: &mut Items<Term>,
    tokens: &mut Cursor<'_>,
) -> Result<(), InputError>
    ensures { Gives (λ _. (items.new, tokens.new)) result
        (adding (term_of text.now.bytes.now text.now.symbols.now) items.old tokens.old) }
{
    let context = Context {
        bytes: text.bytes,
        symbols: text.symbols,
        variables: Variables::Numbered,
    };
    let next = term(alloc, &context, 1000, tokens)?;
    items.push(next)?;
    Ok(())
}

/// Terms with commas between them.
#[tactic(auto, using(dfg_terms::specs::RoundLaws::rounds))]
fn some_terms<'t>(
    alloc: Global,
    text: &Text<'t, 't>,
    tokens: &mut Cursor<'_>,
) -> Result<Items<Term>, InputError>
    ensures { Gives (λ x. (x, tokens.new)) result
        (commas (adding (term_of text.now.bytes.now text.now.symbols.now)) (length text.now.bytes.now) [] tokens.old) }
{
    let mut items = Items::new(alloc);
    for _ in 0..text.bytes.len() {
        add_term(alloc, text, &mut items, tokens)?;
        if !next_is_mark(Mark::Comma, tokens) {
            return Ok(items);
        }
        tokens.advance();
    }
    Err(unexpected(tokens))
}

/// Terms in brackets.
#[tactic(auto, unfolding(crate::specs::ProofLists::bracketed))]
pub fn terms<'t>(
    alloc: Global,
    text: &Text<'t, 't>,
    tokens: &mut Cursor<'_>,
) -> Result<Items<Term>, InputError>
    ensures { Gives (λ x. (x, tokens.new)) result (terms_at text.now.bytes.now text.now.symbols.now tokens.old) }
{
    mark(Mark::OpenBracket, tokens)?;
    if next_is_mark(Mark::CloseBracket, tokens) {
        tokens.advance();
        return Ok(Items::new(alloc));
    }
    let items = some_terms(alloc, text, tokens)?;
    mark(Mark::CloseBracket, tokens)?;
    Ok(items)
}

/// Reads one more atom of a part of a clause.
fn add_atom<'t>(
    alloc: Global,
    text: &Text<'t, 't>,
    place: Place,
    items: &mut Items<Atom>,
    tokens: &mut Cursor<'_>,
) -> Result<(), InputError>
    ensures { Gives (λ _. (items.new, tokens.new)) result
        (adding (atom_of text.now.bytes.now text.now.symbols.now place) items.old tokens.old) }
{
    let context = Context {
        bytes: text.bytes,
        symbols: text.symbols,
        variables: Variables::Numbered,
    };
    let next = atom(alloc, &context, place, 999, tokens)?;
    items.push(next)?;
    Ok(())
}

/// Atoms of a part of a clause, with commas between them.
#[tactic(auto, using(dfg_terms::specs::RoundLaws::rounds))]
fn some_atoms<'t>(
    alloc: Global,
    text: &Text<'t, 't>,
    place: Place,
    tokens: &mut Cursor<'_>,
) -> Result<Items<Atom>, InputError>
    ensures { Gives (λ x. (x, tokens.new)) result
        (commas (adding (atom_of text.now.bytes.now text.now.symbols.now place)) (length text.now.bytes.now) [] tokens.old) }
{
    let mut items = Items::new(alloc);
    for _ in 0..text.bytes.len() {
        add_atom(alloc, text, place, &mut items, tokens)?;
        if !next_is_mark(Mark::Comma, tokens) {
            return Ok(items);
        }
        tokens.advance();
    }
    Err(unexpected(tokens))
}

/// Atoms of a part of a clause, in brackets.
#[tactic(auto, unfolding(crate::specs::ProofLists::bracketed))]
fn atoms<'t>(
    alloc: Global,
    text: &Text<'t, 't>,
    place: Place,
    tokens: &mut Cursor<'_>,
) -> Result<Items<Atom>, InputError>
    ensures { Gives (λ x. (x, tokens.new)) result (atoms_at text.now.bytes.now text.now.symbols.now place tokens.old) }
{
    mark(Mark::OpenBracket, tokens)?;
    if next_is_mark(Mark::CloseBracket, tokens) {
        tokens.advance();
        return Ok(Items::new(alloc));
    }
    let items = some_atoms(alloc, text, place, tokens)?;
    mark(Mark::CloseBracket, tokens)?;
    Ok(items)
}

/// The clause with its three parts, each atom as it stands.
#[tactic(auto, unfolding(crate::specs::ProofLists::clause_at))]
pub fn clause<'t>(
    alloc: Global,
    text: &Text<'t, 't>,
    tokens: &mut Cursor<'_>,
) -> Result<Clause, InputError>
    ensures { Gives (λ x. (x, tokens.new)) result (clause_at text.now.bytes.now text.now.symbols.now tokens.old) }
{
    spelled(text.bytes, b"cl", tokens)?;
    mark(Mark::OpenParenthesis, tokens)?;
    let constraint = atoms(alloc, text, Place::Constraint, tokens)?;
    mark(Mark::Comma, tokens)?;
    let antecedent = atoms(alloc, text, Place::Antecedent, tokens)?;
    mark(Mark::Comma, tokens)?;
    let succedent = atoms(alloc, text, Place::Atom, tokens)?;
    mark(Mark::CloseParenthesis, tokens)?;
    Ok(Clause {
        constraint,
        antecedent,
        succedent,
    })
}
