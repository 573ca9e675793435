//! Items that are entries: formulas, clauses and declarations.

ghost use Rattle.std.specs.Prelude.{◌≡◌, OnOk};
ghost use Rattle.formulas.specs.declared.entry.Entry.{Entry};
ghost use Rattle.dfg_terms.specs.Reading.{Gives};
ghost use Rattle.dfg_problem.specs.Lists.{is_conjecture, has_conjecture, with_entry, label_at, with_label_at, labelled_at, formula_item_at, clause_item_at, declaration_item_at};

use crate::declarations::declared;
use crate::keywords::{Keyword, next_is_keyword};
use dfg_formulas::{Level, Shape, Text, formula};
use dfg_terms::{
    FaultKind, InputError, Scope, identifier, mark, next_is_mark, place, refused, unexpected, word,
};
use dfg_tokens::{Cursor, Mark, Word};
use formulas::{Entry, Formula, Role};
use spl_terms::Items;
use std::alloc::{AllocError, Global};

fn is_conjecture(role: Role) -> bool
    ensures { result ≡ is_conjecture role }
{
    match role {
        Role::Conjecture => true,
        Role::Axiom | Role::Clause => false,
    }
}

/// Whether one of the entries is a conjecture.
fn has_conjecture(entries: &[Entry]) -> bool
    ensures { result ≡ has_conjecture entries.now }
{
    entries.iter().any(|entry| is_conjecture(entry.role))
}

/// Adds an entry.
fn push_entry(
    entries: &mut Items<Entry>,
    role: Role,
    formula: Formula,
    at: usize,
) -> Result<(), AllocError>
    ensures { OnOk result (entries.new ≡ with_entry entries.old role formula at) }
{
    entries.push(Entry { role, formula, at })
}

/// A label, if there is one.
#[tactic(auto, unfolding(crate::specs::Lists::label_at))]
fn label(tokens: &mut Cursor<'_>) -> Result<(), InputError>
    ensures { Gives (λ _. tokens.new) result (label_at tokens.old) }
{
    if next_is_mark(Mark::Comma, tokens) {
        tokens.advance();
        identifier(tokens)?;
    }
    Ok(())
}

/// `F` or `F,label`, with a formula of this shape.
#[tactic(auto, unfolding(crate::specs::Lists::with_label_at))]
fn with_label(
    alloc: Global,
    text: &Text<'_, '_>,
    shape: Shape,
    tokens: &mut Cursor<'_>,
) -> Result<Formula, InputError>
    ensures { Gives (λ f. (f, tokens.new)) result
        (with_label_at text.now.bytes.now text.now.symbols.now shape tokens.old) }
{
    let level = Level { shape, depth: 1000 };
    let mut scope = Scope::new(alloc);
    let (formula, _) = formula(alloc, text, &mut scope, level, 0, tokens)?;
    label(tokens)?;
    Ok(formula)
}

/// `(F).` or `(F,label).`, with a formula of this shape.
#[tactic(auto, unfolding(crate::specs::Lists::labelled_at))]
fn labelled(
    alloc: Global,
    text: &Text<'_, '_>,
    shape: Shape,
    tokens: &mut Cursor<'_>,
) -> Result<Formula, InputError>
    ensures { Gives (λ f. (f, tokens.new)) result
        (labelled_at text.now.bytes.now text.now.symbols.now shape tokens.old) }
{
    mark(Mark::OpenParenthesis, tokens)?;
    let formula = with_label(alloc, text, shape, tokens)?;
    mark(Mark::CloseParenthesis, tokens)?;
    mark(Mark::Dot, tokens)?;
    Ok(formula)
}

/// One formula of this role.
#[tactic(auto, unfolding(crate::specs::Lists::formula_item_at))]
pub fn formula_item(
    alloc: Global,
    text: &Text<'_, '_>,
    role: Role,
    entries: &mut Items<Entry>,
    tokens: &mut Cursor<'_>,
) -> Result<(), InputError>
    ensures { Gives (λ _. (entries.new, tokens.new)) result
        (formula_item_at text.now.bytes.now text.now.symbols.now role entries.old tokens.old) }
{
    if !next_is_keyword(text.bytes, Keyword::Formula, tokens) {
        return Err(unexpected(tokens));
    }
    if is_conjecture(role) && has_conjecture(entries.as_slice()) {
        return Err(refused(FaultKind::SecondConjecture, tokens));
    }
    let at = place(tokens);
    tokens.advance();
    let formula = labelled(alloc, text, Shape::Formula, tokens)?;
    push_entry(entries, role, formula, at)?;
    Ok(())
}

/// One clause.
#[tactic(auto, unfolding(crate::specs::Lists::clause_item_at))]
pub fn clause_item(
    alloc: Global,
    text: &Text<'_, '_>,
    entries: &mut Items<Entry>,
    tokens: &mut Cursor<'_>,
) -> Result<(), InputError>
    ensures { Gives (λ _. (entries.new, tokens.new)) result
        (clause_item_at text.now.bytes.now text.now.symbols.now entries.old tokens.old) }
{
    let at = place(tokens);
    word(Word::Clause, tokens)?;
    let formula = labelled(alloc, text, Shape::Clause, tokens)?;
    push_entry(entries, Role::Clause, formula, at)?;
    Ok(())
}

/// One declaration.
#[tactic(auto, unfolding(crate::specs::Lists::declaration_item_at))]
pub fn declaration_item(
    alloc: Global,
    text: &Text<'_, '_>,
    entries: &mut Items<Entry>,
    tokens: &mut Cursor<'_>,
) -> Result<(), InputError>
    ensures { Gives (λ _. (entries.new, tokens.new)) result
        (declaration_item_at text.now.bytes.now text.now.symbols.now entries.old tokens.old) }
{
    let at = place(tokens);
    let formula = declared(alloc, text, tokens)?;
    mark(Mark::Dot, tokens)?;
    push_entry(entries, Role::Axiom, formula, at)?;
    Ok(())
}
