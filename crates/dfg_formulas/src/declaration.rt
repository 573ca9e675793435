//! Declarations of terms: that a term is of a sort, for all values of its variables.

ghost use Rattle.std.specs.Prelude.{◌≡◌, ◌≤◌, ◌+◌, true, IfOk, OnOk};
ghost use Rattle.dfg_terms.specs.Reading.{Gives};
ghost use Rattle.dfg_formulas.specs.declared.shape.Connective.TheVariants.{Forall};
ghost use Rattle.dfg_formulas.specs.Grammar.{binding_count, IsTermDeclarationIn, EachDeclarationIsRead};
ghost use Rattle.dfg_formulas.specs.Formulas.{quantified_at, connected_at, sorted_term_at, term_declaration_at};

use crate::build::quantified;
use crate::items::{items, number_after, sort_named};
use crate::reader::{Text, atomic};
use dfg_terms::{InputError, Scope, kind_is_name, mark, next_is_word, unexpected};
use dfg_tokens::{Cursor, Mark, Word};
use formulas::Formula;
use std::alloc::Global;

/// `T(t)`, whose term may nest so deep.
#[tactic(auto, unfolding(crate::specs::Formulas::sorted_term_at, dfg_terms::specs::Reading::name_at))]
fn sorted_term(
    alloc: Global,
    text: &Text<'_, '_>,
    scope: &Scope<'_>,
    depth: u32,
    next: u32,
    tokens: &mut Cursor<'_>,
) -> Result<(Formula, u32), InputError>
    ensures { Gives (λ x. ((x.0, x.1), tokens.new)) result
        (sorted_term_at text.now.bytes.now text.now.symbols.now depth scope.now next tokens.old) }
{
    match tokens.next() {
        Some(first) if kind_is_name(first.kind) => {
            sort_named(text, first)?;
            atomic(alloc, text, scope, depth, next, tokens)
        }
        _ => Err(unexpected(tokens)),
    }
}

/// Variables in brackets, and `T(t)`, in which they are bound.
#[tactic(auto, unfolding(crate::specs::Formulas::quantified_at))]
fn quantified_term<'t>(
    alloc: Global,
    text: &Text<'_, 't>,
    scope: &mut Scope<'t>,
    depth: u32,
    next: u32,
    tokens: &mut Cursor<'_>,
) -> Result<(Formula, u32), InputError>
    ensures given { Gives (λ x. ((x.0, x.1), tokens.new)) result
        (quantified_at text.now.bytes.now text.now.symbols.now true
        (sorted_term_at text.now.bytes.now text.now.symbols.now depth) scope.old next tokens.old) }
    ensures same { OnOk result (scope.new ≡ scope.old) }
{
    let before = scope.len();
    mark(Mark::OpenBracket, tokens)?;
    let (count, sorts) = items(alloc, text, scope, next, tokens)?;
    mark(Mark::CloseBracket, tokens)?;
    mark(Mark::Comma, tokens)?;
    let inner = number_after(next, count)?;
    let (part, after) = sorted_term(alloc, text, scope, depth, inner, tokens)?;
    scope.leave(before);
    let formula = quantified(alloc, true, next, count as u32, sorts, part)?;
    Ok((formula, after))
}

/// What stands behind the `forall` of a declaration.
#[tactic(auto, unfolding(crate::specs::Formulas::connected_at))]
fn enclosed_term<'t>(
    alloc: Global,
    text: &Text<'_, 't>,
    scope: &mut Scope<'t>,
    depth: u32,
    next: u32,
    tokens: &mut Cursor<'_>,
) -> Result<(Formula, u32), InputError>
    ensures given { Gives (λ x. ((x.0, x.1), tokens.new)) result
        (connected_at text.now.bytes.now text.now.symbols.now Forall
        (sorted_term_at text.now.bytes.now text.now.symbols.now depth) scope.old next tokens.old) }
    ensures same { OnOk result (scope.new ≡ scope.old) }
{
    mark(Mark::OpenParenthesis, tokens)?;
    let (formula, next) = quantified_term(alloc, text, scope, depth, next, tokens)?;
    mark(Mark::CloseParenthesis, tokens)?;
    Ok((formula, next))
}

/// A declaration of a term that may nest so deep.
#[tactic(auto, unfolding(crate::specs::Formulas::term_declaration_at))]
fn declaration_within<'t>(
    alloc: Global,
    text: &Text<'_, 't>,
    scope: &mut Scope<'t>,
    depth: u32,
    next: u32,
    tokens: &mut Cursor<'_>,
) -> Result<(Formula, u32), InputError>
    requires { 2 ≤ depth }
    ensures given { Gives (λ x. ((x.0, x.1), tokens.new)) result
        (term_declaration_at text.now.bytes.now text.now.symbols.now depth scope.old next tokens.old) }
    ensures same { OnOk result (scope.new ≡ scope.old) }
{
    if next_is_word(Word::Forall, tokens) {
        tokens.advance();
        enclosed_term(alloc, text, scope, depth - 2, next, tokens)
    } else {
        sorted_term(alloc, text, scope, depth - 1, next, tokens)
    }
}

/// A declaration of a term, `T(t)` or `forall([..],T(t))` with T a sort or a predicate of one argument, or the first
/// fault; beside it the number of the binding that comes next.
///
/// All nests at most as deep as `depth` says, which is 1 for `T` alone. The bindings are numbered from `next` on. The scope
/// has again afterwards what is in force around it; after an error it may have more. What is read is written by the tokens
/// (`IsTermDeclarationIn`), and each declaration that they write, with no parenthesis behind it, is read. An error is the
/// first fault from left to right, or want of memory.
pub fn term_declaration<'t>(
    alloc: Global,
    text: &Text<'_, 't>,
    scope: &mut Scope<'t>,
    depth: u32,
    next: u32,
    tokens: &mut Cursor<'_>,
) -> Result<(Formula, u32), InputError>
    requires { 2 ≤ depth }
    ensures exact { Gives (λ x. ((x.0, x.1), tokens.new)) result
        (term_declaration_at text.now.bytes.now text.now.symbols.now depth scope.old next tokens.old) }
    ensures same { OnOk result (scope.new ≡ scope.old) }
    ensures written { IfOk result (λ x. IsTermDeclarationIn text.now depth scope.old next x.0 tokens.old tokens.new) }
    ensures numbered { IfOk result (λ x. x.1 ≡ next + binding_count x.0) }
    ensures every { EachDeclarationIsRead text.now depth scope.old next result tokens.old tokens.new }
{
    text.symbols.names_are_identifiers();
    declaration_within(alloc, text, scope, depth, next, tokens)
}
