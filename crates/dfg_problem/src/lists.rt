//! Lists of formulas, clauses and declarations, and lists that are passed over.

ghost use Rattle.std.specs.Prelude.{◌≡◌, length};
ghost use Rattle.formulas.specs.declared.entry.Entry.{Entry};
ghost use Rattle.dfg_terms.specs.Reading.{Gives, items};
ghost use Rattle.dfg_problem.specs.Lists.{formula_item_at, clause_item_at, declaration_item_at, role_at, formula_list_at, form_at, clause_list_at, declaration_list_at, entry_list_at, is_outside_list, list_at};

use crate::entries::{clause_item, declaration_item, formula_item};
use dfg_formulas::Text;
use dfg_lists::pass_over;
use dfg_terms::{FaultKind, InputError, mark, next_is_word, place, refused, unexpected, word};
use dfg_tokens::{Cursor, Mark, Word};
use formulas::{Entry, Role};
use spl_terms::Items;
use std::alloc::Global;

/// The role of the formulas; for clauses it has no effect.
#[tactic(auto, unfolding(crate::specs::Lists::role_at))]
fn role(tokens: &mut Cursor<'_>) -> Result<Role, InputError>
    ensures { Gives (λ role. (role, tokens.new)) result (role_at tokens.old) }
{
    if next_is_word(Word::Axioms, tokens) {
        tokens.advance();
        Ok(Role::Axiom)
    } else if next_is_word(Word::Conjectures, tokens) {
        tokens.advance();
        Ok(Role::Conjecture)
    } else {
        Err(unexpected(tokens))
    }
}

/// The formulas of a list, up to its end, which is left.
#[tactic(auto, using(dfg_terms::specs::RoundLaws::rounds))]
fn formula_items(
    alloc: Global,
    text: &Text<'_, '_>,
    role: Role,
    entries: &mut Items<Entry>,
    tokens: &mut Cursor<'_>,
) -> Result<(), InputError>
    ensures { Gives (λ _. (entries.new, tokens.new)) result
        (items Word.EndOfList (formula_item_at text.now.bytes.now text.now.symbols.now role)
        (length text.now.bytes.now) entries.old tokens.old) }
{
    for _ in 0..text.bytes.len() {
        if next_is_word(Word::EndOfList, tokens) {
            return Ok(());
        }
        formula_item(alloc, text, role, entries, tokens)?;
    }
    Err(unexpected(tokens))
}

/// A list of formulas, behind its word.
#[tactic(auto, unfolding(crate::specs::Lists::formula_list_at, dfg_lists::specs::Lists::listed))]
fn formula_list(
    alloc: Global,
    text: &Text<'_, '_>,
    entries: &mut Items<Entry>,
    tokens: &mut Cursor<'_>,
) -> Result<(), InputError>
    ensures { Gives (λ _. (entries.new, tokens.new)) result
        (formula_list_at text.now.bytes.now text.now.symbols.now entries.old tokens.old) }
{
    mark(Mark::OpenParenthesis, tokens)?;
    let role = role(tokens)?;
    mark(Mark::CloseParenthesis, tokens)?;
    mark(Mark::Dot, tokens)?;
    formula_items(alloc, text, role, entries, tokens)?;
    tokens.advance();
    mark(Mark::Dot, tokens)?;
    Ok(())
}

/// The form of the clauses.
#[tactic(auto, unfolding(crate::specs::Lists::form_at))]
fn form(tokens: &mut Cursor<'_>) -> Result<(), InputError>
    ensures { Gives (λ _. tokens.new) result (form_at tokens.old) }
{
    if next_is_word(Word::Dnf, tokens) {
        return Err(refused(FaultKind::OutsideProfile, tokens));
    }
    word(Word::Cnf, tokens)
}

/// The clauses of a list, up to its end, which is left.
#[tactic(auto, using(dfg_terms::specs::RoundLaws::rounds))]
fn clause_items(
    alloc: Global,
    text: &Text<'_, '_>,
    entries: &mut Items<Entry>,
    tokens: &mut Cursor<'_>,
) -> Result<(), InputError>
    ensures { Gives (λ _. (entries.new, tokens.new)) result
        (items Word.EndOfList (clause_item_at text.now.bytes.now text.now.symbols.now)
        (length text.now.bytes.now) entries.old tokens.old) }
{
    for _ in 0..text.bytes.len() {
        if next_is_word(Word::EndOfList, tokens) {
            return Ok(());
        }
        clause_item(alloc, text, entries, tokens)?;
    }
    Err(unexpected(tokens))
}

/// A list of clauses, behind its word.
#[tactic(auto, unfolding(crate::specs::Lists::clause_list_at, dfg_lists::specs::Lists::listed))]
fn clause_list(
    alloc: Global,
    text: &Text<'_, '_>,
    entries: &mut Items<Entry>,
    tokens: &mut Cursor<'_>,
) -> Result<(), InputError>
    ensures { Gives (λ _. (entries.new, tokens.new)) result
        (clause_list_at text.now.bytes.now text.now.symbols.now entries.old tokens.old) }
{
    mark(Mark::OpenParenthesis, tokens)?;
    role(tokens)?;
    mark(Mark::Comma, tokens)?;
    form(tokens)?;
    mark(Mark::CloseParenthesis, tokens)?;
    mark(Mark::Dot, tokens)?;
    clause_items(alloc, text, entries, tokens)?;
    tokens.advance();
    mark(Mark::Dot, tokens)?;
    Ok(())
}

/// The declarations of a list, up to its end, which is left.
#[tactic(auto, using(dfg_terms::specs::RoundLaws::rounds))]
fn declaration_items(
    alloc: Global,
    text: &Text<'_, '_>,
    entries: &mut Items<Entry>,
    tokens: &mut Cursor<'_>,
) -> Result<(), InputError>
    ensures { Gives (λ _. (entries.new, tokens.new)) result
        (items Word.EndOfList (declaration_item_at text.now.bytes.now text.now.symbols.now)
        (length text.now.bytes.now) entries.old tokens.old) }
{
    for _ in 0..text.bytes.len() {
        if next_is_word(Word::EndOfList, tokens) {
            return Ok(());
        }
        declaration_item(alloc, text, entries, tokens)?;
    }
    Err(unexpected(tokens))
}

/// A list of declarations, behind its word.
#[tactic(auto, unfolding(crate::specs::Lists::declaration_list_at, dfg_lists::specs::Lists::listed))]
fn declaration_list(
    alloc: Global,
    text: &Text<'_, '_>,
    entries: &mut Items<Entry>,
    tokens: &mut Cursor<'_>,
) -> Result<(), InputError>
    ensures { Gives (λ _. (entries.new, tokens.new)) result
        (declaration_list_at text.now.bytes.now text.now.symbols.now entries.old tokens.old) }
{
    mark(Mark::Dot, tokens)?;
    declaration_items(alloc, text, entries, tokens)?;
    tokens.advance();
    mark(Mark::Dot, tokens)?;
    Ok(())
}

/// A list with entries.
#[tactic(auto, unfolding(crate::specs::Lists::entry_list_at))]
fn entry_list(
    alloc: Global,
    text: &Text<'_, '_>,
    entries: &mut Items<Entry>,
    tokens: &mut Cursor<'_>,
) -> Result<(), InputError>
    ensures { Gives (λ _. (entries.new, tokens.new)) result
        (entry_list_at text.now.bytes.now text.now.symbols.now entries.old tokens.old) }
{
    if next_is_word(Word::ListOfDeclarations, tokens) {
        tokens.advance();
        declaration_list(alloc, text, entries, tokens)
    } else if next_is_word(Word::ListOfFormulae, tokens) {
        tokens.advance();
        formula_list(alloc, text, entries, tokens)
    } else if next_is_word(Word::ListOfClauses, tokens) {
        tokens.advance();
        clause_list(alloc, text, entries, tokens)
    } else {
        Err(unexpected(tokens))
    }
}

/// Whether a list begins that is outside the profile.
fn is_outside_list(tokens: &Cursor<'_>) -> bool
    ensures { result ≡ is_outside_list tokens.now }
{
    next_is_word(Word::ListOfTerms, tokens)
        || next_is_word(Word::ListOfSpecialFormulae, tokens)
        || next_is_word(Word::ListOfIncludes, tokens)
}

/// One list.
#[tactic(auto, unfolding(crate::specs::Lists::list_at))]
fn list(
    alloc: Global,
    text: &Text<'_, '_>,
    entries: &mut Items<Entry>,
    proofs: &mut Items<usize>,
    tokens: &mut Cursor<'_>,
) -> Result<(), InputError>
    ensures { Gives (λ _. ((entries.new, proofs.new), tokens.new)) result
        (list_at text.now.bytes.now text.now.symbols.now (entries.old, proofs.old) tokens.old) }
{
    if is_outside_list(tokens) {
        Err(refused(FaultKind::OutsideProfile, tokens))
    } else if next_is_word(Word::ListOfProof, tokens) {
        let at = place(tokens);
        tokens.advance();
        pass_over(tokens)?;
        proofs.push(at)?;
        Ok(())
    } else if next_is_word(Word::ListOfSettings, tokens) {
        tokens.advance();
        pass_over(tokens)
    } else {
        entry_list(alloc, text, entries, tokens)
    }
}

/// The lists of a problem, up to its end, which is left.
#[tactic(auto, using(dfg_terms::specs::RoundLaws::rounds))]
pub fn lists(
    alloc: Global,
    text: &Text<'_, '_>,
    entries: &mut Items<Entry>,
    proofs: &mut Items<usize>,
    tokens: &mut Cursor<'_>,
) -> Result<(), InputError>
    ensures { Gives (λ _. ((entries.new, proofs.new), tokens.new)) result
        (items Word.EndProblem (list_at text.now.bytes.now text.now.symbols.now)
        (length text.now.bytes.now) (entries.old, proofs.old) tokens.old) }
{
    for _ in 0..text.bytes.len() {
        if next_is_word(Word::EndProblem, tokens) {
            return Ok(());
        }
        list(alloc, text, entries, proofs, tokens)?;
    }
    Err(unexpected(tokens))
}
