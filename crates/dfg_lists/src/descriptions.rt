//! The list of descriptions.

ghost use Rattle.std.specs.Prelude.{◌≡◌, length};
ghost use Rattle.dfg_terms.specs.Reading.{Gives, items};
ghost use Rattle.dfg_lists.specs.Lists.{is_text_item, is_status, status_at, description_at, descriptions_at};

use dfg_terms::{InputError, mark, next_is_word, text, unexpected, word};
use dfg_tokens::{Cursor, Mark, Word};

/// Whether an item with a text begins.
fn is_text_item(tokens: &Cursor<'_>) -> bool
    ensures { result ≡ is_text_item tokens.now }
{
    next_is_word(Word::Name, tokens)
        || next_is_word(Word::Author, tokens)
        || next_is_word(Word::Version, tokens)
        || next_is_word(Word::Logic, tokens)
        || next_is_word(Word::Description, tokens)
        || next_is_word(Word::Date, tokens)
}

/// Whether the next word is a status.
fn is_status(tokens: &Cursor<'_>) -> bool
    ensures { result ≡ is_status tokens.now }
{
    next_is_word(Word::Satisfiable, tokens)
        || next_is_word(Word::Unsatisfiable, tokens)
        || next_is_word(Word::Unknown, tokens)
}

/// The word of a status.
#[tactic(auto, unfolding(crate::specs::Lists::status_at))]
fn status(tokens: &mut Cursor<'_>) -> Result<(), InputError>
    ensures { Gives (λ _. tokens.new) result (status_at tokens.old) }
{
    if is_status(tokens) {
        tokens.advance();
        Ok(())
    } else {
        Err(unexpected(tokens))
    }
}

/// One item of the list; what it says has no effect.
#[tactic(auto, unfolding(crate::specs::Lists::description_at))]
fn description(tokens: &mut Cursor<'_>) -> Result<(), InputError>
    ensures { Gives (λ _. (tt, tokens.new)) result (description_at tt tokens.old) }
{
    if is_text_item(tokens) {
        tokens.advance();
        mark(Mark::OpenParenthesis, tokens)?;
        text(tokens)?;
        mark(Mark::CloseParenthesis, tokens)?;
        mark(Mark::Dot, tokens)?;
        Ok(())
    } else if next_is_word(Word::Status, tokens) {
        tokens.advance();
        mark(Mark::OpenParenthesis, tokens)?;
        status(tokens)?;
        mark(Mark::CloseParenthesis, tokens)?;
        mark(Mark::Dot, tokens)?;
        Ok(())
    } else {
        Err(unexpected(tokens))
    }
}

/// The items of the list, up to its end, which is left.
#[tactic(auto, using(dfg_terms::specs::RoundLaws::rounds))]
fn description_items(bytes: &[u8], tokens: &mut Cursor<'_>) -> Result<(), InputError>
    ensures { Gives (λ _. (tt, tokens.new)) result (items Word.EndOfList description_at (length bytes.now) tt tokens.old) }
{
    for _ in 0..bytes.len() {
        if next_is_word(Word::EndOfList, tokens) {
            return Ok(());
        }
        description(tokens)?;
    }
    Err(unexpected(tokens))
}

/// The list of descriptions: a problem has one, and what it says has no effect. The bytes are the text.
///
/// The fault is Unexpected at the first token that doesn't fit.
#[tactic(auto, unfolding(crate::specs::Lists::descriptions_at, crate::specs::Lists::listed))]
pub fn description_list(bytes: &[u8], tokens: &mut Cursor<'_>) -> Result<(), InputError>
    ensures { Gives (λ _. tokens.new) result (descriptions_at bytes.now tokens.old) }
{
    word(Word::ListOfDescriptions, tokens)?;
    mark(Mark::Dot, tokens)?;
    description_items(bytes, tokens)?;
    tokens.advance();
    mark(Mark::Dot, tokens)
}
