//! The list of descriptions.

ghost use Rattle.std.specs.Prelude.{◌≡◌, length};
ghost use Rattle.dfg_reader.specs.Reading.{Gives, items, listed};
ghost use Rattle.dfg_reader.specs.Problems.{is_text_item, is_status, status_at, description_at, descriptions_at};

use crate::fault::InputError;
use crate::marks::{mark, next_is_word, tail, text, unexpected, word};
use dfg_tokens::{Mark, Token, Word};

/// Whether an item with a text begins.
fn is_text_item(tokens: &[Token]) -> bool
    ensures { result ≡ is_text_item tokens.now }
{
    next_is_word(Word::Name, tokens)
        || next_is_word(Word::Author, tokens)
        || next_is_word(Word::Version, tokens)
        || next_is_word(Word::Logic, tokens)
        || next_is_word(Word::Description, tokens)
        || next_is_word(Word::Date, tokens)
}

/// Whether the next word is a status.
fn is_status(tokens: &[Token]) -> bool
    ensures { result ≡ is_status tokens.now }
{
    next_is_word(Word::Satisfiable, tokens)
        || next_is_word(Word::Unsatisfiable, tokens)
        || next_is_word(Word::Unknown, tokens)
}

/// The word of a status.
#[tactic(auto, unfolding(crate::specs::Problems::status_at))]
fn status(tokens: &[Token]) -> Result<&[Token], InputError>
    ensures { Gives (λ rest. rest.now) result (status_at tokens.now) }
{
    if is_status(tokens) {
        Ok(tail(tokens))
    } else {
        Err(unexpected(tokens))
    }
}

/// One item of the list; what it says has no effect.
#[tactic(auto, unfolding(crate::specs::Problems::description_at))]
fn description(tokens: &[Token]) -> Result<&[Token], InputError>
    ensures { Gives (λ rest. (tt, rest.now)) result (description_at tt tokens.now) }
{
    if is_text_item(tokens) {
        let rest = mark(Mark::OpenParenthesis, tail(tokens))?;
        let rest = text(rest)?;
        let rest = mark(Mark::CloseParenthesis, rest)?;
        let rest = mark(Mark::Dot, rest)?;
        Ok(rest)
    } else if next_is_word(Word::Status, tokens) {
        let rest = mark(Mark::OpenParenthesis, tail(tokens))?;
        let rest = status(rest)?;
        let rest = mark(Mark::CloseParenthesis, rest)?;
        let rest = mark(Mark::Dot, rest)?;
        Ok(rest)
    } else {
        Err(unexpected(tokens))
    }
}

/// The items of the list, up to its end, which is left.
#[tactic(auto, using(crate::proofs::Rounds::rounds))]
fn description_items(tokens: &[Token]) -> Result<&[Token], InputError>
    ensures { Gives (λ rest. (tt, rest.now)) result (items Word.EndOfList description_at (length tokens.now) tt tokens.now) }
{
    let mut rest = tokens;
    for _ in 0..tokens.len() {
        if next_is_word(Word::EndOfList, rest) {
            return Ok(rest);
        }
        rest = description(rest)?;
    }
    Err(unexpected(rest))
}

/// The list of descriptions.
#[tactic(auto, unfolding(crate::specs::Problems::descriptions_at, crate::specs::Reading::listed))]
pub fn descriptions(tokens: &[Token]) -> Result<&[Token], InputError>
    ensures { Gives (λ rest. rest.now) result (descriptions_at tokens.now) }
{
    let rest = word(Word::ListOfDescriptions, tokens)?;
    let rest = mark(Mark::Dot, rest)?;
    let rest = description_items(rest)?;
    mark(Mark::Dot, tail(rest))
}
