//! Lists that are passed over.

ghost use Rattle.std.specs.Prelude.{◌≡◌};
ghost use Rattle.dfg_terms.specs.Reading.{Gives};
ghost use Rattle.dfg_lists.specs.Lists.{is_end, has_more, passed_at};

use dfg_terms::{InputError, next_is_mark, next_is_word, unexpected};
use dfg_tokens::{Cursor, Mark, TokenKind, Word};

/// Whether the input is at its end.
fn is_end(kind: TokenKind) -> bool
    ensures { result ≡ is_end kind }
{
    match kind {
        TokenKind::End => true,
        _ => false,
    }
}

/// Whether a token is left before the end of the input.
fn has_more(tokens: &Cursor<'_>) -> bool
    ensures { result ≡ has_more tokens.now }
{
    match tokens.next() {
        None => false,
        Some(first) => !is_end(first.kind),
    }
}

/// Passes over the rest of a list unread, up to and with the next `end_of_list` that a `.` follows, and that `.`.
///
/// Texts and comments are passed as such, so an `end_of_list.` within one ends nothing. The fault is Unexpected at the
/// end of the input.
#[tactic(auto, unfolding(crate::specs::Lists::passed_at, dfg_terms::specs::Reading::next_word))]
pub fn pass_over(tokens: &mut Cursor<'_>) -> Result<(), InputError>
    ensures { Gives (λ _. tokens.new) result (passed_at tokens.old) }
{
    while has_more(tokens) {
        let ends = next_is_word(Word::EndOfList, tokens);
        tokens.advance();
        if ends && next_is_mark(Mark::Dot, tokens) {
            tokens.advance();
            return Ok(());
        }
    }
    Err(unexpected(tokens))
}
