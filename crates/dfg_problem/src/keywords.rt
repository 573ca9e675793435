//! Words that begin items and may be names elsewhere.

ghost use Rattle.std.specs.Prelude.{◌≡◌};
ghost use Rattle.dfg_terms.specs.Reading.{kind_is_word};
ghost use Rattle.dfg_tokens.specs.declared.word.Word.TheVariants.{Plain};
ghost use Rattle.dfg_problem.specs.Keywords.{keyword_text, next_keyword};

use dfg_terms::bytes_of;
use dfg_tokens::{Cursor, TokenKind, Word};

/// A word that begins an item.
#[derive(Clone, Copy, PartialEq, Eq, Debug)]
pub enum Keyword {
    /// `formula`.
    Formula,
    /// `subsort`.
    Subsort,
    /// `predicate`.
    Predicate,
    /// `sort`.
    Sort,
}

/// How the word is spelled.
fn keyword_text(keyword: Keyword) -> &'static [u8]
    ensures { result.now ≡ keyword_text keyword }
{
    match keyword {
        Keyword::Formula => b"formula",
        Keyword::Subsort => b"subsort",
        Keyword::Predicate => b"predicate",
        Keyword::Sort => b"sort",
    }
}

/// Whether it is an identifier that is no other word of the grammar.
#[tactic(auto, unfolding(dfg_terms::specs::Reading::kind_is_word))]
fn is_plain(kind: TokenKind) -> bool
    ensures { result ≡ kind_is_word Plain kind }
{
    match kind {
        TokenKind::Word(Word::Plain) => true,
        _ => false,
    }
}

/// Whether the next token is this word.
#[tactic(auto, unfolding(crate::specs::Keywords::next_keyword))]
pub fn next_is_keyword(bytes: &[u8], keyword: Keyword, tokens: &Cursor<'_>) -> bool
    ensures { result ≡ next_keyword bytes.now keyword tokens.now }
{
    match tokens.next() {
        None => false,
        Some(first) => is_plain(first.kind) && bytes_of(bytes, first) == keyword_text(keyword),
    }
}
