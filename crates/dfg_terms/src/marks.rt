//! One token at a time.

ghost use Rattle.std.specs.Prelude.{◌≡◌};
ghost use Rattle.dfg_tokens.specs.Cursors.{tail};
ghost use Rattle.dfg_terms.specs.Reading.{Gives, place, kind_is_mark, kind_is_word, kind_is_name, kind_is_identifier, kind_is_text, kind_is_stray, is_reserved, next_is, next_mark, next_word, next_name, next_stray, refusal, mark_at, word_at, identifier_at, text_at, name_at, bytes_of, spelled_at};

use crate::fault::{FaultKind, InputError, ReadFault};
use dfg_tokens::{Cursor, Mark, Token, TokenKind, Word, mark_byte, spelled};

/// The place of the next token.
pub fn place(tokens: &Cursor<'_>) -> usize
    ensures { result ≡ place tokens.now }
{
    match tokens.next() {
        None => 0,
        Some(first) => first.at as usize,
    }
}

/// The fault at the next token.
pub fn refused(kind: FaultKind, tokens: &Cursor<'_>) -> InputError
    ensures { result ≡ refusal kind tokens.now }
{
    InputError::Fault(ReadFault {
        at: place(tokens),
        kind,
    })
}

/// The next token doesn't fit.
pub fn unexpected(tokens: &Cursor<'_>) -> InputError
    ensures { result ≡ refusal FaultKind.Unexpected tokens.now }
{
    refused(FaultKind::Unexpected, tokens)
}

/// Whether the word is no name.
fn is_reserved(word: Word) -> bool
    ensures { result ≡ is_reserved word }
{
    match word {
        Word::Forall
        | Word::Exists
        | Word::Not
        | Word::And
        | Word::Or
        | Word::Implies
        | Word::Implied
        | Word::Equiv
        | Word::Equal
        | Word::True
        | Word::False => true,
        _ => false,
    }
}

fn kind_is_mark(mark: Mark, kind: TokenKind) -> bool
    ensures { result ≡ kind_is_mark mark kind }
{
    match kind {
        TokenKind::Mark(found) => mark_byte(found) == mark_byte(mark),
        _ => false,
    }
}

#[tactic(auto, unfolding(crate::specs::Reading::kind_is_word))]
fn kind_is_word(word: Word, kind: TokenKind) -> bool
    ensures { result ≡ kind_is_word word kind }
{
    match kind {
        TokenKind::Word(Word::Plain) => spelled(word).is_empty(),
        TokenKind::Word(found) => spelled(found) == spelled(word),
        _ => false,
    }
}

/// Whether a token of this kind is an identifier that is no reserved word.
pub fn kind_is_name(kind: TokenKind) -> bool
    ensures { result ≡ kind_is_name kind }
{
    match kind {
        TokenKind::Word(found) => !is_reserved(found),
        _ => false,
    }
}

fn kind_is_identifier(kind: TokenKind) -> bool
    ensures { result ≡ kind_is_identifier kind }
{
    match kind {
        TokenKind::Word(_) => true,
        _ => false,
    }
}

fn kind_is_text(kind: TokenKind) -> bool
    ensures { result ≡ kind_is_text kind }
{
    match kind {
        TokenKind::Text => true,
        _ => false,
    }
}

/// Whether a token of this kind is this byte, which begins no token of a problem.
pub fn kind_is_stray(byte: u8, kind: TokenKind) -> bool
    ensures { result ≡ kind_is_stray byte kind }
{
    match kind {
        TokenKind::Stray(found) => found == byte,
        _ => false,
    }
}

/// Whether the next token is this mark.
#[tactic(auto, unfolding(crate::specs::Reading::next_mark))]
pub fn next_is_mark(mark: Mark, tokens: &Cursor<'_>) -> bool
    ensures { result ≡ next_mark mark tokens.now }
{
    match tokens.next() {
        None => false,
        Some(first) => kind_is_mark(mark, first.kind),
    }
}

/// Whether the next token is this word.
#[tactic(auto, unfolding(crate::specs::Reading::next_word))]
pub fn next_is_word(word: Word, tokens: &Cursor<'_>) -> bool
    ensures { result ≡ next_word word tokens.now }
{
    match tokens.next() {
        None => false,
        Some(first) => kind_is_word(word, first.kind),
    }
}

/// Whether the next token is an identifier that is no reserved word.
#[tactic(auto, unfolding(crate::specs::Reading::next_name))]
pub fn next_is_name(tokens: &Cursor<'_>) -> bool
    ensures { result ≡ next_name tokens.now }
{
    match tokens.next() {
        None => false,
        Some(first) => kind_is_name(first.kind),
    }
}

/// Whether the next token is this byte, which begins no token of a problem.
#[tactic(auto, unfolding(crate::specs::Reading::next_stray))]
pub fn next_is_stray(byte: u8, tokens: &Cursor<'_>) -> bool
    ensures { result ≡ next_stray byte tokens.now }
{
    match tokens.next() {
        None => false,
        Some(first) => kind_is_stray(byte, first.kind),
    }
}

/// Goes behind this mark.
#[tactic(auto, unfolding(crate::specs::Reading::mark_at))]
pub fn mark(mark: Mark, tokens: &mut Cursor<'_>) -> Result<(), InputError>
    ensures { Gives (λ _. tokens.new) result (mark_at mark tokens.old) }
{
    if next_is_mark(mark, tokens) {
        tokens.advance();
        Ok(())
    } else {
        Err(unexpected(tokens))
    }
}

/// Goes behind this word.
#[tactic(auto, unfolding(crate::specs::Reading::word_at))]
pub fn word(word: Word, tokens: &mut Cursor<'_>) -> Result<(), InputError>
    ensures { Gives (λ _. tokens.new) result (word_at word tokens.old) }
{
    if next_is_word(word, tokens) {
        tokens.advance();
        Ok(())
    } else {
        Err(unexpected(tokens))
    }
}

/// Any identifier, a reserved word too.
#[tactic(auto, unfolding(crate::specs::Reading::identifier_at))]
pub fn identifier(tokens: &mut Cursor<'_>) -> Result<Token, InputError>
    ensures { Gives (λ t. (t, tokens.new)) result (identifier_at tokens.old) }
{
    match tokens.next() {
        Some(first) if kind_is_identifier(first.kind) => {
            tokens.advance();
            Ok(first)
        }
        _ => Err(unexpected(tokens)),
    }
}

/// An identifier that is no reserved word.
#[tactic(auto, unfolding(crate::specs::Reading::name_at))]
pub fn name(tokens: &mut Cursor<'_>) -> Result<Token, InputError>
    ensures { Gives (λ t. (t, tokens.new)) result (name_at tokens.old) }
{
    match tokens.next() {
        Some(first) if kind_is_name(first.kind) => {
            tokens.advance();
            Ok(first)
        }
        _ => Err(unexpected(tokens)),
    }
}

/// Goes behind a text.
#[tactic(auto, unfolding(crate::specs::Reading::text_at))]
pub fn text(tokens: &mut Cursor<'_>) -> Result<(), InputError>
    ensures { Gives (λ _. tokens.new) result (text_at tokens.old) }
{
    match tokens.next() {
        Some(first) if kind_is_text(first.kind) => {
            tokens.advance();
            Ok(())
        }
        _ => Err(unexpected(tokens)),
    }
}

/// The bytes of the token.
#[tactic(auto, unfolding(crate::specs::Reading::bytes_of))]
pub fn bytes_of(bytes: &[u8], token: Token) -> &[u8]
    ensures { result.now ≡ bytes_of bytes.now token }
{
    let at = bytes.len().min(token.at as usize);
    let (_, rest) = bytes.split_at(at);
    let len = rest.len().min(token.len as usize);
    let (text, _) = rest.split_at(len);
    text
}

/// The name that the identifier spells.
#[tactic(auto, unfolding(crate::specs::Reading::spelled_at))]
pub fn spelled_name(bytes: &[u8], token: Token) -> Result<&str, InputError>
    ensures { Gives (λ name. name.now) result (spelled_at bytes.now token) }
{
    match str::from_utf8(bytes_of(bytes, token)) {
        Ok(name) => Ok(name),
        Err(_) => Err(InputError::Fault(ReadFault {
            at: token.at as usize,
            kind: FaultKind::Unexpected,
        })),
    }
}
