//! What terms are read in, and the variables that stand in them.

ghost use Rattle.std.specs.Prelude.{◌≡◌, Some};
ghost use Rattle.dfg_tokens.specs.Cursors.{tail};
ghost use Rattle.dfg_terms.specs.Reading.{Gives, next_is};
ghost use Rattle.dfg_terms.specs.Terms.{named_at, numbered_at, leaf_of};

use crate::fault::InputError;
use crate::marks::{bytes_of, kind_is_name, kind_is_stray, next_is_stray};
use crate::numbers::numeral;
use crate::scope::Scope;
use dfg_tokens::{Cursor, TokenKind};
use spl_symbols::Signature;

/// How variables are written.
#[derive(Clone, Copy)]
pub enum Variables<'c, 't> {
    /// By names that are bound.
    Named(&'c Scope<'t>),
    /// By `?` and a number, as in proof lists.
    Numbered,
}

/// What terms and atoms are read in.
#[derive(Clone, Copy)]
pub struct Context<'c, 't> {
    /// The text, of which names are looked up.
    pub bytes: &'t [u8],
    /// The declared symbols.
    pub symbols: &'c Signature,
    /// How variables are written.
    pub variables: Variables<'c, 't>,
}

/// A name that is bound, if one stands there.
#[tactic(auto, unfolding(crate::specs::Terms::named_at))]
fn named(
    bytes: &[u8],
    scope: &Scope<'_>,
    tokens: &mut Cursor<'_>,
) -> Result<Option<u32>, InputError>
    ensures { Gives (λ n. (n, tokens.new)) result (named_at bytes.now scope.now tokens.old) }
{
    match tokens.next() {
        Some(first) if kind_is_name(first.kind) => {
            let found = scope.bound(bytes_of(bytes, first));
            if found.is_some() {
                tokens.advance();
            }
            Ok(found)
        }
        _ => Ok(None),
    }
}

/// `?` and a number, if they stand there.
#[tactic(auto, unfolding(crate::specs::Terms::numbered_at))]
fn numbered(bytes: &[u8], tokens: &mut Cursor<'_>) -> Result<Option<u32>, InputError>
    ensures { Gives (λ n. (n, tokens.new)) result (numbered_at bytes.now tokens.old) }
{
    if !next_is_stray(b'?', tokens) {
        return Ok(None);
    }
    tokens.advance();
    let number = numeral(bytes, tokens)?;
    Ok(Some(number))
}

impl<'c, 't> Variables<'c, 't> {
    /// The number of the variable that stands there, if one does.
    pub fn variable(&self, bytes: &[u8], tokens: &mut Cursor<'_>) -> Result<Option<u32>, InputError>
        ensures { Gives (λ n. (n, tokens.new)) result ((leaf_of bytes.now self.now).variable tokens.old) }
    {
        match self {
            Variables::Named(scope) => named(bytes, scope, tokens),
            Variables::Numbered => numbered(bytes, tokens),
        }
    }

    /// Whether a token of this kind may begin a term.
    fn begins(&self, bytes: &[u8], kind: TokenKind) -> bool
        ensures { result ≡ (leaf_of bytes.now self.now).begins kind }
    {
        match self {
            Variables::Named(_) => kind_is_name(kind),
            Variables::Numbered => kind_is_name(kind) || kind_is_stray(b'?', kind),
        }
    }

    /// Whether a term may begin at the next token.
    pub fn term_begins(&self, bytes: &[u8], tokens: &Cursor<'_>) -> bool
        ensures { result ≡ next_is (leaf_of bytes.now self.now).begins tokens.now }
    {
        match tokens.next() {
            None => false,
            Some(first) => self.begins(bytes, first.kind),
        }
    }
}
