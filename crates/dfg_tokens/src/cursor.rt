//! A cursor over the bytes: the tokens one at a time, each made when it is the next.

ghost use Rattle.std.specs.Prelude.{◌≡◌, ◌+◌, ◌<◌, ◌^◌, length};
ghost use Rattle.dfg_tokens.specs.Tokens.{tokens, tokens_from, IsWarned};
ghost use Rattle.dfg_tokens.specs.Cursors.{first, tail};

use crate::piece::{TokenKind, first_piece, may_still_close};
use crate::token::Token;
use std::marker::Model;

/// The tokens of the bytes that are left, one at a time (SPASS Input Syntax 1.5). It takes no memory, and nothing
/// is read past the next token.
///
/// Contracts see the list of tokens that are left, as [`tokens_of`](crate::tokens_of) gives them: the end of the input
/// is the last one, and behind it there is none.
#[derive(Debug, Drop)]
pub struct Cursor<'a> {
    next: Option<Token>,
    /// The bytes behind the next token.
    left: &'a [u8],
    /// False once it is known that no text closes among them.
    may_close: bool,
}

impl<'a> Model for Cursor<'a> {
    ghost use Rattle.std.specs.Prelude.{List};
    ghost use Rattle.dfg_tokens.specs.declared.token.Token.{Token};
    ghost use Rattle.dfg_tokens.specs.Tokens.{IsWarned};
    ghost use Rattle.dfg_tokens.specs.Cursors.{left_of, IsPlaced};

    ghost Value = { List Token };

    ghost view = { λ c. left_of c.next c.left.now };

    ghost invariant = { λ c. IsPlaced c.next c.left.now × IsWarned c.may_close c.left.now };
}

/// The tokens of the bytes from a place on.
#[tactic(auto, unfolding(crate::specs::Tokens::tokens_from))]
fn scan(place: u32, bytes: &[u8], warned: bool) -> Cursor<'_>
    requires place { place + length bytes.now < 2 ^ 32 }
    requires warned { IsWarned warned bytes.now }
    ensures { result ≡ tokens_from place 0 bytes.now }
{
    let mut at = place;
    let mut left = bytes;
    let mut may_close = warned;
    while !left.is_empty() {
        let next = first_piece(left, may_close);
        let len = next.len as u32;
        may_close = may_still_close(may_close, left, next);
        let (_, rest) = left.split_at(next.len);
        left = rest;
        if let Some(kind) = next.kind {
            return Cursor {
                next: Some(Token { at, len, kind }),
                left,
                may_close,
            };
        }
        at += len;
    }
    Cursor {
        next: Some(Token {
            at,
            len: 0,
            kind: TokenKind::End,
        }),
        left,
        may_close,
    }
}

impl<'a> Cursor<'a> {
    /// A cursor at the first token of the bytes.
    pub fn new(bytes: &'a [u8]) -> Cursor<'a>
        requires { length bytes.now < 2 ^ 32 }
        ensures { result ≡ tokens bytes.now }
    {
        scan(0, bytes, true)
    }

    /// The next token; none behind the end of the input.
    pub fn next(&self) -> Option<Token>
        ensures { result ≡ first self.now }
    {
        self.next
    }

    /// Goes behind the next token.
    pub fn advance(&mut self)
        ensures { self.new ≡ tail self.old }
    {
        if let Some(token) = self.next {
            match token.kind {
                TokenKind::End => self.next = None,
                _ => *self = scan(token.at + token.len, self.left, self.may_close),
            }
        }
    }
}
