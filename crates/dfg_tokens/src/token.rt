//! All tokens of the bytes.

ghost use Rattle.std.specs.Prelude.{◌≡◌, ◌<◌, ◌^◌, ◌++◌, [], length, IfOk, OnOk};
ghost use Rattle.dfg_tokens.specs.Tokens.{tokens, token_if, AreTokensOf};

use crate::piece::{Piece, TokenKind, first_piece, may_still_close};
use std::alloc::{AllocError, Global};

/// A token, or the end of the input.
#[derive(Clone, Copy, Debug)]
pub struct Token {
    /// The place of its first byte, from 0; for the end, how many bytes there are.
    pub at: u32,
    /// How many bytes it takes.
    pub len: u32,
    /// What it is.
    pub kind: TokenKind,
}

/// Adds the piece, if it is a token.
fn push_piece(found: &mut Vec<Token>, at: u32, next: Piece) -> Result<(), AllocError>
    requires { next.len < 2 ^ 32 }
    ensures { OnOk result (found.new.items ≡ found.old.items ++ token_if next.kind at next.len []) }
{
    if let Some(kind) = next.kind {
        let len = next.len as u32;
        found.push(Token { at, len, kind })?;
    }
    Ok(())
}

/// The tokens of the bytes in order, and at last their end (SPASS Input Syntax 1.5).
///
/// Each identifier has letters, digits and `_` alone and is the word that its bytes spell, and each mark is its byte. An error is want of memory.
#[tactic(auto, unfolding(crate::specs::Tokens::tokens_from), using(crate::proofs::Skip::whole))]
pub fn tokens_of(alloc: Global, bytes: &[u8]) -> Result<Vec<Token>, AllocError>
    requires { length bytes.now < 2 ^ 32 }
    ensures exact { IfOk result (λ found. found.items ≡ tokens bytes.now) }
    ensures spelled { IfOk result (λ found. AreTokensOf bytes.now found.items) }
{
    let mut found = Vec::new(alloc);
    let mut at: u32 = 0;
    let mut left = bytes;
    let mut may_close = true;
    while !left.is_empty() {
        let next = first_piece(left, may_close);
        push_piece(&mut found, at, next)?;
        may_close = may_still_close(may_close, left, next);
        at += next.len as u32;
        let (_, rest) = left.split_at(next.len);
        left = rest;
    }
    found.push(Token {
        at,
        len: 0,
        kind: TokenKind::End,
    })?;
    Ok(found)
}
