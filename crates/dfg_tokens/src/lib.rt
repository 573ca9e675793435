//! The tokens of a problem's text, each with its place: identifiers, texts, marks and bytes that belong nowhere.
//!
//! White space and comments may stand between all tokens and are passed over. The token list ends with the end of
//! the input, so each place at which reading can stop is the place of a token. The rules are those of SPASS Input
//! Syntax 1.5 in the form that `docs/grammar.md` states.
#![tactic(auto)]

mod cursor;
mod name;
mod piece;
mod token;
mod word;

pub use cursor::Cursor;
pub use name::is_name;
pub use piece::{Mark, Piece, TokenKind, mark_byte};
pub use token::{Token, tokens_of};
pub use word::{RESERVED, Word, spelled};
