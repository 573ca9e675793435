//! What may be the name of a symbol.

ghost use Rattle.std.specs.Prelude.{◌≡◌};
ghost use Rattle.std.specs.List.{list_all};
ghost use Rattle.dfg_tokens.specs.Tokens.{is_letter};
ghost use Rattle.dfg_tokens.specs.Names.{is_identifier, is_reserved_word, is_name};

use crate::piece::is_letter;
use crate::word::{RESERVED, spelled};

fn are_letters(text: &[u8]) -> bool
    ensures { result ≡ list_all is_letter text.now }
{
    text.iter().all(|byte| is_letter(*byte))
}

/// Whether the text is ASCII letters, digits and `_`, one or more.
fn is_identifier(text: &[u8]) -> bool
    ensures { result ≡ is_identifier text.now }
{
    !text.is_empty() && are_letters(text)
}

/// Whether the text spells a reserved word.
fn is_reserved_word(text: &[u8]) -> bool
    ensures { result ≡ is_reserved_word text.now }
{
    RESERVED.iter().any(|word| spelled(*word) == text)
}

/// Whether the text may be the name of a symbol: an identifier, ASCII letters, digits and `_`, that is no reserved word
/// (SPASS Input Syntax 1.5, the list of symbols).
pub fn is_name(text: &[u8]) -> bool
    ensures { result ≡ is_name text.now }
{
    is_identifier(text) && !is_reserved_word(text)
}
