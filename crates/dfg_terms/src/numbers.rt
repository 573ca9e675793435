//! Numbers in texts.

ghost use Rattle.std.specs.Prelude.{◌≡◌};
ghost use Rattle.dfg_terms.specs.Reading.{Gives};
ghost use Rattle.dfg_terms.specs.Numbers.{digits_from, has_leading_zero, arity_of, numeral_of, arity_at, numeral_at};

use crate::fault::InputError;
use crate::marks::{bytes_of, identifier, unexpected};
use dfg_tokens::Cursor;

/// The number that one to three digits spell.
#[tactic(auto, unfolding(crate::specs::Numbers::arity_of))]
fn arity_of(text: &[u8]) -> Option<u32>
    ensures { result ≡ arity_of text.now }
{
    if text.is_empty() || text.len() > 3 {
        return None;
    }
    let mut number: u32 = 0;
    for digit in text {
        if *digit < b'0' || *digit > b'9' {
            return None;
        }
        number = number * 10 + (*digit - b'0') as u32;
    }
    Some(number)
}

fn has_leading_zero(text: &[u8]) -> bool
    ensures { result ≡ has_leading_zero text.now }
{
    match text {
        [first, _, ..] => *first == b'0',
        _ => false,
    }
}

/// The number up to 4,294,967,295 that at most ten digits spell without leading zeros.
#[tactic(auto, unfolding(crate::specs::Numbers::numeral_of))]
fn numeral_of(text: &[u8]) -> Option<u32>
    ensures { result ≡ numeral_of text.now }
{
    if text.is_empty() || text.len() > 10 || has_leading_zero(text) {
        return None;
    }
    let mut number: u64 = 0;
    for digit in text {
        if *digit < b'0' || *digit > b'9' {
            return None;
        }
        number = number * 10 + (*digit - b'0') as u64;
    }
    if number <= 4294967295 {
        Some(number as u32)
    } else {
        None
    }
}

/// A number of arguments, as one to three digits spell it. The fault is Unexpected at its place.
#[tactic(auto, unfolding(crate::specs::Numbers::arity_at))]
pub fn arity(bytes: &[u8], tokens: &mut Cursor<'_>) -> Result<u32, InputError>
    ensures { Gives (λ n. (n, tokens.new)) result (arity_at bytes.now tokens.old) }
{
    let fault = unexpected(tokens);
    let number = identifier(tokens)?;
    match arity_of(bytes_of(bytes, number)) {
        Some(arity) => Ok(arity),
        None => Err(fault),
    }
}

/// A number up to 4,294,967,295, in digits without leading zeros. The fault is Unexpected at its place.
#[tactic(auto, unfolding(crate::specs::Numbers::numeral_at))]
pub fn numeral(bytes: &[u8], tokens: &mut Cursor<'_>) -> Result<u32, InputError>
    ensures { Gives (λ n. (n, tokens.new)) result (numeral_at bytes.now tokens.old) }
{
    let fault = unexpected(tokens);
    let number = identifier(tokens)?;
    match numeral_of(bytes_of(bytes, number)) {
        Some(number) => Ok(number),
        None => Err(fault),
    }
}
