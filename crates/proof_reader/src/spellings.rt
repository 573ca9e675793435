//! Words of a proof list, which are no words of the grammar of problems.

ghost use Rattle.std.specs.Prelude.{◌≡◌};
ghost use Rattle.std.specs.Str.{bytes_eq};
ghost use Rattle.dfg_terms.specs.Reading.{Gives, kind_is_identifier, next_stray};
ghost use Rattle.proof_reader.specs.Spellings.{next_spells, spelled_at, stray_at, label_at, rule_of, case_rule_of, part_of, direction_of, something_at};

use crate::pairs::RuleName;
use dfg_terms::{InputError, bytes_of, identifier, unexpected};
use dfg_tokens::{Cursor, TokenKind};
use spl_terms::Part;

fn is_same(text: &[u8], word: &[u8]) -> bool
    ensures { result ≡ bytes_eq text.now word.now }
{
    text == word
}

fn is_identifier(kind: TokenKind) -> bool
    ensures { result ≡ kind_is_identifier kind }
{
    match kind {
        TokenKind::Word(_) => true,
        _ => false,
    }
}

/// Whether the next token is an identifier that is spelled so.
#[tactic(auto, unfolding(crate::specs::Spellings::next_spells))]
pub fn next_is_spelled(bytes: &[u8], text: &[u8], tokens: &Cursor<'_>) -> bool
    ensures { result ≡ next_spells bytes.now text.now tokens.now }
{
    match tokens.next() {
        None => false,
        Some(first) => is_identifier(first.kind) && bytes_of(bytes, first) == text,
    }
}

/// Goes behind the identifier that is spelled so.
#[tactic(auto, unfolding(crate::specs::Spellings::spelled_at))]
pub fn spelled(bytes: &[u8], text: &[u8], tokens: &mut Cursor<'_>) -> Result<(), InputError>
    ensures { Gives (λ _. tokens.new) result (spelled_at bytes.now text.now tokens.old) }
{
    if next_is_spelled(bytes, text, tokens) {
        tokens.advance();
        Ok(())
    } else {
        Err(unexpected(tokens))
    }
}

/// Whether the next token is this byte, which begins no token of a problem.
#[tactic(auto, unfolding(dfg_terms::specs::Reading::next_stray))]
fn next_is_stray(byte: u8, tokens: &Cursor<'_>) -> bool
    ensures { result ≡ next_stray byte tokens.now }
{
    match tokens.next() {
        None => false,
        Some(first) => match first.kind {
            TokenKind::Stray(found) => found == byte,
            _ => false,
        },
    }
}

/// Goes behind this byte, which begins no token of a problem.
#[tactic(auto, unfolding(crate::specs::Spellings::stray_at))]
pub fn stray(byte: u8, tokens: &mut Cursor<'_>) -> Result<(), InputError>
    ensures { Gives (λ _. tokens.new) result (stray_at byte tokens.old) }
{
    if next_is_stray(byte, tokens) {
        tokens.advance();
        Ok(())
    } else {
        Err(unexpected(tokens))
    }
}

/// Goes behind a label and its `:`.
#[tactic(auto, unfolding(crate::specs::Spellings::label_at))]
pub fn label(bytes: &[u8], text: &[u8], tokens: &mut Cursor<'_>) -> Result<(), InputError>
    ensures { Gives (λ _. tokens.new) result (label_at bytes.now text.now tokens.old) }
{
    spelled(bytes, text, tokens)?;
    stray(b':', tokens)
}

/// The splitting rule with this short name.
fn case_rule_of(text: &[u8]) -> Option<RuleName>
    ensures { result ≡ case_rule_of text.now }
{
    if is_same(text, b"asm") {
        Some(RuleName::Assume)
    } else if is_same(text, b"cal") {
        Some(RuleName::CaseLeft)
    } else if is_same(text, b"car") {
        Some(RuleName::CaseRight)
    } else if is_same(text, b"cab") {
        Some(RuleName::CaseBoth)
    } else {
        None
    }
}

/// The rule with this short name.
#[tactic(auto, unfolding(crate::specs::Spellings::rule_of))]
fn rule_of(text: &[u8]) -> Option<RuleName>
    ensures { result ≡ rule_of text.now }
{
    if is_same(text, b"inp") {
        Some(RuleName::Input)
    } else if is_same(text, b"res") {
        Some(RuleName::Resolve)
    } else if is_same(text, b"fac") {
        Some(RuleName::Factor)
    } else if is_same(text, b"par") {
        Some(RuleName::Paramodulate)
    } else if is_same(text, b"ref") {
        Some(RuleName::Reflex)
    } else if is_same(text, b"eqf") {
        Some(RuleName::EqFactor)
    } else {
        case_rule_of(text)
    }
}

/// The part with this short name; the succedent only where it may be meant.
#[tactic(auto, unfolding(crate::specs::Spellings::part_of))]
fn part_of(any: bool, text: &[u8]) -> Option<Part>
    ensures { result ≡ part_of any text.now }
{
    if is_same(text, b"con") {
        Some(Part::Constraint)
    } else if is_same(text, b"ant") {
        Some(Part::Antecedent)
    } else if any && is_same(text, b"suc") {
        Some(Part::Succedent)
    } else {
        None
    }
}

/// Whether an equation is read from right to left.
#[tactic(auto, unfolding(crate::specs::Spellings::direction_of))]
fn direction_of(text: &[u8]) -> Option<bool>
    ensures { result ≡ direction_of text.now }
{
    if is_same(text, b"lr") {
        Some(false)
    } else if is_same(text, b"rl") {
        Some(true)
    } else {
        None
    }
}

/// The rule that the next identifier names.
pub fn rule_name(bytes: &[u8], tokens: &mut Cursor<'_>) -> Result<RuleName, InputError>
    ensures { Gives (λ x. (x, tokens.new)) result (something_at rule_of bytes.now tokens.old) }
{
    let fault = unexpected(tokens);
    let name = identifier(tokens)?;
    match rule_of(bytes_of(bytes, name)) {
        Some(rule) => Ok(rule),
        None => Err(fault),
    }
}

/// The part that the next identifier names; the succedent only where it may be meant.
pub fn part(bytes: &[u8], any: bool, tokens: &mut Cursor<'_>) -> Result<Part, InputError>
    ensures { Gives (λ x. (x, tokens.new)) result (something_at (part_of any) bytes.now tokens.old) }
{
    let fault = unexpected(tokens);
    let name = identifier(tokens)?;
    match part_of(any, bytes_of(bytes, name)) {
        Some(part) => Ok(part),
        None => Err(fault),
    }
}

/// Whether the equation is read from right to left, as the next identifier says.
pub fn direction(bytes: &[u8], tokens: &mut Cursor<'_>) -> Result<bool, InputError>
    ensures { Gives (λ x. (x, tokens.new)) result (something_at direction_of bytes.now tokens.old) }
{
    let fault = unexpected(tokens);
    let name = identifier(tokens)?;
    match direction_of(bytes_of(bytes, name)) {
        Some(right_to_left) => Ok(right_to_left),
        None => Err(fault),
    }
}
