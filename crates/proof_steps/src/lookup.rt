//! Lines, statements and parents by their numbers.
ghost use Rattle.std.specs.Prelude.{◌≡◌};
ghost use Rattle.std.specs.Option.{option_copied};
ghost use Rattle.proof_steps.specs.Steps.{numbered};
ghost use Rattle.proof_steps.specs.Parents.{parent_at};
ghost use Rattle.proof_steps.specs.Checked.{stated};

use crate::step::{Line, Statement};
use spl_terms::at;

/// The item with this number, from 1; none where there is no such item.
pub fn numbered<T>(items: &[T], number: u32) -> Option<&T>
    ensures { option_copied result ≡ numbered items.now number }
{
    if number == 0 {
        None
    } else {
        at(items, (number - 1) as usize)
    }
}

/// The line with this number, from 1; none where there is no such line.
pub fn numbered_line(lines: &[Line], number: u32) -> Option<&Line>
    ensures { option_copied result ≡ numbered lines.now number }
{
    numbered(lines, number)
}

/// What the line with this number states, from 1; none where there is no such line.
#[tactic(auto, using(crate::proofs::Steps::lookups))]
pub fn numbered_statement(lines: &[Line], number: u32) -> Option<&Statement>
    ensures { option_copied result ≡ numbered (stated lines.now) number }
{
    match numbered(lines, number) {
        Some(line) => Some(&line.stated),
        None => None,
    }
}

/// What the parent at this place of a step's list states, from 0.
pub fn parent<'a>(earlier: &'a [Statement], parents: &[u32], place: usize) -> Option<&'a Statement>
    ensures { option_copied result ≡ parent_at earlier.now parents.now place }
{
    match at(parents, place) {
        Some(number) => numbered(earlier, *number),
        None => None,
    }
}

/// The same where the earlier statements are those of lines.
pub fn parent_line<'a>(lines: &'a [Line], parents: &[u32], place: usize) -> Option<&'a Statement>
    ensures { option_copied result ≡ parent_at (stated lines.now) parents.now place }
{
    match at(parents, place) {
        Some(number) => numbered_statement(lines, *number),
        None => None,
    }
}
