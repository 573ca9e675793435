//! Whether the bindings of a formula have ascending numbers.

ghost use Rattle.std.specs.Prelude.{◌≡◌, ◌++◌, true, IfSome};
ghost use Rattle.std.specs.List.{flat_map};
ghost use Rattle.formulas.specs.Bindings.{bindings, all_distinct, numbers_from};
ghost use Rattle.formulas.specs.Ascending.{AreWithin};

use crate::formula::{Case, Formula};

/// Whether the numbers of a formula's bindings ascend in the order of the formula, as a reader gives them. Where they do, no
/// two are the same.
#[tactic(auto, using(crate::proofs::Within::within_different))]
pub fn bindings_ascend(formula: &Formula) -> bool
    ensures { result ≡ true → all_distinct (bindings formula.now) ≡ true }
{
    match ascending(formula, 0) {
        Some(_) => true,
        None => false,
    }
}

/// The number behind those of the bindings, where these ascend from this one on.
#[cycle(ascending)]
fn ascending(formula: &Formula, from: u64) -> Option<u64>
    ensures { IfSome result (λ to. AreWithin from to (bindings formula.now)) }
{
    match formula.case() {
        Case::True => Some(from),
        Case::False => Some(from),
        Case::Atom(_) => Some(from),
        Case::Not(part) => ascending(part, from),
        Case::And(parts) => all_ascending(parts, from),
        Case::Or(parts) => all_ascending(parts, from),
        Case::Implies(left, right) => both_ascending(left, right, from),
        Case::Equiv(left, right) => both_ascending(left, right, from),
        Case::Forall(first, count, part) => block_ascending(first, count, part, from),
        Case::Exists(first, count, part) => block_ascending(first, count, part, from),
    }
}

/// The same of two formulas, the one behind the other.
#[cycle(ascending)]
fn both_ascending(left: &Formula, right: &Formula, from: u64) -> Option<u64>
    ensures { IfSome result (λ to. AreWithin from to (bindings left.now ++ bindings right.now)) }
{
    match ascending(left, from) {
        Some(to) => ascending(right, to),
        None => None,
    }
}

/// The same of a quantifier's variables and its part.
#[cycle(ascending)]
fn block_ascending(first: u32, count: u32, part: &Formula, from: u64) -> Option<u64>
    ensures { IfSome result (λ to. AreWithin from to (numbers_from first count ++ bindings part.now)) }
{
    if (first as u64) < from {
        return None;
    }
    ascending(part, first as u64 + count as u64)
}

/// The same of several formulas, one behind the other.
#[cycle(ascending)]
fn all_ascending(parts: &[Formula], from: u64) -> Option<u64>
    ensures { IfSome result (λ to. AreWithin from to (flat_map bindings parts.now)) }
{
    let mut to = from;
    for part in parts {
        match ascending(part, to) {
            Some(next) => to = next,
            None => return None,
        }
    }
    Some(to)
}
