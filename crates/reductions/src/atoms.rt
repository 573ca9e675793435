//! The matching of one atom with another.
ghost use Rattle.std.specs.Prelude.{◌≡◌, ◌||◌, IfOk};
ghost use Rattle.std.specs.List.{list_any};
ghost use Rattle.spl_terms.specs.Terms.{replace};
ghost use Rattle.spl_terms.specs.Clauses.{atom_terms, replace_in_atom};
ghost use Rattle.spl_truth.specs.Unifiers.{occurs, HasVariablesBelow, HaveVariablesBelow};
ghost use Rattle.unify.specs.Matches.{FoundOrNot, IsExtended};
ghost use Rattle.reductions.specs.Folding.{turned_if};

use spl_terms::{Atom, Term};
use std::alloc::AllocError;
use unify::{Bindings, match_term, match_terms};

/// Goes on from the bindings so far to such that make the two targets of the two patterns.
fn match_both<'a>(
    one: &'a Term,
    other: &'a Term,
    to_one: &'a Term,
    to_other: &'a Term,
    found: &mut Bindings<'a>,
) -> Result<bool, AllocError>
    requires one { HasVariablesBelow found.old.0 one.now }
    requires other { HasVariablesBelow found.old.0 other.now }
    ensures found { IfOk result (λ yes. FoundOrNot
        (λ g. (replace g one.now ≡ to_one.now) × (replace g other.now ≡ to_other.now))
        (λ v. occurs v one.now || occurs v other.now)
        found.old.1 found.new.1 yes) }
    ensures extended { IsExtended found.old found.new }
{
    if !match_term(one, to_one, found)? {
        return Ok(false);
    }
    let matches = match_term(other, to_other, found)?;
    Ok(matches)
}

/// Goes on from the bindings so far to such that make the target of the pattern, with the sides of an equation exchanged
/// where `turned` says so. No variable of the target is bound for standing in it.
pub(crate) fn match_atom<'a>(
    pattern: &'a Atom,
    target: &'a Atom,
    turned: bool,
    found: &mut Bindings<'a>,
) -> Result<bool, AllocError>
    requires { HaveVariablesBelow found.old.0 (atom_terms pattern.now) }
    ensures found { IfOk result (λ yes. FoundOrNot
        (λ g. turned_if turned (replace_in_atom g pattern.now) ≡ target.now)
        (λ v. list_any (occurs v) (atom_terms pattern.now))
        found.old.1 found.new.1 yes) }
    ensures extended { IsExtended found.old found.new }
{
    match (pattern, target) {
        (Atom::Holds(predicate, args), Atom::Holds(other, others)) => {
            if !predicate.same(*other) {
                return Ok(false);
            }
            let matches = match_terms(args.as_slice(), others.as_slice(), found)?;
            Ok(matches)
        }
        (Atom::Equal(left, right), Atom::Equal(to_left, to_right)) => {
            if turned {
                let matches = match_both(left, right, to_right, to_left, found)?;
                return Ok(matches);
            }
            let matches = match_both(left, right, to_left, to_right, found)?;
            Ok(matches)
        }
        _ => Ok(false),
    }
}
