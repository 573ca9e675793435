//! Atoms that are instances of another one, up to exchanged sides.
ghost use Rattle.std.specs.Prelude.{◌≡◌, ℕ, true, length, slice_get, IfOk, MatchOption, IsSomeAnd};
ghost use Rattle.std.specs.List.{list_any};
ghost use Rattle.spl_terms.specs.declared.term.Term.{Term};
ghost use Rattle.spl_terms.specs.Clauses.{atom_terms, is_same, replace_in_atom};
ghost use Rattle.spl_truth.specs.Truth.{entry};
ghost use Rattle.spl_truth.specs.Unifiers.{HaveVariablesBelow};
ghost use Rattle.reductions.specs.Folding.{turned_if};
ghost use Rattle.reductions.specs.Matched.{IsMatchedBy, IsMatched};

use crate::atoms::match_atom;
use spl_terms::Atom;
use spl_truth::Subst;
use std::alloc::{AllocError, Global};
use unify::Bindings;

/// The entries, one for each variable below `vars`, that make the target of the pattern, with the sides of an equation
/// exchanged where `turned` says so; none where there are none.
fn match_turned(
    alloc: Global,
    pattern: &Atom,
    target: &Atom,
    turned: bool,
    vars: u32,
) -> Result<Option<Subst>, AllocError>
    requires { HaveVariablesBelow vars (atom_terms pattern.now) }
    ensures { IfOk result (λ found. MatchOption found
        ((g : ℕ → Term) → turned_if turned (replace_in_atom g pattern.now) ≡ target.now → ⊥)
        (λ s. (length s.terms ≡ vars) × (turned_if turned (replace_in_atom (entry s.terms) pattern.now) ≡ target.now))) }
{
    let mut found = Bindings::new(alloc, vars)?;
    if match_atom(pattern, target, turned, &mut found)? {
        Ok(Some(found.entries(alloc, vars)?))
    } else {
        Ok(None)
    }
}

/// Whether both atoms have one predicate, or both are equations. So it is where the one is an instance of the other.
fn have_same_head(pattern: &Atom, target: &Atom) -> bool
    ensures { (g : ℕ → Term) → IsMatchedBy g pattern.now target.now → result ≡ true }
{
    match (pattern, target) {
        (Atom::Holds(predicate, _), Atom::Holds(other, _)) => predicate.same(*other),
        (Atom::Equal(_, _), Atom::Equal(_, _)) => true,
        _ => false,
    }
}

/// The entries, one for each variable below `vars`, by which the pattern becomes the same as the target; none where there
/// are none. Heads are compared before memory is taken.
fn match_same(
    alloc: Global,
    pattern: &Atom,
    target: &Atom,
    vars: u32,
) -> Result<Option<Subst>, AllocError>
    requires { HaveVariablesBelow vars (atom_terms pattern.now) }
    ensures { IfOk result (λ found. MatchOption found
        ((g : ℕ → Term) → IsMatchedBy g pattern.now target.now → ⊥)
        (λ s. IsMatched vars s.terms pattern.now target.now)) }
{
    if !have_same_head(pattern, target) {
        return Ok(None);
    }
    if let Some(s) = match_turned(alloc, pattern, target, false, vars)? {
        return Ok(Some(s));
    }
    match pattern {
        Atom::Holds(_, _) => Ok(None),
        Atom::Equal(_, _) => {
            let found = match_turned(alloc, pattern, target, true, vars)?;
            Ok(found)
        }
    }
}

/// The first of the targets, by its place from 0, that is the same as an instance of the pattern, and the entries of that
/// instance, one for each variable below `vars`; none where there is none.
pub(crate) fn first_match(
    alloc: Global,
    pattern: &Atom,
    targets: &[Atom],
    vars: u32,
) -> Result<Option<(usize, Subst)>, AllocError>
    requires { HaveVariablesBelow vars (atom_terms pattern.now) }
    ensures { IfOk result (λ found. MatchOption found
        ((g : ℕ → Term) → list_any (is_same (replace_in_atom g pattern.now)) targets.now ≡ true → ⊥)
        (λ f. IsSomeAnd (slice_get targets.now f.0) (IsMatched vars f.1.terms pattern.now))) }
{
    for (place, target) in targets.iter().enumerate() {
        if let Some(s) = match_same(alloc, pattern, target, vars)? {
            return Ok(Some((place, s)));
        }
    }
    Ok(None)
}
