//! Matching: substitutions that make a target of a pattern.
ghost use Rattle.std.specs.Prelude.{◌≡◌, ◌==◌, ℕ, ◌<◌, map, IfOk, MatchOption};
ghost use Rattle.std.specs.List.{list_any};
ghost use Rattle.spl_terms.specs.declared.term.Symbol.{Symbol};
ghost use Rattle.spl_terms.specs.declared.term.Term.{App};
ghost use Rattle.spl_terms.specs.Terms.{replace};
ghost use Rattle.spl_truth.specs.Unifiers.{occurs, HasVariablesBelow, HaveVariablesBelow};
ghost use Rattle.spl_truth.specs.Matching.{IsMatcher, HasNoMatcher};
ghost use Rattle.unify.specs.Matches.{FoundOrNot, IsExtended};

use crate::bindings::Bindings;
use crate::fitting::{all_cover, covers};
use spl_terms::Term;
use spl_truth::Subst;
use std::alloc::{AllocError, Global};

fn match_variable<'a>(
    variable: u32,
    target: &'a Term,
    found: &mut Bindings<'a>,
) -> Result<bool, AllocError>
    requires { variable < found.old.0 }
    ensures found { IfOk result (λ yes. FoundOrNot (λ g. g variable ≡ target.now) (λ v. v == variable) found.old.1 found.new.1 yes) }
    ensures extended { IsExtended found.old found.new }
{
    match found.get(variable) {
        Some(term) => Ok(term.equals(target)),
        None => {
            found.bind(variable, target)?;
            Ok(true)
        }
    }
}

/// Goes on from the bindings so far to such that make the target of the pattern, and says whether there are any.
///
/// On true, the maps that agree with the new bindings are those that agree with the old ones and make the target of
/// the pattern; on false, there are none. Either way, and on want of memory, which is the only error, the old bindings
/// are still there, and new ones stand before them. No variable of the target is bound for standing in it.
#[cycle(matching)]
#[tactic(auto, using(crate::proofs::MatchLemmas::measures))]
pub fn match_term<'a>(
    pattern: &Term,
    target: &'a Term,
    found: &mut Bindings<'a>,
) -> Result<bool, AllocError>
    requires { HasVariablesBelow found.old.0 pattern.now }
    ensures found { IfOk result (λ yes. FoundOrNot (λ g. replace g pattern.now ≡ target.now) (λ v. occurs v pattern.now) found.old.1 found.new.1 yes) }
    ensures extended { IsExtended found.old found.new }
{
    match pattern {
        Term::Var(variable) => {
            let matches = match_variable(*variable, target, found)?;
            Ok(matches)
        }
        Term::App(symbol, args) => match target {
            Term::Var(_) => Ok(false),
            Term::App(other, others) => {
                if !symbol.same(*other) {
                    return Ok(false);
                }
                let matches = match_terms(args.as_slice(), others.as_slice(), found)?;
                Ok(matches)
            }
        },
    }
}

/// The same for each pattern and the target at its place; false where there are not as many.
#[cycle(matching)]
#[tactic(auto, using(crate::proofs::MatchLemmas::measures))]
pub fn match_terms<'a>(
    patterns: &[Term],
    targets: &'a [Term],
    found: &mut Bindings<'a>,
) -> Result<bool, AllocError>
    requires { HaveVariablesBelow found.old.0 patterns.now }
    ensures found { IfOk result (λ yes. FoundOrNot
        (λ g. map (replace g) patterns.now ≡ targets.now)
        (λ v. list_any (occurs v) patterns.now)
        found.old.1 found.new.1 yes) }
    ensures extended { IsExtended found.old found.new }
{
    if patterns.len() != targets.len() {
        return Ok(false);
    }
    for (place, pattern) in patterns.iter().enumerate() {
        if !match_term(pattern, &targets[place], found)? {
            return Ok(false);
        }
    }
    Ok(true)
}

/// The substitution that makes the target of the pattern, with an entry for each variable below `vars`; none exactly
/// where no instance of the pattern is the target. An entry of a variable that doesn't occur in the pattern is the
/// variable itself. The only error is want of memory.
pub fn match_into(
    alloc: Global,
    pattern: &Term,
    target: &Term,
    vars: u32,
) -> Result<Option<Subst>, AllocError>
    requires { HasVariablesBelow vars pattern.now }
    ensures { IfOk result (λ found. MatchOption found
        (HasNoMatcher pattern.now target.now)
        (λ s. IsMatcher vars pattern.now target.now s.terms)) }
{
    if !covers(pattern, target) {
        return Ok(None);
    }
    let mut found = Bindings::new(alloc, vars)?;
    if match_term(pattern, target, &mut found)? {
        Ok(Some(found.entries(alloc, vars)?))
    } else {
        Ok(None)
    }
}

/// The same for lists of arguments: what `match_into` answers for any one symbol applied to the patterns and to the
/// targets, so that atoms of one predicate can be matched where they stand.
pub fn match_arguments(
    alloc: Global,
    patterns: &[Term],
    targets: &[Term],
    vars: u32,
) -> Result<Option<Subst>, AllocError>
    requires { HaveVariablesBelow vars patterns.now }
    ensures { (head : Symbol) → IfOk result (λ found. MatchOption found
        (HasNoMatcher (App head patterns.now) (App head targets.now))
        (λ s. IsMatcher vars (App head patterns.now) (App head targets.now) s.terms)) }
{
    if !all_cover(patterns, targets) {
        return Ok(None);
    }
    let mut found = Bindings::new(alloc, vars)?;
    if match_terms(patterns, targets, &mut found)? {
        Ok(Some(found.entries(alloc, vars)?))
    } else {
        Ok(None)
    }
}
