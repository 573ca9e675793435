//! Quick tests that terms with a unifier, or with a matcher, pass.
ghost use Rattle.std.specs.Prelude.{◌≡◌};
ghost use Rattle.unify.specs.Fitting.{fits, all_fit, covers, all_cover};

use spl_terms::Term;

/// Whether the terms may be unified as far as their symbols go: one of them is a variable, or both are applications of
/// one symbol to as many arguments, which fit one by one. Two terms with a unifier fit. It takes no memory.
#[cycle(fitting)]
#[tactic(auto, using(crate::proofs::FittingLemmas::fits_laws))]
pub fn fits(a: &Term, b: &Term) -> bool
    ensures { result ≡ fits a.now b.now }
{
    match (a, b) {
        (Term::App(f, args), Term::App(g, others)) => {
            f.same(*g) && all_fit(args.as_slice(), others.as_slice())
        }
        _ => true,
    }
}

/// Whether there are as many terms in both lists, and they fit one by one. It takes no memory.
#[cycle(fitting)]
#[tactic(auto, using(crate::proofs::FittingLemmas::fits_laws))]
pub fn all_fit(some: &[Term], others: &[Term]) -> bool
    ensures { result ≡ all_fit some.now others.now }
{
    match some {
        [] => others.is_empty(),
        [first, rest @ ..] => match others {
            [] => false,
            [other, more @ ..] => fits(first, other) && all_fit(rest, more),
        },
    }
}

/// Whether the target may be an instance of the pattern as far as their symbols go: the pattern is a variable, or both
/// are applications of one symbol to as many arguments, which it covers one by one. A term covers each of its instances.
/// It takes no memory.
#[cycle(covering)]
#[tactic(auto, using(crate::proofs::FittingLemmas::covers_laws))]
pub fn covers(pattern: &Term, target: &Term) -> bool
    ensures { result ≡ covers pattern.now target.now }
{
    match pattern {
        Term::Var(_) => true,
        Term::App(symbol, args) => match target {
            Term::Var(_) => false,
            Term::App(other, others) => {
                symbol.same(*other) && all_cover(args.as_slice(), others.as_slice())
            }
        },
    }
}

/// Whether there are as many patterns as targets, and each pattern covers the target at its place. It takes no memory.
#[cycle(covering)]
#[tactic(auto, using(crate::proofs::FittingLemmas::covers_laws))]
pub fn all_cover(patterns: &[Term], targets: &[Term]) -> bool
    ensures { result ≡ all_cover patterns.now targets.now }
{
    match patterns {
        [] => targets.is_empty(),
        [first, rest @ ..] => match targets {
            [] => false,
            [other, more @ ..] => covers(first, other) && all_cover(rest, more),
        },
    }
}
