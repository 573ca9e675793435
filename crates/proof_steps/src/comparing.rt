//! Terms and atoms under substitutions, compared without being built.
ghost use Rattle.std.specs.Prelude.{◌≡◌, map, option_map};
ghost use Rattle.std.specs.Option.{option_copied};
ghost use Rattle.spl_terms.specs.Terms.{term_eq, terms_eq, replace};
ghost use Rattle.spl_terms.specs.Clauses.{is_same, replace_in_atom};
ghost use Rattle.spl_truth.specs.Truth.{entry};

use spl_terms::{Atom, Term, at};

/// Whether the target is the variable's entry.
fn is_entry(entries: &[Term], variable: u32, target: &Term) -> bool
    ensures { result ≡ term_eq (entry entries.now variable) target.now }
{
    match at(entries, variable as usize) {
        Some(term) => term.equals(target),
        None => Term::Var(variable).equals(target),
    }
}

/// Whether the target is the pattern with each variable replaced by its entry.
#[cycle(instance)]
#[tactic(auto, using(crate::proofs::Compared::instance_laws))]
fn is_instance(pattern: &Term, entries: &[Term], target: &Term) -> bool
    ensures { result ≡ term_eq (replace (entry entries.now) pattern.now) target.now }
{
    match (pattern, target) {
        (Term::Var(variable), _) => is_entry(entries, *variable, target),
        (Term::App(f, args), Term::App(g, others)) => {
            f.same(*g) && are_instances(args.as_slice(), entries, others.as_slice())
        }
        _ => false,
    }
}

#[cycle(instance)]
#[tactic(auto, using(crate::proofs::Compared::instance_laws))]
fn are_instances(patterns: &[Term], entries: &[Term], targets: &[Term]) -> bool
    ensures { result ≡ terms_eq (map (replace (entry entries.now)) patterns.now) targets.now }
{
    match patterns {
        [] => targets.is_empty(),
        [first, rest @ ..] => match targets {
            [] => false,
            [other, more @ ..] => {
                is_instance(first, entries, other) && are_instances(rest, entries, more)
            }
        },
    }
}

/// Whether the variable's entry in the other substitution is the pattern with each variable replaced by its entry.
fn has_entry(pattern: &Term, entries: &[Term], others: &[Term], variable: u32) -> bool
    ensures { result ≡ term_eq (replace (entry entries.now) pattern.now) (entry others.now variable) }
{
    match at(others, variable as usize) {
        Some(term) => is_instance(pattern, entries, term),
        None => is_instance(pattern, entries, &Term::Var(variable)),
    }
}

/// Whether two terms are equal, each under a substitution of its own. It takes no memory.
#[cycle(equal_instances)]
#[tactic(auto, using(crate::proofs::Compared::instance_laws))]
pub fn equal_instances(a: &Term, s: &[Term], b: &Term, t: &[Term]) -> bool
    ensures { result ≡ term_eq (replace (entry s.now) a.now) (replace (entry t.now) b.now) }
{
    match (a, b) {
        (Term::Var(variable), _) => has_entry(b, t, s, *variable),
        (_, Term::Var(variable)) => has_entry(a, s, t, *variable),
        (Term::App(f, args), Term::App(g, others)) => {
            f.same(*g) && all_equal_instances(args.as_slice(), s, others.as_slice(), t)
        }
    }
}

#[cycle(equal_instances)]
#[tactic(auto, using(crate::proofs::Compared::instance_laws))]
fn all_equal_instances(some: &[Term], s: &[Term], others: &[Term], t: &[Term]) -> bool
    ensures { result ≡ terms_eq (map (replace (entry s.now)) some.now) (map (replace (entry t.now)) others.now) }
{
    match some {
        [] => others.is_empty(),
        [first, rest @ ..] => match others {
            [] => false,
            [other, more @ ..] => {
                equal_instances(first, s, other, t) && all_equal_instances(rest, s, more, t)
            }
        },
    }
}

/// Whether two atoms are the same up to exchanged sides, each under a substitution of its own. It takes no memory.
pub fn same_instances(a: &Atom, s: &[Term], b: &Atom, t: &[Term]) -> bool
    ensures { result ≡ is_same (replace_in_atom (entry s.now) a.now) (replace_in_atom (entry t.now) b.now) }
{
    match (a, b) {
        (Atom::Holds(p, args), Atom::Holds(q, others)) => {
            p.same(*q) && all_equal_instances(args.as_slice(), s, others.as_slice(), t)
        }
        (Atom::Equal(left, right), Atom::Equal(first, second)) => {
            equal_instances(left, s, first, t) && equal_instances(right, s, second, t)
                || equal_instances(left, s, second, t) && equal_instances(right, s, first, t)
        }
        _ => false,
    }
}
