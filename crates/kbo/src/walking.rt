//! Occurrences of variables counted by walks, for terms with more variables than a tally counts.
ghost use Rattle.std.specs.Prelude.{◌≡◌, ◌==◌, ◌≤◌, min, sum, map};
ghost use Rattle.std.specs.List.{list_any, list_all, flat_map};
ghost use Rattle.spl_terms.specs.Terms.{term_symbols, term_variables};
ghost use Rattle.spl_truth.specs.Orders.{times, contains_each};
ghost use Rattle.kbo.specs.Tallies.{is_as_often};

use spl_terms::Term;

/// Whether the variable occurs in the term.
#[cycle(searching)]
#[tactic(auto, using(crate::proofs::WalkLemmas::variables_laws))]
pub(crate) fn occurs_in_term(variable: u32, term: &Term) -> bool
    ensures { result ≡ list_any (λ w. variable == w) (term_variables term.now) }
{
    match term {
        Term::Var(other) => variable == *other,
        Term::App(_, args) => occurs_in(variable, args.as_slice()),
    }
}

/// Whether the variable occurs in one of the terms.
#[cycle(searching)]
#[tactic(auto, using(crate::proofs::WalkLemmas::variables_laws))]
pub(crate) fn occurs_in(variable: u32, terms: &[Term]) -> bool
    ensures { result ≡ list_any (λ w. variable == w) (flat_map term_variables terms.now) }
{
    for term in terms {
        if occurs_in_term(variable, term) {
            return true;
        }
    }
    false
}

#[cycle(walking)]
#[tactic(auto, using(crate::proofs::WalkLemmas::times_laws))]
fn times_in_term(variable: u32, term: &Term) -> u64
    ensures { result ≡ min (times variable (term_variables term.now)) 18446744073709551615 }
{
    match term {
        Term::Var(other) => { if variable == *other { 1 } else { 0 } }
        Term::App(_, args) => times_in(variable, args.as_slice()),
    }
}

/// How often the variable occurs in the terms together, or the last value of `u64` where it is more.
#[cycle(walking)]
#[tactic(auto, using(crate::proofs::WalkLemmas::times_laws))]
fn times_in(variable: u32, terms: &[Term]) -> u64
    ensures { result ≡ min (times variable (flat_map term_variables terms.now)) 18446744073709551615 }
{
    let mut count: u64 = 0;
    for term in terms {
        count = count.saturating_add(times_in_term(variable, term));
    }
    count
}

fn no_more_often(variable: u32, terms: &[Term], others: &[Term]) -> bool
    requires terms_size { sum (map term_symbols terms.now) ≤ 4294967295 }
    requires others_size { sum (map term_symbols others.now) ≤ 4294967295 }
    ensures { result ≡ is_as_often terms.now others.now variable }
{
    times_in(variable, others) <= times_in(variable, terms)
}

#[cycle(covering)]
#[tactic(auto, using(crate::proofs::WalkLemmas::variables_laws))]
fn covers_term(part: &Term, terms: &[Term], others: &[Term]) -> bool
    requires terms_size { sum (map term_symbols terms.now) ≤ 4294967295 }
    requires others_size { sum (map term_symbols others.now) ≤ 4294967295 }
    ensures { result ≡ list_all (λ v. is_as_often terms.now others.now v) (term_variables part.now) }
{
    match part {
        Term::Var(variable) => no_more_often(*variable, terms, others),
        Term::App(_, args) => covers_parts(args.as_slice(), terms, others),
    }
}

#[cycle(covering)]
#[tactic(auto, using(crate::proofs::WalkLemmas::variables_laws))]
fn covers_parts(parts: &[Term], terms: &[Term], others: &[Term]) -> bool
    requires terms_size { sum (map term_symbols terms.now) ≤ 4294967295 }
    requires others_size { sum (map term_symbols others.now) ≤ 4294967295 }
    ensures { result ≡ list_all (λ v. is_as_often terms.now others.now v) (flat_map term_variables parts.now) }
{
    for part in parts {
        if !covers_term(part, terms, others) {
            return false;
        }
    }
    true
}

/// Whether no variable occurs more often in the others than in the terms. It walks all of both for each occurrence.
pub(crate) fn contains_each(terms: &[Term], others: &[Term]) -> bool
    requires terms_size { sum (map term_symbols terms.now) ≤ 4294967295 }
    requires others_size { sum (map term_symbols others.now) ≤ 4294967295 }
    ensures { result ≡ contains_each (flat_map term_variables terms.now) (flat_map term_variables others.now) }
{
    covers_parts(others, terms, others)
}
