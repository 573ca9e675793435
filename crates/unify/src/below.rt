//! Whether all variables of terms have numbers below a bound, which unifying and matching ask for.
ghost use Rattle.std.specs.Prelude.{◌≡◌, ◌↔◌, IsTrue};
ghost use Rattle.std.specs.List.{list_all};
ghost use Rattle.spl_truth.specs.Unifiers.{HasVariablesBelow, HaveVariablesBelow};
ghost use Rattle.unify.specs.Below.{has_variables_below};

use spl_terms::Term;

#[cycle(below)]
#[tactic(auto, using(crate::proofs::BelowLemmas::below_laws))]
fn below(term: &Term, vars: u32) -> bool
    ensures { result ≡ has_variables_below vars term.now }
{
    match term {
        Term::Var(variable) => *variable < vars,
        Term::App(_, args) => all_below(args.as_slice(), vars),
    }
}

#[cycle(below)]
fn all_below(terms: &[Term], vars: u32) -> bool
    ensures { result ≡ list_all (has_variables_below vars) terms.now }
{
    for term in terms {
        if !below(term, vars) {
            return false;
        }
    }
    true
}

/// Whether each variable of the term is below `vars`, as the calls of this crate require. It takes no memory.
pub fn has_variables_below(term: &Term, vars: u32) -> bool
    ensures { IsTrue result ↔ HasVariablesBelow vars term.now }
{
    below(term, vars)
}

/// Whether each variable of the terms is below `vars`. It takes no memory.
pub fn have_variables_below(terms: &[Term], vars: u32) -> bool
    ensures { IsTrue result ↔ HaveVariablesBelow vars terms.now }
{
    all_below(terms, vars)
}
