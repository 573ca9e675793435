//! Instances of terms and atoms by what variables stand for through bindings, where no unifier is written out.
ghost use Rattle.std.specs.Prelude.{◌≡◌, map, IfOk};
ghost use Rattle.spl_terms.specs.Terms.{replace};
ghost use Rattle.spl_terms.specs.Clauses.{replace_in_atom};
ghost use Rattle.spl_truth.specs.Truth.{entry};
ghost use Rattle.unify.specs.Bindings.{IsTriangular};
ghost use Rattle.superposition.specs.Sizes.{entries_from};

use spl_terms::{Atom, Items, Term};
use std::alloc::{AllocError, Global};
use unify::Bindings;

/// What the variable stands for, where the variables from one on and below another are those from 0 on.
fn entry_of<'a>(
    alloc: Global,
    bindings: &Bindings<'a>,
    from: u32,
    past: u32,
    variable: u32,
) -> Result<Term, AllocError>
    requires { IsTriangular bindings.now.0 bindings.now.1 }
    ensures { IfOk result (λ made. made ≡ entry (entries_from from past bindings.now.1) variable) }
{
    if variable >= past.saturating_sub(from) {
        return Ok(Term::Var(variable));
    }
    bindings.applied_entry(alloc, from + variable)
}

#[cycle(viewing)]
#[tactic(auto, using(crate::proofs::Unified::replace_laws))]
fn term_of<'a>(
    alloc: Global,
    bindings: &Bindings<'a>,
    from: u32,
    past: u32,
    term: &Term,
) -> Result<Term, AllocError>
    requires { IsTriangular bindings.now.0 bindings.now.1 }
    ensures { IfOk result (λ made. made ≡ replace (entry (entries_from from past bindings.now.1)) term.now) }
{
    match term {
        Term::Var(variable) => entry_of(alloc, bindings, from, past, *variable),
        Term::App(symbol, args) => {
            let made = terms_of(alloc, bindings, from, past, args.as_slice())?;
            Ok(Term::App(*symbol, made))
        }
    }
}

#[cycle(viewing)]
#[tactic(auto, using(crate::proofs::Unified::replace_laws))]
fn terms_of<'a>(
    alloc: Global,
    bindings: &Bindings<'a>,
    from: u32,
    past: u32,
    terms: &[Term],
) -> Result<Items<Term>, AllocError>
    requires { IsTriangular bindings.now.0 bindings.now.1 }
    ensures { IfOk result (λ made. made ≡ map (replace (entry (entries_from from past bindings.now.1))) terms.now) }
{
    let mut made = Items::with_room(alloc, terms.len())?;
    for term in terms {
        made.push(term_of(alloc, bindings, from, past, term)?)?;
    }
    Ok(made)
}

/// The instance of the atom. It can be exponentially larger than the atom. The only error is want of memory.
pub(crate) fn atom_of<'a>(
    alloc: Global,
    bindings: &Bindings<'a>,
    from: u32,
    past: u32,
    atom: &Atom,
) -> Result<Atom, AllocError>
    requires { IsTriangular bindings.now.0 bindings.now.1 }
    ensures { IfOk result (λ made. made ≡ replace_in_atom (entry (entries_from from past bindings.now.1)) atom.now) }
{
    match atom {
        Atom::Holds(predicate, args) => {
            let made = terms_of(alloc, bindings, from, past, args.as_slice())?;
            Ok(Atom::Holds(*predicate, made))
        }
        Atom::Equal(left, right) => {
            let first = term_of(alloc, bindings, from, past, left)?;
            Ok(Atom::Equal(first, term_of(alloc, bindings, from, past, right)?))
        }
    }
}
