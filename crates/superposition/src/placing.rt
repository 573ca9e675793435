//! Instances of terms and atoms with another term at the end of a path, each copied once.
ghost use Rattle.std.specs.Prelude.{◌≡◌, ◌++◌, map, is_some, option_and_then, slice_get, true, IfOk, OnOk};
ghost use Rattle.spl_terms.specs.Terms.{replace};
ghost use Rattle.spl_terms.specs.Clauses.{replace_in_atom};
ghost use Rattle.spl_truth.specs.Truth.{entry};
ghost use Rattle.proof_steps.specs.Spots.{changed_at, subterm, with_subterm, term_under, with_term_under};

use crate::building::add_instances;
use spl_terms::{Atom, Items, Spot, Term};
use spl_truth::replaced;
use std::alloc::{AllocError, Global};

/// Adds the instances of the terms at the end.
fn add_replaced(
    alloc: Global,
    entries: &[Term],
    terms: &[Term],
    made: &mut Items<Term>,
) -> Result<(), AllocError>
    ensures { OnOk result (made.new ≡ made.old ++ map (replace (entry entries.now)) terms.now) }
{
    for term in terms {
        made.push(replaced(alloc, entries, term)?)?;
    }
    Ok(())
}

/// The instance of the term with another one at the end of the path, which leads to a subterm.
#[cycle(placing)]
fn term_with(
    alloc: Global,
    entries: &[Term],
    path: &[u32],
    new: Term,
    term: &Term,
) -> Result<Term, AllocError>
    requires { is_some (subterm path.now term.now) ≡ true }
    ensures { IfOk result (λ made. made ≡ with_subterm path.now new (replace (entry entries.now) term.now)) }
{
    match path {
        [] => Ok(new),
        [place, rest @ ..] => match term {
            Term::Var(_) => unreachable!(),
            Term::App(symbol, args) => {
                let made = terms_with(alloc, entries, *place, rest, new, args.as_slice())?;
                Ok(Term::App(*symbol, made))
            }
        },
    }
}

/// The instances of the terms with another one at the end of the path in the one at this place.
#[cycle(placing)]
fn terms_with(
    alloc: Global,
    entries: &[Term],
    place: u32,
    path: &[u32],
    new: Term,
    terms: &[Term],
) -> Result<Items<Term>, AllocError>
    requires { is_some (option_and_then (subterm path.now) (slice_get terms.now place)) ≡ true }
    ensures { IfOk result (λ made. made ≡
        changed_at place (with_subterm path.now new) (map (replace (entry entries.now)) terms.now)) }
{
    let k = place as usize;
    let mut made = Items::with_room(alloc, terms.len())?;
    add_replaced(alloc, entries, &terms[..k], &mut made)?;
    made.push(term_with(alloc, entries, path, new, &terms[k])?)?;
    add_replaced(alloc, entries, &terms[k + 1..], &mut made)?;
    Ok(made)
}

/// The instance of the atom with another term at the end of the path, which leads to a subterm.
pub(crate) fn atom_with(
    alloc: Global,
    entries: &[Term],
    path: &[u32],
    new: Term,
    atom: &Atom,
) -> Result<Atom, AllocError>
    requires { is_some (term_under path.now atom.now) ≡ true }
    ensures { IfOk result (λ made. made ≡ with_term_under path.now new (replace_in_atom (entry entries.now) atom.now)) }
{
    match path {
        [] => unreachable!(),
        [place, rest @ ..] => match atom {
            Atom::Holds(predicate, args) => {
                let made = terms_with(alloc, entries, *place, rest, new, args.as_slice())?;
                Ok(Atom::Holds(*predicate, made))
            }
            Atom::Equal(left, right) => {
                if *place == 0 {
                    let first = term_with(alloc, entries, rest, new, left)?;
                    return Ok(Atom::Equal(first, replaced(alloc, entries, right)?));
                }
                let first = replaced(alloc, entries, left)?;
                Ok(Atom::Equal(first, term_with(alloc, entries, rest, new, right)?))
            }
        },
    }
}

/// Adds the instances of the atoms at the end, with another term at the end of the path in the atom at this place.
pub(crate) fn add_with(
    alloc: Global,
    entries: &[Term],
    atoms: &[Atom],
    spot: &Spot,
    new: Term,
    made: &mut Items<Atom>,
) -> Result<(), AllocError>
    requires { is_some (option_and_then (term_under spot.now.path) (slice_get atoms.now spot.now.place)) ≡ true }
    ensures { OnOk result (made.new ≡ made.old
        ++ changed_at spot.now.place (with_term_under spot.now.path new)
        (map (replace_in_atom (entry entries.now)) atoms.now)) }
{
    let k = spot.place as usize;
    let (before, behind) = (&atoms[..k], &atoms[k + 1..]);
    add_instances(alloc, entries, before, made)?;
    made.push(atom_with(alloc, entries, spot.path.as_slice(), new, &atoms[k])?)?;
    add_instances(alloc, entries, behind, made)
}
