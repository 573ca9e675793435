//! The subterm of an atom at the end of a path, and another term put there in place.
ghost use Rattle.std.specs.Prelude.{◌≡◌, slice_get};
ghost use Rattle.std.specs.Option.{option_copied};
ghost use Rattle.spl_terms.specs.Clauses.{atom_terms};
ghost use Rattle.proof_steps.specs.Spots.{changed_at, subterm, with_subterm, term_under, with_term_under};

use spl_terms::{Atom, Items, Term, at};

#[tactic(auto, using(crate::proofs::Paths::subterm_laws))]
fn subterm<'a>(path: &[u32], term: &'a Term) -> Option<&'a Term>
    ensures { option_copied result ≡ subterm path.now term.now }
{
    match path {
        [] => Some(term),
        [place, rest @ ..] => match term {
            Term::Var(_) => None,
            Term::App(_, args) => match at(args.as_slice(), *place as usize) {
                Some(arg) => subterm(rest, arg),
                None => None,
            },
        },
    }
}

/// The argument of an atom at this place, from 0; 0 and 1 are the sides of an equation.
#[tactic(auto, using(crate::proofs::Paths::argument_laws))]
fn argument(atom: &Atom, place: u32) -> Option<&Term>
    ensures { option_copied result ≡ slice_get (atom_terms atom.now) place }
{
    match atom {
        Atom::Holds(_, args) => at(args.as_slice(), place as usize),
        Atom::Equal(left, right) => {
            if place == 0 {
                Some(left)
            } else if place == 1 {
                Some(right)
            } else {
                None
            }
        }
    }
}

/// The subterm of the atom at the end of the path; none where there is none. The atom itself is no term.
pub fn term_under<'a>(path: &[u32], atom: &'a Atom) -> Option<&'a Term>
    ensures { option_copied result ≡ term_under path.now atom.now }
{
    match path {
        [] => None,
        [place, rest @ ..] => match argument(atom, *place) {
            Some(term) => subterm(rest, term),
            None => None,
        },
    }
}

#[cycle(set)]
#[tactic(auto, using(crate::proofs::Paths::with_subterm_laws))]
fn set_subterm(path: &[u32], new: Term, term: &mut Term)
    ensures { term.new ≡ with_subterm path.now new term.old }
{
    match path {
        [] => *term = new,
        [place, rest @ ..] => match term {
            Term::Var(_) => {}
            Term::App(_, args) => set_argument(*place as usize, rest, new, args),
        },
    }
}

/// Puts the term at the end of the path in the argument at this place; where there is none nothing changes.
#[cycle(set)]
fn set_argument(place: usize, path: &[u32], new: Term, args: &mut Items<Term>)
    ensures { args.new ≡ changed_at place (with_subterm path.now new) args.old }
{
    let args = args.as_mut_slice();
    if place < args.len() {
        set_subterm(path, new, &mut args[place]);
    }
}

/// Puts the term at the end of the path in the atom; where there is no subterm there nothing changes.
#[tactic(auto, using(crate::proofs::Paths::with_term_under_laws))]
pub fn set_term_under(path: &[u32], new: Term, atom: &mut Atom)
    ensures { atom.new ≡ with_term_under path.now new atom.old }
{
    match path {
        [] => {}
        [place, rest @ ..] => match atom {
            Atom::Holds(_, args) => set_argument(*place as usize, rest, new, args),
            Atom::Equal(left, right) => {
                if *place == 0 {
                    set_subterm(rest, new, left);
                } else if *place == 1 {
                    set_subterm(rest, new, right);
                }
            }
        },
    }
}
