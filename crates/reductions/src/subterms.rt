//! Another term put into a clause in place.
ghost use Rattle.std.specs.Prelude.{◌≡◌};
ghost use Rattle.proof_steps.specs.Spots.{changed_at, with_subterm, with_term_under, with_term_at};

use spl_terms::{Atom, Clause, Items, Part, Spot, Term};

#[cycle(set)]
#[tactic(auto, using(crate::proofs::Paths::with_subterm_laws))]
fn set_subterm(path: &[u32], new: Term, term: &mut Term)
    ensures { term.new ≡ with_subterm path.now new term.old }
{
    match path {
        [] => *term = new,
        [place, rest @ ..] => match term {
            Term::Var(_) => {}
            Term::App(_, args) => set_argument(*place as usize, rest, new, args),
        },
    }
}

/// Puts the term at the end of the path in the argument at this place; where there is none nothing changes.
#[cycle(set)]
fn set_argument(place: usize, path: &[u32], new: Term, args: &mut Items<Term>)
    ensures { args.new ≡ changed_at place (with_subterm path.now new) args.old }
{
    let args = args.as_mut_slice();
    if place < args.len() {
        set_subterm(path, new, &mut args[place]);
    }
}

/// Puts the term at the end of the path in the atom; where there is no subterm there nothing changes.
#[tactic(auto, using(crate::proofs::Paths::with_term_under_laws))]
fn set_term_under(path: &[u32], new: Term, atom: &mut Atom)
    ensures { atom.new ≡ with_term_under path.now new atom.old }
{
    match path {
        [] => {}
        [place, rest @ ..] => match atom {
            Atom::Holds(_, args) => set_argument(*place as usize, rest, new, args),
            Atom::Equal(left, right) => {
                if *place == 0 {
                    set_subterm(rest, new, left);
                } else if *place == 1 {
                    set_subterm(rest, new, right);
                }
            }
        },
    }
}

fn set_term_in(place: usize, path: &[u32], new: Term, atoms: &mut Items<Atom>)
    ensures { atoms.new ≡ changed_at place (with_term_under path.now new) atoms.old }
{
    let atoms = atoms.as_mut_slice();
    if place < atoms.len() {
        set_term_under(path, new, &mut atoms[place]);
    }
}

/// Puts the term at the spot of the clause; where there is no subterm there nothing changes.
pub(crate) fn set_term_at(spot: &Spot, new: Term, clause: &mut Clause)
    ensures { clause.new ≡ with_term_at spot.now new clause.old }
{
    let (place, path) = (spot.place as usize, spot.path.as_slice());
    match spot.part {
        Part::Constraint => set_term_in(place, path, new, &mut clause.constraint),
        Part::Antecedent => set_term_in(place, path, new, &mut clause.antecedent),
        Part::Succedent => set_term_in(place, path, new, &mut clause.succedent),
    }
}
