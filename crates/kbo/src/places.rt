//! Which places of a clause are maximal, and which are eligible for inferences.
ghost use Rattle.std.specs.Prelude.{◌≡◌, ◌==◌, ◌≤◌, sum_by};
ghost use Rattle.std.specs.List.{list_any, flat_map};
ghost use Rattle.spl_terms.specs.Terms.{term_variables};
ghost use Rattle.spl_terms.specs.Clauses.{atom_symbols, atom_variables, clause_symbols};
ghost use Rattle.spl_truth.specs.Places.{measure, none_greater, is_maximal, is_solved, first_unsolved, part_eq, is_eligible};

use crate::measuring::Occurrence;
use crate::walking::{occurs_in, occurs_in_term};
use spl_terms::{Atom, Clause, Part, Term, at};

fn none_greater(part: Part, atoms: &[Atom], occurrence: Occurrence) -> bool
    requires atoms_size { sum_by atom_symbols atoms.now ≤ 4294967295 }
    requires size { atom_symbols occurrence.atom.now ≤ 4294967295 }
    ensures { result ≡ none_greater part atoms.now (measure occurrence.entry.part occurrence.entry.atom.now) }
{
    for atom in atoms {
        if (Occurrence { part, atom }).is_greater(occurrence) {
            return false;
        }
    }
    true
}

/// Whether the atom at this place of this part, from 0, is maximal in the clause: no occurrence of an atom in antecedent
/// or succedent has a greater measure. Where there is no such place it is not.
///
/// The measure of an occurrence in the succedent is the multiset of the atom, read as a term, or of both sides of an
/// equation; left of the arrow each member stands twice (Weidenbach 2001, the section on orderings). It takes no memory.
#[tactic(auto, using(crate::proofs::PlaceLemmas::size_laws))]
pub fn maximal(clause: &Clause, part: Part, place: usize) -> bool
    requires { clause_symbols clause.now ≤ 4294967295 }
    ensures { result ≡ is_maximal clause.now part place }
{
    match at(clause.part(part), place) {
        None => false,
        Some(atom) => {
            let occurrence = Occurrence { part, atom };
            none_greater(Part::Antecedent, clause.antecedent.as_slice(), occurrence)
                && none_greater(Part::Succedent, clause.succedent.as_slice(), occurrence)
        }
    }
}

fn occurs_in_atom(variable: u32, atom: &Atom) -> bool
    ensures { result ≡ list_any (λ w. variable == w) (atom_variables atom.now) }
{
    match atom {
        Atom::Holds(_, args) => occurs_in(variable, args.as_slice()),
        Atom::Equal(left, right) => {
            occurs_in_term(variable, left) || occurs_in_term(variable, right)
        }
    }
}

fn occurs_in_atoms(variable: u32, atoms: &[Atom]) -> bool
    ensures { result ≡ list_any (λ w. variable == w) (flat_map atom_variables atoms.now) }
{
    for atom in atoms {
        if occurs_in_atom(variable, atom) {
            return true;
        }
    }
    false
}

fn is_solved(clause: &Clause, atom: &Atom) -> bool
    ensures { result ≡ is_solved clause.now atom.now }
{
    match atom {
        Atom::Holds(_, args) => match args.as_slice() {
            [Term::Var(variable)] => {
                occurs_in_atoms(*variable, clause.antecedent.as_slice())
                    || occurs_in_atoms(*variable, clause.succedent.as_slice())
            }
            _ => false,
        },
        Atom::Equal(_, _) => false,
    }
}

/// The place of the first atom of the constraint that isn't solved, from 0; none where the constraint is solved. An atom is
/// solved if it is `S(x)` with a variable x of the antecedent or the succedent (Weidenbach 2001, the section on sorts). It
/// takes no memory.
pub fn first_unsolved(clause: &Clause) -> Option<usize>
    ensures { result ≡ first_unsolved clause.now }
{
    clause
        .constraint
        .as_slice()
        .iter()
        .position(|atom| !is_solved(clause, atom))
}

fn same_part(part: Part, other: Part) -> bool
    ensures { result ≡ part_eq part other }
{
    match (part, other) {
        (Part::Constraint, Part::Constraint) => true,
        (Part::Antecedent, Part::Antecedent) => true,
        (Part::Succedent, Part::Succedent) => true,
        _ => false,
    }
}

/// Whether the atom at this place of this part, from 0, is eligible for an inference, where at most one place of the
/// antecedent is selected.
///
/// An atom of the constraint is solved if it is `S(x)` with a variable x of the antecedent or the succedent. While some
/// atom of the constraint isn't solved, only the first such one is eligible; then the selected place alone, where there is
/// one; else each maximal occurrence of antecedent and succedent (Weidenbach 2001, the section on the inference rules). It
/// takes no memory.
pub fn eligible(clause: &Clause, selected: Option<usize>, part: Part, place: usize) -> bool
    requires { clause_symbols clause.now ≤ 4294967295 }
    ensures { result ≡ is_eligible clause.now selected part place }
{
    match first_unsolved(clause) {
        Some(first) => same_part(part, Part::Constraint) && place == first,
        None => match selected {
            Some(chosen) => same_part(part, Part::Antecedent) && place == chosen,
            None => !same_part(part, Part::Constraint) && maximal(clause, part, place),
        },
    }
}
