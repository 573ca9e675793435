//! Tests of clauses that need not be kept: tautologies, and clauses contained in others.
ghost use Rattle.std.specs.Prelude.{◌≡◌, count_by, true};
ghost use Rattle.spl_terms.specs.Clauses.{is_same};
ghost use Rattle.spl_truth.specs.Redundancy.{has_equal_sides, is_tautology, is_contained, is_subclause, Subsumes};

use spl_terms::{Atom, Clause, contains_same, same_atom};

fn has_equal_sides(atom: &Atom) -> bool
    ensures { result ≡ has_equal_sides atom.now }
{
    match atom {
        Atom::Holds(_, _) => false,
        Atom::Equal(left, right) => left.equals(right),
    }
}

/// Whether a succedent atom is the same, up to exchanged sides, as an atom of the antecedent or the constraint, or is an
/// equation with equal sides (Weidenbach 2001, the section on reductions). Such a clause is always true where equality
/// is symmetric and reflexive. It takes no memory.
pub fn is_tautology(clause: &Clause) -> bool
    ensures { result ≡ is_tautology clause.now }
{
    let antecedent = clause.antecedent.as_slice();
    let constraint = clause.constraint.as_slice();
    clause.succedent.as_slice().iter().any(|atom| {
        contains_same(antecedent, atom) || contains_same(constraint, atom) || has_equal_sides(atom)
    })
}

fn count_same(atoms: &[Atom], atom: &Atom) -> usize
    ensures { result ≡ count_by (is_same atom.now) atoms.now }
{
    atoms.iter().filter(|other| same_atom(atom, other)).count()
}

fn is_contained(atoms: &[Atom], into: &[Atom]) -> bool
    ensures { result ≡ is_contained atoms.now into.now }
{
    atoms
        .iter()
        .all(|atom| count_same(atoms, atom) <= count_same(into, atom))
}

fn contains_parts(clause: &Clause, other: &Clause) -> bool
    ensures { result ≡ is_subclause clause.now other.now }
{
    is_contained(clause.constraint.as_slice(), other.constraint.as_slice())
        && is_contained(clause.antecedent.as_slice(), other.antecedent.as_slice())
        && is_contained(clause.succedent.as_slice(), other.succedent.as_slice())
}

/// Whether each part of the clause is contained in that part of the other one: each atom is there as often or more
/// often, up to exchanged sides. Then the clause subsumes the other one as it stands (Weidenbach 2001, the section on
/// reductions). It takes no memory.
#[tactic(auto, using(crate::proofs::Subclauses::subclause_laws))]
pub fn is_subclause(clause: &Clause, other: &Clause) -> bool
    ensures exact { result ≡ is_subclause clause.now other.now }
    ensures subsumes { result ≡ true → Subsumes clause.now other.now }
    ensures itself { clause.now ≡ other.now → result ≡ true }
{
    contains_parts(clause, other)
}
