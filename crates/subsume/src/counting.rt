//! Tests by numbers of atoms and symbols, which two clauses pass where one subsumes the other.
ghost use Rattle.std.specs.Prelude.{◌≡◌, ℕ, true, min, sum_by};
ghost use Rattle.spl_terms.specs.declared.term.Term.{Term};
ghost use Rattle.spl_terms.specs.Clauses.{atom_symbols};
ghost use Rattle.spl_truth.specs.Redundancy.{MapsApart, Subsumes};

use spl_terms::{Atom, Clause, Part};

/// How many symbols the atoms have together, or the last value of `u64` where there are more.
fn symbols_in(atoms: &[Atom]) -> u64
    ensures { result ≡ min (sum_by atom_symbols atoms.now) 18446744073709551615 }
{
    let mut count: u64 = 0;
    for atom in atoms {
        count = count.saturating_add(atom.symbols());
    }
    count
}

/// Whether there are as many of the other atoms, with as many symbols, or more.
fn is_no_larger(atoms: &[Atom], into: &[Atom]) -> bool
    ensures { (g : ℕ → Term) → MapsApart g atoms.now into.now → result ≡ true }
{
    atoms.len() <= into.len() && symbols_in(atoms) <= symbols_in(into)
}

/// Whether, part by part, d has as many atoms and symbols as c, or more. So it is where c subsumes d. It takes no memory.
pub(crate) fn may_subsume(c: &Clause, d: &Clause) -> bool
    ensures { Subsumes c.now d.now → result ≡ true }
{
    if !is_no_larger(c.part(Part::Constraint), d.part(Part::Constraint)) {
        return false;
    }
    if !is_no_larger(c.part(Part::Antecedent), d.part(Part::Antecedent)) {
        return false;
    }
    is_no_larger(c.part(Part::Succedent), d.part(Part::Succedent))
}
