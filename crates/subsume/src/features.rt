//! Counts by which clauses that can't subsume another one are passed over.
ghost use Rattle.std.specs.Prelude.{◌≡◌, ◌+◌, ◌≤◌, min, length, fold};
ghost use Rattle.std.specs.List.{flat_map};
ghost use Rattle.subsume.specs.Features.{symbol_numbers, atom_numbers, numbers_of, symbol_counted, features};

use spl_terms::{Atom, Clause, Term};

/// How many features a clause has.
pub(crate) const FEATURES: usize = 19;

/// The number, or the last `u32` where it is greater.
fn clipped(count: usize) -> u32
    ensures { result ≡ min count 4294967295 }
{
    count.min(4_294_967_295) as u32
}

/// Counts one more symbol of this number.
#[tactic(auto, unfolding(crate::specs::Features::symbol_counted))]
fn count_symbol(base: usize, number: u32, counts: &mut [u32])
    requires { base + 8 ≤ length counts.old }
    ensures { counts.new ≡ symbol_counted base counts.old number }
{
    let class = base + (number % 8) as usize;
    counts[class] = counts[class].saturating_add(1);
}

/// Counts the symbols of the term.
#[cycle(count)]
#[tactic(auto, using(crate::proofs::Numbers::number_laws))]
fn count_term(base: usize, term: &Term, counts: &mut [u32])
    requires { base + 8 ≤ length counts.old }
    ensures { counts.new ≡ fold (symbol_counted base) counts.old (symbol_numbers term.now) }
{
    match term {
        Term::Var(_) => {}
        Term::App(symbol, args) => {
            count_symbol(base, symbol.number, counts);
            count_terms(base, args.as_slice(), counts);
        }
    }
}

/// Counts the symbols of the terms.
#[cycle(count)]
#[tactic(auto, using(crate::proofs::Numbers::number_laws))]
fn count_terms(base: usize, terms: &[Term], counts: &mut [u32])
    requires { base + 8 ≤ length counts.old }
    ensures { counts.new ≡ fold (symbol_counted base) counts.old (flat_map symbol_numbers terms.now) }
{
    for term in terms {
        count_term(base, term, counts);
    }
}

/// Counts the symbols of the atom; an equality sign is none.
#[tactic(auto, using(crate::proofs::Numbers::number_laws))]
fn count_atom(base: usize, atom: &Atom, counts: &mut [u32])
    requires { base + 8 ≤ length counts.old }
    ensures { counts.new ≡ fold (symbol_counted base) counts.old (atom_numbers atom.now) }
{
    match atom {
        Atom::Holds(predicate, args) => {
            count_symbol(base, predicate.number, counts);
            count_terms(base, args.as_slice(), counts);
        }
        Atom::Equal(left, right) => {
            count_term(base, left, counts);
            count_term(base, right, counts);
        }
    }
}

/// Counts the symbols of the atoms.
#[tactic(auto, using(crate::proofs::Numbers::number_laws))]
fn count_atoms(base: usize, atoms: &[Atom], counts: &mut [u32])
    requires { base + 8 ≤ length counts.old }
    ensures { counts.new ≡ fold (symbol_counted base) counts.old (numbers_of atoms.now) }
{
    for atom in atoms {
        count_atom(base, atom, counts);
    }
}

/// The features of the clause. It takes no memory.
pub(crate) fn features(clause: &Clause) -> [u32; FEATURES]
    ensures { result ≡ features clause.now }
{
    let mut counts = [0; FEATURES];
    counts[0] = clipped(clause.constraint.len());
    counts[1] = clipped(clause.antecedent.len());
    counts[2] = clipped(clause.succedent.len());
    count_atoms(3, clause.constraint.as_slice(), &mut counts);
    count_atoms(3, clause.antecedent.as_slice(), &mut counts);
    count_atoms(11, clause.succedent.as_slice(), &mut counts);
    counts
}
