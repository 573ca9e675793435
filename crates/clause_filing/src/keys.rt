//! Keys of atoms and masks of clauses.
ghost use Rattle.std.specs.Prelude.{◌≡◌};
ghost use Rattle.clause_filing.specs.Filings.{key, clause_key, bit_of, with_bits, clause_mask, is_within};

use spl_terms::{Atom, Clause, atom_hash};

// ---- keys of atoms

/// The side of atoms of the constraint and the antecedent.
pub const BEFORE_ARROW: u64 = 0;

/// The side of atoms of the succedent.
pub const AFTER_ARROW: u64 = 1;

/// The key of an atom of this side; equal atoms have one key, and so have equations whose sides are exchanged.
pub fn key(side: u64, atom: &Atom) -> u64
    ensures { result ≡ key side atom.now }
{
    atom_hash(atom).wrapping_add(side)
}

/// The key of the clause's first atom, where the succedent comes first; 0 for the empty clause.
pub fn clause_key(clause: &Clause) -> u64
    ensures { result ≡ clause_key clause.now }
{
    match clause.succedent.as_slice() {
        [atom, ..] => key(AFTER_ARROW, atom),
        [] => match clause.antecedent.as_slice() {
            [atom, ..] => key(BEFORE_ARROW, atom),
            [] => match clause.constraint.as_slice() {
                [atom, ..] => key(BEFORE_ARROW, atom),
                [] => 0,
            },
        },
    }
}

// ---- masks of clauses

fn bit_of(key: u64) -> u64
    ensures { result ≡ bit_of key }
{
    1 << (key % 64)
}

/// The mask with the bits of the keys of the atoms added.
fn with_bits(mask: u64, side: u64, atoms: &[Atom]) -> u64
    ensures { result ≡ with_bits mask side atoms.now }
{
    let mut mask = mask;
    for atom in atoms {
        mask |= bit_of(key(side, atom));
    }
    mask
}

/// The bits of the keys of the clause's atoms. Those of a subclause are among them, so most clauses that are none are told
/// by their masks.
pub fn clause_mask(clause: &Clause) -> u64
    ensures { result ≡ clause_mask clause.now }
{
    let constraint = with_bits(0, BEFORE_ARROW, clause.constraint.as_slice());
    let before = with_bits(constraint, BEFORE_ARROW, clause.antecedent.as_slice());
    with_bits(before, AFTER_ARROW, clause.succedent.as_slice())
}

/// Whether each bit of the first mask is one of the other.
pub fn is_within(mask: u64, other: u64) -> bool
    ensures { result ≡ is_within mask other }
{
    mask & other == mask
}
