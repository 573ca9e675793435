//! Atoms of which no two are the same, filed under their hashes.

ghost use Rattle.std.specs.Prelude.{◌≡◌, ◌++◌, [], ◌∷◌, true, OnOk, OnErr};
ghost use Rattle.std.specs.List.{list_any};
ghost use Rattle.spl_terms.specs.Clauses.{is_same};
ghost use Rattle.normal_form.specs.Filed.{AllFiled};

use spl_terms::{Atom, Items, at, atom_hash, contains_same, same_atom};
use std::alloc::{AllocError, Global};
use std::collections::HashMap;
use std::marker::Model;

/// Atoms in a list, with a place under each of their hashes. Contracts see the list.
#[derive(Drop)]
pub struct FiledAtoms {
    atoms: Items<Atom>,
    /// The place of the last atom with a hash.
    places: HashMap<u64, usize>,
}

impl Model for FiledAtoms {
    ghost use Rattle.std.specs.Prelude.{List};
    ghost use Rattle.std.specs.Coded.{codes};
    ghost use Rattle.spl_terms.specs.contracts.term.Term as term;
    ghost use Rattle.spl_terms.specs.declared.atom.Atom.{Atom};
    ghost use Rattle.normal_form.specs.Filed.{AllFiled};

    ghost Value = { List Atom };

    ghost coded = { Prim.hlevel (codes, term.the_row.coded) };

    ghost view = { λ f. f.atoms };

    ghost invariant = { λ f. AllFiled f.places f.atoms };
}

/// Whether the atom at this place is the same; there may be none.
fn is_at(atoms: &[Atom], place: usize, atom: &Atom) -> bool
    ensures { result ≡ true → list_any (λ b. is_same atom.now b) atoms.now ≡ true }
{
    match at(atoms, place) {
        Some(other) => same_atom(atom, other),
        None => false,
    }
}

/// Whether one of the atoms is the same: the one that is filed under the same hash is looked at first, and all are where
/// that is another atom.
fn is_filed(atoms: &[Atom], places: &HashMap<u64, usize>, atom: &Atom) -> bool
    requires { AllFiled places.now atoms.now }
    ensures { result ≡ list_any (λ b. is_same atom.now b) atoms.now }
{
    match places.get(&atom_hash(atom)) {
        Some(place) => is_at(atoms, *place, atom) || contains_same(atoms, atom),
        None => false,
    }
}

impl FiledAtoms {
    /// No atoms; it takes no memory.
    pub fn new(alloc: Global) -> FiledAtoms
        ensures { result ≡ [] }
    {
        FiledAtoms {
            atoms: Items::new(alloc),
            places: HashMap::new(alloc),
        }
    }

    /// Whether one of the atoms is the same as this one, up to exchanged sides.
    pub fn contains(&self, atom: &Atom) -> bool
        ensures { result ≡ list_any (λ b. is_same atom.now b) self.now }
    {
        is_filed(self.atoms.as_slice(), &self.places, atom)
    }

    /// Adds an atom at the end; on want of memory the list is as before.
    pub fn push(&mut self, atom: Atom) -> Result<(), AllocError>
        ensures ok { OnOk result (self.new ≡ self.old ++ atom ∷ []) }
        ensures err { OnErr result (self.new ≡ self.old) }
    {
        self.places.insert(atom_hash(&atom), self.atoms.len())?;
        self.atoms.push(atom)
    }

    /// The atoms, in their memory.
    pub fn into_atoms(self) -> Items<Atom>
        ensures { result ≡ self }
    {
        let FiledAtoms { atoms, .. } = self;
        atoms
    }
}
