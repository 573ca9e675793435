//! A clause that is built atom by atom, with its count of symbols kept and repeated atoms found by hashes.

ghost use Rattle.std.specs.Prelude.{◌≡◌, ◌+◌, ◌≤◌, ◌++◌, [], ◌∷◌, true, false, min, fold, map, length, take, OnOk, OnErr};
ghost use Rattle.std.specs.List.{list_any};
ghost use Rattle.spl_terms.specs.Clauses.{atom_symbols, clause_symbols, is_same, with_atom, part_of, CanStand, FitsOrBig, IsEmpty};
ghost use Rattle.spl_terms.specs.Hashes.{mixed, term_hash, atom_hash, AreFiled};

use crate::atom::{Atom, same_atom};
use crate::clause::{Clause, Part, PushError, contains_same};
use crate::items::{Items, at};
use crate::term::Term;
use std::alloc::{AllocError, Global};
use std::collections::HashMap;
use std::marker::Model;

// ---- hashes

/// One more number in a hash.
#[tactic(auto, unfolding(crate::specs::Hashes::mixed))]
fn mixed(hash: u64, more: u64) -> u64
    ensures { result ≡ mixed hash more }
{
    hash.wrapping_mul(1_099_511_628_211).wrapping_add(more)
}

#[cycle(hash)]
#[tactic(auto, using(crate::proofs::HashLemmas::hash_laws))]
fn term_hash(term: &Term) -> u64
    ensures { result ≡ term_hash term.now }
{
    match term {
        Term::Var(variable) => mixed(2, *variable as u64),
        Term::App(symbol, args) => with_terms(mixed(1, symbol.number as u64), args.as_slice()),
    }
}

/// The hash, and then those of the terms mixed into it one after another.
#[cycle(hash)]
#[tactic(auto, using(crate::proofs::HashLemmas::hash_laws))]
fn with_terms(start: u64, terms: &[Term]) -> u64
    ensures { result ≡ fold mixed start (map term_hash terms.now) }
{
    let mut hash = start;
    for term in terms {
        hash = mixed(hash, term_hash(term));
    }
    hash
}

/// The number under which an atom is filed: atoms that are the same up to exchanged sides have one number (by the
/// multiplication of Fowler, Noll and Vo).
pub fn atom_hash(atom: &Atom) -> u64
    ensures { result ≡ atom_hash atom.now }
{
    match atom {
        Atom::Holds(predicate, args) => {
            with_terms(mixed(3, predicate.number as u64), args.as_slice())
        }
        Atom::Equal(left, right) => mixed(4, term_hash(left).wrapping_add(term_hash(right))),
    }
}

// ---- one part

/// The atoms of a part, of which no two are the same; those behind the first eight are filed under their hashes.
#[derive(Drop)]
struct FiledAtoms {
    atoms: Items<Atom>,
    /// A place under each hash.
    places: HashMap<u64, usize>,
}

impl Model for FiledAtoms {
    ghost use Rattle.std.specs.Prelude.{List};
    ghost use Rattle.std.specs.Coded.{codes};
    ghost use Rattle.spl_terms.specs.contracts.term.Term as term;
    ghost use Rattle.spl_terms.specs.declared.atom.Atom.{Atom};
    ghost use Rattle.spl_terms.specs.Hashes.{AreFiled};

    ghost Value = { List Atom };

    ghost coded = { Prim.hlevel (codes, term.the_row.coded) };

    ghost view = { λ f. f.atoms };

    ghost invariant = { λ f. AreFiled f.atoms f.places };
}

/// Whether the atom at this place is the same; there may be none.
fn is_at(atoms: &[Atom], place: usize, atom: &Atom) -> bool
    ensures { result ≡ true → list_any (λ b. is_same atom.now b) atoms.now ≡ true }
{
    match at(atoms, place) {
        Some(other) => same_atom(atom, other),
        None => false,
    }
}

/// Whether one of the first eight atoms is the same.
fn is_among_first(atoms: &[Atom], atom: &Atom) -> bool
    requires { 8 ≤ length atoms.now }
    ensures { result ≡ list_any (λ b. is_same atom.now b) (take 8 atoms.now) }
{
    contains_same(&atoms[..8], atom)
}

/// Whether one of the atoms is the same: the one that is filed under the same hash is looked at first. Where that is
/// another atom, all are; where none is filed, the first eight.
fn is_filed(atoms: &[Atom], places: &HashMap<u64, usize>, atom: &Atom) -> bool
    requires many { 8 ≤ length atoms.now }
    requires filed { AreFiled atoms.now places.now }
    ensures { result ≡ list_any (λ b. is_same atom.now b) atoms.now }
{
    match places.get(&atom_hash(atom)) {
        Some(place) => is_at(atoms, *place, atom) || contains_same(atoms, atom),
        None => is_among_first(atoms, atom),
    }
}

impl FiledAtoms {
    fn new(alloc: Global) -> FiledAtoms
        ensures { result ≡ [] }
    {
        FiledAtoms {
            atoms: Items::new(alloc),
            places: HashMap::new(alloc),
        }
    }

    /// Whether one of the atoms is the same as this one, up to exchanged sides.
    fn contains(&self, atom: &Atom) -> bool
        ensures { result ≡ list_any (λ b. is_same atom.now b) self.now }
    {
        let atoms = self.atoms.as_slice();
        if atoms.len() < 8 {
            contains_same(atoms, atom)
        } else {
            is_filed(atoms, &self.places, atom)
        }
    }

    /// Adds an atom at the end; on want of memory the list is as before.
    fn push(&mut self, atom: Atom) -> Result<(), AllocError>
        ensures ok { OnOk result (self.new ≡ self.old ++ atom ∷ []) }
        ensures err { OnErr result (self.new ≡ self.old) }
    {
        let place = self.atoms.len();
        if place >= 8 {
            self.places.insert(atom_hash(&atom), place)?;
        }
        self.atoms.push(atom)
    }

    /// The atoms, in their memory.
    fn into_atoms(self) -> Items<Atom>
        ensures { result ≡ self }
    {
        let FiledAtoms { atoms, .. } = self;
        atoms
    }
}

// ---- the clause

/// The three parts of a clause.
#[derive(Drop)]
struct FiledParts {
    constraint: FiledAtoms,
    antecedent: FiledAtoms,
    succedent: FiledAtoms,
}

impl Model for FiledParts {
    ghost use Rattle.std.specs.Coded.{codes};
    ghost use Rattle.spl_terms.specs.contracts.term.Term as term;
    ghost use Rattle.spl_terms.specs.declared.clause.Clause.{Clause};

    ghost Value = { Clause };

    ghost coded = { Prim.hlevel (codes, term.the_row.coded) };

    ghost view = { λ f. record { constraint = f.constraint; antecedent = f.antecedent; succedent = f.succedent } };
}

impl FiledParts {
    /// Whether an atom of the part is the same as this one, up to exchanged sides.
    fn contains(&self, part: Part, atom: &Atom) -> bool
        ensures { result ≡ list_any (λ b. is_same atom.now b) (part_of self.now part) }
    {
        match part {
            Part::Constraint => self.constraint.contains(atom),
            Part::Antecedent => self.antecedent.contains(atom),
            Part::Succedent => self.succedent.contains(atom),
        }
    }

    /// Adds an atom that is new there at the end of a part; on want of memory the parts are as before.
    fn push(&mut self, part: Part, atom: Atom) -> Result<(), AllocError>
        requires { list_any (λ b. is_same atom b) (part_of self.old part) ≡ false }
        ensures ok { OnOk result (self.new ≡ with_atom self.old part atom) }
        ensures err { OnErr result (self.new ≡ self.old) }
    {
        match part {
            Part::Constraint => self.constraint.push(atom),
            Part::Antecedent => self.antecedent.push(atom),
            Part::Succedent => self.succedent.push(atom),
        }
    }
}

/// A clause that is built atom by atom. Contracts see the clause so far, which has at most 4,096 symbols.
///
/// It adds atoms as `Clause::push_atom` does, but counts no symbol twice, and looks for an atom that is the same in a
/// time that doesn't grow with the part, except where different atoms share a hash.
#[derive(Drop)]
pub struct ClauseBuilder {
    parts: FiledParts,
    /// How many symbols the clause has.
    symbols: u64,
}

impl Model for ClauseBuilder {
    ghost use Rattle.std.specs.Prelude.{◌≡◌, ◌≤◌};
    ghost use Rattle.std.specs.Coded.{codes};
    ghost use Rattle.spl_terms.specs.contracts.term.Term as term;
    ghost use Rattle.spl_terms.specs.declared.clause.Clause.{Clause};
    ghost use Rattle.spl_terms.specs.Clauses.{clause_symbols};

    ghost Value = { Clause };

    ghost coded = { Prim.hlevel (codes, term.the_row.coded) };

    ghost view = { λ b. b.parts };

    ghost invariant = { λ b. (b.symbols ≡ clause_symbols b.parts) × (b.symbols ≤ 4096) };
}

impl ClauseBuilder {
    /// The empty clause. It takes no memory.
    pub fn new(alloc: Global) -> ClauseBuilder
        ensures { IsEmpty result }
    {
        ClauseBuilder {
            parts: FiledParts {
                constraint: FiledAtoms::new(alloc),
                antecedent: FiledAtoms::new(alloc),
                succedent: FiledAtoms::new(alloc),
            },
            symbols: 0,
        }
    }

    /// Adds an atom that is new there, with which the clause has `count` symbols.
    fn push_new(&mut self, part: Part, atom: Atom, count: u64) -> Result<(), PushError>
        requires new { list_any (λ b. is_same atom b) (part_of self.old part) ≡ false }
        requires counted { count ≡ clause_symbols (with_atom self.old part atom) }
        requires small { count ≤ 4096 }
        ensures ok { OnOk result (self.new ≡ with_atom self.old part atom) }
        ensures err { OnErr result (self.new ≡ self.old) }
        ensures big { FitsOrBig (clause_symbols (with_atom self.old part atom)) result }
    {
        match self.parts.push(part, atom) {
            Ok(()) => {
                self.symbols = count;
                Ok(())
            }
            Err(_) => Err(PushError::Memory),
        }
    }

    /// How many symbols the clause has with the atom added at the end, or the last value of `u64`.
    fn grown(&self, atom: &Atom) -> u64
        ensures { result ≡ min (clause_symbols self.now + atom_symbols atom.now) 18446744073709551615 }
    {
        self.symbols.saturating_add(atom.symbols())
    }

    /// Adds an atom at the end of a part, unless one that is the same, up to exchanged sides, stands in that part.
    ///
    /// An atom for the constraint has to be of a sort, and one for the antecedent must not be. `Big` comes exactly where
    /// the clause would have more than 4,096 symbols. After an error the clause is as before.
    #[tactic(auto, using(crate::proofs::ClauseLemmas::growth))]
    pub fn push(&mut self, part: Part, atom: Atom) -> Result<(), PushError>
        requires { CanStand part atom }
        ensures ok { OnOk result (self.new ≡ with_atom self.old part atom) }
        ensures err { OnErr result (self.new ≡ self.old) }
        ensures big { FitsOrBig (clause_symbols (with_atom self.old part atom)) result }
    {
        if self.parts.contains(part, &atom) {
            return Ok(());
        }
        let count = self.grown(&atom);
        if count > 4096 {
            return Err(PushError::Big {
                symbols: count.min(1_000_000),
            });
        }
        self.push_new(part, atom, count)
    }

    /// Adds a copy of the atom, as `push` adds an atom; one that isn't added is not copied.
    #[tactic(auto, using(crate::proofs::ClauseLemmas::growth))]
    pub fn push_copy(&mut self, alloc: Global, part: Part, atom: &Atom) -> Result<(), PushError>
        requires { CanStand part atom.now }
        ensures ok { OnOk result (self.new ≡ with_atom self.old part atom.now) }
        ensures err { OnErr result (self.new ≡ self.old) }
        ensures big { FitsOrBig (clause_symbols (with_atom self.old part atom.now)) result }
    {
        if self.parts.contains(part, atom) {
            return Ok(());
        }
        let count = self.grown(atom);
        if count > 4096 {
            return Err(PushError::Big {
                symbols: count.min(1_000_000),
            });
        }
        match atom.copy(alloc) {
            Ok(copied) => self.push_new(part, copied, count),
            Err(_) => Err(PushError::Memory),
        }
    }

    /// The clause, in the builder's memory.
    pub fn finish(self) -> Clause
        ensures same { result ≡ self }
        ensures small { clause_symbols result ≤ 4096 }
    {
        let ClauseBuilder { parts, .. } = self;
        let FiledParts {
            constraint,
            antecedent,
            succedent,
        } = parts;
        Clause {
            constraint: constraint.into_atoms(),
            antecedent: antecedent.into_atoms(),
            succedent: succedent.into_atoms(),
        }
    }
}
