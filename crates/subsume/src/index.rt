//! An index of clauses by their features, to find those that may subsume another one.
ghost use Rattle.std.specs.Prelude.{◌≡◌, ◌⊎◌, ℕ, List, [], ◌<◌, Some, IfOk, OnOk, OnErr, MatchBool, Contains, slice_get};
ghost use Rattle.spl_terms.specs.declared.clause.Clause.{Clause};
ghost use Rattle.spl_truth.specs.Redundancy.{Subsumes};
ghost use Rattle.subsume.specs.Features.{features};
ghost use Rattle.subsume.specs.Tries.{AreAtMost};
ghost use Rattle.subsume.specs.Held.{IsInSlot, AreFound, IsUnder, IsAlsoHeld, IsNoLongerHeld, IsStillNotHeld};

use crate::features::features;
use crate::slots::{HeldClause, add_keys, empty_slot, slot_of};
use crate::trie::Trie;
use spl_terms::Clause;
use std::alloc::{AllocError, Global};
use std::marker::Model;

/// A set of clauses with keys, in which those that may subsume a given clause are found by numbers of atoms and symbols
/// (Schulz 2013, "Simple and efficient clause subsumption with feature vector indexing").
///
/// Contracts see the pairs of a clause and its key, in some order, each once.
#[derive(Drop)]
pub struct FeatureIndex {
    /// The features of each clause that is held, and behind them its slot.
    trie: Trie,
    /// The clauses with their keys; a slot from which one was removed is used for the next one with the same features.
    slots: Vec<Option<HeldClause>>,
    alloc: Global,
}

impl Model for FeatureIndex {
    ghost use Rattle.std.specs.Prelude.{ℕ, List};
    ghost use Rattle.std.specs.Coded.{codes};
    ghost use Rattle.spl_terms.specs.contracts.term.Term as term;
    ghost use Rattle.spl_terms.specs.declared.clause.Clause.{Clause};
    ghost use Rattle.subsume.specs.Held.{held_pairs};
    ghost use Rattle.subsume.specs.Filed.{IsFeatureIndex};

    ghost Value = { List (Clause × ℕ) };

    ghost coded = { Prim.hlevel (codes, term.the_row.coded) };

    ghost view = { λ i. held_pairs i.slots.items };

    ghost invariant = { IsFeatureIndex };
}

/// The keys in the slots to which counts within these limits lead.
fn keys_within(
    alloc: Global,
    trie: &Trie,
    slots: &[Option<HeldClause>],
    limits: &[u32],
) -> Result<Vec<u32>, AllocError>
    ensures all { IfOk result (λ keys. (fs : List ℕ) (slot : ℕ) (c : Clause) (k : ℕ)
        → AreAtMost fs limits.now → IsUnder trie.now fs slot → IsInSlot slots.now slot c k
        → Contains keys.items k) }
    ensures held { IfOk result (λ keys. (k : ℕ) → Contains keys.items k
        → (slot : ℕ) × (c : Clause) × IsInSlot slots.now slot c k) }
{
    let mut leaves = Vec::new(alloc);
    trie.add_reached(0, limits, &mut leaves)?;
    let mut keys = Vec::new(alloc);
    for leaf in &leaves {
        add_keys(trie, slots, *leaf, &mut keys)?;
    }
    Ok(keys)
}

impl FeatureIndex {
    /// Nothing is held; it takes no memory.
    pub fn new(alloc: Global) -> FeatureIndex
        ensures { result ≡ [] }
    {
        FeatureIndex {
            trie: Trie::new(alloc),
            slots: Vec::new(alloc),
            alloc,
        }
    }

    /// Holds the clause with the key from now on; where it is held, nothing changes.
    ///
    /// # Errors
    ///
    /// Only where there is no memory, or more than 4,294,967,295 pairs were inserted. Then the same pairs are held as
    /// before.
    pub fn insert(&mut self, clause: &Clause, key: u32) -> Result<(), AllocError>
        ensures ok { OnOk result (IsAlsoHeld self.old self.new clause.now key) }
        ensures err { OnErr result (self.new ≡ self.old) }
    {
        let counts = features(clause);
        match slot_of(&self.trie, self.slots.as_slice(), &counts, clause, key) {
            None => {}
            Some(_) => return Ok(()),
        }
        let held = HeldClause {
            clause: clause.copy(self.alloc)?,
            key,
        };
        match empty_slot(&self.trie, self.slots.as_slice(), &counts) {
            None => {}
            Some(slot) => {
                self.slots[slot as usize] = Some(held);
                return Ok(());
            }
        }
        let slot = self.slots.len();
        if slot > 4_294_967_294 {
            return Err(AllocError);
        }
        self.slots.reserve(1)?;
        let leaf = self.trie.made(&counts)?;
        self.trie.child_made(leaf, slot as u32)?;
        self.slots.push_reserved(Some(held));
        Ok(())
    }

    /// Holds the clause with this key no longer, and says whether it was held. It takes no memory. What it took to hold the
    /// clause is given back, but for a few words.
    pub fn remove(&mut self, clause: &Clause, key: u32) -> bool
        ensures { MatchBool result
            (IsNoLongerHeld self.old self.new clause.now key)
            (IsStillNotHeld self.old self.new clause.now key) }
    {
        let counts = features(clause);
        match slot_of(&self.trie, self.slots.as_slice(), &counts, clause, key) {
            None => false,
            Some(slot) => {
                self.slots[slot as usize] = None;
                true
            }
        }
    }

    /// Keys of pairs that are held, among them those of all clauses that subsume this one. A key may come more than once,
    /// if it is held with several clauses.
    ///
    /// A clause is passed over where it has more atoms in some part, or more symbols of a class on one side of the arrow,
    /// than the given one.
    ///
    /// # Errors
    ///
    /// Only where there is no memory.
    pub fn candidates(&self, clause: &Clause) -> Result<Vec<u32>, AllocError>
        ensures subsuming { IfOk result (λ keys. (c : Clause) (k : ℕ)
            → Contains self.now (c, k) → Subsumes c clause.now → Contains keys.items k) }
        ensures held { IfOk result (λ keys. (k : ℕ) → Contains keys.items k
            → (c : Clause) × Contains self.now (c, k)) }
    {
        let limits = features(clause);
        let keys = keys_within(self.alloc, &self.trie, self.slots.as_slice(), &limits)?;
        Ok(keys)
    }
}
