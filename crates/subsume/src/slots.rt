//! Clauses with their keys, each in a slot, and the look-up of slots by features.
ghost use Rattle.std.specs.Prelude.{◌≡◌, ◌⊎◌, ⊤, ℕ, ◌<◌, Some, None, true, IfOk, OnOk, MatchBool, MatchOption, Contains, slice_get};
ghost use Rattle.spl_terms.specs.declared.clause.Clause.{Clause};
ghost use Rattle.subsume.specs.Features.{features};
ghost use Rattle.subsume.specs.Tries.{IsChildFor};
ghost use Rattle.subsume.specs.Held.{IsInSlot, IsUnder, AreFound, held_pairs};

use crate::trie::Trie;
use spl_terms::{Clause, same_clause};
use std::alloc::AllocError;

/// A clause that is held with its key.
#[derive(Debug, Drop)]
pub(crate) struct HeldClause {
    /// The clause.
    pub(crate) clause: Clause,
    /// Its key.
    pub(crate) key: u32,
}

/// What is held in the slot.
fn held_at(slots: &[Option<HeldClause>], slot: u32) -> Option<&HeldClause>
    ensures { MatchOption result
        ((c : Clause) (key : ℕ) → IsInSlot slots.now slot c key → ⊥)
        (λ held. slice_get slots.now slot ≡ Some (Some held.now)) }
{
    match slots.get(slot as usize) {
        Some(Some(held)) => Some(held),
        _ => None,
    }
}

/// Whether the slot has this clause with this key.
fn is_in(slots: &[Option<HeldClause>], slot: u32, clause: &Clause, key: u32) -> bool
    ensures { MatchBool result
        (IsInSlot slots.now slot clause.now key)
        (IsInSlot slots.now slot clause.now key → ⊥) }
{
    match held_at(slots, slot) {
        Some(held) => {
            if held.key != key {
                return false;
            }
            same_clause(&held.clause, clause)
        }
        None => false,
    }
}

/// The slot of this clause with this key, among those below the node; none where none of them has it.
fn slot_below(
    trie: &Trie,
    slots: &[Option<HeldClause>],
    leaf: u32,
    clause: &Clause,
    key: u32,
) -> Option<u32>
    ensures { MatchOption result
        ((slot m : ℕ) → IsChildFor trie.now leaf slot m → IsInSlot slots.now slot clause.now key → ⊥)
        (λ slot. IsInSlot slots.now slot clause.now key) }
{
    let mut place = trie.first(leaf);
    while place != 0 {
        match trie.node(place) {
            None => return None,
            Some(node) => {
                if is_in(slots, node.count, clause, key) {
                    return Some(node.count);
                }
                place = node.sibling;
            }
        }
    }
    None
}

/// The slot of this clause with this key; none where no slot has it.
pub(crate) fn slot_of(
    trie: &Trie,
    slots: &[Option<HeldClause>],
    counts: &[u32],
    clause: &Clause,
    key: u32,
) -> Option<u32>
    requires found { AreFound trie.now slots.now }
    requires counts { counts.now ≡ features clause.now }
    ensures { MatchOption result
        ((slot : ℕ) → IsInSlot slots.now slot clause.now key → ⊥)
        (λ slot. IsInSlot slots.now slot clause.now key) }
{
    match trie.leaf(counts) {
        None => None,
        Some(leaf) => slot_below(trie, slots, leaf, clause, key),
    }
}

/// Whether the slot is one from which a pair was removed.
fn is_empty(slots: &[Option<HeldClause>], slot: u32) -> bool
    ensures { result ≡ true → slice_get slots.now slot ≡ Some None }
{
    match slots.get(slot as usize) {
        Some(None) => true,
        _ => false,
    }
}

/// An empty slot below the node.
fn empty_slot_below(trie: &Trie, slots: &[Option<HeldClause>], leaf: u32) -> Option<u32>
    ensures { MatchOption result ⊤ (λ slot.
        (slice_get slots.now slot ≡ Some None) × ((m : ℕ) × IsChildFor trie.now leaf slot m)) }
{
    let mut place = trie.first(leaf);
    while place != 0 {
        match trie.node(place) {
            None => return None,
            Some(node) => {
                if node.parent == leaf {
                    if is_empty(slots, node.count) {
                        return Some(node.count);
                    }
                }
                place = node.sibling;
            }
        }
    }
    None
}

/// An empty slot to which the counts lead.
pub(crate) fn empty_slot(trie: &Trie, slots: &[Option<HeldClause>], counts: &[u32]) -> Option<u32>
    ensures { MatchOption result ⊤ (λ slot.
        (slice_get slots.now slot ≡ Some None) × IsUnder trie.now counts.now slot) }
{
    let leaf = trie.leaf(counts)?;
    let slot = empty_slot_below(trie, slots, leaf)?;
    Some(slot)
}

/// Adds the key in the slot, if there is one.
fn add_key(slots: &[Option<HeldClause>], slot: u32, keys: &mut Vec<u32>) -> Result<(), AllocError>
    ensures kept { OnOk result ((k : ℕ) → Contains keys.old.items k → Contains keys.new.items k) }
    ensures own { OnOk result ((c : Clause) (k : ℕ) → IsInSlot slots.now slot c k → Contains keys.new.items k) }
    ensures held { OnOk result ((k : ℕ) → Contains keys.new.items k
        → Contains keys.old.items k ⊎ ((c : Clause) × IsInSlot slots.now slot c k)) }
{
    match held_at(slots, slot) {
        Some(held) => {
            keys.push(held.key)?;
            Ok(())
        }
        None => Ok(()),
    }
}

/// Adds the keys in the slots below the node.
pub(crate) fn add_keys(
    trie: &Trie,
    slots: &[Option<HeldClause>],
    leaf: u32,
    keys: &mut Vec<u32>,
) -> Result<(), AllocError>
    ensures kept { OnOk result ((k : ℕ) → Contains keys.old.items k → Contains keys.new.items k) }
    ensures below { OnOk result ((slot m : ℕ) (c : Clause) (k : ℕ)
        → IsChildFor trie.now leaf slot m → IsInSlot slots.now slot c k → Contains keys.new.items k) }
    ensures held { OnOk result ((k : ℕ) → Contains keys.new.items k
        → Contains keys.old.items k ⊎ ((slot : ℕ) × (c : Clause) × IsInSlot slots.now slot c k)) }
{
    let mut place = trie.first(leaf);
    while place != 0 {
        match trie.node(place) {
            None => return Ok(()),
            Some(node) => {
                add_key(slots, node.count, keys)?;
                place = node.sibling;
            }
        }
    }
    Ok(())
}
