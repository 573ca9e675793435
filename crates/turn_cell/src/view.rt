//! What a seat knows of the cell.
use std::collections::LinkedList;

/// What a seat knows of the cell, in proofs alone. No value of it is made.
pub struct View<E, G> {
    /// How many seats the cell was made with.
    pub seats: u64,
    pub number: u64,
    /// The setting of the cell's value. Only a spent view has none.
    pub setting: Option<G>,
    pub seen: LinkedList<E>,
    /// Its number, those joined into it, and in the first seat those that are not dealt yet.
    pub keeps: LinkedList<u64>,
    pub inside: bool,
    /// The turn word, as its last try found it.
    pub found: u64,
    /// How many times it tried for the turn. No bound is set, since no value is made.
    pub tries: u64,
    /// Whether the seat was joined into another.
    pub spent: bool,
    // What the two seats of a join had, until the seat looks.
    pub into_seen: LinkedList<E>,
    pub into_keeps: LinkedList<u64>,
    pub other_seen: LinkedList<E>,
    pub other_keeps: LinkedList<u64>,
}
