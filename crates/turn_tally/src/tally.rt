//! A list of pairs of seat and number, which knows its greatest number.
ghost use Rattle.std.specs.Prelude.{◌≡◌, ◌≤◌, [], ◌∷◌, ◌++◌, OnOk, OnErr};
ghost use Rattle.turn_cell.specs.Lists.{Appends};
ghost use Rattle.turn_tally.specs.Tallies.{tally_entry, greatest_of, seat_of};

use crate::entry::Entry;
use std::alloc::{AllocError, Global};
use std::marker::Model;
use turn_cell::Told;

/// A list of entries, the oldest first, each with a number of at most the tally's limit. It keeps its greatest number at hand. Contracts see it as its entries and its limit.
#[derive(Drop)]
pub struct Tally {
    entries: Vec<Entry>,
    greatest: u64,
    limit: u64,
}

impl Model for Tally {
    ghost use Rattle.std.specs.Prelude.{◌≡◌, ◌≤◌};
    ghost use Rattle.turn_tally.specs.Tallies.{TallySeen, greatest_of};

    ghost Value = { TallySeen };

    ghost view = { λ t. record { entries = t.entries.items; limit = t.limit } };

    ghost invariant = { λ t. (t.greatest ≡ greatest_of t.entries.items) × (t.greatest ≤ t.limit) };
}

impl Told for Tally {
    type Entry = Entry;

    type Setting = u64;

    ghost told = { λ t. t.entries };

    ghost seat_of = { λ e. e.seat };

    ghost setting = { λ t. t.limit };

    fn count(&self) -> u64 {
        self.entries.len() as u64
    }
}

impl Tally {
    /// A tally with no entry.
    pub fn new(alloc: Global, limit: u64) -> Tally
        ensures entries { result.entries ≡ [] }
        ensures limit { result.limit ≡ limit }
    {
        Tally {
            entries: Vec::new(alloc),
            greatest: 0,
            limit,
        }
    }

    /// Appends an entry. Where there is no memory for it the tally is unchanged.
    pub fn append(&mut self, seat: u64, number: u64) -> Result<(), AllocError>
        requires limit { number ≤ self.old.limit }
        ensures ok { OnOk result (self.new
            ≡ record self.old { entries = self.old.entries ++ tally_entry seat number ∷ [] }) }
        ensures err { OnErr result (self.new ≡ self.old) }
        ensures list { Appends seat_of seat self.old.entries self.new.entries }
    {
        self.entries.push(Entry { seat, number })?;
        self.greatest = self.greatest.max(number);
        Ok(())
    }

    /// Takes all entries off.
    pub fn clear(&mut self)
        ensures { self.new ≡ record self.old { entries = [] } }
    {
        self.entries.clear();
        self.greatest = 0;
    }

    /// Sets the greatest number that an entry may have.
    pub fn set_limit(&mut self, limit: u64)
        requires { greatest_of self.old.entries ≤ limit }
        ensures { self.new ≡ record self.old { limit = limit } }
    {
        self.limit = limit;
    }

    /// The entries, the oldest first.
    pub fn entries(&self) -> &[Entry]
        ensures { result.now ≡ self.now.entries }
    {
        self.entries.as_slice()
    }

    /// The greatest number of an entry, 0 where there is none.
    pub fn greatest(&self) -> u64
        ensures greatest { result ≡ greatest_of self.now.entries }
        ensures limit { result ≤ self.now.limit }
    {
        self.greatest
    }

    /// The greatest number that an entry may have.
    pub fn limit(&self) -> u64
        ensures { result ≡ self.now.limit }
    {
        self.limit
    }
}
