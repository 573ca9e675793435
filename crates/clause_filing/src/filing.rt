//! Values filed under keys, and what is found there.
ghost use Rattle.std.specs.Prelude.{◌≡◌, ℕ, ◌-◌, ◌<◌, [], length, option_copied, option_map, Some, IfOk, OnOk, OnErr, Contains};
ghost use Rattle.spl_terms.specs.declared.clause.Clause.{Clause};
ghost use Rattle.spl_terms.specs.Lists.{numbered};
ghost use Rattle.clause_filing.specs.declared.filing.Entry.{Entry};
ghost use Rattle.clause_filing.specs.Filings.{IsNewest, IsAdded, Keeps, HasAtoms, IsFiledClause, IsFiledUnderAll, AddsValues, HasValues, HaveValues, CanMeet};

use crate::keys::{AFTER_ARROW, BEFORE_ARROW, clause_key, clause_mask, is_within, key};
use indexmap::IndexMap;
use spl_terms::{Atom, Clause, at};
use std::alloc::{AllocError, Global};
use std::marker::Model;

/// A value that was filed.
#[derive(Clone, Copy, Debug)]
pub struct Entry {
    /// The key under which it was filed.
    pub key: u64,
    /// The mask of the clause that was filed; 0 where none is asked for.
    pub mask: u64,
    /// What was filed.
    pub value: u32,
    /// The number of the entry of this key before this one, from 1; 0 where there is none.
    pub older: u32,
}

/// Values filed under keys of atoms, to be read from the newest of a key to its oldest.
///
/// Contracts see the entries in order.
#[derive(Debug, Drop)]
pub struct Filing {
    /// The number of the last entry of each key, from 1.
    newest: IndexMap<u64, u32>,
    entries: Vec<Entry>,
}

impl Model for Filing {
    ghost use Rattle.std.specs.Prelude.{List};
    ghost use Rattle.clause_filing.specs.declared.filing.Entry.{Entry};
    ghost use Rattle.clause_filing.specs.Links.{IsLinked};

    ghost Value = { List Entry };

    ghost view = { λ f. f.entries.items };

    ghost invariant = { IsLinked };
}

impl Filing {
    /// Nothing is filed; it takes no memory.
    pub fn new(alloc: Global) -> Filing
        ensures { result ≡ [] }
    {
        Filing {
            newest: IndexMap::new(alloc),
            entries: Vec::new(alloc),
        }
    }

    /// The number of the last entry of the key, from 1; 0 where there is none.
    pub fn newest(&self, key: u64) -> u32
        ensures { IsNewest self.now key (length self.now) result }
    {
        self.newest.get(&key).copied().unwrap_or(0)
    }

    /// The entry with this number, from 1; none where there is none.
    pub fn entry(&self, number: u32) -> Option<&Entry>
        ensures is { option_copied result ≡ numbered self.now number }
        ensures linked { (e : Entry) → numbered self.now number ≡ Some e → IsNewest self.now e.key (number - 1) e.older }
    {
        if number == 0 {
            None
        } else {
            at(self.entries.as_slice(), (number - 1) as usize)
        }
    }

    /// Files the value under the key with the mask. There is no memory for more than 4,294,967,295 entries.
    fn file(&mut self, key: u64, value: u32, mask: u64) -> Result<(), AllocError>
        ensures added { OnOk result (IsAdded self.old self.new key value mask) }
        ensures same { OnErr result (self.new ≡ self.old) }
    {
        if self.entries.len() >= 4_294_967_295 {
            return Err(AllocError);
        }
        self.entries.reserve(1)?;
        let number = self.entries.len() as u32 + 1;
        let older = self.newest.insert(key, number)?.unwrap_or(0);
        self.entries.push_reserved(Entry {
            key,
            mask,
            value,
            older,
        });
        Ok(())
    }

    /// Files the value under the key of the clause's first atom, with the clause's mask, so that `subclauses` finds it.
    ///
    /// # Errors
    ///
    /// Only where there is no memory, or for more than 4,294,967,295 entries.
    pub fn file_clause(&mut self, clause: &Clause, value: u32) -> Result<(), AllocError>
        ensures keeps { Keeps self.old self.new }
        ensures filed { OnOk result (IsFiledClause self.new clause.now value) }
    {
        self.file(clause_key(clause), value, clause_mask(clause))?;
        Ok(())
    }

    /// Files the value under the key of each of the atoms.
    fn file_atoms(&mut self, side: u64, atoms: &[Atom], value: u32) -> Result<(), AllocError>
        ensures keeps { Keeps self.old self.new }
        ensures atoms { OnOk result (HasAtoms self.new side atoms.now value) }
    {
        for atom in atoms {
            self.file(key(side, atom), value, 0)?;
        }
        Ok(())
    }

    /// Files the value under the key of each atom of the clause, so that `partners` finds it.
    ///
    /// # Errors
    ///
    /// Only where there is no memory, or for more than 4,294,967,295 entries.
    pub fn file_under_all(&mut self, clause: &Clause, value: u32) -> Result<(), AllocError>
        ensures keeps { Keeps self.old self.new }
        ensures filed { OnOk result (IsFiledUnderAll self.new clause.now value) }
    {
        self.file_atoms(BEFORE_ARROW, clause.constraint.as_slice(), value)?;
        self.file_atoms(BEFORE_ARROW, clause.antecedent.as_slice(), value)?;
        self.file_atoms(AFTER_ARROW, clause.succedent.as_slice(), value)?;
        Ok(())
    }

    /// Takes the last entry off, if there is one.
    fn pop(&mut self)
        ensures others { (x : ℕ) → x < length self.old → numbered self.new x ≡ numbered self.old x }
        ensures shorter { length self.new ≡ length self.old - 1 }
    {
        if let Some(entry) = self.entries.pop() {
            match self.newest.insert(entry.key, entry.older) {
                Ok(_) => {}
                Err(_) => unreachable!(),
            }
        }
    }

    /// The value that was filed last.
    fn last(&self) -> Option<u32>
        ensures { result ≡ option_map (λ e. e.value) (numbered self.now (length self.now)) }
    {
        self.entries.last().map(|entry| entry.value)
    }

    /// Takes entries off, the last ones first, down to one with a value below this one.
    pub fn drop_from(&mut self, value: usize)
        ensures { (x : ℕ) (e : Entry) → numbered self.old x ≡ Some e → e.value < value → numbered self.new x ≡ Some e }
    {
        while let Some(last) = self.last() {
            if (last as usize) < value {
                return;
            }
            self.pop();
        }
    }

    /// Adds what is filed under the key with a mask that is within this one, the newest first.
    fn add_values(&self, key: u64, mask: u64, values: &mut Vec<u32>) -> Result<(), AllocError>
        ensures adds { OnOk result (AddsValues values.old.items values.new.items) }
        ensures all { OnOk result (HasValues self.now key mask values.new.items) }
    {
        let mut number = self.newest(key);
        while let Some(entry) = self.entry(number) {
            if is_within(entry.mask, mask) {
                values.push(entry.value)?;
            }
            number = entry.older;
        }
        Ok(())
    }

    /// Adds what is filed under the key of one of the atoms with a mask that is within this one.
    fn add_values_of(
        &self,
        side: u64,
        atoms: &[Atom],
        mask: u64,
        values: &mut Vec<u32>,
    ) -> Result<(), AllocError>
        ensures adds { OnOk result (AddsValues values.old.items values.new.items) }
        ensures all { OnOk result (HaveValues self.now side atoms.now mask values.new.items) }
    {
        for atom in atoms {
            self.add_values(key(side, atom), mask, values)?;
        }
        Ok(())
    }

    /// Values that were filed for clauses, among them all that were filed for this very clause. Those of its subclauses
    /// are found under the key of one of its atoms, or under that of the empty clause, with a mask within its own.
    ///
    /// # Errors
    ///
    /// Only where there is no memory.
    pub fn subclauses(&self, alloc: Global, clause: &Clause) -> Result<Vec<u32>, AllocError>
        ensures { IfOk result (λ values. (v : ℕ) → IsFiledClause self.now clause.now v → Contains values.items v) }
    {
        let mask = clause_mask(clause);
        let mut values = Vec::new(alloc);
        self.add_values(0, mask, &mut values)?;
        self.add_values_of(AFTER_ARROW, clause.succedent.as_slice(), mask, &mut values)?;
        self.add_values_of(
            BEFORE_ARROW,
            clause.antecedent.as_slice(),
            mask,
            &mut values,
        )?;
        self.add_values_of(
            BEFORE_ARROW,
            clause.constraint.as_slice(),
            mask,
            &mut values,
        )?;
        Ok(values)
    }

    /// Values that were filed under all atoms of clauses, among them those of all clauses that can resolve with this one.
    /// A value may come more than once.
    ///
    /// # Errors
    ///
    /// Only where there is no memory.
    pub fn partners(&self, alloc: Global, clause: &Clause) -> Result<Vec<u32>, AllocError>
        ensures { IfOk result (λ values. (c : Clause) (v : ℕ) → IsFiledUnderAll self.now c v
            → CanMeet c clause.now → Contains values.items v) }
    {
        let mut values = Vec::new(alloc);
        self.add_values_of(AFTER_ARROW, clause.constraint.as_slice(), 0, &mut values)?;
        self.add_values_of(AFTER_ARROW, clause.antecedent.as_slice(), 0, &mut values)?;
        self.add_values_of(BEFORE_ARROW, clause.succedent.as_slice(), 0, &mut values)?;
        Ok(values)
    }
}
