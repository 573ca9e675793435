//! The clauses of a view, and what it has, as contracts see it.
ghost use Rattle.std.specs.Prelude.{◌≡◌, IfOk};

use dep_sets::Assumption;
use proof_steps::Statement;
use spl_terms::Items;
use std::alloc::{AllocError, Global};

/// A clause of the ledger, and what it states.
#[derive(Debug, Drop)]
pub struct Kept {
    /// Its number, from 1.
    pub number: u32,
    /// What it states.
    pub stated: Statement,
}

impl Kept {
    /// A copy.
    ///
    /// # Errors
    ///
    /// Only where there is no memory.
    pub fn copy(&self, alloc: Global) -> Result<Kept, AllocError>
        ensures { IfOk result (λ kept. kept ≡ self.now) }
    {
        let clause = self.stated.clause.copy(alloc)?;
        let deps = self.stated.deps.copy()?;
        let stated = Statement { clause, deps };
        Ok(Kept {
            number: self.number,
            stated,
        })
    }
}

/// What a view has. Contracts see a view as this.
#[derive(Debug, Drop)]
pub struct Case {
    /// The worker, from 1.
    pub worker: u32,
    /// Its leaf, from 0.
    pub node: u32,
    /// How many events the journal had.
    pub events: u64,
    /// How many steps the ledger had.
    pub base: u32,
    /// How many clauses had been split.
    pub splits: u32,
    /// The nodes of the leaf's path, from the root down.
    pub nodes: Items<u32>,
    /// What is assumed at these nodes but the root.
    pub path: Items<Assumption>,
    /// The chosen clause.
    pub given: Option<Kept>,
    /// The clauses that are worked off and kept at the leaf, in the order in which they were activated.
    pub worked: Items<Kept>,
    /// The clauses that are listed at the leaf, by ascending number.
    pub listed: Items<Kept>,
}

/// A former state of a view, to which it can go back while it has only grown.
#[derive(Debug, Drop)]
pub struct Mark {
    /// The leaf, from 0.
    pub node: u32,
    /// How many events the journal had.
    pub events: u64,
    /// How many steps the ledger had.
    pub base: u32,
    /// How many clauses had been split.
    pub splits: u32,
    /// The chosen clause.
    pub given: Option<Kept>,
    /// How many nodes the leaf's path had.
    pub nodes: usize,
    /// How much was assumed there.
    pub path: usize,
    /// How many clauses were worked off and kept at the leaf.
    pub worked: usize,
    /// How many clauses were listed at the leaf.
    pub listed: usize,
}
