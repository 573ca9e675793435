//! The entries of a problem.

ghost use Rattle.std.specs.Prelude.{◌≡◌};
ghost use Rattle.formulas.specs.Entries.{stands};

use crate::formula::Formula;

/// What an entry is in its problem.
#[derive(Clone, Copy, Debug, PartialEq, Eq)]
pub enum Role {
    /// A formula that holds.
    Axiom,
    /// The formula to be proved, which counts negated.
    Conjecture,
    /// A clause that holds; clauses of both origins are taken as they stand.
    Clause,
}

/// A formula or clause of a problem.
#[derive(Drop)]
pub struct Entry {
    /// What it is in its problem.
    pub role: Role,
    /// What it says.
    pub formula: Formula,
    /// The place of the first token of its item, as of its word `formula` or `clause`, from 0.
    pub at: usize,
}

impl Entry {
    /// Whether the formula counts as it stands, and not negated.
    pub fn stands(&self) -> bool
        ensures { result ≡ stands self.now.role }
    {
        match self.role {
            Role::Axiom => true,
            Role::Conjecture => false,
            Role::Clause => true,
        }
    }
}
