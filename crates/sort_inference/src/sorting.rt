//! Solved constraints, and sort steps.
ghost use Rattle.std.specs.Prelude.{◌≡◌, ◌≤◌, ◌↔◌, None, IsTrue};
ghost use Rattle.spl_terms.specs.Clauses.{clause_symbols};
ghost use Rattle.spl_terms.specs.InOrder.{IsInOrder};
ghost use Rattle.spl_truth.specs.Places.{first_unsolved};
ghost use Rattle.calculus.specs.Inferences.{clause_of, sort_steps};
ghost use Rattle.superposition.specs.Appending.{Appended};

use kbo::first_unsolved;
use proof_steps::Line;
use spl_terms::{Clause, Part};
use std::alloc::Global;
use superposition::{InferError, Kept, resolutions};

/// The place of the first atom of the constraint that isn't solved, from 0; none where the constraint is solved.
///
/// An atom is solved if it is `S(x)` with a variable x of the antecedent or the succedent. It takes no memory.
pub fn unsolved_atom(clause: &Clause) -> Option<usize>
    ensures { result ≡ first_unsolved clause.now }
{
    first_unsolved(clause)
}

/// Whether each atom of the constraint is solved. It takes no memory.
pub fn solved(clause: &Clause) -> bool
    ensures { IsTrue result ↔ (first_unsolved clause.now ≡ None) }
{
    unsolved_atom(clause).is_none()
}

/// Appends the sort steps of two clauses: the first unsolved atom of the constraint of `other` with each eligible succedent
/// atom of `given`, whose constraint is solved, and then those with the two exchanged.
///
/// # Errors
///
/// `Big` exactly where the next conclusion has more than 4,096 symbols; `Memory` only where there is no memory. What comes
/// before it in the list was appended.
pub fn sort_steps(
    alloc: Global,
    given: &Kept,
    other: &Kept,
    out: &mut Vec<Line>,
) -> Result<(), InferError>
    requires given_in_order { IsInOrder (clause_of given.now) }
    requires other_in_order { IsInOrder (clause_of other.now) }
    requires given_size { clause_symbols (clause_of given.now) ≤ 4096 }
    requires other_size { clause_symbols (clause_of other.now) ≤ 4096 }
    ensures { Appended (sort_steps given.now other.now) out.old.items out.new.items result }
{
    if let Err(error) = resolutions(alloc, Part::Constraint, given, other, out) {
        return Err(error);
    }
    resolutions(alloc, Part::Constraint, other, given, out)
}
