//! Backward subsumption, with the note that justifies it.
ghost use Rattle.std.specs.Prelude.{◌≡◌, ◌<◌, ◌↔◌, IsTrue, IfOk, MatchOption};
ghost use Rattle.spl_terms.specs.InOrder.{IsInOrder};
ghost use Rattle.proof_steps.specs.Covering.{IsVariant};
ghost use Rattle.calculus.specs.Inferences.{clause_of};
ghost use Rattle.reductions.specs.Hidden.{IsHiddenBy, IsNotHidden};

use calculus::{HideNote, Kept, Why};
use spl_terms::same_clause;
use std::alloc::{AllocError, Global};
use subsume::subsumes;

/// Whether the given clause is a variant of the other one and has the greater number. Clauses in order are variants where
/// they are equal.
fn is_newer_variant(given: &Kept, other: &Kept) -> bool
    requires given_in_order { IsInOrder (clause_of given.now) }
    requires other_in_order { IsInOrder (clause_of other.now) }
    ensures { IsTrue result ↔ (IsVariant (clause_of given.now) (clause_of other.now) × (other.now.number < given.now.number)) }
{
    other.number < given.number && same_clause(&given.statement.clause, &other.statement.clause)
}

/// The note that hides the other clause, since the given one subsumes it (Weidenbach 2001, the section on reductions); of
/// two variants the one with the smaller number hides the other. None exactly where the given clause doesn't subsume the
/// other one, or is a variant of it with the greater number. The clauses have different numbers, from 1.
///
/// It takes as long as `subsumes`.
///
/// # Errors
///
/// Only where there is no memory.
pub fn backward(alloc: Global, given: &Kept, other: &Kept) -> Result<Option<HideNote>, AllocError>
    requires given_in_order { IsInOrder (clause_of given.now) }
    requires other_in_order { IsInOrder (clause_of other.now) }
    requires apart { given.now.number ≡ other.now.number → ⊥ }
    ensures { IfOk result (λ made. MatchOption made (IsNotHidden given.now other.now) (IsHiddenBy given.now other.now)) }
{
    if is_newer_variant(given, other) {
        return Ok(None);
    }
    let Some(subst) = subsumes(alloc, &given.statement.clause, &other.statement.clause)? else {
        return Ok(None);
    };
    Ok(Some(HideNote {
        hidden: other.number,
        why: Why::Subsumed {
            by: given.number,
            subst,
        },
    }))
}
