//! One clause of a formula.

ghost use Rattle.std.specs.Prelude.{◌≡◌, true, Some, slice_get, IfOk};
ghost use Rattle.spl_terms.specs.declared.clause.Clause.{Clause};
ghost use Rattle.spl_terms.specs.Clauses.{clause_symbols, in_order, FitsOrBig};
ghost use Rattle.formulas.specs.Negations.{signed_form};
ghost use Rattle.formulas.specs.Bindings.{bindings, all_distinct};
ghost use Rattle.normal_form.specs.NormalForm.{clauses_of_form};
ghost use Rattle.normal_form.specs.Walking.{CanAdd};

use crate::gathering::Gathering;
use crate::stop::Stop;
use crate::walk::{Walk, add};
use formulas::Formula;
use spl_terms::{Clause, PushError};
use std::alloc::Global;

/// The clause at this place, from 0, among those of a formula, or of its negation where the sign is false; next is the
/// number of the first Skolem symbol.
///
/// The place is below the count of clauses, and neither that nor the numbers of symbols pass 65,536. `Big` comes exactly
/// where the clause has more than 4,096 symbols; at most 1,000,000 are named, and no more are made.
pub fn clause_at(
    alloc: Global,
    formula: &Formula,
    sign: bool,
    next: u32,
    place: u32,
) -> Result<Clause, PushError>
    requires can { CanAdd (signed_form formula.now sign) next place }
    requires different { all_distinct (bindings formula.now) ≡ true }
    ensures clause { IfOk result (λ c. slice_get (clauses_of_form next (signed_form formula.now sign)) place ≡ Some c) }
    ensures big { (c : Clause) → slice_get (clauses_of_form next (signed_form formula.now sign)) place ≡ Some c
        → FitsOrBig (clause_symbols c) result }
{
    let mut walk = Walk::new(alloc);
    match add(&mut walk, formula, sign, next, place) {
        Ok(()) => finished(alloc, walk.clause),
        Err(Stop::Huge) => Err(PushError::Big { symbols: 1_000_000 }),
        Err(Stop::Memory) => Err(PushError::Memory),
    }
}

/// The clause that was gathered, brought into order.
fn finished(alloc: Global, gathering: Gathering) -> Result<Clause, PushError>
    ensures clause { IfOk result (λ c. c ≡ in_order gathering) }
    ensures big { FitsOrBig (clause_symbols gathering) result }
{
    let (clause, symbols) = gathering.finish();
    if symbols > 4096 {
        return Err(PushError::Big { symbols });
    }
    match clause.into_ordered(alloc) {
        Ok(clause) => Ok(clause),
        Err(_) => Err(PushError::Memory),
    }
}
