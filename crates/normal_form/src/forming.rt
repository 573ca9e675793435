//! The clauses of one entry of a problem.

ghost use Rattle.std.specs.Prelude.{◌≡◌, ◌∷◌, ◌++◌, ◌+◌, ◌*◌, ◌^◌, ◌<◌, ◌≤◌, [], true, length, map, replicate, OnOk, IfOk, Contains};
ghost use Rattle.formulas.specs.declared.entry.Entry.{Entry};
ghost use Rattle.spl_symbols.specs.Skolems.{HasSkolems};
ghost use Rattle.formulas.specs.Negations.{signed_form};
ghost use Rattle.formulas.specs.Counts.{clause_count, existentials};
ghost use Rattle.formulas.specs.Entries.{stands, entry_formula};
ghost use Rattle.normal_form.specs.Choices.{arities};
ghost use Rattle.normal_form.specs.ClauseSets.{first_big, form_refusal, first_refusal, IsRefused, HasFormed, HasFormedAll, IsWithinLimits};
ghost use Rattle.formulas.specs.Bindings.{bindings, all_distinct};
ghost use Rattle.normal_form.specs.NormalForm.{clauses_of_form};
ghost use Rattle.normal_form.specs.Skolem.{start};

use crate::arities::{Listing, add_copies, list};
use crate::clause::clause_at;
use crate::error::FormError;
use crate::walk::count;
use formulas::{Entry, Formula};
use spl_symbols::Signature;
use spl_terms::{Clause, Items, PushError};
use std::alloc::{AllocError, Global};

/// The clause set as far as the entries have been taken.
#[derive(Drop)]
pub struct Forming {
    pub signature: Signature,
    /// From which number on the name of the next Skolem symbol is looked for.
    pub next_name: u64,
    pub clauses: Items<Clause>,
    /// The number of each clause's entry.
    pub origins: Items<u32>,
}

/// How many arguments each Skolem symbol of a formula, or of its negation, takes; next is the number of the first of them.
fn skolem_arities(
    alloc: Global,
    formula: &Formula,
    sign: bool,
    next: u32,
) -> Result<Items<u32>, AllocError>
    requires room { next + existentials (signed_form formula.now sign) ≤ 65536 }
    requires different { all_distinct (bindings formula.now) ≡ true }
    ensures { IfOk result (λ found. found ≡ arities (signed_form formula.now sign) (start next)) }
{
    let mut listing = Listing::new(alloc);
    list(&mut listing, formula, sign, next)?;
    Ok(listing.arities)
}

/// Declares Skolem symbols of so many arguments each, in order. There is room for them, so the only error is want of memory.
fn declare_all(
    signature: &mut Signature,
    alloc: Global,
    next_name: &mut u64,
    arities: &[u32],
) -> Result<(), AllocError>
    requires near { next_name.old ≤ 65537 * length signature.old + 1 }
    requires room { length signature.old + length arities.now ≤ 65536 }
    ensures declared { OnOk result (HasSkolems signature.old next_name.old arities.now signature.new next_name.new) }
    ensures near { OnOk result (next_name.new ≤ 65537 * length signature.new + 1) }
    ensures more { OnOk result (length signature.new ≡ length signature.old + length arities.now) }
{
    for arity in arities {
        match signature.skolem(alloc, next_name, *arity) {
            Ok(_) => {}
            Err(_) => return Err(AllocError),
        }
    }
    Ok(())
}

/// Adds the clauses of a formula, or of its negation, in order; next is the number of its first Skolem symbol.
fn add_clauses(
    alloc: Global,
    clauses: &mut Items<Clause>,
    formula: &Formula,
    sign: bool,
    next: u32,
    entry: u32,
) -> Result<(), FormError>
    requires few { clause_count (signed_form formula.now sign) ≤ 65536 }
    requires room { next + existentials (signed_form formula.now sign) ≤ 65536 }
    requires different { all_distinct (bindings formula.now) ≡ true }
    ensures added { OnOk result (clauses.new ≡ clauses.old ++ clauses_of_form next (signed_form formula.now sign)) }
    ensures refused { IsRefused (first_big entry (clauses_of_form next (signed_form formula.now sign))) result }
{
    let count = count(formula, sign).clauses;
    for place in 0..count {
        match clause_at(alloc, formula, sign, next, place) {
            Ok(clause) => match clauses.push(clause) {
                Ok(()) => {}
                Err(_) => return Err(FormError::Memory),
            },
            Err(PushError::Big { symbols }) => return Err(FormError::Big { entry, symbols }),
            Err(PushError::Memory) => return Err(FormError::Memory),
        }
    }
    Ok(())
}

/// Declares the Skolem symbols of a formula, or of its negation; the only error is want of memory.
fn declare_skolems(
    forming: &mut Forming,
    alloc: Global,
    formula: &Formula,
    sign: bool,
) -> Result<(), AllocError>
    requires near { forming.old.next_name ≤ 65537 * length forming.old.signature + 1 }
    requires room { length forming.old.signature + existentials (signed_form formula.now sign) ≤ 65536 }
    requires different { all_distinct (bindings formula.now) ≡ true }
    ensures declared { OnOk result (HasSkolems forming.old.signature forming.old.next_name
        (arities (signed_form formula.now sign) (start (length forming.old.signature)))
        forming.new.signature forming.new.next_name) }
    ensures near { OnOk result (forming.new.next_name ≤ 65537 * length forming.new.signature + 1) }
    ensures more { OnOk result (length forming.new.signature
        ≡ length forming.old.signature + existentials (signed_form formula.now sign)) }
    ensures clauses { forming.new.clauses ≡ forming.old.clauses }
    ensures origins { forming.new.origins ≡ forming.old.origins }
{
    let next = forming.signature.count();
    let arities = skolem_arities(alloc, formula, sign, next)?;
    declare_all(
        &mut forming.signature,
        alloc,
        &mut forming.next_name,
        arities.as_slice(),
    )
}

/// Takes one more entry: its Skolem symbols are declared, and its clauses are added. Nothing is made before it is known
/// that the clauses and the symbols aren't too many.
fn form_entry(
    forming: &mut Forming,
    alloc: Global,
    entry: &Entry,
    number: u32,
) -> Result<(), FormError>
    requires limits { IsWithinLimits forming.old }
    requires different { all_distinct (bindings entry.now.formula) ≡ true }
    ensures formed { OnOk result (HasFormed forming.old forming.new number
        (signed_form entry.now.formula (stands entry.now.role))) }
    ensures limits { OnOk result (IsWithinLimits forming.new) }
    ensures more { OnOk result (length forming.new.signature
        ≡ length forming.old.signature + existentials (signed_form entry.now.formula (stands entry.now.role))) }
    ensures refused { IsRefused (form_refusal number (length forming.old.clauses) (length forming.old.signature)
        (signed_form entry.now.formula (stands entry.now.role))) result }
{
    let sign = entry.stands();
    let counts = count(&entry.formula, sign);
    if counts.clauses > 65536 - forming.clauses.len() as u32 {
        return Err(FormError::Many { entry: number });
    }
    let next = forming.signature.count();
    if counts.skolems > 65536 - next {
        return Err(FormError::Symbols { entry: number });
    }
    match declare_skolems(forming, alloc, &entry.formula, sign) {
        Ok(()) => {}
        Err(_) => return Err(FormError::Memory),
    }
    match add_clauses(
        alloc,
        &mut forming.clauses,
        &entry.formula,
        sign,
        next,
        number,
    ) {
        Ok(()) => {}
        Err(error) => return Err(error),
    }
    match add_copies(&mut forming.origins, number, counts.clauses) {
        Ok(()) => Ok(()),
        Err(_) => Err(FormError::Memory),
    }
}

/// Takes all entries, in order; they count from 1.
pub fn form_all(forming: &mut Forming, alloc: Global, entries: &[Entry]) -> Result<(), FormError>
    requires limits { IsWithinLimits forming.old }
    requires few { length entries.now < 2 ^ 32 }
    requires different { (e : Entry) → Contains entries.now e → all_distinct (bindings e.formula) ≡ true }
    ensures formed { OnOk result (HasFormedAll forming.old forming.new (map entry_formula entries.now)) }
    ensures limits { OnOk result (IsWithinLimits forming.new) }
    ensures refused { IsRefused (first_refusal 1 (length forming.old.clauses) (length forming.old.signature)
        (map entry_formula entries.now)) result }
{
    let mut number = 0;
    for entry in entries {
        number += 1;
        match form_entry(forming, alloc, entry, number) {
            Ok(()) => {}
            Err(error) => return Err(error),
        }
    }
    Ok(())
}
