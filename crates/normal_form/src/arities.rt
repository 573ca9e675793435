//! How many arguments each Skolem symbol of a formula takes, without a walk through parts that have none.

ghost use Rattle.std.specs.Prelude.{◌≡◌, ◌∷◌, ◌++◌, ◌+◌, ◌≤◌, [], Bool, true, false, length, replicate, OnOk};
ghost use Rattle.std.specs.List.{flat_map};
ghost use Rattle.formulas.specs.Negations.{signed_form};
ghost use Rattle.formulas.specs.Counts.{existentials};
ghost use Rattle.normal_form.specs.Blocks.{place_below, for_each, for_any, universal_block, existential_block};
ghost use Rattle.formulas.specs.Bindings.{numbers_from, bindings};
ghost use Rattle.normal_form.specs.Skolem.{skolem_arguments};
ghost use Rattle.normal_form.specs.Walking.{AreFresh, skolem_count, one_of, agreement, difference};
ghost use Rattle.normal_form.specs.Listing.{forms_of, Lists, ListsAll};

use crate::scope::Block;
use crate::scoping::skolem_block;
use crate::walk::count;
use formulas::{Case, Formula};
use spl_terms::Items;
use std::alloc::{AllocError, Global};

/// What a walk through a formula carries: the scopes that it is in, and the numbers of arguments that it has found.
#[derive(Drop)]
pub struct Listing {
    alloc: Global,
    pub scopes: Items<Block>,
    pub arities: Items<u32>,
}

impl Listing {
    /// A walk outside all scopes that has found nothing; it takes no memory.
    pub fn new(alloc: Global) -> Listing
        ensures scopes { result.scopes ≡ [] }
        ensures arities { result.arities ≡ [] }
    {
        Listing {
            alloc,
            scopes: Items::new(alloc),
            arities: Items::new(alloc),
        }
    }
}

/// Appends the number so many times.
pub fn add_copies(found: &mut Items<u32>, number: u32, count: u32) -> Result<(), AllocError>
    ensures { OnOk result (found.new ≡ found.old ++ replicate count number) }
{
    for _ in 0..count {
        found.push(number)?;
    }
    Ok(())
}

/// Enters the scope of a universal quantifier.
fn enter_universal(listing: &mut Listing, first: u32, count: u32) -> Result<(), AllocError>
    ensures pushed { OnOk result (listing.new.scopes ≡ listing.old.scopes ++ universal_block first count ∷ []) }
    ensures kept { listing.new.arities ≡ listing.old.arities }
{
    listing.scopes.push(Block {
        first,
        count,
        skolems: None,
    })
}

/// Enters the scope of an existential quantifier over this part, and lists its symbols.
///
/// More than 4,294,967,295 arguments are answered as want of memory.
fn enter_existential(
    listing: &mut Listing,
    first: u32,
    count: u32,
    part: &Formula,
    next: u32,
) -> Result<(), AllocError>
    requires { AreFresh listing.now.scopes (numbers_from first count ++ bindings part.now) }
    ensures pushed { OnOk result ((sign : Bool) → listing.new.scopes ≡ listing.old.scopes
        ++ existential_block first count (signed_form part.now sign) (place_below listing.old.scopes next) ∷ []) }
    ensures listed { OnOk result ((sign : Bool) → listing.new.arities ≡ listing.old.arities
        ++ replicate count (length (skolem_arguments (for_any first count (signed_form part.now sign))
        (place_below listing.old.scopes next)))) }
{
    let block = skolem_block(
        listing.alloc,
        listing.scopes.as_slice(),
        first,
        count,
        part,
        next,
    )?;
    let arity = block.arity();
    if arity > 4_294_967_295 {
        return Err(AllocError);
    }
    add_copies(&mut listing.arities, arity as u32, count)?;
    listing.scopes.push(block)
}

/// Lists the numbers of arguments of a formula's Skolem symbols; next is the number of the first of them.
#[cycle(listing)]
pub fn list(
    listing: &mut Listing,
    formula: &Formula,
    sign: bool,
    next: u32,
) -> Result<(), AllocError>
    requires room { next + existentials (signed_form formula.now sign) ≤ 65536 }
    requires fresh { AreFresh listing.now.scopes (bindings formula.now) }
    ensures { OnOk result (Lists (signed_form formula.now sign) next listing.old listing.new) }
{
    if count(formula, sign).skolems == 0 {
        return Ok(());
    }
    if sign {
        list_positive(listing, formula, next)
    } else {
        list_negative(listing, formula, next)
    }
}

/// Lists those of the formula.
#[cycle(listing)]
fn list_positive(listing: &mut Listing, formula: &Formula, next: u32) -> Result<(), AllocError>
    requires room { next + existentials (signed_form formula.now true) ≤ 65536 }
    requires fresh { AreFresh listing.now.scopes (bindings formula.now) }
    ensures { OnOk result (Lists (signed_form formula.now true) next listing.old listing.new) }
{
    match formula.case() {
        Case::True => Ok(()),
        Case::False => Ok(()),
        Case::Atom(_) => Ok(()),
        Case::Not(part) => list_negative(listing, part, next),
        Case::And(parts) => list_all(listing, parts, true, next),
        Case::Or(parts) => list_all(listing, parts, true, next),
        Case::Implies(left, right) => list_two(listing, left, false, right, true, next),
        Case::Equiv(left, right) => list_agreement(listing, left, right, next),
        Case::Forall(first, count, part) => list_universal(listing, first, count, part, true, next),
        Case::Exists(first, count, part) => list_existential(
            listing, first, count, part, true, next,
        ),
    }
}

/// Lists those of the negation of the formula.
#[cycle(listing)]
fn list_negative(listing: &mut Listing, formula: &Formula, next: u32) -> Result<(), AllocError>
    requires room { next + existentials (signed_form formula.now false) ≤ 65536 }
    requires fresh { AreFresh listing.now.scopes (bindings formula.now) }
    ensures { OnOk result (Lists (signed_form formula.now false) next listing.old listing.new) }
{
    match formula.case() {
        Case::True => Ok(()),
        Case::False => Ok(()),
        Case::Atom(_) => Ok(()),
        Case::Not(part) => list_positive(listing, part, next),
        Case::And(parts) => list_all(listing, parts, false, next),
        Case::Or(parts) => list_all(listing, parts, false, next),
        Case::Implies(left, right) => list_two(listing, left, true, right, false, next),
        Case::Equiv(left, right) => list_difference(listing, left, right, next),
        Case::Forall(first, count, part) => list_existential(
            listing, first, count, part, false, next,
        ),
        Case::Exists(first, count, part) => list_universal(
            listing, first, count, part, false, next,
        ),
    }
}

/// Lists those of two formulas, one behind the other.
#[cycle(listing)]
fn list_two(
    listing: &mut Listing,
    left: &Formula,
    left_sign: bool,
    right: &Formula,
    right_sign: bool,
    next: u32,
) -> Result<(), AllocError>
    requires room { next + existentials (one_of left.now left_sign right.now right_sign) ≤ 65536 }
    requires left { AreFresh listing.now.scopes (bindings left.now) }
    requires right { AreFresh listing.now.scopes (bindings right.now) }
    ensures { OnOk result (Lists (one_of left.now left_sign right.now right_sign) next listing.old listing.new) }
{
    let skolems = count(left, left_sign).skolems;
    list(listing, left, left_sign, next)?;
    list(listing, right, right_sign, next + skolems)
}

/// Lists those of an equivalence.
#[cycle(listing)]
fn list_agreement(
    listing: &mut Listing,
    left: &Formula,
    right: &Formula,
    next: u32,
) -> Result<(), AllocError>
    requires room { next + existentials (agreement left.now right.now) ≤ 65536 }
    requires left { AreFresh listing.now.scopes (bindings left.now) }
    requires right { AreFresh listing.now.scopes (bindings right.now) }
    ensures { OnOk result (Lists (agreement left.now right.now) next listing.old listing.new) }
{
    let skolems = count(left, false).skolems + count(right, true).skolems;
    list_two(listing, left, false, right, true, next)?;
    list_two(listing, right, false, left, true, next + skolems)
}

/// Lists those of the negation of an equivalence.
#[cycle(listing)]
fn list_difference(
    listing: &mut Listing,
    left: &Formula,
    right: &Formula,
    next: u32,
) -> Result<(), AllocError>
    requires room { next + existentials (difference left.now right.now) ≤ 65536 }
    requires left { AreFresh listing.now.scopes (bindings left.now) }
    requires right { AreFresh listing.now.scopes (bindings right.now) }
    ensures { OnOk result (Lists (difference left.now right.now) next listing.old listing.new) }
{
    let skolems = count(left, true).skolems + count(right, true).skolems;
    list_two(listing, left, true, right, true, next)?;
    list_two(listing, left, false, right, false, next + skolems)
}

/// Lists those behind a universal quantifier.
#[cycle(listing)]
fn list_universal(
    listing: &mut Listing,
    first: u32,
    count: u32,
    part: &Formula,
    sign: bool,
    next: u32,
) -> Result<(), AllocError>
    requires room { next + existentials (for_each first count (signed_form part.now sign)) ≤ 65536 }
    requires fresh { AreFresh listing.now.scopes (numbers_from first count ++ bindings part.now) }
    ensures { OnOk result (Lists (for_each first count (signed_form part.now sign)) next listing.old listing.new) }
{
    enter_universal(listing, first, count)?;
    list(listing, part, sign, next)?;
    listing.scopes.pop();
    Ok(())
}

/// Lists those of an existential quantifier and behind it.
#[cycle(listing)]
fn list_existential(
    listing: &mut Listing,
    first: u32,
    count: u32,
    part: &Formula,
    sign: bool,
    next: u32,
) -> Result<(), AllocError>
    requires room { next + existentials (for_any first count (signed_form part.now sign)) ≤ 65536 }
    requires fresh { AreFresh listing.now.scopes (numbers_from first count ++ bindings part.now) }
    ensures { OnOk result (Lists (for_any first count (signed_form part.now sign)) next listing.old listing.new) }
{
    enter_existential(listing, first, count, part, next)?;
    list(listing, part, sign, next + count)?;
    listing.scopes.pop();
    Ok(())
}

/// Lists those of several formulas, one behind the other.
#[cycle(listing)]
fn list_all(
    listing: &mut Listing,
    parts: &[Formula],
    sign: bool,
    next: u32,
) -> Result<(), AllocError>
    requires room { next + skolem_count (forms_of sign parts.now) ≤ 65536 }
    requires fresh { AreFresh listing.now.scopes (flat_map bindings parts.now) }
    ensures { OnOk result (ListsAll (forms_of sign parts.now) next listing.old listing.new) }
{
    let mut next = next;
    for part in parts {
        let skolems = count(part, sign).skolems;
        list(listing, part, sign, next)?;
        next += skolems;
    }
    Ok(())
}
