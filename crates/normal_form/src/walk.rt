//! One list of literals of a formula, by its place among them.

ghost use Rattle.std.specs.List.{flat_map};
ghost use Rattle.std.specs.Prelude.{◌≡◌, ◌∷◌, ◌++◌, [], ◌<◌, ◌≤◌, ◌+◌, Bool, true, false, not, if◌then◌else◌, ℕ, OnOk, IfOk};
ghost use Rattle.formulas.specs.Negations.{signed_form, all_of, some_hold};
ghost use Rattle.formulas.specs.Counts.{form_count, clause_count};
ghost use Rattle.normal_form.specs.declared.scope.Block.{Block};
ghost use Rattle.normal_form.specs.Blocks.{place_below, term_in, for_each, for_any, universal_block, existential_block};
ghost use Rattle.formulas.specs.Bindings.{numbers_from, bindings};
ghost use Rattle.normal_form.specs.Gathering.{with_signed_atom, IsGathered};
ghost use Rattle.spl_terms.specs.Clauses.{IsEmpty, replace_in_atom};
ghost use Rattle.normal_form.specs.Walking.{CanAdd, AreFresh, one_of, both_of, agreement, difference, AddsChosen};

use crate::gathering::Gathering;
use crate::scope::{Block, atom_instance, atom_instance_symbols};
use crate::scoping::skolem_block;
use crate::stop::Stop;
use formulas::{Case, Count, Formula};
use spl_terms::{Atom, Items};
use std::alloc::{AllocError, Global};

/// What a walk to one list of literals carries: the scopes that it is in, and the clause that it fills.
#[derive(Drop)]
pub struct Walk {
    alloc: Global,
    pub scopes: Items<Block>,
    pub clause: Gathering,
}

impl Walk {
    /// A walk outside all scopes, with an empty clause; it takes no memory.
    pub fn new(alloc: Global) -> Walk
        ensures scopes { result.scopes ≡ [] }
        ensures clause { IsEmpty result.clause }
    {
        Walk {
            alloc,
            scopes: Items::new(alloc),
            clause: Gathering::new(alloc),
        }
    }
}

/// The count of a formula of one sign.
pub fn count(formula: &Formula, sign: bool) -> Count
    ensures { result ≡ form_count (signed_form formula.now sign) }
{
    if sign {
        formula.counts().positive
    } else {
        formula.counts().negative
    }
}

/// The count where one of two formulas holds.
fn count_either(left: &Formula, left_sign: bool, right: &Formula, right_sign: bool) -> Count
    ensures { result ≡ form_count (one_of left.now left_sign right.now right_sign) }
{
    count(left, left_sign).either(count(right, right_sign))
}

/// Adds an atom, with the terms of its scopes, as a literal; one of more than 1,000,000 symbols isn't made.
fn add_atom(walk: &mut Walk, atom: &Atom, sign: bool) -> Result<(), Stop>
    ensures added { IsGathered (with_signed_atom walk.old.clause
        (record { sign = sign; atom = replace_in_atom (term_in walk.old.scopes) atom.now })) walk.new.clause result }
    ensures kept { walk.new.scopes ≡ walk.old.scopes }
{
    if atom_instance_symbols(walk.scopes.as_slice(), atom) > 1_000_000 {
        return Err(Stop::Huge);
    }
    match atom_instance(walk.alloc, walk.scopes.as_slice(), atom) {
        Ok(atom) => walk.clause.add(sign, atom),
        Err(_) => Err(Stop::Memory),
    }
}

/// Enters the scope of a universal quantifier.
fn push_universal(walk: &mut Walk, first: u32, count: u32) -> Result<(), AllocError>
    ensures pushed { OnOk result (walk.new.scopes ≡ walk.old.scopes ++ universal_block first count ∷ []) }
    ensures kept { walk.new.clause ≡ walk.old.clause }
{
    let block = Block {
        first,
        count,
        skolems: None,
    };
    walk.scopes.push(block)
}

/// Enters the scope of an existential quantifier over this part, with its Skolem terms.
fn push_existential(
    walk: &mut Walk,
    first: u32,
    count: u32,
    part: &Formula,
    next: u32,
) -> Result<(), AllocError>
    requires { AreFresh walk.now.scopes (numbers_from first count ++ bindings part.now) }
    ensures pushed { OnOk result ((sign : Bool) → walk.new.scopes ≡ walk.old.scopes
        ++ existential_block first count (signed_form part.now sign) (place_below walk.old.scopes next) ∷ []) }
    ensures kept { walk.new.clause ≡ walk.old.clause }
{
    let block = skolem_block(walk.alloc, walk.scopes.as_slice(), first, count, part, next)?;
    walk.scopes.push(block)
}

/// Adds the literals at this place, below the formula's count; next is the number of the next Skolem symbol.
#[cycle(walk)]
pub fn add(
    walk: &mut Walk,
    formula: &Formula,
    sign: bool,
    next: u32,
    place: u32,
) -> Result<(), Stop>
    requires can { CanAdd (signed_form formula.now sign) next place }
    requires fresh { AreFresh walk.now.scopes (bindings formula.now) }
    ensures added { AddsChosen walk.old.clause walk.new.clause walk.old.scopes
        (signed_form formula.now sign) next place result }
    ensures kept { OnOk result (walk.new.scopes ≡ walk.old.scopes) }
{
    if sign {
        add_positive(walk, formula, next, place)
    } else {
        add_negative(walk, formula, next, place)
    }
}

/// Adds a list of the formula.
#[cycle(walk)]
fn add_positive(walk: &mut Walk, formula: &Formula, next: u32, place: u32) -> Result<(), Stop>
    requires can { CanAdd (signed_form formula.now true) next place }
    requires fresh { AreFresh walk.now.scopes (bindings formula.now) }
    ensures added { AddsChosen walk.old.clause walk.new.clause walk.old.scopes
        (signed_form formula.now true) next place result }
    ensures kept { OnOk result (walk.new.scopes ≡ walk.old.scopes) }
{
    match formula.case() {
        Case::True => Ok(()),
        Case::False => Ok(()),
        Case::Atom(atom) => add_atom(walk, atom, true),
        Case::Not(part) => add_negative(walk, part, next, place),
        Case::Implies(left, right) => add_both(walk, left, false, right, true, next, place),
        Case::And(parts) => add_in_one(walk, parts, true, next, place),
        Case::Or(parts) => {
            let rest = count(formula, true).clauses;
            add_in_each(walk, parts, true, next, place, rest)
        }
        Case::Equiv(left, right) => add_equivalence(walk, left, right, next, place),
        Case::Forall(first, count, part) => add_universal(
            walk, first, count, part, true, next, place,
        ),
        Case::Exists(first, count, part) => add_existential(
            walk, first, count, part, true, next, place,
        ),
    }
}

/// Adds a list of the negation of the formula.
#[cycle(walk)]
fn add_negative(walk: &mut Walk, formula: &Formula, next: u32, place: u32) -> Result<(), Stop>
    requires can { CanAdd (signed_form formula.now false) next place }
    requires fresh { AreFresh walk.now.scopes (bindings formula.now) }
    ensures added { AddsChosen walk.old.clause walk.new.clause walk.old.scopes
        (signed_form formula.now false) next place result }
    ensures kept { OnOk result (walk.new.scopes ≡ walk.old.scopes) }
{
    match formula.case() {
        Case::True => Ok(()),
        Case::False => Ok(()),
        Case::Atom(atom) => add_atom(walk, atom, false),
        Case::Not(part) => add_positive(walk, part, next, place),
        Case::Implies(left, right) => add_one(walk, left, true, right, false, next, place),
        Case::And(parts) => {
            let rest = count(formula, false).clauses;
            add_in_each(walk, parts, false, next, place, rest)
        }
        Case::Or(parts) => add_in_one(walk, parts, false, next, place),
        Case::Equiv(left, right) => add_difference(walk, left, right, next, place),
        Case::Forall(first, count, part) => add_existential(
            walk, first, count, part, false, next, place,
        ),
        Case::Exists(first, count, part) => add_universal(
            walk, first, count, part, false, next, place,
        ),
    }
}

/// Adds a list of each of two formulas.
#[cycle(walk)]
fn add_both(
    walk: &mut Walk,
    left: &Formula,
    left_sign: bool,
    right: &Formula,
    right_sign: bool,
    next: u32,
    place: u32,
) -> Result<(), Stop>
    requires can { CanAdd (one_of left.now left_sign right.now right_sign) next place }
    requires left { AreFresh walk.now.scopes (bindings left.now) }
    requires right { AreFresh walk.now.scopes (bindings right.now) }
    ensures added { AddsChosen walk.old.clause walk.new.clause walk.old.scopes
        (one_of left.now left_sign right.now right_sign) next place result }
    ensures kept { OnOk result (walk.new.scopes ≡ walk.old.scopes) }
{
    let skolems = count(left, left_sign).skolems;
    let rows = count(right, right_sign).clauses;
    match add(walk, left, left_sign, next, place / rows) {
        Ok(()) => {}
        Err(stop) => return Err(stop),
    }
    add(walk, right, right_sign, next + skolems, place % rows)
}

/// Adds a list of one of two formulas.
#[cycle(walk)]
fn add_one(
    walk: &mut Walk,
    left: &Formula,
    left_sign: bool,
    right: &Formula,
    right_sign: bool,
    next: u32,
    place: u32,
) -> Result<(), Stop>
    requires can { CanAdd (both_of left.now left_sign right.now right_sign) next place }
    requires left { AreFresh walk.now.scopes (bindings left.now) }
    requires right { AreFresh walk.now.scopes (bindings right.now) }
    ensures added { AddsChosen walk.old.clause walk.new.clause walk.old.scopes
        (both_of left.now left_sign right.now right_sign) next place result }
    ensures kept { OnOk result (walk.new.scopes ≡ walk.old.scopes) }
{
    let first = count(left, left_sign);
    if place < first.clauses {
        add(walk, left, left_sign, next, place)
    } else {
        add(
            walk,
            right,
            right_sign,
            next + first.skolems,
            place - first.clauses,
        )
    }
}

/// Adds a list of an equivalence.
#[cycle(walk)]
fn add_equivalence(
    walk: &mut Walk,
    left: &Formula,
    right: &Formula,
    next: u32,
    place: u32,
) -> Result<(), Stop>
    requires can { CanAdd (agreement left.now right.now) next place }
    requires left { AreFresh walk.now.scopes (bindings left.now) }
    requires right { AreFresh walk.now.scopes (bindings right.now) }
    ensures added { AddsChosen walk.old.clause walk.new.clause walk.old.scopes
        (agreement left.now right.now) next place result }
    ensures kept { OnOk result (walk.new.scopes ≡ walk.old.scopes) }
{
    let first = count_either(left, false, right, true);
    if place < first.clauses {
        add_both(walk, left, false, right, true, next, place)
    } else {
        add_both(
            walk,
            right,
            false,
            left,
            true,
            next + first.skolems,
            place - first.clauses,
        )
    }
}

/// Adds a list of the negation of an equivalence.
#[cycle(walk)]
fn add_difference(
    walk: &mut Walk,
    left: &Formula,
    right: &Formula,
    next: u32,
    place: u32,
) -> Result<(), Stop>
    requires can { CanAdd (difference left.now right.now) next place }
    requires left { AreFresh walk.now.scopes (bindings left.now) }
    requires right { AreFresh walk.now.scopes (bindings right.now) }
    ensures added { AddsChosen walk.old.clause walk.new.clause walk.old.scopes
        (difference left.now right.now) next place result }
    ensures kept { OnOk result (walk.new.scopes ≡ walk.old.scopes) }
{
    let first = count_either(left, true, right, true);
    if place < first.clauses {
        add_both(walk, left, true, right, true, next, place)
    } else {
        add_both(
            walk,
            left,
            false,
            right,
            false,
            next + first.skolems,
            place - first.clauses,
        )
    }
}

/// Adds a list of a formula for each value of a block's variables.
#[cycle(walk)]
fn add_universal(
    walk: &mut Walk,
    first: u32,
    count: u32,
    part: &Formula,
    sign: bool,
    next: u32,
    place: u32,
) -> Result<(), Stop>
    requires can { CanAdd (for_each first count (signed_form part.now sign)) next place }
    requires fresh { AreFresh walk.now.scopes (numbers_from first count ++ bindings part.now) }
    ensures added { AddsChosen walk.old.clause walk.new.clause walk.old.scopes
        (for_each first count (signed_form part.now sign)) next place result }
    ensures kept { OnOk result (walk.new.scopes ≡ walk.old.scopes) }
{
    match push_universal(walk, first, count) {
        Ok(()) => {}
        Err(_) => return Err(Stop::Memory),
    }
    match add(walk, part, sign, next, place) {
        Ok(()) => {}
        Err(stop) => return Err(stop),
    }
    walk.scopes.pop();
    Ok(())
}

/// Adds a list of a formula for some value of a block's variables.
#[cycle(walk)]
fn add_existential(
    walk: &mut Walk,
    first: u32,
    count: u32,
    part: &Formula,
    sign: bool,
    next: u32,
    place: u32,
) -> Result<(), Stop>
    requires can { CanAdd (for_any first count (signed_form part.now sign)) next place }
    requires fresh { AreFresh walk.now.scopes (numbers_from first count ++ bindings part.now) }
    ensures added { AddsChosen walk.old.clause walk.new.clause walk.old.scopes
        (for_any first count (signed_form part.now sign)) next place result }
    ensures kept { OnOk result (walk.new.scopes ≡ walk.old.scopes) }
{
    match push_existential(walk, first, count, part, next) {
        Ok(()) => {}
        Err(_) => return Err(Stop::Memory),
    }
    match add(walk, part, sign, next + count, place) {
        Ok(()) => {}
        Err(stop) => return Err(stop),
    }
    walk.scopes.pop();
    Ok(())
}

/// Adds a list of one of several formulas that all hold.
#[cycle(walk)]
fn add_in_one(
    walk: &mut Walk,
    parts: &[Formula],
    sign: bool,
    next: u32,
    place: u32,
) -> Result<(), Stop>
    requires can { CanAdd (all_of sign parts.now) next place }
    requires fresh { AreFresh walk.now.scopes (flat_map bindings parts.now) }
    ensures added { AddsChosen walk.old.clause walk.new.clause walk.old.scopes
        (all_of sign parts.now) next place result }
    ensures kept { OnOk result (walk.new.scopes ≡ walk.old.scopes) }
{
    let mut next = next;
    let mut place = place;
    for part in parts {
        let count = count(part, sign);
        if place < count.clauses {
            return add(walk, part, sign, next, place);
        }
        place -= count.clauses;
        next += count.skolems;
    }
    Ok(())
}

/// Adds a list of each of several formulas of which one holds; rest is how many lists they give.
#[cycle(walk)]
fn add_in_each(
    walk: &mut Walk,
    parts: &[Formula],
    sign: bool,
    next: u32,
    place: u32,
    rest: u32,
) -> Result<(), Stop>
    requires can { CanAdd (some_hold sign parts.now) next place }
    requires exact { rest ≡ clause_count (some_hold sign parts.now) }
    requires fresh { AreFresh walk.now.scopes (flat_map bindings parts.now) }
    ensures added { AddsChosen walk.old.clause walk.new.clause walk.old.scopes
        (some_hold sign parts.now) next place result }
    ensures kept { OnOk result (walk.new.scopes ≡ walk.old.scopes) }
{
    let mut next = next;
    let mut place = place;
    let mut rest = rest;
    for part in parts {
        let count = count(part, sign);
        rest /= count.clauses;
        match add(walk, part, sign, next, place / rest) {
            Ok(()) => {}
            Err(stop) => return Err(stop),
        }
        place %= rest;
        next += count.skolems;
    }
    Ok(())
}
