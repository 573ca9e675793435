//! What resolution concludes.
ghost use Rattle.std.specs.Prelude.{[], ◌≡◌, ◌<◌, ◌++◌, true, length, remove, is_some, option_map, IfOk, OnOk};
ghost use Rattle.std.specs.Option.{option_copied};
ghost use Rattle.spl_terms.specs.Clauses.{part_of, clause_symbols, in_order, FitsOrBig};
ghost use Rattle.dep_sets.specs.Assumptions.{united};
ghost use Rattle.proof_steps.specs.Steps.{without, is_negative, both_same, may_resolve, resolvent, resolved, resolution, states, from_two, Sized};
ghost use Rattle.proof_steps.specs.Checked.{resolution_of_lines};

use crate::lookup::numbered_statement;
use crate::step::{Line, Statement};
use dep_sets::Deps;
use spl_terms::{Atom, Clause, Items, Part, PushError, at, same_atom};
use spl_truth::is_ground;
use std::alloc::{AllocError, Global};

/// The two literals that are resolved: atom `i` of the succedent of the first clause, and atom `j` of this part of the
/// second one, counting from 0.
#[derive(Clone, Copy, Debug)]
pub struct Literals {
    pub i: u32,
    pub part: Part,
    pub j: u32,
}

impl Literals {
    /// The literals at these places.
    pub fn new(i: u32, part: Part, j: u32) -> Literals
        ensures { (result.i ≡ i) × (result.part ≡ part) × (result.j ≡ j) }
    {
        Literals { i, part, j }
    }
}

// ---- the test

/// Whether the part stands on the left of the arrow.
pub fn is_negative(part: Part) -> bool
    ensures { result ≡ is_negative part }
{
    match part {
        Part::Constraint | Part::Antecedent => true,
        Part::Succedent => false,
    }
}

fn both_same(a: Option<&Atom>, b: Option<&Atom>) -> bool
    ensures { result ≡ both_same (option_copied a.entry) (option_copied b.entry) }
{
    match (a, b) {
        (Some(a), Some(b)) => same_atom(a, b),
        _ => false,
    }
}

/// Whether atom `i` of the first clause's succedent, from 0, and atom `j` of that part of the second are there and
/// the same up to exchanged sides, and the part is the constraint or the antecedent.
pub fn may_resolve(i: u32, part: Part, j: u32, p: &Clause, q: &Clause) -> bool
    ensures { result ≡ may_resolve i part j p.now q.now }
{
    is_negative(part)
        && both_same(
            at(p.succedent.as_slice(), i as usize),
            at(q.part(part), j as usize),
        )
}

// ---- the resolvent

/// Copies the atoms to the end of the list.
fn copy_to(alloc: Global, made: &mut Items<Atom>, atoms: &[Atom]) -> Result<(), AllocError>
    ensures { OnOk result (made.new ≡ made.old ++ atoms.now) }
{
    for atom in atoms {
        made.push(atom.copy(alloc)?)?;
    }
    Ok(())
}

/// Copies of the atoms of three lists, with no room to spare.
fn copies(
    alloc: Global,
    first: &[Atom],
    second: &[Atom],
    third: &[Atom],
) -> Result<Items<Atom>, AllocError>
    ensures { IfOk result (λ made. made ≡ first.now ++ second.now ++ third.now) }
{
    let mut made = Items::with_room(alloc, first.len() + second.len() + third.len())?;
    copy_to(alloc, &mut made, first)?;
    copy_to(alloc, &mut made, second)?;
    copy_to(alloc, &mut made, third)?;
    Ok(made)
}

/// The atoms before and behind the one at this place, from 0.
pub fn around(atoms: &[Atom], place: usize) -> (&[Atom], &[Atom])
    requires { place < length atoms.now }
    ensures { result.0.now ++ result.1.now ≡ remove atoms.now place }
{
    (&atoms[..place], &atoms[place + 1..])
}

/// The atoms of the first list, and those of the second but the one at place `j`.
fn joined_without(
    alloc: Global,
    p: &[Atom],
    q: &[Atom],
    j: usize,
) -> Result<Items<Atom>, AllocError>
    requires { j < length q.now }
    ensures { IfOk result (λ made. made ≡ p.now ++ remove q.now j) }
{
    let (before, behind) = around(q, j);
    copies(alloc, p, before, behind)
}

/// One part of the resolvent, other than the succedent.
fn joined_part(
    alloc: Global,
    of: Part,
    part: Part,
    j: usize,
    p: &Clause,
    q: &Clause,
) -> Result<Items<Atom>, AllocError>
    requires { j < length (part_of q.now part) }
    ensures { IfOk result (λ made. made ≡ part_of p.now of ++ part_of (without part j q.now) of) }
{
    let (kept, others) = (p.part(of), q.part(of));
    match (of, part) {
        (Part::Constraint, Part::Constraint)
        | (Part::Antecedent, Part::Antecedent)
        | (Part::Succedent, Part::Succedent) => joined_without(alloc, kept, others, j),
        _ => copies(alloc, kept, others, &[]),
    }
}

/// Both clauses without the two atoms, copied once.
#[tactic(auto, using(crate::proofs::Steps::places))]
fn resolvent(
    alloc: Global,
    i: u32,
    part: Part,
    j: u32,
    p: &Clause,
    q: &Clause,
) -> Result<Clause, AllocError>
    requires { may_resolve i part j p.now q.now ≡ true }
    ensures { IfOk result (λ c. c ≡ resolvent i part j p.now q.now) }
{
    let (before, behind) = around(p.succedent.as_slice(), i as usize);
    Ok(Clause {
        constraint: joined_part(alloc, Part::Constraint, part, j as usize, p, q)?,
        antecedent: joined_part(alloc, Part::Antecedent, part, j as usize, p, q)?,
        succedent: copies(alloc, before, behind, q.succedent.as_slice())?,
    })
}

/// The resolvent in order, with the dependencies of both clauses.
fn resolvent_stated(
    alloc: Global,
    literals: Literals,
    p: &Clause,
    q: &Clause,
    p_deps: &Deps,
    q_deps: &Deps,
) -> Result<Statement, PushError>
    requires { may_resolve literals.i literals.part literals.j p.now q.now ≡ true }
    ensures ok { IfOk result (λ s. s ≡
        states (in_order (resolvent literals.i literals.part literals.j p.now q.now)) (united p_deps.now q_deps.now)) }
    ensures big { FitsOrBig (clause_symbols (in_order (resolvent literals.i literals.part literals.j p.now q.now))) result }
{
    let Literals { i, part, j } = literals;
    let Ok(joined) = resolvent(alloc, i, part, j, p, q) else {
        return Err(PushError::Memory);
    };
    let clause = joined.into_numbered(alloc)?;
    let Ok(deps) = p_deps.union(q_deps) else {
        return Err(PushError::Memory);
    };
    Ok(Statement { clause, deps })
}

/// What resolution concludes from two clauses as they stand.
fn resolved(
    alloc: Global,
    literals: Literals,
    p: &Clause,
    q: &Clause,
    p_deps: &Deps,
    q_deps: &Deps,
) -> Result<Option<Statement>, PushError>
    ensures { Sized
        (option_map (λ c. states c (united p_deps.now q_deps.now)) (resolved literals.i literals.part literals.j p.now q.now))
        result }
{
    if !may_resolve(literals.i, literals.part, literals.j, p, q) {
        return Ok(None);
    }
    let made = resolvent_stated(alloc, literals, p, q, p_deps, q_deps)?;
    Ok(Some(made))
}

// ---- lines without variables

/// Whether resolution concludes anything, with empty substitutions.
#[tactic(auto, using(crate::proofs::Steps::ground_rules))]
fn applies(i: u32, part: Part, j: u32, p: &Statement, q: &Statement) -> bool
    ensures { result ≡ is_some (from_two (resolution i part j [] []) p.now q.now) }
{
    may_resolve(i, part, j, &p.clause, &q.clause) && is_ground(&p.clause) && is_ground(&q.clause)
}

/// What Resolve concludes from two statements with empty substitutions, as `resolve_lines` does from two lines.
///
/// # Errors
///
/// As those of `resolve_lines`.
pub fn resolve_statements(
    alloc: Global,
    i: u32,
    part: Part,
    j: u32,
    p: &Statement,
    q: &Statement,
) -> Result<Option<Statement>, PushError>
    ensures { Sized (from_two (resolution i part j [] []) p.now q.now) result }
{
    if !applies(i, part, j, p, q) {
        return Ok(None);
    }
    let literals = Literals { i, part, j };
    resolved(alloc, literals, &p.clause, &q.clause, &p.deps, &q.deps)
}

/// Whether `resolve_lines` concludes anything at these places, of any size; it takes no memory.
pub fn may_resolve_lines(i: u32, part: Part, j: u32, m: u32, n: u32, earlier: &[Line]) -> bool
    ensures { result ≡ is_some (resolution_of_lines i part j m n earlier.now) }
{
    match (
        numbered_statement(earlier, m),
        numbered_statement(earlier, n),
    ) {
        (Some(p), Some(q)) => applies(i, part, j, p, q),
        _ => false,
    }
}

/// What Resolve concludes from the lines with the numbers `m` and `n`, from 1, with empty substitutions: so both
/// are without variables, and atom `i` of the first one's succedent is the same as atom `j` of that part of the
/// second one, places counting from 0.
///
/// It takes no memory where nothing is concluded, which `may_resolve_lines` tells beforehand.
///
/// # Errors
///
/// `Big` exactly where the conclusion has more than 4,096 symbols, with the smaller of their count and 1,000,000;
/// `Memory` only where there is no memory.
pub fn resolve_lines(
    alloc: Global,
    i: u32,
    part: Part,
    j: u32,
    m: u32,
    n: u32,
    earlier: &[Line],
) -> Result<Option<Statement>, PushError>
    ensures { Sized (resolution_of_lines i part j m n earlier.now) result }
{
    match (
        numbered_statement(earlier, m),
        numbered_statement(earlier, n),
    ) {
        (Some(p), Some(q)) => resolve_statements(alloc, i, part, j, p, q),
        _ => Ok(None),
    }
}
