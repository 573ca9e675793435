//! What resolution concludes from two clauses under substitutions, without the instances of the clauses.
ghost use Rattle.std.specs.Prelude.{◌≡◌, ◌<◌, ◌++◌, map, sum_by, true, length, remove, Some, option_map, IfOk, MatchOption};
ghost use Rattle.std.specs.Option.{option_copied};
ghost use Rattle.spl_terms.specs.Clauses.{atom_symbols, clause_symbols, distinct, part_of, replace_in_atom, in_order};
ghost use Rattle.spl_truth.specs.Truth.{entry, apply};
ghost use Rattle.proof_steps.specs.Steps.{without, is_negative, both_same, may_resolve, resolvent, states, within};

use crate::comparing::same_instances;
use crate::instances::KeptAtoms;
use crate::ordering::ordered;
use crate::resolving::{Literals, around, is_negative};
use crate::step::Statement;
use dep_sets::Deps;
use spl_terms::{Atom, Clause, Items, Part, Term, at};
use std::alloc::{AllocError, Global};

fn both_same_instances(a: Option<&Atom>, s: &[Term], b: Option<&Atom>, t: &[Term]) -> bool
    ensures { result ≡ both_same (option_map (replace_in_atom (entry s.now)) (option_copied a.entry))
        (option_map (replace_in_atom (entry t.now)) (option_copied b.entry)) }
{
    match (a, b) {
        (Some(a), Some(b)) => same_instances(a, s, b, t),
        _ => false,
    }
}

/// Whether the literals are there and are the same under the substitutions, the second one in the constraint or the
/// antecedent. It takes no memory.
#[tactic(auto, using(crate::proofs::JoinedParts::instances_resolve))]
pub fn may_resolve_instances(
    literals: Literals,
    s: &[Term],
    t: &[Term],
    p: &Clause,
    q: &Clause,
) -> bool
    ensures { result ≡ may_resolve literals.i literals.part literals.j (apply s.now p.now) (apply t.now q.now) }
{
    let Literals { i, part, j } = literals;
    is_negative(part)
        && both_same_instances(
            at(p.succedent.as_slice(), i as usize),
            s,
            at(q.part(part), j as usize),
            t,
        )
}

/// The atoms of three lists, each list under a substitution of its own, without repeated ones; none where they have more
/// than 4,096 symbols.
fn kept_of(
    alloc: Global,
    s: &[Term],
    first: &[Atom],
    t: &[Term],
    second: &[Atom],
    u: &[Term],
    third: &[Atom],
) -> Result<Option<Items<Atom>>, AllocError>
    ensures { IfOk result (λ made. MatchOption made
        (4096 < sum_by atom_symbols (distinct (map (replace_in_atom (entry s.now)) first.now
        ++ map (replace_in_atom (entry t.now)) second.now ++ map (replace_in_atom (entry u.now)) third.now)))
        (λ kept. kept ≡ distinct (map (replace_in_atom (entry s.now)) first.now
        ++ map (replace_in_atom (entry t.now)) second.now ++ map (replace_in_atom (entry u.now)) third.now))) }
{
    let mut kept = KeptAtoms::new(alloc);
    if !kept.add_instances(alloc, s, first)? {
        return Ok(None);
    }
    if !kept.add_instances(alloc, t, second)? {
        return Ok(None);
    }
    if !kept.add_instances(alloc, u, third)? {
        return Ok(None);
    }
    Ok(Some(kept.into_atoms()))
}

/// The atoms of a part of the second clause before and behind its literal; all of them where that is in another part.
fn left_of(of: Part, part: Part, j: usize, q: &Clause) -> (&[Atom], &[Atom])
    requires { j < length (part_of q.now part) }
    ensures { result.0.now ++ result.1.now ≡ part_of (without part j q.now) of }
{
    let atoms = q.part(of);
    match (of, part) {
        (Part::Constraint, Part::Constraint)
        | (Part::Antecedent, Part::Antecedent)
        | (Part::Succedent, Part::Succedent) => around(atoms, j),
        _ => (atoms, &[]),
    }
}

/// The resolvent of the clauses under the substitutions, without repeated atoms; none only where a part of it has more
/// than 4,096 symbols, and so the conclusion. Nothing larger is built.
fn resolvent_instance(
    alloc: Global,
    literals: Literals,
    s: &[Term],
    t: &[Term],
    p: &Clause,
    q: &Clause,
) -> Result<Option<Clause>, AllocError>
    requires first { literals.i < length p.now.succedent }
    requires second { literals.j < length (part_of q.now literals.part) }
    requires negative { is_negative literals.part ≡ true }
    ensures { IfOk result (λ made. MatchOption made
        (4096 < clause_symbols (in_order (resolvent literals.i literals.part literals.j (apply s.now p.now) (apply t.now q.now))))
        (λ kept. in_order kept ≡ in_order (resolvent literals.i literals.part literals.j (apply s.now p.now) (apply t.now q.now)))) }
{
    let Literals { i, part, j } = literals;
    let (sorts, other_sorts) = left_of(Part::Constraint, part, j as usize, q);
    let Some(constraint) = kept_of(alloc, s, p.constraint.as_slice(), t, sorts, t, other_sorts)?
    else {
        return Ok(None);
    };
    let (atoms, others) = left_of(Part::Antecedent, part, j as usize, q);
    let Some(antecedent) = kept_of(alloc, s, p.antecedent.as_slice(), t, atoms, t, others)? else {
        return Ok(None);
    };
    let (before, behind) = around(p.succedent.as_slice(), i as usize);
    let Some(succedent) = kept_of(alloc, s, before, s, behind, t, q.succedent.as_slice())? else {
        return Ok(None);
    };
    Ok(Some(Clause {
        constraint,
        antecedent,
        succedent,
    }))
}

/// The resolvent of the clauses under the substitutions, in order and with these dependencies; nothing past 4,096
/// symbols, of which nothing is built.
#[tactic(auto, using(crate::proofs::JoinedParts::literals_there))]
pub fn ordered_resolvent(
    alloc: Global,
    literals: Literals,
    s: &[Term],
    t: &[Term],
    p: &Clause,
    q: &Clause,
    deps: Deps,
) -> Result<Option<Statement>, AllocError>
    requires { may_resolve literals.i literals.part literals.j (apply s.now p.now) (apply t.now q.now) ≡ true }
    ensures { IfOk result (λ made. made ≡ within (Some (states
        (in_order (resolvent literals.i literals.part literals.j (apply s.now p.now) (apply t.now q.now))) deps))) }
{
    match resolvent_instance(alloc, literals, s, t, p, q)? {
        Some(made) => ordered(alloc, made, deps),
        None => Ok(None),
    }
}
