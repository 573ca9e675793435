//! Conclusions from instances of two premises, each atom copied once and each list with no room to spare.
ghost use Rattle.std.specs.Prelude.{◌≡◌, ◌++◌, ◌<◌, map, length, remove, is_some, option_and_then, true, IfOk, OnOk};
ghost use Rattle.spl_terms.specs.Terms.{replace};
ghost use Rattle.spl_terms.specs.Clauses.{replace_in_atom, part_of};
ghost use Rattle.spl_terms.specs.declared.clause.Part.TheVariants.{Succedent};
ghost use Rattle.spl_truth.specs.Truth.{entry, apply};
ghost use Rattle.proof_steps.specs.Spots.{changed_at, term_under, with_term_under, atom_at, with_term_at};
ghost use Rattle.proof_steps.specs.Steps.{without, joined};

use crate::placing::add_with;
use spl_terms::{Atom, Clause, Items, Part, Spot, Term};
use spl_truth::{Subst, replaced};
use std::alloc::{AllocError, Global};

// ---- instances of atoms

fn instances_of(alloc: Global, entries: &[Term], terms: &[Term]) -> Result<Items<Term>, AllocError>
    ensures { IfOk result (λ made. made ≡ map (replace (entry entries.now)) terms.now) }
{
    let mut made = Items::with_room(alloc, terms.len())?;
    for term in terms {
        made.push(replaced(alloc, entries, term)?)?;
    }
    Ok(made)
}

fn instance_of(alloc: Global, entries: &[Term], atom: &Atom) -> Result<Atom, AllocError>
    ensures { IfOk result (λ made. made ≡ replace_in_atom (entry entries.now) atom.now) }
{
    match atom {
        Atom::Holds(predicate, args) => Ok(Atom::Holds(
            *predicate,
            instances_of(alloc, entries, args.as_slice())?,
        )),
        Atom::Equal(left, right) => Ok(Atom::Equal(
            replaced(alloc, entries, left)?,
            replaced(alloc, entries, right)?,
        )),
    }
}

/// Adds the instances of the atoms at the end.
pub(crate) fn add_instances(
    alloc: Global,
    entries: &[Term],
    atoms: &[Atom],
    made: &mut Items<Atom>,
) -> Result<(), AllocError>
    ensures { OnOk result (made.new ≡ made.old ++ map (replace_in_atom (entry entries.now)) atoms.now) }
{
    for atom in atoms {
        made.push(instance_of(alloc, entries, atom)?)?;
    }
    Ok(())
}

/// The instances of the atoms of two lists by the first entries, and then those of two more by the second ones.
fn joined_instances(
    alloc: Global,
    s: &[Term],
    first: (&[Atom], &[Atom]),
    t: &[Term],
    second: (&[Atom], &[Atom]),
) -> Result<Items<Atom>, AllocError>
    ensures { IfOk result (λ made. made ≡ map (replace_in_atom (entry s.now)) (first.entry.0.now ++ first.entry.1.now)
        ++ map (replace_in_atom (entry t.now)) (second.entry.0.now ++ second.entry.1.now)) }
{
    let (before, behind) = first;
    let (others, rest) = second;
    let room = before.len() + behind.len() + others.len() + rest.len();
    let mut made = Items::with_room(alloc, room)?;
    add_instances(alloc, s, before, &mut made)?;
    add_instances(alloc, s, behind, &mut made)?;
    add_instances(alloc, t, others, &mut made)?;
    add_instances(alloc, t, rest, &mut made)?;
    Ok(made)
}

// ---- resolvents

/// The literals that are resolved: a place of the succedent of the first premise, and one of a part of the second one.
#[derive(Clone, Copy, Debug)]
pub(crate) struct Literals {
    pub(crate) i: u32,
    pub(crate) part: Part,
    pub(crate) j: u32,
}

/// The atoms before and behind the one at this place, from 0.
fn around(atoms: &[Atom], place: usize) -> (&[Atom], &[Atom])
    requires { place < length atoms.now }
    ensures { result.0.now ++ result.1.now ≡ remove atoms.now place }
{
    (&atoms[..place], &atoms[place + 1..])
}

/// What is left of this part once the atom at this place of another one, or of this one, is taken out.
pub(crate) fn left_of(clause: &Clause, of: Part, part: Part, place: usize) -> (&[Atom], &[Atom])
    requires { place < length (part_of clause.now part) }
    ensures { result.0.now ++ result.1.now ≡ part_of (without part place clause.now) of }
{
    let atoms = clause.part(of);
    match (of, part) {
        (Part::Constraint, Part::Constraint)
        | (Part::Antecedent, Part::Antecedent)
        | (Part::Succedent, Part::Succedent) => around(atoms, place),
        _ => (atoms, &[]),
    }
}

/// One part of the resolvent.
fn resolved_part(
    alloc: Global,
    of: Part,
    literals: Literals,
    p: (&Clause, &Subst),
    q: (&Clause, &Subst),
) -> Result<Items<Atom>, AllocError>
    requires i { literals.i < length p.0.now.succedent }
    requires j { literals.j < length (part_of q.0.now literals.part) }
    ensures { IfOk result (λ made. made ≡
        map (replace_in_atom (entry p.entry.1.now.terms)) (part_of (without Succedent literals.i p.entry.0.now) of)
        ++ map (replace_in_atom (entry q.entry.1.now.terms))
        (part_of (without literals.part literals.j q.entry.0.now) of)) }
{
    let Literals { i, part, j } = literals;
    let (clause, s) = p;
    let (other, t) = q;
    let first = left_of(clause, of, Part::Succedent, i as usize);
    let second = left_of(other, of, part, j as usize);
    joined_instances(alloc, s.terms.as_slice(), first, t.terms.as_slice(), second)
}

/// The instances of both premises without the literals that are resolved.
pub(crate) fn resolvent_of(
    alloc: Global,
    literals: Literals,
    p: (&Clause, &Subst),
    q: (&Clause, &Subst),
) -> Result<Clause, AllocError>
    requires i { literals.i < length p.0.now.succedent }
    requires j { literals.j < length (part_of q.0.now literals.part) }
    ensures { IfOk result (λ made. made ≡ joined
        (apply p.entry.1.now.terms (without Succedent literals.i p.entry.0.now))
        (apply q.entry.1.now.terms (without literals.part literals.j q.entry.0.now))) }
{
    Ok(Clause {
        constraint: resolved_part(alloc, Part::Constraint, literals, p, q)?,
        antecedent: resolved_part(alloc, Part::Antecedent, literals, p, q)?,
        succedent: resolved_part(alloc, Part::Succedent, literals, p, q)?,
    })
}

// ---- paramodulants

/// One part of both premises' instances without the equation of the first one.
fn joined_part(
    alloc: Global,
    of: Part,
    i: u32,
    p: (&Clause, &Subst),
    q: (&Clause, &Subst),
) -> Result<Items<Atom>, AllocError>
    requires { i < length p.0.now.succedent }
    ensures { IfOk result (λ made. made ≡
        map (replace_in_atom (entry p.entry.1.now.terms)) (part_of (without Succedent i p.entry.0.now) of)
        ++ map (replace_in_atom (entry q.entry.1.now.terms)) (part_of q.entry.0.now of)) }
{
    let (clause, s) = p;
    let (other, t) = q;
    let first = left_of(clause, of, Part::Succedent, i as usize);
    let second: (&[Atom], &[Atom]) = (other.part(of), &[]);
    joined_instances(alloc, s.terms.as_slice(), first, t.terms.as_slice(), second)
}

/// The part of the spot of both premises' instances, with another term at the spot of the second one.
fn rewritten_part(
    alloc: Global,
    i: u32,
    spot: &Spot,
    new: Term,
    p: (&Clause, &Subst),
    q: (&Clause, &Subst),
) -> Result<Items<Atom>, AllocError>
    requires i { i < length p.0.now.succedent }
    requires spot { is_some (option_and_then (term_under spot.now.path)
        (atom_at spot.now.part spot.now.place q.0.now)) ≡ true }
    ensures { IfOk result (λ made. made ≡
        map (replace_in_atom (entry p.entry.1.now.terms)) (part_of (without Succedent i p.entry.0.now) spot.now.part)
        ++ changed_at spot.now.place (with_term_under spot.now.path new)
        (map (replace_in_atom (entry q.entry.1.now.terms)) (part_of q.entry.0.now spot.now.part))) }
{
    let (clause, s) = p;
    let (other, t) = q;
    let (before, behind) = left_of(clause, spot.part, Part::Succedent, i as usize);
    let atoms = other.part(spot.part);
    let room = before.len() + behind.len() + atoms.len();
    let mut made = Items::with_room(alloc, room)?;
    add_instances(alloc, s.terms.as_slice(), before, &mut made)?;
    add_instances(alloc, s.terms.as_slice(), behind, &mut made)?;
    add_with(alloc, t.terms.as_slice(), atoms, spot, new, &mut made)?;
    Ok(made)
}

/// The instances of both premises without the equation of the first one, and with the instance of this term of the
/// first one at the spot of the second one.
pub(crate) fn paramodulant_of(
    alloc: Global,
    i: u32,
    spot: &Spot,
    by: &Term,
    p: (&Clause, &Subst),
    q: (&Clause, &Subst),
) -> Result<Clause, AllocError>
    requires i { i < length p.0.now.succedent }
    requires spot { is_some (option_and_then (term_under spot.now.path)
        (atom_at spot.now.part spot.now.place q.0.now)) ≡ true }
    ensures { IfOk result (λ made. made ≡ joined
        (apply p.entry.1.now.terms (without Succedent i p.entry.0.now))
        (with_term_at spot.now (replace (entry p.entry.1.now.terms) by.now)
        (apply q.entry.1.now.terms q.entry.0.now))) }
{
    let new = replaced(alloc, p.1.terms.as_slice(), by)?;
    match spot.part {
        Part::Constraint => Ok(Clause {
            constraint: rewritten_part(alloc, i, spot, new, p, q)?,
            antecedent: joined_part(alloc, Part::Antecedent, i, p, q)?,
            succedent: joined_part(alloc, Part::Succedent, i, p, q)?,
        }),
        Part::Antecedent => Ok(Clause {
            constraint: joined_part(alloc, Part::Constraint, i, p, q)?,
            antecedent: rewritten_part(alloc, i, spot, new, p, q)?,
            succedent: joined_part(alloc, Part::Succedent, i, p, q)?,
        }),
        Part::Succedent => Ok(Clause {
            constraint: joined_part(alloc, Part::Constraint, i, p, q)?,
            antecedent: joined_part(alloc, Part::Antecedent, i, p, q)?,
            succedent: rewritten_part(alloc, i, spot, new, p, q)?,
        }),
    }
}
