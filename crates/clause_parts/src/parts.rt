//! The two parts of a clause that is split.
ghost use Rattle.std.specs.Prelude.{◌≡◌, ◌++◌, [], ◌∷◌, not, map, length, IfOk, OnOk};
ghost use Rattle.spl_terms.specs.Clauses.{in_order};
ghost use Rattle.clause_parts.specs.Parts.{variable_lists, marked, part_by, left_of, right_of, part_of_side, parted_by, parts_of};
ghost use Rattle.clause_parts.specs.Marking.{all_if};

use crate::components::{left_marks, succedent_start};
use spl_terms::{Atom, Clause, Items};
use spl_truth::is_ground;
use std::alloc::{AllocError, Global};

/// The two parts of a clause that is split (Weidenbach 2001, splitting): they share no variable, and each has an atom
/// of the succedent.
#[derive(Debug, Drop)]
pub struct Parts {
    /// The first component with an atom of the succedent, in order.
    pub left: Clause,
    /// All the rest, in order.
    pub right: Clause,
    /// Whether the left part has no variables.
    pub left_ground: bool,
}

fn copy_if(alloc: Global, mark: bool, atom: &Atom, made: &mut Items<Atom>) -> Result<(), AllocError>
    ensures { OnOk result (made.new ≡ made.old ++ all_if mark (atom.now ∷ [])) }
{
    if mark {
        made.push(atom.copy(alloc)?)?;
    }
    Ok(())
}

/// Copies of the marked atoms, with no room to spare.
#[tactic(auto, using(crate::proofs::Marks::marked_laws, std::proofs::lemmas::List::drop_all))]
fn marked(alloc: Global, marks: &[bool], atoms: &[Atom]) -> Result<Items<Atom>, AllocError>
    ensures { IfOk result (λ made. made ≡ marked marks.now atoms.now) }
{
    let count = marks.iter().filter(|mark| **mark).count();
    let mut made = Items::with_room(alloc, count)?;
    for (k, atom) in atoms.iter().enumerate() {
        let Some(mark) = marks.get(k) else {
            return Ok(made);
        };
        copy_if(alloc, *mark, atom, &mut made)?;
    }
    Ok(made)
}

/// The marked atoms of each part of the clause.
#[tactic(auto, using(crate::proofs::Marks::atom_counts))]
fn part_by(alloc: Global, clause: &Clause, marks: &[bool]) -> Result<Clause, AllocError>
    requires { length marks.now ≡ length (variable_lists clause.now) }
    ensures { IfOk result (λ part. part ≡ part_by clause.now marks.now) }
{
    let (constraint, antecedent) = (clause.constraint.as_slice(), clause.antecedent.as_slice());
    let (first, end) = (constraint.len(), succedent_start(clause));
    Ok(Clause {
        constraint: marked(alloc, &marks[..first], constraint)?,
        antecedent: marked(alloc, &marks[first..end], antecedent)?,
        succedent: marked(alloc, &marks[end..], clause.succedent.as_slice())?,
    })
}

/// The other marks.
fn others(alloc: Global, marks: &[bool]) -> Result<Items<bool>, AllocError>
    ensures { IfOk result (λ made. made ≡ map not marks.now) }
{
    let mut made = Items::with_room(alloc, marks.len())?;
    for mark in marks {
        made.push(!*mark)?;
    }
    Ok(made)
}

/// All atoms but the marked ones.
fn rest_by(alloc: Global, clause: &Clause, marks: &[bool]) -> Result<Clause, AllocError>
    requires { length marks.now ≡ length (variable_lists clause.now) }
    ensures { IfOk result (λ part. part ≡ part_by clause.now (map not marks.now)) }
{
    let others = others(alloc, marks)?;
    part_by(alloc, clause, others.as_slice())
}

/// The atoms of the left part as they stand, where the clause has parts.
fn left_of(alloc: Global, clause: &Clause) -> Result<Option<Clause>, AllocError>
    ensures { IfOk result (λ part. part ≡ left_of clause.now) }
{
    match left_marks(alloc, clause)? {
        Some(marks) => Ok(Some(part_by(alloc, clause, marks.as_slice())?)),
        None => Ok(None),
    }
}

/// The atoms of the right part as they stand, where the clause has parts.
fn right_of(alloc: Global, clause: &Clause) -> Result<Option<Clause>, AllocError>
    ensures { IfOk result (λ part. part ≡ right_of clause.now) }
{
    match left_marks(alloc, clause)? {
        Some(marks) => Ok(Some(rest_by(alloc, clause, marks.as_slice())?)),
        None => Ok(None),
    }
}

/// The atoms of a side of the split as they stand: 1 is the left part, 2 the right part. None by another number, and
/// where the clause has no parts.
///
/// # Errors
///
/// Only where there is no memory.
pub fn part_of_side(alloc: Global, side: u32, clause: &Clause) -> Result<Option<Clause>, AllocError>
    ensures { IfOk result (λ part. part ≡ part_of_side side clause.now) }
{
    match side {
        1 => left_of(alloc, clause),
        2 => right_of(alloc, clause),
        _ => Ok(None),
    }
}

/// The clause in order, however many symbols it has: repeated atoms of each part dropped after the first, variables
/// numbered by first occurrence.
///
/// # Errors
///
/// Only where there is no memory.
pub fn in_order(alloc: Global, clause: Clause) -> Result<Clause, AllocError>
    ensures { IfOk result (λ made. made ≡ in_order clause) }
{
    clause.into_ordered(alloc)
}

fn parted_by(alloc: Global, clause: &Clause, marks: &[bool]) -> Result<Parts, AllocError>
    requires { length marks.now ≡ length (variable_lists clause.now) }
    ensures { IfOk result (λ parts. parts ≡ parted_by clause.now marks.now) }
{
    let left = in_order(alloc, part_by(alloc, clause, marks)?)?;
    let right = in_order(alloc, rest_by(alloc, clause, marks)?)?;
    let left_ground = is_ground(&left);
    Ok(Parts {
        left,
        right,
        left_ground,
    })
}

/// The parts of a clause, both in order; none exactly where it has none.
///
/// Two atoms belong together if a chain of atoms leads from one to the other in which neighbours share a variable. The
/// left part is the first such component, by its first atom in constraint, antecedent, succedent, that has an atom of
/// the succedent; the right part is all the rest, and there are parts only if it has an atom of the succedent too.
///
/// # Errors
///
/// Only where there is no memory.
pub fn split_of(alloc: Global, clause: &Clause) -> Result<Option<Parts>, AllocError>
    ensures exact { IfOk result (λ parts. parts ≡ parts_of clause.now) }
{
    match left_marks(alloc, clause)? {
        Some(marks) => Ok(Some(parted_by(alloc, clause, marks.as_slice())?)),
        None => Ok(None),
    }
}
