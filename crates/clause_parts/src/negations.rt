//! The negation of one atom of a clause, which a side of a split assumes.
ghost use Rattle.std.specs.Prelude.{◌≡◌, IfOk};
ghost use Rattle.std.specs.List.{slice_get};
ghost use Rattle.std.specs.Option.{option_copied};
ghost use Rattle.spl_terms.specs.Clauses.{atoms_of};
ghost use Rattle.clause_parts.specs.Parts.{as_false, as_true, negation};

use crate::components::succedent_start;
use spl_terms::{Atom, Clause, Items, at};
use std::alloc::{AllocError, Global};

/// The atom with this number, from 0 in constraint, antecedent, succedent.
#[tactic(auto, using(crate::proofs::Marks::get_laws))]
fn atom_with_number(clause: &Clause, number: usize) -> Option<&Atom>
    ensures { option_copied result ≡ slice_get (atoms_of clause.now) number }
{
    let (first, second) = (clause.constraint.len(), clause.antecedent.len());
    if number < first {
        at(clause.constraint.as_slice(), number)
    } else if number - first < second {
        at(clause.antecedent.as_slice(), number - first)
    } else {
        at(clause.succedent.as_slice(), number - first - second)
    }
}

fn as_false(alloc: Global, atom: &Atom) -> Result<Clause, AllocError>
    ensures { IfOk result (λ made. made ≡ as_false atom.now) }
{
    let mut atoms = Items::with_room(alloc, 1)?;
    atoms.push(atom.copy(alloc)?)?;
    let none = Items::new(alloc);
    let (constraint, antecedent) = if atom.is_of_sort() {
        (atoms, none)
    } else {
        (none, atoms)
    };
    Ok(Clause {
        constraint,
        antecedent,
        succedent: Items::new(alloc),
    })
}

fn as_true(alloc: Global, atom: &Atom) -> Result<Clause, AllocError>
    ensures { IfOk result (λ made. made ≡ as_true atom.now) }
{
    let mut succedent = Items::with_room(alloc, 1)?;
    succedent.push(atom.copy(alloc)?)?;
    Ok(Clause {
        constraint: Items::new(alloc),
        antecedent: Items::new(alloc),
        succedent,
    })
}

/// The atom with this number, from 0 in constraint, antecedent, succedent, alone on the other side of the arrow: an atom
/// of the succedent stands in the constraint if it is of a sort, else in the antecedent; any other in the succedent. None
/// where there is no such atom.
///
/// # Errors
///
/// Only where there is no memory.
pub fn negation(alloc: Global, number: u32, clause: &Clause) -> Result<Option<Clause>, AllocError>
    ensures { IfOk result (λ made. made ≡ negation number clause.now) }
{
    let number = number as usize;
    match atom_with_number(clause, number) {
        Some(atom) if number < succedent_start(clause) => Ok(Some(as_true(alloc, atom)?)),
        Some(atom) => Ok(Some(as_false(alloc, atom)?)),
        None => Ok(None),
    }
}
