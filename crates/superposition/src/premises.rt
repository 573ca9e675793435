//! What is found once a premise and call: its number of variables, its eligible atoms and equations.
ghost use Rattle.std.specs.Prelude.{◌≡◌, ◌≤◌, [], ◌∷◌, ◌++◌, filter, IfOk, OnOk};
ghost use Rattle.spl_truth.specs.Places.{is_eligible};
ghost use Rattle.std.specs.List.{enumerate_from};
ghost use Rattle.spl_terms.specs.Clauses.{clause_symbols, part_of};
ghost use Rattle.spl_terms.specs.InOrder.{IsInOrder, variables};
ghost use Rattle.calculus.specs.Inferences.{clause_of, eligible_in};
ghost use Rattle.superposition.specs.Words.{plain};
ghost use Rattle.superposition.specs.Premises.{IsPrepared};

use crate::equations::{Equation, readings_of};
use calculus::Kept;
use kbo::eligible;
use spl_terms::{Atom, Clause, Part, order_of};
use std::alloc::{AllocError, Global};

/// How many variables the clause has.
pub(crate) fn variables(alloc: Global, clause: &Clause) -> Result<u32, AllocError>
    ensures { IfOk result (λ count. count ≡ variables clause.now) }
{
    let count = order_of(alloc, clause)?.len();
    if count > 4_294_967_295 {
        return Err(AllocError);
    }
    Ok(count as u32)
}

/// Adds the atom at this place of the part, if it is eligible.
fn add_eligible<'a>(
    premise: &'a Kept,
    part: Part,
    place: u32,
    atom: &'a Atom,
    places: &mut Vec<(u32, &'a Atom)>,
) -> Result<(), AllocError>
    requires { clause_symbols (clause_of premise.now) ≤ 4096 }
    ensures { OnOk result (plain places.new.items ≡ plain places.old.items
        ++ filter (λ x. is_eligible (clause_of premise.now) premise.now.selected part x.0) ((place, atom.now) ∷ [])) }
{
    if eligible(
        &premise.statement.clause,
        premise.selected,
        part,
        place as usize,
    ) {
        places.push((place, atom))?;
    }
    Ok(())
}

/// The eligible atoms of a part, each with its place.
pub(crate) fn eligible_in<'a>(
    alloc: Global,
    premise: &'a Kept,
    part: Part,
) -> Result<Vec<(u32, &'a Atom)>, AllocError>
    requires { clause_symbols (clause_of premise.now) ≤ 4096 }
    ensures { IfOk result (λ places. plain places.items ≡ eligible_in premise.now part) }
{
    let atoms = premise.statement.clause.part(part);
    let mut places = Vec::new(alloc);
    if atoms.len() > 4_294_967_295 {
        return Err(AllocError);
    }
    for place in 0..atoms.len() {
        add_eligible(premise, part, place as u32, &atoms[place], &mut places)?;
    }
    Ok(places)
}

/// All atoms of a part, each with its place.
pub(crate) fn atoms_in<'a>(
    alloc: Global,
    clause: &'a Clause,
    part: Part,
) -> Result<Vec<(u32, &'a Atom)>, AllocError>
    ensures { IfOk result (λ places. plain places.items ≡ enumerate_from 0 (part_of clause.now part)) }
{
    let atoms = clause.part(part);
    let mut places = Vec::with_capacity(alloc, atoms.len())?;
    if atoms.len() > 4_294_967_295 {
        return Err(AllocError);
    }
    for place in 0..atoms.len() {
        places.push((place as u32, &atoms[place]))?;
    }
    Ok(places)
}

/// A premise, with what its inferences ask for.
#[derive(Drop)]
pub(crate) struct Premise<'a> {
    /// The premise itself.
    pub(crate) kept: &'a Kept,
    /// How many variables it has.
    pub(crate) variables: u32,
    /// The eligible atoms of the antecedent, each with its place.
    pub(crate) antecedent: Vec<(u32, &'a Atom)>,
    /// Those of the succedent.
    pub(crate) succedent: Vec<(u32, &'a Atom)>,
    /// The eligible equations of the succedent, each in both directions.
    pub(crate) equations: Vec<Equation<'a>>,
}

impl<'a> Premise<'a> {
    /// The premise with all this. The only error is want of memory.
    pub(crate) fn new(alloc: Global, kept: &'a Kept) -> Result<Premise<'a>, AllocError>
        requires size { clause_symbols (clause_of kept.now) ≤ 4096 }
        requires in_order { IsInOrder (clause_of kept.now) }
        ensures { IfOk result (λ premise. (premise.kept.now ≡ kept.now) × IsPrepared premise) }
    {
        let variables = variables(alloc, &kept.statement.clause)?;
        let antecedent = eligible_in(alloc, kept, Part::Antecedent)?;
        let succedent = eligible_in(alloc, kept, Part::Succedent)?;
        let equations = readings_of(alloc, succedent.as_slice())?;
        Ok(Premise {
            kept,
            variables,
            antecedent,
            succedent,
            equations,
        })
    }
}
