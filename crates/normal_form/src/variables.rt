//! The variables of a formula.

ghost use Rattle.std.specs.Prelude.{◌≡◌, ◌++◌, OnOk};
ghost use Rattle.std.specs.List.{flat_map};
ghost use Rattle.spl_terms.specs.Terms.{term_variables};
ghost use Rattle.spl_terms.specs.Clauses.{atom_variables};
ghost use Rattle.normal_form.specs.Occurring.{occurring};

use formulas::{Case, Formula};
use spl_terms::{Atom, Items, Term};
use std::alloc::AllocError;

/// Appends the variables of a term.
#[cycle(term)]
#[tactic(auto, using(crate::proofs::Terms::variable_laws))]
fn add_term_variables(term: &Term, found: &mut Items<u32>) -> Result<(), AllocError>
    ensures { OnOk result (found.new ≡ found.old ++ term_variables term.now) }
{
    match term {
        Term::Var(variable) => found.push(*variable),
        Term::App(_, args) => add_terms_variables(args.as_slice(), found),
    }
}

#[cycle(term)]
#[tactic(auto, using(crate::proofs::Terms::variable_laws))]
fn add_terms_variables(terms: &[Term], found: &mut Items<u32>) -> Result<(), AllocError>
    ensures { OnOk result (found.new ≡ found.old ++ flat_map term_variables terms.now) }
{
    for term in terms {
        add_term_variables(term, found)?;
    }
    Ok(())
}

fn add_atom_variables(atom: &Atom, found: &mut Items<u32>) -> Result<(), AllocError>
    ensures { OnOk result (found.new ≡ found.old ++ atom_variables atom.now) }
{
    match atom {
        Atom::Holds(_, args) => add_terms_variables(args.as_slice(), found),
        Atom::Equal(left, right) => {
            add_term_variables(left, found)?;
            add_term_variables(right, found)
        }
    }
}

/// Appends the variables of a formula, as deep as its text nests.
#[cycle(formula)]
#[tactic(auto, using(crate::proofs::OccurringLemmas::cases))]
pub fn add_variables(formula: &Formula, found: &mut Items<u32>) -> Result<(), AllocError>
    ensures { OnOk result (found.new ≡ found.old ++ occurring formula.now) }
{
    match formula.case() {
        Case::True => Ok(()),
        Case::False => Ok(()),
        Case::Atom(atom) => add_atom_variables(atom, found),
        Case::Not(part) => add_variables(part, found),
        Case::And(parts) => add_parts_variables(parts, found),
        Case::Or(parts) => add_parts_variables(parts, found),
        Case::Implies(left, right) => {
            add_variables(left, found)?;
            add_variables(right, found)
        }
        Case::Equiv(left, right) => {
            add_variables(left, found)?;
            add_variables(right, found)
        }
        Case::Forall(_, _, part) => add_variables(part, found),
        Case::Exists(_, _, part) => add_variables(part, found),
    }
}

#[cycle(formula)]
fn add_parts_variables(parts: &[Formula], found: &mut Items<u32>) -> Result<(), AllocError>
    ensures { OnOk result (found.new ≡ found.old ++ flat_map occurring parts.now) }
{
    for part in parts {
        add_variables(part, found)?;
    }
    Ok(())
}
