//! Formulas, made step by step.
use formulas::{Case, Formula};
use normal_form::add_variables;
use spl_terms::{Atom, Items, Kind, Symbol, Term};
use std::alloc::{AllocError, Global};
use std::io;
use std::rt::Runtime;

/// A constant, or a predicate of the variable with this number.
fn operand(alloc: Global, word: &str) -> Result<Formula, AllocError> {
    match word {
        "true" => Ok(Formula::always()),
        "false" => Ok(Formula::never()),
        _ => {
            let mut args = Items::with_room(alloc, 1)?;
            args.push(Term::Var(word.parse().unwrap_or(0)))?;
            let symbol = Symbol {
                number: 0,
                kind: Kind::Predicate,
            };
            Ok(Formula::atom(Atom::Holds(symbol, args)))
        }
    }
}

/// One of the two holds.
fn either(alloc: Global, left: Formula, right: Formula) -> Result<Formula, AllocError> {
    let mut parts = Items::with_room(alloc, 2)?;
    parts.push(left)?;
    parts.push(right)?;
    Ok(Formula::disjunction(parts))
}

/// The formula with a quantifier of so many variables from the first on, as `2+3`.
fn quantified(
    alloc: Global,
    name: &str,
    variables: &str,
    formula: Formula,
) -> Result<Formula, AllocError> {
    let Some((first, count)) = variables.split_once("+") else {
        return Ok(formula);
    };
    let first = first.parse().unwrap_or(0);
    let count = count.parse::<u32>().unwrap_or(1).max(1);
    if name == "exists" {
        Formula::for_some(alloc, first, count, formula)
    } else {
        Formula::for_all(alloc, first, count, formula)
    }
}

/// The formula that a word makes of one: `not`, or a name, a colon and an operand or variables.
fn step(alloc: Global, formula: Formula, word: &str) -> Result<Formula, AllocError> {
    let Some((name, rest)) = word.split_once(":") else {
        return Formula::negation(alloc, formula);
    };
    match name {
        "implies" => Formula::implication(alloc, formula, operand(alloc, rest)?),
        "equiv" => Formula::equivalence(alloc, formula, operand(alloc, rest)?),
        "or" => either(alloc, operand(alloc, rest)?, formula),
        _ => quantified(alloc, name, rest, formula),
    }
}

/// The predicate of the variable 0, with what the words make of it in turn.
fn made(alloc: Global, words: &str) -> Result<Formula, AllocError> {
    let mut formula = operand(alloc, "0")?;
    for word in words.split_whitespace() {
        formula = step(alloc, formula, word)?;
    }
    Ok(formula)
}

fn show_case<R: Runtime>(rt: &R, formula: &Formula) -> io::Result<()> {
    match formula.case() {
        Case::Not(_) => println!(rt; "Not"),
        Case::Implies(_, _) => println!(rt; "Implies"),
        Case::Equiv(_, _) => println!(rt; "Equiv"),
        Case::Forall(first, count, _) => println!(rt; "Forall {first} {count}"),
        Case::Exists(first, count, _) => println!(rt; "Exists {first} {count}"),
        _ => println!(rt; "another"),
    }
}

/// Prints the formula's outermost case, its counts and how often variables occur.
pub fn show_formula<R: Runtime>(rt: &R, alloc: Global, words: &[u8]) -> io::Result<()> {
    let formula = made(alloc, std::str::from_utf8(words).unwrap_or(""))?;
    show_case(rt, &formula)?;
    let mut found = Items::new(alloc);
    add_variables(&formula, &mut found)?;
    println!(rt; "{:?}, variables {}", formula.counts(), found.len())
}
