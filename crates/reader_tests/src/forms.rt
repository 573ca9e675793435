//! Normal forms of formulas, which are made on a stack.
ghost use Rattle.std.specs.Prelude.{◌≡◌, [], ◌∷◌, IfOk};

use dfg_tokens::is_name;
use formulas::{Entry, Formula, Role, bindings_ascend};
use normal_form::{ClauseSet, FormError, clauses_of};
use spl_symbols::Signature;
use spl_terms::{Atom, Items, Kind, Symbol, Term};
use std::alloc::{AllocError, Global};
use std::io;
use std::rt::Runtime;

/// A predicate of variables, as `1:0,2`.
fn predicate(alloc: Global, number: u32, variables: &str) -> Result<Formula, AllocError> {
    let mut args = Items::new(alloc);
    for variable in variables.split(",") {
        args.push(Term::Var(variable.parse().unwrap_or(0)))?;
    }
    let symbol = Symbol {
        number,
        kind: Kind::Predicate,
    };
    Ok(Formula::atom(Atom::Holds(symbol, args)))
}

/// The formula on top of the stack; `true` where there is none.
fn top(stack: &mut Items<Formula>) -> Formula {
    match stack.pop() {
        Some(formula) => formula,
        None => Formula::always(),
    }
}

/// The formula with a quantifier of so many variables from the first on, as `2+3`.
fn quantified(
    alloc: Global,
    name: &str,
    variables: &str,
    part: Formula,
) -> Result<Formula, AllocError> {
    let Some((first, count)) = variables.split_once("+") else {
        return Ok(part);
    };
    let first = first.parse().unwrap_or(0);
    let count = count.parse::<u32>().unwrap_or(1).max(1);
    if name == "some" {
        Formula::for_some(alloc, first, count, part)
    } else {
        Formula::for_all(alloc, first, count, part)
    }
}

/// The formula that a word without a colon makes, of those on the stack.
fn plain(alloc: Global, stack: &mut Items<Formula>, word: &str) -> Result<Formula, AllocError> {
    match word {
        "true" => Ok(Formula::always()),
        "false" => Ok(Formula::never()),
        "not" => Formula::negation(alloc, top(stack)),
        _ => {
            let right = top(stack);
            let left = top(stack);
            match word {
                "implies" => Formula::implication(alloc, left, right),
                "equiv" => Formula::equivalence(alloc, left, right),
                _ => joined(alloc, word, left, right),
            }
        }
    }
}

/// Both hold, or one of them.
fn joined(alloc: Global, word: &str, left: Formula, right: Formula) -> Result<Formula, AllocError> {
    let mut parts = Items::with_room(alloc, 2)?;
    parts.push(left)?;
    parts.push(right)?;
    if word == "or" {
        Ok(Formula::disjunction(parts))
    } else {
        Ok(Formula::conjunction(parts))
    }
}

/// The formula that a word makes, of those on the stack.
fn made(alloc: Global, stack: &mut Items<Formula>, word: &str) -> Result<Formula, AllocError> {
    match word.split_once(":") {
        None => plain(alloc, stack, word),
        Some((name, rest)) => match name {
            "all" => quantified(alloc, name, rest, top(stack)),
            "some" => quantified(alloc, name, rest, top(stack)),
            _ => predicate(alloc, name.parse().unwrap_or(0), rest),
        },
    }
}

/// The formula that the words make, in postfix notation.
fn formula_of(alloc: Global, words: &str) -> Result<Formula, AllocError> {
    let mut stack = Items::new(alloc);
    for word in words.split_whitespace() {
        let formula = made(alloc, &mut stack, word)?;
        stack.push(formula)?;
    }
    Ok(top(&mut stack))
}

/// A signature with the predicates `p0`, `p1` and the function `skf2`.
fn signature(alloc: Global) -> Result<Signature, AllocError> {
    let mut symbols = Signature::new(alloc);
    for (name, kind) in [
        ("p0", Kind::Predicate),
        ("p1", Kind::Predicate),
        ("skf2", Kind::Function),
    ] {
        if is_name(name.as_bytes()) && symbols.declare(alloc, name, 1, kind).is_err() {
            return Err(AllocError);
        }
    }
    Ok(symbols)
}

/// A list of the one entry.
fn one_entry(alloc: Global, role: Role, formula: Formula) -> Result<Items<Entry>, AllocError>
    ensures { IfOk result (λ entries. entries ≡ record { role = role; formula = formula; at = 0 } ∷ []) }
{
    let mut entries = Items::new(alloc);
    entries.push(Entry {
        role,
        formula,
        at: 0,
    })?;
    Ok(entries)
}

/// The clause set of the one formula; bindings that don't ascend are told as want of memory.
fn form(alloc: Global, role: Role, formula: Formula) -> Result<ClauseSet, FormError> {
    if !bindings_ascend(&formula) {
        return Err(FormError::Memory);
    }
    let entries = match one_entry(alloc, role, formula) {
        Ok(entries) => entries,
        Err(_) => return Err(FormError::Memory),
    };
    match signature(alloc) {
        Ok(symbols) => clauses_of(alloc, symbols, entries),
        Err(_) => Err(FormError::Memory),
    }
}

/// Prints the Skolem symbols with how many arguments they take, how many clauses there are, and the first three of them.
fn show_set<R: Runtime>(rt: &R, set: &ClauseSet) -> io::Result<()> {
    for number in 3..set.signature.count().min(6) {
        let kind = Kind::Function;
        if let Some(name) = set.signature.name_at(number) {
            println!(rt; "{name} {}", set.signature.arity(Symbol { number, kind }))?;
        }
    }
    println!(rt;
        "symbols {}, clauses {}, origins {}",
        set.signature.count(),
        set.clauses.len(),
        set.origins.len()
    )?;
    for clause in set.clauses.as_slice().iter().take(3) {
        println!(rt; "constraint {:?}", clause.constraint.as_slice())?;
        println!(rt; "antecedent {:?}", clause.antecedent.as_slice())?;
        println!(rt; "succedent {:?}", clause.succedent.as_slice())?;
    }
    Ok(())
}

/// Prints the normal form of a formula, or of a conjecture, that is made of words.
pub fn show_form<R: Runtime>(rt: &R, alloc: Global, role: Role, words: &[u8]) -> io::Result<()> {
    let formula = formula_of(alloc, std::str::from_utf8(words).unwrap_or(""))?;
    match form(alloc, role, formula) {
        Ok(set) => show_set(rt, &set),
        Err(error) => println!(rt; "{error:?}"),
    }
}
