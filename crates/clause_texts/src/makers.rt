//! Terms, atoms and clauses out of short texts.
//!
//! A text is in prefix notation: f and T take two arguments, g, h, p, s and K, P, Q, S take one, a to e take none, `=` is an
//! equation, the digits are the variables 0 to 9, and w, x, y, z those with the numbers 9000, 64, 70 and 9001. Capital
//! letters are predicates, but S is a sort. A letter's number is its place in the alphabet.
use crate::rows::Row;
use spl_terms::{Atom, Clause, Items, Kind, Part, Symbol, Term, same_clause};
use std::alloc::{AllocError, Global};

/// How many arguments the letter takes.
fn arity(letter: u8) -> usize {
    match letter {
        b'f' | b'T' | b'=' => 2,
        b'g' | b'h' | b'p' | b's' | b'K' | b'P' | b'Q' | b'S' => 1,
        _ => 0,
    }
}

/// The variable of a digit, or of w, x, y, z.
fn variable(letter: u8) -> Option<u32> {
    match letter {
        b'0'..=b'9' => Some(letter as u32 - 48),
        b'w' => Some(9000),
        b'x' => Some(64),
        b'y' => Some(70),
        b'z' => Some(9001),
        _ => None,
    }
}

/// The symbol of a letter.
pub fn symbol(letter: u8) -> Symbol {
    let kind = match letter {
        b'S' => Kind::Sort,
        b'A'..=b'Z' => Kind::Predicate,
        _ => Kind::Function,
    };
    Symbol {
        number: (letter & 31) as u32,
        kind,
    }
}

/// What was read from the end of a text: the terms that no symbol took yet, and the atoms.
#[derive(Drop)]
struct Reading {
    terms: Vec<Term>,
    atoms: Vec<Atom>,
}

/// The arguments of a symbol, of which the first was read last.
fn taken(alloc: Global, count: usize, terms: &mut Vec<Term>) -> Result<Items<Term>, AllocError> {
    let mut args = Items::with_room(alloc, count)?;
    for _ in 0..count {
        if let Some(term) = terms.pop() {
            args.push(term)?;
        }
    }
    Ok(args)
}

fn equation(terms: &mut Vec<Term>) -> Atom {
    let left = terms.pop().unwrap_or(Term::Var(0));
    Atom::Equal(left, terms.pop().unwrap_or(Term::Var(0)))
}

fn read_letter(alloc: Global, letter: u8, reading: &mut Reading) -> Result<(), AllocError> {
    if let Some(number) = variable(letter) {
        reading.terms.push(Term::Var(number))?;
        return Ok(());
    }
    if letter == b'=' {
        let atom = equation(&mut reading.terms);
        reading.atoms.push(atom)?;
        return Ok(());
    }
    let args = taken(alloc, arity(letter), &mut reading.terms)?;
    let symbol = symbol(letter);
    match symbol.kind {
        Kind::Function => reading.terms.push(Term::App(symbol, args))?,
        _ => reading.atoms.push(Atom::Holds(symbol, args))?,
    }
    Ok(())
}

fn read(alloc: Global, text: &[u8]) -> Result<Reading, AllocError> {
    let mut reading = Reading {
        terms: Vec::new(alloc),
        atoms: Vec::new(alloc),
    };
    for letter in text.iter().rev() {
        read_letter(alloc, *letter, &mut reading)?;
    }
    reading.terms.reverse();
    reading.atoms.reverse();
    Ok(reading)
}

/// The terms of a text in order.
pub fn terms(alloc: Global, text: &str) -> Result<Items<Term>, AllocError> {
    Ok(Items::from_vec(read(alloc, text.as_bytes())?.terms))
}

/// The first term of a text.
pub fn term(alloc: Global, text: &str) -> Result<Term, AllocError> {
    let mut found = read(alloc, text.as_bytes())?.terms;
    found.truncate(1);
    Ok(found.pop().unwrap_or(Term::Var(0)))
}

/// The atoms of a text in order.
pub fn atoms(alloc: Global, text: &str) -> Result<Items<Atom>, AllocError> {
    Ok(Items::from_vec(read(alloc, text.as_bytes())?.atoms))
}

/// The clause of a text in which `|` stands after the constraint and after the antecedent.
pub fn clause(alloc: Global, text: &str) -> Result<Clause, AllocError> {
    let parts = Row::split(alloc, text, '|')?;
    Ok(Clause {
        constraint: atoms(alloc, parts.text(0))?,
        antecedent: atoms(alloc, parts.text(1))?,
        succedent: atoms(alloc, parts.text(2))?,
    })
}

/// The part of a name.
pub fn part(name: &str) -> Part {
    match name {
        "constraint" => Part::Constraint,
        "antecedent" => Part::Antecedent,
        _ => Part::Succedent,
    }
}

/// Whether the clause is the one of the text, or there is none and the text says so.
pub fn is_clause(alloc: Global, made: Option<Clause>, text: &str) -> Result<bool, AllocError> {
    let Some(made) = made else {
        return Ok(text == "none");
    };
    let wanted = clause(alloc, text)?;
    Ok(text != "none" && same_clause(&made, &wanted))
}
