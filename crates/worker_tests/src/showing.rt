//! What is printed of events: the parents and the clause of each of their steps.
use case_journal::Event;
use case_rounds::Batch;
use proof_steps::Line;
use spl_terms::{Atom, Clause};
use split_tree::Table;
use std::alloc::{AllocError, Global};
use std::io;
use std::rt::Runtime;

/// The letter of an atom without arguments.
fn letter(atom: &Atom) -> char {
    match atom {
        Atom::Holds(symbol, _) => match u8::try_from(symbol.number) {
            Ok(number) => char::from(number.wrapping_add(64)),
            Err(_) => '?',
        },
        Atom::Equal(_, _) => '=',
    }
}

/// The letters of the atoms, with a bar after the constraint and after the antecedent.
fn letters(alloc: Global, clause: &Clause) -> Result<String, AllocError> {
    let mut text = String::new(alloc);
    for atom in clause.constraint.as_slice() {
        text.push(letter(atom))?;
    }
    text.push('|')?;
    for atom in clause.antecedent.as_slice() {
        text.push(letter(atom))?;
    }
    text.push('|')?;
    for atom in clause.succedent.as_slice() {
        text.push(letter(atom))?;
    }
    Ok(text)
}

/// Prints the steps of an event behind it.
fn show_steps<R: Runtime>(rt: &R, alloc: Global, lines: &[Line]) -> io::Result<()> {
    for line in lines {
        let text = letters(alloc, &line.stated.clause)?;
        print!(rt; " {text} of {:?}", line.step.parents.as_slice())?;
    }
    println!(rt; "")
}

/// Prints an event with its steps.
fn show_event<R: Runtime>(rt: &R, alloc: Global, event: &Event) -> io::Result<()> {
    match event {
        Event::Publish { node, .. } => print!(rt; "Publish at {node}:")?,
        Event::Split { node, .. } => print!(rt; "Split at {node}:")?,
        Event::Full { node, .. } => print!(rt; "Full at {node}:")?,
        _ => print!(rt; "{event:?}")?,
    }
    show_steps(rt, alloc, event.lines())
}

/// Prints the events of a batch, and how many steps the ledger had.
pub fn show_batch<R: Runtime>(rt: &R, alloc: Global, batch: &Batch) -> io::Result<()> {
    println!(rt; "batch over {}", batch.base)?;
    for event in batch.events.as_slice() {
        show_event(rt, alloc, event)?;
    }
    Ok(())
}

/// Prints all events, each with its worker.
pub fn show_journal<R: Runtime>(rt: &R, alloc: Global, table: &Table) -> io::Result<()> {
    println!(rt; "journal")?;
    for at in 0..table.events() {
        let (worker, event) = table.event(at);
        print!(rt; "{worker} ")?;
        show_event(rt, alloc, event)?;
    }
    Ok(())
}
