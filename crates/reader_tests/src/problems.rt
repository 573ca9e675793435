//! Problems with their faults, and their clauses.
use dfg_reader::{InputError, Problem, clauses_of, read_problem};
use problem_make::make;
use spl_terms::{Clause, Items};
use std::alloc::Global;
use std::io;
use std::rt::Runtime;

/// The problem that the bytes spell; more than may be are told as want of memory.
fn read(alloc: Global, bytes: &[u8]) -> Result<Problem, InputError> {
    if bytes.len() >= 4_294_967_296 {
        return Err(InputError::Memory);
    }
    read_problem(alloc, bytes)
}

/// The clauses of the problem that the bytes spell.
fn read_clauses(alloc: Global, bytes: &[u8]) -> Result<Items<Clause>, InputError> {
    if bytes.len() >= 4_294_967_296 {
        return Err(InputError::Memory);
    }
    let problem = read_problem(alloc, bytes)?;
    Ok(clauses_of(alloc, &problem)?)
}

fn show_error<R: Runtime>(rt: &R, error: InputError) -> io::Result<()> {
    match error {
        InputError::Fault(fault) => println!(rt; "{}: {:?}", fault.at, fault.kind),
        InputError::Memory => println!(rt; "out of memory"),
    }
}

/// Prints how much the problem has and the place of its last word, or the fault.
pub fn show_problem<R: Runtime>(rt: &R, alloc: Global, bytes: &[u8]) -> io::Result<()> {
    match read(alloc, bytes) {
        Ok(read) => println!(rt;
            "symbols {}, entries {}, proofs {}, end at {}",
            read.signature.count(),
            read.entries.len(),
            read.proofs.len(),
            read.end_at
        ),
        Err(error) => show_error(rt, error),
    }
}

/// Prints the clauses of the problem, a line for each part.
pub fn show_clauses<R: Runtime>(rt: &R, alloc: Global, bytes: &[u8]) -> io::Result<()> {
    match read_clauses(alloc, bytes) {
        Ok(found) => {
            for clause in found.as_slice() {
                println!(rt; "constraint {:?}", clause.constraint.as_slice())?;
                println!(rt; "antecedent {:?}", clause.antecedent.as_slice())?;
                println!(rt; "succedent {:?}", clause.succedent.as_slice())?;
            }
            Ok(())
        }
        Err(error) => show_error(rt, error),
    }
}

/// Prints what comes of each of the bytes' prefixes, from the empty one to the whole.
pub fn show_prefixes<R: Runtime>(rt: &R, alloc: Global, bytes: &[u8]) -> io::Result<()> {
    for length in 0..bytes.len() {
        print!(rt; "{length} bytes: ")?;
        show_problem(rt, alloc, &bytes[..length])?;
    }
    show_problem(rt, alloc, bytes)
}

/// Prints how many bytes the generated problem has and how many clauses are read in it; the text is its number and its size,
/// with a space between them.
pub fn show_made<R: Runtime>(rt: &R, alloc: Global, text: &str) -> io::Result<()> {
    let (number, size) = text.split_once(" ").unwrap_or(("0", "1"));
    let number: u32 = number.parse().unwrap_or(0);
    let size: u32 = size.parse().unwrap_or(1);
    if number > 999_999 || size < 1 || size > 1500 {
        return println!(rt; "out of range");
    }
    let made = make(alloc, number, size)?;
    match read_clauses(alloc, made.as_slice()) {
        Ok(found) => println!(rt; "bytes {}, clauses {}", made.len(), found.len()),
        Err(error) => show_error(rt, error),
    }
}
