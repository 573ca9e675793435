//! Whole problems of all forms: their faults, and their normal forms.
ghost use Rattle.std.specs.Prelude.{◌<◌, ◌^◌, length, IfOk};
ghost use Rattle.dfg_problem.specs.WellFormed.{AreWellFormed};

use dfg_problem::{Problem, read_problem};
use dfg_terms::InputError;
use normal_form::ClauseSet;
use problem_clauses::clauses_of_problem;
use spl_terms::Clause;
use std::alloc::Global;
use std::io;
use std::rt::Runtime;

/// The problem that the bytes spell; more than may be are told as want of memory.
pub(crate) fn read(alloc: Global, bytes: &[u8]) -> Result<Problem, InputError>
    ensures well_formed { IfOk result (λ p. AreWellFormed p.signature p.entries) }
    ensures few { IfOk result (λ p. length p.entries < 2 ^ 32) }
{
    if bytes.len() >= 4_294_967_296 {
        return Err(InputError::Memory);
    }
    read_problem(alloc, bytes)
}

pub(crate) fn show_error<R: Runtime>(rt: &R, error: InputError) -> io::Result<()> {
    match error {
        InputError::Fault(fault) => println!(rt; "{}: {:?}", fault.at, fault.kind),
        InputError::Memory => println!(rt; "out of memory"),
    }
}

/// Prints how much the problem has and the place of its last word, or the fault.
pub fn show_read<R: Runtime>(rt: &R, alloc: Global, bytes: &[u8]) -> io::Result<()> {
    match read(alloc, bytes) {
        Ok(read) => println!(rt;
            "symbols {}, entries {}, proofs {}, end at {}",
            read.signature.count(),
            read.entries.len(),
            read.proofs.len(),
            read.end_at
        ),
        Err(error) => show_error(rt, error),
    }
}

/// Prints what comes of each of the bytes' prefixes, from the empty one to the whole.
pub fn show_read_prefixes<R: Runtime>(rt: &R, alloc: Global, bytes: &[u8]) -> io::Result<()> {
    for length in 0..bytes.len() {
        print!(rt; "{length} bytes: ")?;
        show_read(rt, alloc, &bytes[..length])?;
    }
    show_read(rt, alloc, bytes)
}

/// Prints what came of one clause: the number of its entry, and its parts.
fn show_clause<R: Runtime>(rt: &R, entry: u32, clause: &Clause) -> io::Result<()> {
    println!(rt;
        "entry {entry}, constraint {:?}",
        clause.constraint.as_slice()
    )?;
    println!(rt; "antecedent {:?}", clause.antecedent.as_slice())?;
    println!(rt; "succedent {:?}", clause.succedent.as_slice())
}

/// Prints the Skolem symbols, the numbers of which begin behind the declared ones, and the clauses.
fn show_set<R: Runtime>(rt: &R, declared: u32, set: &ClauseSet) -> io::Result<()> {
    for number in declared..set.signature.count() {
        if let Some(name) = set.signature.name_at(number) {
            println!(rt; "{number} is {name}")?;
        }
    }
    for (entry, clause) in set.origins.as_slice().iter().zip(set.clauses.as_slice()) {
        show_clause(rt, *entry, clause)?;
    }
    Ok(())
}

/// Prints the normal form of the problem, or its first fault, or why it has none.
pub fn show_normal_form<R: Runtime>(rt: &R, alloc: Global, bytes: &[u8]) -> io::Result<()> {
    let problem = match read(alloc, bytes) {
        Ok(problem) => problem,
        Err(error) => return show_error(rt, error),
    };
    let declared = problem.signature.count();
    match clauses_of_problem(alloc, problem) {
        Ok(set) => show_set(rt, declared, &set),
        Err(error) => println!(rt; "{error:?}"),
    }
}
