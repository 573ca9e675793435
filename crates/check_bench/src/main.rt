//! Checks long proofs. With the argument `--time` it prints how many nanoseconds a step took, and else what was answered.
#![tactic(auto)]

use dep_sets::Deps;
use proof_steps::{Line, Rule, Statement, Step};
use refutation_check::{CheckError, check};
use spl_terms::{Atom, Clause, Items, Kind, Part, Symbol, Term};
use spl_truth::Subst;
use std::alloc::{AllocError, Global};
use std::rt::Runtime;
use std::time::Instant;
use std::{env, io};

// ---- clauses

/// What the predicates of a chain hold of: a constant under so many functions.
fn term(alloc: Global, functions: u32) -> Result<Term, AllocError> {
    let constant = Symbol {
        number: 0,
        kind: Kind::Function,
    };
    let function = Symbol {
        number: 1,
        kind: Kind::Function,
    };
    let mut term = Term::App(constant, Items::new(alloc));
    for _ in 0..functions {
        let mut args = Items::with_room(alloc, 1)?;
        args.push(term)?;
        term = Term::App(function, args);
    }
    Ok(term)
}

/// The predicate with this number, of one term.
fn atom(alloc: Global, number: u32, term: Term) -> Result<Items<Atom>, AllocError> {
    let predicate = Symbol {
        number: number.wrapping_add(2),
        kind: Kind::Predicate,
    };
    let mut args = Items::with_room(alloc, 1)?;
    args.push(term)?;
    let mut atoms = Items::with_room(alloc, 1)?;
    atoms.push(Atom::Holds(predicate, args))?;
    Ok(atoms)
}

fn clause(alloc: Global, antecedent: Items<Atom>, succedent: Items<Atom>) -> Clause {
    Clause {
        constraint: Items::new(alloc),
        antecedent,
        succedent,
    }
}

/// The predicate holds of the term.
fn fact(alloc: Global, number: u32, functions: u32) -> Result<Clause, AllocError> {
    let succedent = atom(alloc, number, term(alloc, functions)?)?;
    Ok(clause(alloc, Items::new(alloc), succedent))
}

/// The next predicate holds of whatever this one holds of.
fn link(alloc: Global, number: u32) -> Result<Clause, AllocError> {
    let antecedent = atom(alloc, number, Term::Var(0))?;
    let succedent = atom(alloc, number.wrapping_add(1), Term::Var(0))?;
    Ok(clause(alloc, antecedent, succedent))
}

/// The predicate holds of nothing.
fn denial(alloc: Global, number: u32) -> Result<Clause, AllocError> {
    let antecedent = atom(alloc, number, Term::Var(0))?;
    Ok(clause(alloc, antecedent, Items::new(alloc)))
}

// ---- proofs

/// The number of the last of so many items.
fn last_number(count: usize) -> u32 {
    u32::try_from(count).unwrap_or(0)
}

/// Input clauses and the lines of a proof.
#[derive(Drop)]
struct Proof {
    input: Vec<Clause>,
    lines: Vec<Line>,
}

impl Proof {
    /// Adds an input clause and its line.
    fn add_input(&mut self, alloc: Global, clause: Clause) -> Result<(), AllocError> {
        let stated = Statement {
            clause: clause.copy(alloc)?,
            deps: Deps::none(alloc),
        };
        self.input.push(clause)?;
        let step = Step {
            rule: Rule::Input {
                no: last_number(self.input.len()),
            },
            parents: Items::new(alloc),
        };
        self.lines.push(Line { step, stated })?;
        Ok(())
    }

    /// Adds what the lines before the last one and the last one conclude by resolution.
    fn add_resolvent(
        &mut self,
        alloc: Global,
        functions: u32,
        clause: Clause,
    ) -> Result<(), AllocError> {
        let mut terms = Items::with_room(alloc, 1)?;
        terms.push(term(alloc, functions)?)?;
        let rule = Rule::Resolve {
            i: 0,
            part: Part::Antecedent,
            j: 0,
            s: Subst {
                terms: Items::new(alloc),
            },
            t: Subst { terms },
        };
        let count = last_number(self.lines.len());
        let mut parents = Items::with_room(alloc, 2)?;
        parents.push(count.wrapping_sub(1))?;
        parents.push(count)?;
        let step = Step { rule, parents };
        let stated = Statement {
            clause,
            deps: Deps::none(alloc),
        };
        self.lines.push(Line { step, stated })?;
        Ok(())
    }

    /// Adds the link of the chain with this number, and that the next predicate holds of the term.
    fn add_link(&mut self, alloc: Global, number: u32, functions: u32) -> Result<(), AllocError> {
        self.add_input(alloc, link(alloc, number)?)?;
        let concluded = fact(alloc, number.wrapping_add(1), functions)?;
        self.add_resolvent(alloc, functions, concluded)
    }
}

/// The proof of a chain of so many links: a fact, the links one after another, and a denial.
fn chain(alloc: Global, links: u32, functions: u32) -> Result<Proof, AllocError> {
    let mut proof = Proof {
        input: Vec::new(alloc),
        lines: Vec::new(alloc),
    };
    proof.add_input(alloc, fact(alloc, 0, functions)?)?;
    for number in 0..links {
        proof.add_link(alloc, number, functions)?;
    }
    proof.add_input(alloc, denial(alloc, links)?)?;
    proof.add_resolvent(alloc, functions, Clause::new(alloc))?;
    Ok(proof)
}

// ---- answers and times

/// How many steps were accepted, or 0.
fn accepted(alloc: Global, proof: &Proof) -> u32 {
    if proof.lines.len() > 4_294_967_295 {
        return 0;
    }
    match check(alloc, proof.input.as_slice(), proof.lines.as_slice()) {
        Ok(refutation) => refutation.steps,
        Err(CheckError::Fault(_)) => 0,
        Err(CheckError::Memory) => 0,
    }
}

/// Chains: how many functions stand around the constant, and how many links there are.
const CHAINS: [(u32, u32); 6] = [
    (0, 499),
    (0, 4_999),
    (0, 49_999),
    (30, 499),
    (30, 4_999),
    (30, 49_999),
];

fn print_count<R: Runtime>(rt: &R, alloc: Global, functions: u32, links: u32) -> io::Result<()> {
    let proof = chain(alloc, links, functions)?;
    let steps = accepted(alloc, &proof);
    println!(rt;
        "{} lines, {functions} functions: {steps} steps accepted",
        proof.lines.len()
    )
}

fn print_time<R: Runtime>(rt: &R, alloc: Global, functions: u32, links: u32) -> io::Result<()> {
    let proof = chain(alloc, links, functions)?;
    let start = Instant::now(rt)?;
    let steps = accepted(alloc, &proof);
    let spent = start.elapsed(rt)?.as_nanos();
    println!(rt;
        "{steps} steps, {functions} functions: {} microseconds, {} nanoseconds a step",
        spent / 1000,
        spent / u128::from(steps.max(1))
    )
}

/// Whether the first argument asks for times.
fn asks_for_times<R: Runtime>(rt: &R) -> io::Result<bool> {
    let first = env::args(rt)?.nth(1);
    Ok(first.is_some_and(|word| word.as_str() == "--time"))
}

fn main(rt: HostRuntime) -> io::Result<()> {
    let times = asks_for_times(&rt)?;
    for (functions, links) in CHAINS {
        if times {
            print_time(&rt, rt.alloc(), functions, links)?;
        } else if links < 1_000 {
            print_count(&rt, rt.alloc(), functions, links)?;
        }
    }
    Ok(())
}
