//! The text of a proof list, with a line by each kind of rule.
use dep_sets::{Assumption, Deps};
use proof_steps::{Line, Rule, Statement, Step};
use proof_text::{print_proof, push_bytes, push_number};
use spl_symbols::Signature;
use spl_terms::{Clause, Items, Part, Spot, Term};
use spl_truth::Subst;
use std::alloc::{AllocError, Global};
use std::io;
use std::rt::Runtime;

/// The substitution of these variables.
fn subst(alloc: Global, variables: &[u32]) -> Result<Subst, AllocError> {
    let mut terms = Items::new(alloc);
    for variable in variables {
        terms.push(Term::Var(*variable))?;
    }
    Ok(Subst { terms })
}

/// The empty clause by this rule, under side 2 of the split of clause 7.
fn line(alloc: Global, rule: Rule, parents: &[u32]) -> Result<Line, AllocError> {
    let parents = Items::from_slice(alloc, parents)?;
    let deps = Deps::one(alloc, Assumption { split: 7, side: 2 })?;
    let clause = Clause::new(alloc);
    Ok(Line {
        step: Step { rule, parents },
        stated: Statement { clause, deps },
    })
}

fn resolve(alloc: Global) -> Result<Rule, AllocError> {
    Ok(Rule::Resolve {
        i: 0,
        part: Part::Constraint,
        j: 1,
        s: subst(alloc, &[2, 3])?,
        t: subst(alloc, &[])?,
    })
}

fn paramodulate(alloc: Global) -> Result<Rule, AllocError> {
    let path = Items::from_slice(alloc, &[0, 3])?;
    let part = Part::Succedent;
    Ok(Rule::Paramodulate {
        i: 2,
        right_to_left: true,
        spot: Spot {
            part,
            place: 1,
            path,
        },
        s: subst(alloc, &[])?,
        t: subst(alloc, &[4])?,
    })
}

fn factor_equality(alloc: Global) -> Result<Rule, AllocError> {
    Ok(Rule::EqFactor {
        i: 1,
        i_right: false,
        j: 2,
        j_right: true,
        s: subst(alloc, &[])?,
    })
}

fn assume(side: u32, negated: Option<u32>) -> Rule {
    Rule::Assume { side, negated }
}

/// A line by each kind of rule.
fn lines(alloc: Global) -> Result<Vec<Line>, AllocError> {
    let s = subst(alloc, &[5])?;
    let none = subst(alloc, &[])?;
    let rows: [(Rule, &[u32]); 9] = [
        (Rule::Input { no: 3 }, &[]),
        (resolve(alloc)?, &[1, 2]),
        (Rule::Factor { s }, &[2]),
        (paramodulate(alloc)?, &[5, 6]),
        (Rule::Reflex { j: 4, s: none }, &[3]),
        (factor_equality(alloc)?, &[4]),
        (assume(1, None), &[1]),
        (assume(2, Some(5)), &[1]),
        (Rule::CaseBoth, &[1, 2, 3]),
    ];
    let mut lines = Vec::new(alloc);
    for (rule, parents) in rows {
        lines.push(line(alloc, rule, parents)?)?;
    }
    Ok(lines)
}

/// Prints a number and the lines.
pub fn show_proof<R: Runtime>(rt: &R, alloc: Global) -> io::Result<()> {
    let lines = lines(alloc)?;
    if lines.len() > 10 {
        return Ok(());
    }
    let mut out = Vec::new(alloc);
    push_bytes(&mut out, b"0")?;
    push_number(alloc, &mut out, 17)?;
    let out = print_proof(alloc, out, &Signature::new(alloc), lines.as_slice())?;
    print!(rt;
        "{}",
        std::str::from_utf8(out.as_slice()).unwrap_or("no text")
    )
}
