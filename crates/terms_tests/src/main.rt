//! Worked examples of symbols, terms, clauses, instances, the order, unifiers, parts, steps, proofs, inferences and notes. A row
//! of standard input is one example with the answer that it must have; rows that have another one are printed, and how many
//! rows there were.
#![tactic(auto)]

mod checks;
mod clauses;
mod inferences;
mod instances;
mod notes;
mod order;
mod parts;
mod reducing;
mod sets;
mod steps;
mod subsumption;
mod unifiers;

use clause_texts::Row;
use std::alloc::{AllocError, Global};
use std::io;

/// Whether a row about terms or clauses has its answer.
fn is_right_below(alloc: Global, row: &Row) -> Result<bool, AllocError> {
    match row.text(0) {
        "push" => clauses::push(alloc, row),
        "number" => clauses::numbered(alloc, row),
        "distinct" => clauses::distinct(alloc, row),
        "ordered" => clauses::ordered(alloc, row),
        "variant" => clauses::variants(alloc, row),
        "instance" => instances::instances(alloc, row),
        "replaced" => instances::replacement(alloc, row),
        "apply" => instances::applied(alloc, row),
        "truth" => instances::truth(alloc, row),
        _ => sets::alone(alloc, row),
    }
}

/// Whether a row about the order, unifiers or parts has its answer.
pub(crate) fn is_right_beside(alloc: Global, row: &Row) -> Result<bool, AllocError> {
    match row.text(0) {
        "order" => order::order(alloc, row),
        "heads" => order::heads(alloc, row),
        "maximal" => order::maximal_place(alloc, row),
        "eligible" => order::eligible_place(alloc, row),
        "unify" => unifiers::unified(alloc, row),
        "match" => unifiers::matched(alloc, row),
        "unify_arguments" => unifiers::unified_arguments(alloc, row),
        "match_arguments" => unifiers::matched_arguments(alloc, row),
        "match_on" => unifiers::matched_on(alloc, row),
        "chain" => unifiers::chains(alloc, row),
        _ => is_right_below(alloc, row),
    }
}

/// Whether the row has its answer; one whose first word is none of those that are known has none.
fn is_right(alloc: Global, row: &Row) -> Result<bool, AllocError> {
    match row.text(0) {
        "parts" => parts::parts(alloc, row),
        "side" => parts::side(alloc, row),
        "negation" => parts::negated(alloc, row),
        "in_order" => parts::ordered(alloc, row),
        "conclude" => steps::concluded(alloc, row),
        "pair" => inferences::pair(alloc, row),
        "own" => inferences::own(alloc, row),
        "large" => inferences::large(alloc, row),
        "refused" => inferences::refusal(alloc, row),
        "alone" => inferences::alone(alloc, row),
        "sorts" => inferences::sorts(alloc, row),
        "unsolved" => inferences::unsolved(alloc, row),
        "subsumes" => subsumption::subsumed(alloc, row),
        "candidates" => subsumption::candidates(alloc, row),
        "proof" => steps::proof(alloc, row),
        "check" => checks::checked(alloc, row),
        "hidden" => notes::hidden(alloc, row),
        _ => reducing::reduced(alloc, row),
    }
}

fn main(rt: HostRuntime) -> io::Result<()> {
    let mut count: u32 = 0;
    for line in rt.lines(rt.alloc()) {
        let line = line?;
        count = count.wrapping_add(1);
        let row = Row::split(rt.alloc(), line.as_str(), ' ')?;
        if !is_right(rt.alloc(), &row)? {
            println!(rt; "another answer: {line}")?;
        }
    }
    println!(rt; "{count} rows")?;
    Ok(())
}
