//! Examples of what comes in and goes out. Each line of standard input is a case: what is tried, and its parts, between
//! bars. It is printed, and behind it what came of the case; a line without bars is only printed.
#![tactic(auto)]

mod forms;
mod pieces;
mod problems;
mod proof_lines;
mod proof_texts;
mod streams;
mod texts;
mod trees;
mod words;

use formulas::Role;
use pieces::expanded;
use std::io;

/// Tries a case that has one part.
fn show_text(rt: &HostRuntime, what: &str, text: &str) -> io::Result<()> {
    let alloc = rt.alloc();
    let bytes = expanded(alloc, text)?;
    let bytes = bytes.as_slice();
    match what {
        "problem" => problems::show_problem(rt, alloc, bytes),
        "clauses" => problems::show_clauses(rt, alloc, bytes),
        "prefixes" => problems::show_prefixes(rt, alloc, bytes),
        "made" => problems::show_made(rt, alloc, text),
        "read" => texts::show_read(rt, alloc, bytes),
        "normal form" => texts::show_normal_form(rt, alloc, bytes),
        "read prefixes" => texts::show_read_prefixes(rt, alloc, bytes),
        "proof list" => proof_texts::show_proof_list(rt, alloc, bytes),
        "proof prefixes" => proof_texts::show_proof_prefixes(rt, alloc, bytes),
        "tokens" => words::show_tokens(rt, alloc, bytes),
        "name" => words::show_name(rt, bytes),
        "spelling" => words::show_spelling(rt),
        "formula" => trees::show_formula(rt, alloc, bytes),
        "form" => forms::show_form(rt, alloc, Role::Axiom, bytes),
        "conjecture" => forms::show_form(rt, alloc, Role::Conjecture, bytes),
        _ => proof_lines::show_proof(rt, alloc),
    }
}

fn main(rt: HostRuntime) -> io::Result<()> {
    let alloc = rt.alloc();
    for line in rt.lines(alloc) {
        let line = line?;
        println!(rt; "{line}")?;
        let parts: Vec<&str> = line.as_str().split(" | ").collect(alloc)?;
        match parts.as_slice() {
            [what, text] => show_text(&rt, *what, *text)?,
            [what, text, failing, limits] => streams::show_stream(
                &rt, alloc, *what, *text, *failing, *limits,
            )?,
            _ => {}
        }
    }
    Ok(())
}
