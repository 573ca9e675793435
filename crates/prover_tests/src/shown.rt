//! What is printed of a run.
use case_journal::{End, Event};
use prover_top::Report;
use split_tree::Table;
use std::io;
use std::rt::Runtime;

/// How many there are, where no more is known of many.
fn amount(count: u32) -> &'static str {
    match count {
        0 => "none",
        1 => "one",
        _ => "many",
    }
}

/// How often the node was claimed.
fn claims(table: &Table, of: u32) -> u32 {
    let mut count: u32 = 0;
    for at in 0..table.events() {
        let (_, event) = table.event(at);
        if matches!(event, Event::Claim { node } if *node == of) {
            count = count.saturating_add(1);
        }
    }
    count
}

/// Prints each event with its worker, and without the steps that it has.
fn show_journal<R: Runtime>(rt: &R, table: &Table) -> io::Result<()> {
    for at in 0..table.events() {
        let (worker, event) = table.event(at);
        match event {
            Event::Publish { node, .. } => println!(rt; "{worker} Publish {{ node: {node} }}")?,
            Event::Split { node, .. } => println!(rt; "{worker} Split {{ node: {node} }}")?,
            Event::Full { node, .. } => println!(rt; "{worker} Full {{ node: {node} }}")?,
            _ => println!(rt; "{worker} {event:?}")?,
        }
    }
    Ok(())
}

/// Prints what is asked for of the table.
fn show_table<R: Runtime>(rt: &R, what: &str, table: &Table) -> io::Result<()> {
    match what {
        "journal" => show_journal(rt, table),
        "limits" => println!(rt; "{:?}, workers {}", table.limits(), table.workers()),
        "splits" => {
            let splits = amount(table.splits());
            let (left, right) = (claims(table, 1), claims(table, 2));
            println!(rt;
                "splits {splits}, nodes {}, claims of 1 and 2: {left}, {right}",
                amount(table.nodes())
            )
        }
        "end" => {
            let below = matches!(table.reason(), Some(End::Completed { node }) if node > 0);
            println!(rt; "completed below the root: {below}")
        }
        _ => Ok(()),
    }
}

/// Prints the lines of a proof up to the first assumption.
fn show_start<R: Runtime>(rt: &R, text: &str) -> io::Result<()> {
    for line in text.lines() {
        println!(rt; "{line}")?;
        if line.contains(",asm,") {
            break;
        }
    }
    Ok(())
}

/// The rule of the last step that has no literals.
fn last_rule(text: &str) -> Option<&str> {
    let (_, rest) = text.rsplit_once("cl([],[],[]),")?;
    let (rule, _) = rest.split_once(",")?;
    Some(rule)
}

/// Prints which rules of cases have steps.
fn show_rules<R: Runtime>(rt: &R, text: &str) -> io::Result<()> {
    for rule in [",asm,", ",cal,", ",car,", ",cab,"] {
        if text.contains(rule) {
            println!(rt; "{rule}")?;
        }
    }
    Ok(())
}

/// Prints the status and what is asked for.
pub fn show<R: Runtime>(rt: &R, what: &str, report: &Report, text: &str) -> io::Result<()> {
    println!(rt;
        "status {}, write failed {}",
        report.status, report.write_failed
    )?;
    match what {
        "start" => show_start(rt, text),
        "last" => println!(rt; "{:?}", last_rule(text)),
        "rules" => show_rules(rt, text),
        "read fails" | "write fails" => println!(rt;
            "{text}\n{:?}, table {}",
            report.answer,
            report.table.is_some()
        ),
        "completion" => println!(rt; "{}", text.starts_with("Completion found.\nCase ")),
        "text" => print!(rt; "{text}"),
        _ => match report.table.as_ref() {
            Some(table) => show_table(rt, what, table),
            None => println!(rt; "no table"),
        },
    }
}
