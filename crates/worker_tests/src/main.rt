//! Examples of two workers that share a table, each in its turns on one thread. A row of standard input has numbers and
//! the clauses: how many clauses may be split; how many rounds the first worker makes alone; how many it makes at its own
//! case once both have one; how many the second worker makes between the first one's view and its turn; and how many the
//! first one makes afterwards. Printed are the row, the first one's batch, what became of it, and the journal.
#![tactic(auto)]

mod showing;
mod turns;

ghost use Rattle.std.specs.Prelude.{◌≡◌, IfOk, IfSome};

use case_journal::Limits;
use clause_texts::{Row, clause};
use showing::{show_batch, show_journal};
use spl_terms::{Clause, Items};
use split_tree::Table;
use std::alloc::{AllocError, Global};
use std::io;
use std::rt::Runtime;
use turns::{append_after, choose, claim, compute, rounds};

/// The clauses of a word, with semicolons between them.
fn clauses_of(alloc: Global, word: &str) -> Result<Items<Clause>, AllocError> {
    let texts = Row::split(alloc, word, ';')?;
    let mut made = Items::new(alloc);
    for text in texts.words() {
        made.push(clause(alloc, text.as_str())?)?;
    }
    Ok(made)
}

/// A table of two workers over the clauses of the row; none past 100 clauses.
fn table_of(alloc: Global, row: &Row) -> Result<Option<Table>, AllocError>
    ensures { IfOk result (λ made. IfSome made (λ table. table.setting.workers ≡ 2)) }
{
    let clauses = clauses_of(alloc, row.text(5))?;
    if clauses.len() > 100 {
        return Ok(None);
    }
    let limits = Limits {
        rounds: 100,
        steps: 100,
        splits: row.number(0),
    };
    Ok(Some(Table::start(alloc, clauses.as_slice(), limits, 2)?))
}

/// Two cases, a batch of the first worker, rounds of the second one, and the first one's turn with its batch.
fn run<R: Runtime>(rt: &R, alloc: Global, row: &Row, table: &mut Table) -> io::Result<()>
    requires { table.old.setting.workers ≡ 2 }
{
    rounds(alloc, table, 1, row.number(1))?;
    claim(alloc, table, 1)?;
    claim(alloc, table, 2)?;
    rounds(alloc, table, 1, row.number(2))?;
    choose(alloc, table, 1)?;
    let Some((node, batch)) = compute(alloc, table, 1)? else {
        return println!(rt; "nothing chosen");
    };
    show_batch(rt, alloc, &batch)?;
    match append_after(alloc, table, row.number(3), node, batch)? {
        Some(became) => println!(rt; "{became:?}")?,
        None => println!(rt; "proving has ended")?,
    }
    rounds(alloc, table, 1, row.number(4))?;
    show_journal(rt, alloc, table)
}

fn main(rt: HostRuntime) -> io::Result<()> {
    let alloc = rt.alloc();
    for line in rt.lines(alloc) {
        let line = line?;
        println!(rt; "{line}")?;
        let row = Row::split(alloc, line.as_str(), ' ')?;
        if let Some(mut table) = table_of(alloc, &row)? {
            run(&rt, alloc, &row, &mut table)?;
        }
    }
    Ok(())
}
