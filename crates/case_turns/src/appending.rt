//! Appending a batch to a table, in a turn of the worker.
ghost use Rattle.std.specs.Prelude.{◌≡◌, ◌<◌, ◌≤◌, IfOk, OnOk, OnErr, IsSomeAnd, length, sum_by, Some, None};
ghost use Rattle.spl_terms.specs.Clauses.{is_empty};
ghost use Rattle.case_journal.specs.Journal.{last_line, lines_of, splits};
ghost use Rattle.case_journal.specs.Facts.{Holds};
ghost use Rattle.case_journal.specs.Ending.{first_end};
ghost use Rattle.case_journal.specs.Legal.{IsSettled};
ghost use Rattle.case_rounds.specs.Appending.{IsBatchReady};
ghost use Rattle.case_turns.specs.declared.appending.Appended.TheVariants.{Again, Dropped};
ghost use Rattle.clause_splitting.specs.Splitting.{IsSplitAt};
ghost use Rattle.case_turns.specs.Turns.{AreReady, CanNotSplit, Continues, HasNoSplitLeft, IsGone, IsLastNow, IsNextLine, IsAppended, IsWaiting};

use backjump::{close, number_after};
use case_journal::Event;
use case_rounds::{Batch, rounds_wait, steps_over_the_base_stay};
use clause_splitting::split;
use journal_laws::{
    dead_nodes_stay_dead, finish_stays_legal, lines_go_on, publications_keep_settled,
};
use proof_steps::Line;
use spl_terms::Items;
use split_tree::Table;
use std::alloc::{AllocError, Global};

/// What became of a publication.
#[derive(Clone, Copy, Debug)]
pub enum Gone {
    /// It was appended.
    Published,
    /// Its clause is empty: it was appended, and what it closes is closed.
    Closed,
    /// No more steps may be published, and a `Full` has ended the journal.
    Full,
}

/// What became of a batch.
#[derive(Clone, Copy, Debug)]
pub enum Appended {
    /// The given clause was activated: the worker holds its leaf still.
    Activated,
    /// The leaf was closed or split.
    Left,
    /// An event has ended the journal.
    Ended,
    /// Others have split as many clauses as may be: the round is to be computed anew.
    Again,
    /// Nothing was appended: the leaf is dead, or the journal has ended.
    Dropped,
}

/// Whether the last of the lines states the empty clause.
fn ends_empty(lines: &[Line]) -> bool
    requires { 0 < length lines.now }
    ensures { IsSomeAnd (last_line lines.now) (λ l. result ≡ is_empty l.stated.clause) }
{
    lines[lines.len() - 1].stated.clause.is_empty()
}

/// Publishes the chain at the node `at`, where it belongs; closes what it closes where it states the empty clause, and ends
/// the journal where no more steps may be published.
fn publish(
    alloc: Global,
    table: &mut Table,
    by: u32,
    node: u32,
    at: u32,
    chain: Items<Line>,
) -> Result<Gone, AllocError>
    requires holds { Holds table.old.setting table.old.past by node }
    requires next { IsNextLine table.old.setting table.old.past by node at chain }
    requires settled { IsSettled table.old.setting table.old.past }
    requires unended { first_end table.old.past ≡ None }
    requires event_fits { 1 ≤ table.old.spare_events }
    requires steps_fit { length chain ≤ table.old.spare_steps }
    ensures setting { table.new.setting ≡ table.old.setting }
    ensures gone { IfOk result (IsGone table.old table.new by node chain) }
    ensures more { OnOk result (Continues by table.old.past table.new.past) }
    ensures err { OnErr result (table.new.past ≡ table.old.past) }
{
    lines_go_on();
    dead_nodes_stay_dead();
    table.journal_is_legal();
    if table.counted() >= table.limits().steps {
        table.apply(by, Event::Full { node, chain });
        return Ok(Gone::Full);
    }
    if ends_empty(chain.as_slice()) {
        close(alloc, table, by, at, chain)?;
        return Ok(Gone::Closed);
    }
    let put_off = false;
    table.apply(
        by,
        Event::Publish {
            node: at,
            chain,
            put_off,
        },
    );
    Ok(Gone::Published)
}

/// Splits the chosen clause of the leaf, unless as many were split as may be by now.
fn append_split(
    table: &mut Table,
    by: u32,
    node: u32,
    steps: Items<Line>,
    put_off: Items<bool>,
) -> Appended
    requires holds { Holds table.old.setting table.old.past by node }
    requires unended { first_end table.old.past ≡ None }
    requires settled { IsSettled table.old.setting table.old.past }
    requires is { IsSplitAt table.old.setting table.old.past node steps put_off }
    requires event_fits { 1 ≤ table.old.spare_events }
    requires steps_fit { length steps ≤ table.old.spare_steps }
    ensures setting { table.new.setting ≡ table.old.setting }
    ensures outcome { IsAppended table.new by node result }
    ensures more { Continues by table.old.past table.new.past }
    ensures again { result ≡ Again → table.old.setting.limits.splits ≤ splits table.old.past }
    ensures some { ¬ (result ≡ Dropped) }
{
    table.journal_is_legal();
    if table.splits() >= table.limits().splits {
        return Appended::Again;
    }
    if split(table, by, node, steps, put_off) {
        Appended::Left
    } else {
        Appended::Ended
    }
}

/// Appends the event that finishes the round.
fn append_last(table: &mut Table, by: u32, node: u32, event: Event) -> Appended
    requires holds { Holds table.old.setting table.old.past by node }
    requires unended { first_end table.old.past ≡ None }
    requires settled { IsSettled table.old.setting table.old.past }
    requires last { IsLastNow table.old.setting table.old.past by node event }
    requires event_fits { 1 ≤ table.old.spare_events }
    requires steps_fit { length (lines_of event) ≤ table.old.spare_steps }
    ensures setting { table.new.setting ≡ table.old.setting }
    ensures outcome { IsAppended table.new by node result }
    ensures more { Continues by table.old.past table.new.past }
    ensures again { result ≡ Again → HasNoSplitLeft table.old event }
    ensures some { ¬ (result ≡ Dropped) }
{
    dead_nodes_stay_dead();
    table.journal_is_legal();
    match event {
        Event::Split { steps, put_off, .. } => append_split(table, by, node, steps, put_off),
        Event::Activate { .. } => {
            table.apply(by, Event::Activate { node });
            Appended::Activated
        }
        Event::Big {
            partner,
            symbols,
            ..
        } => {
            table.apply(
                by,
                Event::Big {
                    node,
                    partner,
                    symbols,
                },
            );
            Appended::Ended
        }
        _ => unreachable!(),
    }
}

/// Appends the events of a batch, one after another, up to one that closes the leaf or ends the journal.
fn append_events(
    alloc: Global,
    table: &mut Table,
    by: u32,
    node: u32,
    events: Items<Event>,
) -> Result<Appended, AllocError>
    requires unended { first_end table.old.past ≡ None }
    requires settled { IsSettled table.old.setting table.old.past }
    requires ready { AreReady table.old.setting table.old.past by node events }
    requires events_fit { length events ≤ table.old.spare_events }
    requires steps_fit { sum_by (λ ev. length (lines_of ev)) events ≤ table.old.spare_steps }
    ensures setting { table.new.setting ≡ table.old.setting }
    ensures outcome { IfOk result (IsAppended table.new by node) }
    ensures more { OnOk result (Continues by table.old.past table.new.past) }
    ensures again { IfOk result (λ done. done ≡ Again → CanNotSplit table.old events) }
    ensures some { IfOk result (λ done. ¬ (done ≡ Dropped)) }
    ensures err { OnErr result (first_end table.new.past ≡ None) }
{
    finish_stays_legal();
    lines_go_on();
    publications_keep_settled();
    table.journal_is_legal();
    for event in events.into_vec() {
        match event {
            Event::Publish {
                node: at,
                chain,
                ..
            } => match publish(alloc, table, by, node, at, chain)? {
                Gone::Published => {}
                Gone::Closed => return Ok(Appended::Left),
                Gone::Full => return Ok(Appended::Ended),
            },
            last => return Ok(append_last(table, by, node, last)),
        }
        table.journal_is_legal();
    }
    unreachable!()
}

/// How many steps the events add to the ledger; more than a number of 32 bits are answered as want of memory.
fn step_count(events: &[Event]) -> Result<u32, AllocError>
    ensures { IfOk result (λ count. count ≡ sum_by (λ ev. length (lines_of ev)) events.now) }
{
    let mut count: u32 = 0;
    for event in events {
        count = number_after(count, event.lines().len())?;
    }
    Ok(count)
}

/// Takes the room for all events of a batch.
fn take_room(table: &mut Table, events: &[Event]) -> Result<(), AllocError>
    ensures past { table.new.past ≡ table.old.past }
    ensures setting { table.new.setting ≡ table.old.setting }
    ensures events_fit { OnOk result (length events.now ≤ table.new.spare_events) }
    ensures steps_fit { OnOk result (sum_by (λ ev. length (lines_of ev)) events.now ≤ table.new.spare_steps) }
{
    let steps = step_count(events)?;
    if events.len() > u32::MAX as usize {
        return Err(AllocError);
    }
    table.reserve(events.len() as u32, steps)
}

/// Appends a batch of the worker, in its turn, whatever others have appended since the batch was computed: it is moved
/// behind their steps. Where the leaf is dead by now, or the journal has ended, nothing is appended.
///
/// The room for all its events is taken before the first of them.
///
/// # Errors
///
/// Where there is no memory: then nothing has ended the journal, and the worker is to append a Stop. Some of the lines
/// may have been published, where there was none for the steps that close cases.
pub fn append(
    alloc: Global,
    table: &mut Table,
    by: u32,
    node: u32,
    batch: Batch,
) -> Result<Appended, AllocError>
    requires settled { IsSettled table.old.setting table.old.past }
    requires waits { IsWaiting table.old.setting table.old.past by node batch }
    ensures setting { table.new.setting ≡ table.old.setting }
    ensures outcome { IfOk result (IsAppended table.new by node) }
    ensures more { OnOk result (Continues by table.old.past table.new.past) }
    ensures again { IfOk result (λ done. done ≡ Again → CanNotSplit table.old batch.events) }
    ensures dropped { IfOk result (λ done. done ≡ Dropped → table.new ≡ table.old) }
    ensures err { OnErr result (first_end table.old.past ≡ None → first_end table.new.past ≡ None) }
{
    rounds_wait();
    steps_over_the_base_stay();
    table.laws();
    if table.reason().is_some() {
        return Ok(Appended::Dropped);
    }
    if !table.live(node) {
        return Ok(Appended::Dropped);
    }
    let mut batch = batch;
    let more = table.steps() - batch.base;
    batch.shift(more);
    take_room(table, batch.events.as_slice())?;
    append_events(alloc, table, by, node, batch.events)
}
