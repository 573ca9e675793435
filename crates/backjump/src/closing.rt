//! Publishing an empty clause, and closing what it closes.
ghost use Rattle.std.specs.Prelude.{◌≡◌, ℕ, ◌+◌, ◌<◌, ◌≤◌, IfOk, OnOk, OnErr, IsSomeAnd, MatchOption, length, slice_get, [], ◌∷◌, Some, None, false, true};
ghost use Rattle.spl_terms.specs.Clauses.{is_empty};
ghost use Rattle.proof_steps.specs.declared.step.Line.{Line};
ghost use Rattle.proof_steps.specs.Steps.{numbered};
ghost use Rattle.case_journal.specs.declared.event.Event.{Event};
ghost use Rattle.case_journal.specs.declared.event.Event.TheVariants.{Publish};
ghost use Rattle.case_journal.specs.Journal.{ledger, last_line, nodes, steps};
ghost use Rattle.case_journal.specs.Facts.{IsLive};
ghost use Rattle.case_journal.specs.Legal.{IsLegal, IsLegalJournal, IsSettled};
ghost use Rattle.backjump.specs.Cases.{OnlyCloses, IsOpenOrProved};
ghost use Rattle.backjump.specs.Plans.{appended, twin_of, sided_line, IsNextEvent, IsOneLine, IsPlan};

use crate::case_step::case_line;
use crate::settling::{publication, split_above};
use case_journal::Event;
use dep_sets::Deps;
use proof_steps::Line;
use spl_terms::Items;
use split_tree::Table;
use std::alloc::{AllocError, Global};

/// The number of the other child of the same parent, where there are so many nodes.
fn twin_of(at: u32, nodes: u32) -> u32
    requires some { 0 < at }
    requires there { at < nodes }
    ensures { result ≡ twin_of at }
{
    if at % 2 == 1 { at + 1 } else { at - 1 }
}

/// The line that closes the split of the clause, where the child `at` is dead by the empty clause `number`, which
/// depends on `deps`, and the other child by `twin_empty`.
fn sided_line(
    alloc: Global,
    table: &Table,
    at: u32,
    split: u32,
    number: u32,
    deps: &Deps,
    twin_empty: u32,
) -> Result<Line, AllocError>
    requires split_some { 1 ≤ split }
    requires split_there { split ≤ steps table.now.setting table.now.past }
    requires twin_some { 1 ≤ twin_empty }
    requires twin_there { twin_empty ≤ steps table.now.setting table.now.past }
    ensures { IfOk result (λ line. (whole other : Line)
        → numbered (ledger table.now.setting table.now.past) split ≡ Some whole
        → numbered (ledger table.now.setting table.now.past) twin_empty ≡ Some other
        → line ≡ sided_line at split whole.stated.deps number deps.now twin_empty other.stated.deps) }
{
    let whole = &table.line(split).stated.deps;
    let other = &table.line(twin_empty).stated.deps;
    if at % 2 == 1 {
        case_line(alloc, split, whole, number, deps, twin_empty, other)
    } else {
        case_line(alloc, split, whole, twin_empty, other, number, deps)
    }
}

/// A case step that is due: the node to which it belongs, the assumptions on which it depends, and its event.
#[derive(Debug, Drop)]
struct Next {
    node: u32,
    deps: Deps,
    event: Event,
}

/// The case step that is due once the empty clause with the number has been published at the node as its first one;
/// none where the other child of the same parent is live.
fn next_step(
    alloc: Global,
    table: &Table,
    at: u32,
    number: u32,
    deps: &Deps,
) -> Result<Option<Next>, AllocError>
    requires some { 0 < at }
    requires there { at < nodes table.now.past }
    ensures { IfOk result (λ found. MatchOption found (IsLive table.now.setting table.now.past (twin_of at))
        (λ next. IsNextEvent table.now.setting table.now.past at number deps.now next.node next.deps next.event)) }
{
    table.laws();
    let count = table.nodes();
    let (inner, split) = split_above(table, at);
    let Some(twin_empty) = table.first_empty(twin_of(at, count)) else {
        return Ok(None);
    };
    let line = sided_line(alloc, table, at, split, number, deps, twin_empty)?;
    let deps = line.stated.deps.copy()?;
    let node = table.owner(inner, &deps);
    let event = publication(alloc, table, inner, line)?;
    Ok(Some(Next { node, deps, event }))
}

/// The number of the last one of so many steps after this one.
///
/// # Errors
///
/// Where it would be no number of 32 bits, which is answered as want of memory.
pub fn number_after(number: u32, count: usize) -> Result<u32, AllocError>
    ensures { IfOk result (λ last. last ≡ number + count) }
{
    if count > u32::MAX as usize {
        return Err(AllocError);
    }
    match number.checked_add(count as u32) {
        Some(last) => Ok(last),
        None => Err(AllocError),
    }
}

/// The publication of the chain, whose last line states the empty clause, and all case steps that follow.
fn planned(
    alloc: Global,
    table: &Table,
    by: u32,
    node: u32,
    chain: Items<Line>,
) -> Result<Vec<Event>, AllocError>
    requires legal { IsLegal table.now.setting table.now.past by (Publish node chain false) }
    requires settled { IsSettled table.now.setting table.now.past }
    requires empty { IsSomeAnd (last_line chain) (λ l. is_empty l.stated.clause ≡ true) }
    ensures { IfOk result (λ events. IsPlan table.now.setting table.now.past by
        (Publish node chain false) events.items) }
{
    table.laws();
    let mut number = number_after(table.steps(), chain.len())?;
    let mut at = node;
    let last = chain.len() - 1;
    let mut deps = chain.as_slice()[last].stated.deps.copy()?;
    let put_off = false;
    let mut events = vec![in alloc;
        Event::Publish {
            node,
            chain,
            put_off
        },
    ]?;
    while at > 0 {
        let Some(next) = next_step(alloc, table, at, number, &deps)? else {
            return Ok(events);
        };
        number = number_after(number, 1)?;
        at = next.node;
        deps = next.deps;
        events.push(next.event)?;
    }
    Ok(events)
}

/// Appends the events, one after another.
fn append_all(table: &mut Table, by: u32, events: Vec<Event>)
    requires legal { IsLegalJournal table.old.setting (appended by events.items table.old.past) }
    requires each { (k : ℕ) (ev : Event) → slice_get events.items k ≡ Some ev → IsOneLine ev }
    requires events_fit { length events.items ≤ table.old.spare_events }
    requires steps_fit { length events.items ≤ table.old.spare_steps }
    ensures past { table.new.past ≡ appended by events.items table.old.past }
    ensures setting { table.new.setting ≡ table.old.setting }
{
    for event in events {
        table.apply(by, event);
    }
}

/// Publishes a chain of the worker whose clause is empty, at the node to which it belongs, in a settled tree; then
/// closes each live node both of whose children are dead, as `settle` does, until the tree is settled again. Where the
/// chain or a step is a contradiction, it ends the journal.
///
/// The steps follow the path of the node upwards, so there are no more of them than the path has nodes.
///
/// # Errors
///
/// Where there is no memory; all room is taken first, so the table is as it was then, its spare room too.
pub fn close(
    alloc: Global,
    table: &mut Table,
    by: u32,
    node: u32,
    chain: Items<Line>,
) -> Result<(), AllocError>
    requires legal { IsLegal table.old.setting table.old.past by (Publish node chain false) }
    requires settled { IsSettled table.old.setting table.old.past }
    requires empty { IsSomeAnd (last_line chain) (λ l. is_empty l.stated.clause ≡ true) }
    ensures setting { table.new.setting ≡ table.old.setting }
    ensures closes { OnOk result (OnlyCloses by (record { by = by; event = Publish node chain false } ∷ table.old.past)
        table.new.past) }
    ensures settled { OnOk result (IsSettled table.new.setting table.new.past) }
    ensures ended { OnOk result (IsOpenOrProved table.new.past) }
    ensures err { OnErr result (table.new ≡ table.old) }
{
    table.laws();
    let events = planned(alloc, table, by, node, chain)?;
    let count = events.len() as u32;
    table.reserve(count, count)?;
    append_all(table, by, events);
    Ok(())
}
