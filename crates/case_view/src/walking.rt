//! A view as it goes through the events of a journal, down to its leaf.
ghost use Rattle.std.specs.Prelude.{◌≡◌, ℕ, ◌+◌, ◌*◌, ◌<◌, ◌≤◌, ◌^◌, ◌++◌, [], length, Option, Some, IfOk, OnOk, reverse};
ghost use Rattle.spl_terms.specs.Clauses.{renumbered};
ghost use Rattle.case_journal.specs.declared.event.Event.TheVariants.{Choose};
ghost use Rattle.case_journal.specs.Journal.{ledger, steps, nodes, lines_of, nodes_of, splits_of};
ghost use Rattle.case_journal.specs.Facts.{lists};
ghost use Rattle.case_view.specs.Views.{keep, kept_lines, path_nodes, listed_at, IsRising, IsCaseOf};
ghost use Rattle.case_view.specs.Walks.{is_among, count_with, node_after, side_into, nodes_into, sides_into, given_by, worked_with, with_event, IsNotable, Reaches};
ghost use Rattle.case_view.specs.Marks.{HasGrown};

use crate::kept::{Case, Kept};
use case_journal::{Event, subject};
use dep_sets::Assumption;
use proof_steps::{Line, Statement};
use spl_terms::{Items, at};
use split_tree::Table;
use std::alloc::{AllocError, Global};

/// The clause with this number, from 1, and what the line states.
fn keep(alloc: Global, number: u32, line: &Line) -> Result<Kept, AllocError>
    ensures { IfOk result (λ kept. kept ≡ keep number line.now) }
{
    let clause = line.stated.clause.copy(alloc)?;
    let deps = line.stated.deps.copy()?;
    let stated = Statement { clause, deps };
    Ok(Kept { number, stated })
}

// ---- one event

/// Whether the number is one of these, which rise.
pub fn is_among(nodes: &[u32], node: u32) -> bool
    requires { IsRising nodes.now }
    ensures { result ≡ is_among nodes.now node }
{
    nodes.binary_search(&node).is_ok()
}

/// Whether the event lists the clause with this number at the node, where `nodes` are those of its path before the
/// event, and there were `count` nodes and `base` steps.
fn lists(event: &Event, count: u32, base: u32, nodes: &[u32], node: u32, number: u32) -> bool
    requires rises { IsRising nodes.now }
    requires steps { base + length (lines_of event.now) < 2 ^ 32 }
    requires few { count + nodes_of event.now < 2 ^ 32 }
    ensures { result ≡ lists event.now count base (is_among nodes.now) node number }
{
    match event {
        Event::Publish {
            node: owner,
            chain,
            ..
        } => is_among(nodes, *owner) && base < number && number == base + chain.len() as u32,
        Event::Split { steps, .. } => {
            let last = base + steps.len() as u32;
            let (number, base) = (u64::from(number), u64::from(base));
            (node == count && number == base + 1)
                || (node == count + 1 && base + 2 <= number && number <= u64::from(last))
        }
        _ => false,
    }
}

/// Adds the clauses that the event lists at the node.
fn add_listed(
    alloc: Global,
    event: &Event,
    count: u32,
    base: u32,
    nodes: &[u32],
    node: u32,
    listed: &mut Items<Kept>,
) -> Result<(), AllocError>
    requires rises { IsRising nodes.now }
    requires steps { base + length (lines_of event.now) < 2 ^ 32 }
    requires few { count + nodes_of event.now < 2 ^ 32 }
    ensures { OnOk result (listed.new ≡ listed.old
        ++ kept_lines (lists event.now count base (is_among nodes.now) node) (base + 1) (lines_of event.now)) }
{
    for place in 0..event.lines().len() {
        let number = base + place as u32 + 1;
        if lists(event, count, base, nodes, node, number) {
            listed.push(keep(alloc, number, event.line(place))?)?;
        }
    }
    Ok(())
}

/// The node of the view after the event, where `next` is the node below it on the path to the leaf.
fn node_after(event: &Event, count: u32, next: Option<u32>, node: u32) -> u32
    requires { count + nodes_of event.now < 2 ^ 32 }
    ensures { result ≡ node_after event.now count next node }
{
    match (event, next) {
        (Event::Split { .. }, Some(next)) if next == count || next == count + 1 => next,
        _ => node,
    }
}

/// The side of the split by which the node is entered.
fn side_into(lines: &[Line], count: u32, node: u32) -> Assumption
    ensures { result ≡ side_into lines.now count node }
{
    Assumption {
        split: subject(lines),
        side: if node == count { 1 } else { 2 },
    }
}

/// Notes which clause is chosen and which are worked off after the event.
fn note_given(
    alloc: Global,
    table: &Table,
    event: &Event,
    node: u32,
    into: u32,
    given: &mut Option<Kept>,
    worked: &mut Items<Kept>,
) -> Result<(), AllocError>
    requires chosen { (at clause : ℕ) (selected : Option ℕ) → event.now ≡ Choose at clause selected
        → (1 ≤ clause) × (clause ≤ steps table.now.setting table.now.past) }
    ensures given { OnOk result (given.new
        ≡ given_by event.now (ledger table.now.setting table.now.past) node into given.old) }
    ensures worked { OnOk result (worked.new ≡ worked_with event.now node given.old worked.old) }
{
    match event {
        Event::Choose {
            node: leaf,
            clause,
            ..
        } if *leaf == node => {
            *given = Some(keep(alloc, *clause, table.line(*clause))?);
        }
        Event::Activate { node: leaf } if *leaf == node => {
            if let Some(clause) = given.take() {
                worked.push(clause)?;
            }
        }
        Event::Split { .. } if into != node => *given = None,
        _ => {}
    }
    Ok(())
}

/// How many splits the event makes.
fn splits_of(event: &Event) -> u32
    ensures { result ≡ splits_of event.now }
{
    if matches!(event, Event::Split { .. }) {
        1
    } else {
        0
    }
}

/// The view goes on by an event, where `next` is the node below its own on the path to the leaf.
fn note(
    alloc: Global,
    table: &Table,
    case: &mut Case,
    event: &Event,
    next: Option<u32>,
) -> Result<(), AllocError>
    requires { IsNotable (ledger table.now.setting table.now.past) event.now case.old }
    ensures { OnOk result (case.new ≡ with_event (ledger table.now.setting table.now.past) event.now next case.old) }
{
    let count = 2 * case.splits + 1;
    let node = case.node;
    let into = node_after(event, count, next, node);
    let nodes = case.nodes.as_slice();
    add_listed(
        alloc,
        event,
        count,
        case.base,
        nodes,
        into,
        &mut case.listed,
    )?;
    note_given(
        alloc,
        table,
        event,
        node,
        into,
        &mut case.given,
        &mut case.worked,
    )?;
    if into != node {
        case.nodes.push(into)?;
        case.path.push(side_into(event.lines(), count, into))?;
    }
    case.node = into;
    case.splits += splits_of(event);
    case.base += event.lines().len() as u32;
    case.events += 1;
    Ok(())
}

// ---- all events

/// The view goes on by all further events of the journal, to the leaf. The list `way` has the nodes of the leaf's path;
/// it may be empty where the view is that of the leaf already.
pub fn walk(
    alloc: Global,
    table: &Table,
    case: &mut Case,
    leaf: u32,
    way: &[u32],
) -> Result<(), AllocError>
    requires there { leaf < nodes table.now.past }
    requires reaches { Reaches table.now.setting table.now.past leaf way.now case.old.events case.old }
    ensures is { OnOk result (IsCaseOf table.now.setting table.now.past case.new) }
    ensures node { OnOk result (case.new.node ≡ leaf) }
    ensures grows { OnOk result (HasGrown case.old case.new) }
{
    table.laws();
    for place in case.events..table.events() {
        let (_, event) = table.event(place);
        let next = at(way, case.nodes.len()).copied();
        note(alloc, table, case, event, next)?;
    }
    Ok(())
}

// ---- before the first event

/// The clauses of the input, which are listed at the root.
fn input_of(alloc: Global, table: &Table) -> Result<Items<Kept>, AllocError>
    ensures { IfOk result (λ list. list ≡ listed_at table.now.setting [] 0) }
{
    table.laws();
    let mut list = Items::new(alloc);
    for place in 0..table.input().len() {
        let number = place as u32 + 1;
        list.push(keep(alloc, number, table.line(number))?)?;
    }
    Ok(list)
}

/// The view of the root before the first event.
pub fn root_case(alloc: Global, table: &Table, worker: u32) -> Result<Case, AllocError>
    ensures is { IfOk result (λ case. IsCaseOf table.now.setting [] case) }
    ensures node { IfOk result (λ case. case.node ≡ 0) }
    ensures worker { IfOk result (λ case. case.worker ≡ worker) }
{
    table.laws();
    let listed = input_of(alloc, table)?;
    Ok(Case {
        worker,
        node: 0,
        events: 0,
        base: table.input().len() as u32,
        splits: 0,
        nodes: Items::from_slice(alloc, &[0])?,
        path: Items::new(alloc),
        given: None,
        worked: Items::new(alloc),
        listed,
    })
}

/// The nodes from the root down to this one.
pub fn path_to(alloc: Global, table: &Table, node: u32) -> Result<Vec<u32>, AllocError>
    requires { node < nodes table.now.past }
    ensures { IfOk result (λ path. path.items ≡ path_nodes table.now.past node) }
{
    table.journal_is_legal();
    let mut path = Vec::new(alloc);
    let mut node = node;
    while let Some(parent) = table.parent(node) {
        path.push(node)?;
        node = parent;
    }
    path.push(node)?;
    path.reverse();
    Ok(path)
}
