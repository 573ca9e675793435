//! Closing each live node both of whose children are dead.
ghost use Rattle.std.specs.Prelude.{◌≡◌, ◌+◌, ◌*◌, ◌<◌, ◌≤◌, IfOk, OnOk, MatchOption, [], ◌∷◌, None, Some, false};
ghost use Rattle.case_journal.specs.declared.branch.Branch.{Branch};
ghost use Rattle.case_journal.specs.declared.event.Event.TheVariants.{Publish};
ghost use Rattle.case_journal.specs.Journal.{nodes};
ghost use Rattle.case_journal.specs.Paths.{branch, owner};
ghost use Rattle.case_journal.specs.Facts.{IsLive};
ghost use Rattle.case_journal.specs.Ending.{first_end};
ghost use Rattle.case_journal.specs.Legal.{IsSettled};
ghost use Rattle.backjump.specs.Cases.{OnlyCloses, IsOpenOrProved, IsSettledAbove, CanClose, IsPairStep, IsClosingEvent};

use crate::case_step::case_line;
use case_journal::Event;
use proof_steps::Line;
use spl_terms::Items;
use split_tree::Table;
use std::alloc::{AllocError, Global};

/// A live node both of whose children are dead.
#[derive(Clone, Copy, Debug)]
struct Closed {
    /// The node, from 0.
    inner: u32,
    /// The number of the clause that was split there, from 1.
    split: u32,
    /// The number of the first empty clause of the left child.
    left_empty: u32,
    /// The same for the right child.
    right_empty: u32,
}

/// The event that publishes the line where it belongs on the path of the node.
pub fn publication(
    alloc: Global,
    table: &Table,
    inner: u32,
    line: Line,
) -> Result<Event, AllocError>
    requires { inner < nodes table.now.past }
    ensures { IfOk result (λ event. event
        ≡ Publish (owner table.now.past line.stated.deps inner) (line ∷ []) false) }
{
    let node = table.owner(inner, &line.stated.deps);
    let mut chain = Items::new(alloc);
    chain.push(line)?;
    Ok(Event::Publish {
        node,
        chain,
        put_off: false,
    })
}

/// The parent of a node other than the root, and the number of the clause that was split there.
pub fn split_above(table: &Table, child: u32) -> (u32, u32)
    requires some { 0 < child }
    requires there { child < nodes table.now.past }
    ensures { (b : Branch) → branch table.now.past child ≡ Some b
        → (b.parent ≡ result.0) × (b.assumed.split ≡ result.1) }
{
    match (table.parent(child), table.assumption(child)) {
        (Some(parent), Some(assumption)) => (parent, assumption.split),
        _ => (0, 0),
    }
}

/// The node above the pair of children with this place, where the node is live and both children are dead.
fn closed_above(table: &Table, place: u32) -> Option<Closed>
    requires { 2 * place + 1 < nodes table.now.past }
    ensures { MatchOption result (IsSettledAbove table.now.setting table.now.past (2 * place + 1))
        (λ c. CanClose table.now.setting table.now.past c.inner c.split
        (2 * place + 1) (2 * place + 2) c.left_empty c.right_empty) }
{
    table.laws();
    let left = 2 * place + 1;
    let (inner, split) = split_above(table, left);
    if !table.live(inner) {
        return None;
    }
    let Some(left_empty) = table.first_empty(left) else {
        return None;
    };
    let Some(right_empty) = table.first_empty(left + 1) else {
        return None;
    };
    Some(Closed {
        inner,
        split,
        left_empty,
        right_empty,
    })
}

/// The event that closes the node.
fn closing(
    alloc: Global,
    table: &Table,
    by: u32,
    place: u32,
    closed: Closed,
) -> Result<Event, AllocError>
    requires some { 1 ≤ by }
    requires worker { by ≤ table.now.setting.workers }
    requires unended { first_end table.now.past ≡ None }
    requires closed { CanClose table.now.setting table.now.past closed.inner closed.split
        (2 * place + 1) (2 * place + 2) closed.left_empty closed.right_empty }
    ensures { IfOk result (λ event. IsClosingEvent table.now.setting table.now.past by closed.inner event) }
{
    table.laws();
    let line = case_line(
        alloc,
        closed.split,
        &table.line(closed.split).stated.deps,
        closed.left_empty,
        &table.line(closed.left_empty).stated.deps,
        closed.right_empty,
        &table.line(closed.right_empty).stated.deps,
    )?;
    publication(alloc, table, closed.inner, line)
}

/// Closes the node above the pair of children with this place.
fn close_pair(
    alloc: Global,
    table: &mut Table,
    by: u32,
    place: u32,
    closed: Closed,
) -> Result<(), AllocError>
    requires some { 1 ≤ by }
    requires worker { by ≤ table.old.setting.workers }
    requires unended { first_end table.old.past ≡ None }
    requires closed { CanClose table.old.setting table.old.past closed.inner closed.split
        (2 * place + 1) (2 * place + 2) closed.left_empty closed.right_empty }
    ensures setting { table.new.setting ≡ table.old.setting }
    ensures step { IsPairStep table.old.setting by place table.old.past table.new.past }
    ensures settled { OnOk result (IsSettledAbove table.new.setting table.new.past (2 * place + 1)) }
{
    table.laws();
    table.reserve(1, 1)?;
    let event = closing(alloc, table, by, place, closed)?;
    table.apply(by, event);
    Ok(())
}

/// Closes the node above the pair of children with this place, where the node is live and both children are dead.
fn settle_pair(alloc: Global, table: &mut Table, by: u32, place: u32) -> Result<(), AllocError>
    requires some { 1 ≤ by }
    requires worker { by ≤ table.old.setting.workers }
    requires there { 2 * place + 1 < nodes table.old.past }
    requires unended { IsLive table.old.setting table.old.past 0 → first_end table.old.past ≡ None }
    ensures setting { table.new.setting ≡ table.old.setting }
    ensures step { IsPairStep table.old.setting by place table.old.past table.new.past }
    ensures settled { OnOk result (IsSettledAbove table.new.setting table.new.past (2 * place + 1)) }
{
    table.laws();
    match closed_above(table, place) {
        Some(closed) => close_pair(alloc, table, by, place, closed),
        None => Ok(()),
    }
}

/// Closes each live node both of whose children are dead, by a case step of the worker at the node to which the step
/// belongs, until each live node that was split has a live child. Where a step is a contradiction, it ends the journal.
///
/// It goes once over the pairs of children, the later ones first, since a step is published above the node that it
/// closes: so there are no more steps than nodes that were split.
///
/// # Errors
///
/// Where there is no memory; then some of the steps may have been published.
pub fn settle(alloc: Global, table: &mut Table, by: u32) -> Result<(), AllocError>
    requires some { 1 ≤ by }
    requires worker { by ≤ table.old.setting.workers }
    requires unended { first_end table.old.past ≡ None }
    ensures setting { table.new.setting ≡ table.old.setting }
    ensures closes { OnlyCloses by table.old.past table.new.past }
    ensures settled { OnOk result (IsSettled table.new.setting table.new.past) }
    ensures ended { IsOpenOrProved table.new.past }
{
    let mut place = table.nodes() / 2;
    while place > 0 {
        place -= 1;
        settle_pair(alloc, table, by, place)?;
    }
    table.laws();
    Ok(())
}
