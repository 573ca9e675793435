//! What a worker keeps of the leaf that it holds, from round to round, and from leaf to leaf.
ghost use Rattle.std.specs.Prelude.{◌≡◌, ℕ, ◌<◌, ◌≤◌, true, false, ◌++◌, map, IfOk, OnOk, Contains};
ghost use Rattle.case_journal.specs.Journal.{nodes, steps};
ghost use Rattle.case_journal.specs.Facts.{Holds};
ghost use Rattle.case_queue.specs.Queues.{HasFirst, HasQueue};
ghost use Rattle.case_view.specs.Views.{IsRising, StandsFor};
ghost use Rattle.case_view.specs.Walks.{is_among};
ghost use Rattle.case_turns.specs.Desks.{AreNumbersOf, HasTrail, IsDesk, IsDeskNow, IsRetired};

use case_queue::CaseQueue;
use case_view::{
    CaseView, Kept, Mark, is_among, move_to_held, paths_give_the_splits, views_have_the_clauses,
};
use dep_sets::Assumption;
use journal_laws::a_held_leaf_is_kept;
use spl_terms::Items;
use split_tree::Table;
use std::alloc::{AllocError, Global};

/// What a worker keeps of the leaf that it holds: its view of the case, the clauses that may be chosen next there, and marks
/// by which the view goes back when the worker goes on to another leaf.
#[derive(Debug, Drop)]
pub struct Desk {
    /// The view of the case.
    pub view: CaseView,
    /// Former states of the view, at leaves that have been split since, from the root down.
    pub marks: Items<Mark>,
    /// The clauses that may be chosen next.
    pub queue: CaseQueue,
}

/// The numbers of the clauses.
fn numbers_of(alloc: Global, clauses: &[Kept]) -> Result<Vec<u32>, AllocError>
    ensures { IfOk result (λ numbers. AreNumbersOf clauses.now numbers.items) }
{
    let mut numbers = Vec::with_capacity(alloc, clauses.len())?;
    for clause in clauses {
        numbers.push(clause.number)?;
    }
    Ok(numbers)
}

/// Adds the numbers of the clauses that were split where this is assumed.
fn add_splits(path: &[Assumption], numbers: &mut Vec<u32>) -> Result<(), AllocError>
    ensures { OnOk result (numbers.new.items ≡ numbers.old.items ++ map (λ a. a.split) path.now) }
{
    for side in path {
        numbers.push(side.split)?;
    }
    Ok(())
}

/// The numbers of the clauses that are worked off or were split at the leaf of the view, in rising order.
fn retired_numbers(alloc: Global, view: &CaseView) -> Result<Vec<u32>, AllocError>
    ensures rise { IfOk result (λ numbers. IsRising numbers.items) }
    ensures are { IfOk result (λ numbers. (n : ℕ) → is_among numbers.items n ≡ true → IsRetired view.now n) }
{
    let mut numbers = numbers_of(alloc, view.worked())?;
    add_splits(view.path(), &mut numbers)?;
    numbers.sort_unstable();
    Ok(numbers)
}

/// Those of the numbers that aren't among the others, which rise.
fn without(alloc: Global, numbers: &[u32], others: &[u32]) -> Result<Vec<u32>, AllocError>
    requires { IsRising others.now }
    ensures are { IfOk result (λ kept. (n : ℕ) → Contains kept.items n → Contains numbers.now n) }
    ensures all { IfOk result (λ kept. (n : ℕ) → Contains numbers.now n → is_among others.now n ≡ false
        → Contains kept.items n) }
{
    let mut kept = Vec::with_capacity(alloc, numbers.len())?;
    for k in 0..numbers.len() {
        if !is_among(others, numbers[k]) {
            kept.push(numbers[k])?;
        }
    }
    Ok(kept)
}

/// Makes it the queue of the leaf of the view, by a look at each clause that is listed there.
fn fill_queue(
    alloc: Global,
    table: &Table,
    node: u32,
    view: &CaseView,
    queue: &mut CaseQueue,
) -> Result<(), AllocError>
    requires stands { StandsFor table.now.setting table.now.past view.now }
    requires node { view.now.node ≡ node }
    ensures { OnOk result (HasQueue table.now.setting table.now.past node queue.new) }
{
    views_have_the_clauses();
    paths_give_the_splits();
    table.laws();
    let listed = numbers_of(alloc, view.listed())?;
    let retired = retired_numbers(alloc, view)?;
    let passive = without(alloc, listed.as_slice(), retired.as_slice())?;
    queue.fill(table, passive.as_slice())?;
    Ok(())
}

/// What the worker keeps of the first leaf that it holds. It takes a look at the whole journal.
///
/// # Errors
///
/// Only where there is no memory.
pub fn take_desk(alloc: Global, table: &Table, worker: u32, node: u32) -> Result<Desk, AllocError>
    requires { Holds table.now.setting table.now.past worker node }
    ensures { IfOk result (λ desk. IsDeskNow table.now.setting table.now.past worker node desk) }
{
    let view = CaseView::begin(alloc, table, worker)?;
    let mut queue = CaseQueue::new(alloc);
    fill_queue(alloc, table, node, &view, &mut queue)?;
    let marks = Items::new(alloc);
    Ok(Desk { view, marks, queue })
}

/// Adds the clauses of the ledger after the first ones, of which there are so many.
fn add_lines(table: &Table, node: u32, queue: &mut CaseQueue, before: u32) -> Result<(), AllocError>
    requires there { node < nodes table.now.past }
    requires within { before ≤ steps table.now.setting table.now.past }
    requires first { HasFirst table.now.setting table.now.past node before queue.old }
    ensures { OnOk result (HasQueue table.now.setting table.now.past node queue.new) }
{
    for place in before..table.steps() {
        queue.add(table, node, place + 1)?;
    }
    Ok(())
}

impl Desk {
    /// Brings it up to the table, by a look at the events and the steps alone that were appended since.
    ///
    /// # Errors
    ///
    /// Only where there is no memory; then it is of no use.
    pub fn catch_up(&mut self, table: &Table) -> Result<(), AllocError>
        requires desk { IsDesk table.now.setting table.now.past self.old.view.worker self.old.view.node self.old }
        requires holds { Holds table.now.setting table.now.past self.old.view.worker self.old.view.node }
        ensures { OnOk result (IsDeskNow table.now.setting table.now.past
            self.old.view.worker self.old.view.node self.new) }
    {
        a_held_leaf_is_kept();
        table.laws();
        let before = self.view.base();
        self.view.sync(table)?;
        add_lines(table, self.view.node(), &mut self.queue, before)?;
        Ok(())
    }

    /// Moves it to the leaf that its worker has claimed: its view goes back to the last mark above the leaf, and down from
    /// there by a look at the events alone that were appended since; of the clauses, it takes a look at those that are listed at
    /// the leaf.
    ///
    /// # Errors
    ///
    /// Only where there is no memory; then it is of no use.
    pub fn move_to(&mut self, alloc: Global, table: &Table, node: u32) -> Result<(), AllocError>
        requires trail { HasTrail table.now.setting table.now.past self.old.view.worker self.old }
        requires holds { Holds table.now.setting table.now.past self.old.view.worker node }
        ensures { OnOk result (IsDeskNow table.now.setting table.now.past self.old.view.worker node self.new) }
    {
        move_to_held(alloc, table, &mut self.view, &mut self.marks)?;
        fill_queue(alloc, table, node, &self.view, &mut self.queue)?;
        Ok(())
    }
}
