//! One case after another, by the one worker of a table.
ghost use Rattle.std.specs.Prelude.{◌≡◌, ◌<◌, ◌∷◌, false, IfOk, OnOk, IsSome, None, Some};
ghost use Rattle.case_journal.specs.declared.event.Event.TheVariants.{Claim};
ghost use Rattle.case_journal.specs.Journal.{rounds};
ghost use Rattle.case_journal.specs.Facts.{Holds};
ghost use Rattle.case_journal.specs.Ending.{first_end, has_empty, reason};
ghost use Rattle.case_journal.specs.Legal.{IsSettled};
ghost use Rattle.case_turns.specs.Turns.{HoldsUnchosen};
ghost use Rattle.case_turns.specs.Desks.{HasTrail, IsDesk};
ghost use Rattle.case_turns.specs.Working.{IsBetween};

use crate::desk::{Desk, take_desk};
use crate::leaves::{finish_round, work_on};
use backjump::settle;
use case_journal::{End, Event};
use journal_laws::{chosen_leaves_are_held, dead_nodes_stay_dead};
use split_tree::Table;
use std::alloc::{AllocError, Global};

/// Claims the leftmost live leaf, and answers which it is.
fn claim(table: &mut Table) -> Result<u32, AllocError>
    requires one { table.old.setting.workers ≡ 1 }
    requires going { reason table.old.setting table.old.past ≡ None }
    requires between { IsBetween table.old 1 }
    ensures setting { table.new.setting ≡ table.old.setting }
    ensures free { IfOk result (λ node. HoldsUnchosen table.new 1 node) }
    ensures past { IfOk result (λ node. table.new.past ≡ record { by = 1; event = Claim node } ∷ table.old.past) }
{
    chosen_leaves_are_held();
    dead_nodes_stay_dead();
    table.reserve(1, 0)?;
    table.laws();
    let Some(node) = table.claim_next() else {
        table.dead_root_has_ended();
        unreachable!();
    };
    table.apply(1, Event::Claim { node });
    Ok(node)
}

/// The leaf that the worker holds; it claims the leftmost live leaf where it holds none.
fn held_or_claimed(table: &mut Table) -> Result<u32, AllocError>
    requires one { table.old.setting.workers ≡ 1 }
    requires going { reason table.old.setting table.old.past ≡ None }
    requires settled { IsSettled table.old.setting table.old.past }
    ensures setting { table.new.setting ≡ table.old.setting }
    ensures holds { IfOk result (λ node. Holds table.new.setting table.new.past 1 node) }
    ensures settled { OnOk result (IsSettled table.new.setting table.new.past) }
    ensures unended { OnOk result (first_end table.new.past ≡ None) }
{
    table.laws();
    match table.held(1) {
        Some(node) => Ok(node),
        None => claim(table),
    }
}

/// Works on at the leaf that the worker holds: first it finishes the round of the clause that is chosen there, if one is.
fn resume(alloc: Global, table: &mut Table, node: u32, desk: &mut Desk) -> Result<(), AllocError>
    requires one { table.old.setting.workers ≡ 1 }
    requires unrefuted { has_empty table.old.setting.input ≡ false }
    requires holds { Holds table.old.setting table.old.past 1 node }
    requires settled { IsSettled table.old.setting table.old.past }
    requires unended { first_end table.old.past ≡ None }
    requires desk { IsDesk table.old.setting table.old.past 1 node desk.old }
    ensures setting { table.new.setting ≡ table.old.setting }
    ensures between { OnOk result (IsBetween table.new 1) }
    ensures trail { OnOk result (HasTrail table.new.setting table.new.past 1 desk.new) }
{
    table.laws();
    match table.chosen(node) {
        None => work_on(alloc, table, node, desk),
        Some(_) => {
            if finish_round(alloc, table, node, desk)? {
                work_on(alloc, table, node, desk)
            } else {
                Ok(())
            }
        }
    }
}

/// Claims the leftmost live leaf, and works there.
fn work_case(alloc: Global, table: &mut Table, desk: &mut Desk) -> Result<(), AllocError>
    requires one { table.old.setting.workers ≡ 1 }
    requires going { reason table.old.setting table.old.past ≡ None }
    requires between { IsBetween table.old 1 }
    requires trail { HasTrail table.old.setting table.old.past 1 desk.old }
    ensures setting { table.new.setting ≡ table.old.setting }
    ensures between { OnOk result (IsBetween table.new 1) }
    ensures trail { OnOk result (HasTrail table.new.setting table.new.past 1 desk.new) }
    ensures more { OnOk result (first_end table.new.past ≡ None → rounds table.old.past < rounds table.new.past) }
{
    let node = claim(table)?;
    desk.move_to(alloc, table, node)?;
    work_on(alloc, table, node, desk)
}

/// Works on one case after another, until there is a reason to end.
fn work(alloc: Global, table: &mut Table) -> Result<(), AllocError>
    requires one { table.old.setting.workers ≡ 1 }
    requires unended { first_end table.old.past ≡ None }
    ensures setting { table.new.setting ≡ table.old.setting }
    ensures ended { OnOk result (IsSome (reason table.new.setting table.new.past)) }
{
    settle(alloc, table, 1)?;
    if table.reason().is_some() {
        return Ok(());
    }
    let node = held_or_claimed(table)?;
    let mut desk = take_desk(alloc, table, 1, node)?;
    resume(alloc, table, node, &mut desk)?;
    if table.reason().is_some() {
        return Ok(());
    }
    loop {
        work_case(alloc, table, &mut desk)?;
        if table.reason().is_some() {
            return Ok(());
        }
        table.laws();
    }
}

/// Ends the journal by a Stop, unless proving has ended.
fn stop(table: &mut Table)
    ensures ended { IsSome (reason table.new.setting table.new.past) }
    ensures setting { table.new.setting ≡ table.old.setting }
{
    table.laws();
    if table.reason().is_none() {
        table.apply(1, Event::Stop);
    }
}

/// Works as the one worker of a table, from any journal on, until there is a reason to end, and answers that; it appends
/// `Stop` where it finds no memory.
///
/// First the tree is settled, and the round of the clause that is chosen at the held leaf is finished. Then the cases are
/// worked on from left to right. At each the given clause is chosen by the pick rule, split where it has parts and splits
/// remain, and else resolved with the clauses that were activated before; what is neither a tautology nor subsumed as it
/// stands is published (the main loop of Weidenbach 2001, with its splitting rule).
pub fn alone(alloc: Global, table: &mut Table) -> End
    requires { table.old.setting.workers ≡ 1 }
    ensures ended { reason table.new.setting table.new.past ≡ Some result }
    ensures setting { table.new.setting ≡ table.old.setting }
{
    table.laws();
    if let Some(end) = table.reason() {
        return end;
    }
    match work(alloc, table) {
        Ok(()) => {}
        Err(_) => stop(table),
    }
    table.reason().unwrap()
}
