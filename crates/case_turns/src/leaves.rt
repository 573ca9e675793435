//! The rounds of a worker at the leaf that it holds, where it is alone.
ghost use Rattle.std.specs.Prelude.{◌≡◌, ◌<◌, ◌≤◌, false, IfOk, OnOk, IsSome, MatchBool, None, Some, ◌∷◌};
ghost use Rattle.case_journal.specs.declared.event.Event.TheVariants.{Choose};
ghost use Rattle.case_journal.specs.Journal.{rounds};
ghost use Rattle.case_journal.specs.Facts.{chosen, Holds};
ghost use Rattle.case_journal.specs.Ending.{first_end, has_empty};
ghost use Rattle.case_journal.specs.Legal.{IsSettled};
ghost use Rattle.case_journal.specs.Picking.{pick_at};
ghost use Rattle.case_turns.specs.Turns.{HoldsUnchosen};
ghost use Rattle.case_turns.specs.Desks.{HasTrail, IsDesk};
ghost use Rattle.case_turns.specs.Working.{IsBetween, IsBusy, GoesOnAt};

use crate::appending::{Appended, append};
use crate::desk::Desk;
use case_journal::Event;
use case_rounds::{compute_round, rounds_can_be_appended};
use case_view::views_have_the_clauses;
use journal_laws::{chosen_leaves_are_held, dead_nodes_stay_dead};
use split_tree::Table;
use std::alloc::{AllocError, Global};

/// Computes the round of the clause that is chosen at the leaf, and appends it. Answers whether the worker still holds the
/// leaf.
pub fn finish_round(
    alloc: Global,
    table: &mut Table,
    node: u32,
    desk: &mut Desk,
) -> Result<bool, AllocError>
    requires unrefuted { has_empty table.old.setting.input ≡ false }
    requires busy { IsBusy table.old 1 node }
    requires desk { IsDesk table.old.setting table.old.past 1 node desk.old }
    ensures setting { table.new.setting ≡ table.old.setting }
    ensures held { IfOk result (λ held. GoesOnAt table.new 1 node desk.new held) }
    ensures trail { OnOk result (HasTrail table.new.setting table.new.past 1 desk.new) }
    ensures more { OnOk result (rounds table.old.past ≤ rounds table.new.past) }
{
    views_have_the_clauses();
    rounds_can_be_appended();
    table.laws();
    desk.catch_up(table)?;
    let batch = compute_round(alloc, &desk.view, &table.limits())?;
    match append(alloc, table, 1, node, batch)? {
        Appended::Activated => Ok(true),
        Appended::Left => Ok(false),
        Appended::Ended => Ok(false),
        Appended::Again => unreachable!(),
        Appended::Dropped => unreachable!(),
    }
}

/// Appends that the clause is chosen at the leaf.
fn choose(table: &mut Table, node: u32, clause: u32)
    requires one { table.old.setting.workers ≡ 1 }
    requires free { HoldsUnchosen table.old 1 node }
    requires picked { pick_at table.old.setting table.old.past node ≡ Some clause }
    requires few { rounds table.old.past < table.old.setting.limits.rounds }
    requires room { 1 ≤ table.old.spare_events }
    ensures setting { table.new.setting ≡ table.old.setting }
    ensures busy { IsBusy table.new 1 node }
    ensures past { table.new.past ≡ record { by = 1; event = Choose node clause None } ∷ table.old.past }
{
    dead_nodes_stay_dead();
    table.laws();
    table.apply(
        1,
        Event::Choose {
            node,
            clause,
            selected: None,
        },
    );
}

/// Chooses the clause that the pick rule gives at the leaf, computes its round, and appends that; ends the journal where
/// there is none, or where as many were chosen as may be. Answers whether the worker still holds the leaf.
fn work_round(
    alloc: Global,
    table: &mut Table,
    node: u32,
    desk: &mut Desk,
) -> Result<bool, AllocError>
    requires one { table.old.setting.workers ≡ 1 }
    requires unrefuted { has_empty table.old.setting.input ≡ false }
    requires free { HoldsUnchosen table.old 1 node }
    requires desk { IsDesk table.old.setting table.old.past 1 node desk.old }
    ensures setting { table.new.setting ≡ table.old.setting }
    ensures held { IfOk result (λ held. GoesOnAt table.new 1 node desk.new held) }
    ensures trail { OnOk result (HasTrail table.new.setting table.new.past 1 desk.new) }
    ensures more { OnOk result (first_end table.new.past ≡ None → rounds table.old.past < rounds table.new.past) }
{
    chosen_leaves_are_held();
    table.reserve(1, 0)?;
    table.laws();
    desk.catch_up(table)?;
    let Some(clause) = desk.queue.pick(table, node) else {
        table.apply(1, Event::Saturated { node });
        return Ok(false);
    };
    if table.rounds() >= table.limits().rounds {
        table.apply(1, Event::Spent { node });
        return Ok(false);
    }
    choose(table, node, clause);
    finish_round(alloc, table, node, desk)
}

/// Works at the leaf until it is split or closed, or until an event ends the journal.
pub fn work_on(
    alloc: Global,
    table: &mut Table,
    node: u32,
    desk: &mut Desk,
) -> Result<(), AllocError>
    requires one { table.old.setting.workers ≡ 1 }
    requires unrefuted { has_empty table.old.setting.input ≡ false }
    requires free { HoldsUnchosen table.old 1 node }
    requires desk { IsDesk table.old.setting table.old.past 1 node desk.old }
    ensures setting { table.new.setting ≡ table.old.setting }
    ensures between { OnOk result (IsBetween table.new 1) }
    ensures trail { OnOk result (HasTrail table.new.setting table.new.past 1 desk.new) }
    ensures more { OnOk result (first_end table.new.past ≡ None → rounds table.old.past < rounds table.new.past) }
{
    loop {
        if !work_round(alloc, table, node, desk)? {
            return Ok(());
        }
        table.laws();
    }
}
