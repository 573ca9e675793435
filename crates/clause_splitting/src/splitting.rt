//! Splitting the clause that a worker has chosen.
ghost use Rattle.std.specs.Prelude.{◌≡◌, ◌<◌, ◌≤◌, MatchBool, length, None};
ghost use Rattle.case_journal.specs.Journal.{splits};
ghost use Rattle.case_journal.specs.Facts.{Holds};
ghost use Rattle.case_journal.specs.Ending.{first_end};
ghost use Rattle.case_journal.specs.Legal.{IsSettled};
ghost use Rattle.clause_splitting.specs.Splitting.{IsSplitAt, IsSplitBy, IsFullBy};

use case_journal::Event;
use proof_steps::Line;
use spl_terms::Items;
use split_tree::Table;

/// Splits the clause that the worker has chosen at its node, by these steps. Answers whether it was split; where the steps
/// would pass the limit of steps, `Full` ends the journal instead. It takes no memory.
///
/// Nodes are numbered from 0, workers and clauses from 1.
pub fn split(
    table: &mut Table,
    by: u32,
    node: u32,
    steps: Items<Line>,
    put_off: Items<bool>,
) -> bool
    requires some { 1 ≤ by }
    requires worker { by ≤ table.old.setting.workers }
    requires unended { first_end table.old.past ≡ None }
    requires holds { Holds table.old.setting table.old.past by node }
    requires free { splits table.old.past < table.old.setting.limits.splits }
    requires settled { IsSettled table.old.setting table.old.past }
    requires is { IsSplitAt table.old.setting table.old.past node steps put_off }
    requires event_fits { 1 ≤ table.old.spare_events }
    requires steps_fit { length steps ≤ table.old.spare_steps }
    ensures setting { table.new.setting ≡ table.old.setting }
    ensures done { MatchBool result (IsSplitBy by node table.old table.new) (IsFullBy by node table.old table.new) }
{
    table.laws();
    if table.counted() as u64 + steps.len() as u64 > table.limits().steps as u64 {
        table.apply(by, Event::Full { node, chain: steps });
        return false;
    }
    table.apply(
        by,
        Event::Split {
            node,
            steps,
            put_off,
        },
    );
    true
}
