//! What a worker does in its turns: it claims a case, chooses a clause there, computes its round, and appends that.
ghost use Rattle.std.specs.Prelude.{◌≡◌, ◌≤◌, true, None, IfOk, IfSome, OnOk};
ghost use Rattle.case_journal.specs.Ending.{reason};
ghost use Rattle.case_journal.specs.Legal.{IsSettled};
ghost use Rattle.case_turns.specs.Turns.{Continues, IsWaiting};

use backjump::settle;
use case_journal::Event;
use case_rounds::{Batch, compute_round, rounds_can_be_appended};
use case_turns::{Appended, append};
use case_view::{CaseView, views_have_the_clauses};
use split_tree::Table;
use std::alloc::{AllocError, Global};

/// Settles the tree, unless proving has ended; whether it goes on.
fn goes_on(alloc: Global, table: &mut Table, by: u32) -> Result<bool, AllocError>
    requires some { 1 ≤ by }
    requires worker { by ≤ table.old.setting.workers }
    ensures setting { table.new.setting ≡ table.old.setting }
    ensures more { OnOk result (Continues by table.old.past table.new.past) }
    ensures settled { IfOk result (λ on. on ≡ true → IsSettled table.new.setting table.new.past) }
    ensures going { IfOk result (λ on. on ≡ true → reason table.new.setting table.new.past ≡ None) }
{
    table.laws();
    if table.reason().is_some() {
        return Ok(false);
    }
    settle(alloc, table, by)?;
    Ok(table.reason().is_none())
}

/// The worker claims the leftmost live leaf that nobody holds, if it holds none.
pub fn claim(alloc: Global, table: &mut Table, by: u32) -> Result<(), AllocError>
    requires some { 1 ≤ by }
    requires worker { by ≤ table.old.setting.workers }
    ensures setting { table.new.setting ≡ table.old.setting }
    ensures more { OnOk result (Continues by table.old.past table.new.past) }
{
    if !goes_on(alloc, table, by)? {
        return Ok(());
    }
    table.reserve(1, 0)?;
    table.laws();
    let None = table.held(by) else {
        return Ok(());
    };
    if let Some(node) = table.claim_next() {
        table.apply(by, Event::Claim { node });
    }
    Ok(())
}

/// The worker chooses the clause that the pick rule gives at its leaf, if it holds one and has chosen none.
pub fn choose(alloc: Global, table: &mut Table, by: u32) -> Result<(), AllocError>
    requires some { 1 ≤ by }
    requires worker { by ≤ table.old.setting.workers }
    ensures setting { table.new.setting ≡ table.old.setting }
    ensures more { OnOk result (Continues by table.old.past table.new.past) }
{
    if !goes_on(alloc, table, by)? {
        return Ok(());
    }
    table.reserve(1, 0)?;
    table.laws();
    let Some(node) = table.held(by) else {
        return Ok(());
    };
    let None = table.chosen(node) else {
        return Ok(());
    };
    if table.rounds() >= table.limits().rounds {
        return Ok(());
    }
    if let Some(clause) = table.pick(node) {
        let selected = None;
        table.apply(
            by,
            Event::Choose {
                node,
                clause,
                selected,
            },
        );
    }
    Ok(())
}

/// The leaf that the worker holds, and the batch of the clause that is chosen there; none where none is.
pub fn compute(alloc: Global, table: &Table, by: u32) -> Result<Option<(u32, Batch)>, AllocError>
    requires some { 1 ≤ by }
    requires worker { by ≤ table.now.setting.workers }
    ensures { IfOk result (λ made. IfSome made (λ x. IsWaiting table.now.setting table.now.past by x.0 x.1)) }
{
    views_have_the_clauses();
    rounds_can_be_appended();
    table.laws();
    let Some(_) = table.held(by) else {
        return Ok(None);
    };
    let view = CaseView::begin(alloc, table, by)?;
    let Some(_) = view.given() else {
        return Ok(None);
    };
    let batch = compute_round(alloc, &view, &table.limits())?;
    Ok(Some((view.node(), batch)))
}

/// The worker claims a leaf if it holds none, chooses a clause there if none is chosen, and makes its round.
fn round(alloc: Global, table: &mut Table, by: u32) -> Result<(), AllocError>
    requires some { 1 ≤ by }
    requires worker { by ≤ table.old.setting.workers }
    ensures setting { table.new.setting ≡ table.old.setting }
    ensures more { OnOk result (Continues by table.old.past table.new.past) }
{
    claim(alloc, table, by)?;
    choose(alloc, table, by)?;
    if !goes_on(alloc, table, by)? {
        return Ok(());
    }
    if let Some((node, batch)) = compute(alloc, table, by)? {
        let _ = append(alloc, table, by, node, batch)?;
    }
    Ok(())
}

/// So many rounds of the worker; whether proving goes on.
pub fn rounds(alloc: Global, table: &mut Table, by: u32, count: u32) -> Result<bool, AllocError>
    requires some { 1 ≤ by }
    requires worker { by ≤ table.old.setting.workers }
    ensures setting { table.new.setting ≡ table.old.setting }
    ensures more { OnOk result (Continues by table.old.past table.new.past) }
    ensures settled { IfOk result (λ on. on ≡ true → IsSettled table.new.setting table.new.past) }
{
    for _ in 0..count {
        round(alloc, table, by)?;
    }
    let on = goes_on(alloc, table, by)?;
    Ok(on)
}

/// So many rounds of the second worker, and then the first one's turn with a batch that it has computed before them; none
/// where proving has ended.
pub fn append_after(
    alloc: Global,
    table: &mut Table,
    count: u32,
    node: u32,
    batch: Batch,
) -> Result<Option<Appended>, AllocError>
    requires two { table.old.setting.workers ≡ 2 }
    requires waits { IsWaiting table.old.setting table.old.past 1 node batch }
    ensures setting { table.new.setting ≡ table.old.setting }
{
    let on = rounds(alloc, table, 2, count)?;
    if !on {
        return Ok(None);
    }
    let became = append(alloc, table, 1, node, batch)?;
    Ok(Some(became))
}
