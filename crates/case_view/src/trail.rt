//! A view that goes from leaf to leaf, back to a mark and down from there.
ghost use Rattle.std.specs.Prelude.{◌≡◌, ℕ, ◌<◌, true, [], IfOk, OnOk, MatchBool, reverse};
ghost use Rattle.case_journal.specs.Journal.{nodes};
ghost use Rattle.case_journal.specs.Paths.{on_path};
ghost use Rattle.case_journal.specs.Facts.{Holds};
ghost use Rattle.case_view.specs.Views.{StandsFor};
ghost use Rattle.case_view.specs.Trails.{IsTrail};

use crate::kept::Mark;
use crate::view::CaseView;
use crate::walking::{is_among, path_to};
use spl_terms::Items;
use split_tree::Table;
use std::alloc::{AllocError, Global};

/// Goes back, the last marks first, to a leaf on the path of this one. Answers whether there is one; if not, no marks are
/// left.
fn go_back_above(
    alloc: Global,
    table: &Table,
    view: &mut CaseView,
    marks: &mut Items<Mark>,
    leaf: u32,
) -> Result<bool, AllocError>
    requires there { leaf < nodes table.now.past }
    requires trail { IsTrail table.now.setting table.now.past (reverse marks.old) view.old }
    ensures trail { IsTrail table.now.setting table.now.past (reverse marks.new) view.new }
    ensures worker { view.new.worker ≡ view.old.worker }
    ensures above { IfOk result (λ above. MatchBool above
        (on_path table.now.past leaf view.new.node ≡ true) (marks.new ≡ [])) }
{
    table.journal_is_legal();
    let way = path_to(alloc, table, leaf)?;
    while !is_among(way.as_slice(), view.node()) {
        let Some(mark) = marks.pop() else {
            return Ok(false);
        };
        view.go_back(mark);
    }
    Ok(true)
}

/// Brings the view to the leaf that its worker holds: back to the last mark at a leaf on the path of that one, and down from
/// there by a look at the events alone that were appended since. It begins anew where there is none.
///
/// # Errors
///
/// Only where there is no memory; then the view is of no use.
pub fn move_to_held(
    alloc: Global,
    table: &Table,
    view: &mut CaseView,
    marks: &mut Items<Mark>,
) -> Result<(), AllocError>
    requires trail { IsTrail table.now.setting table.now.past (reverse marks.old) view.old }
    requires holds { (m : ℕ) × Holds table.now.setting table.now.past view.old.worker m }
    ensures stands { OnOk result (StandsFor table.now.setting table.now.past view.new) }
    ensures trail { OnOk result (IsTrail table.now.setting table.now.past (reverse marks.new) view.new) }
    ensures worker { OnOk result (view.new.worker ≡ view.old.worker) }
{
    table.laws();
    let worker = view.worker();
    let leaf = table.held(worker).unwrap();
    if go_back_above(alloc, table, view, marks, leaf)? {
        let mark = view.mark()?;
        view.enter(table)?;
        marks.push(mark)?;
    } else {
        *view = CaseView::begin(alloc, table, worker)?;
    }
    Ok(())
}
