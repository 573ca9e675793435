//! The clauses of a view, filed so that they are found by their atoms.
ghost use Rattle.std.specs.Prelude.{◌≡◌, ℕ, ◌<◌, Some, IfOk, OnOk, MatchBool, Contains, slice_get};
ghost use Rattle.clause_filing.specs.Filings.{IsFiledClause, HoldsUnder, HoldUnder};
ghost use Rattle.case_journal.specs.Journal.{nodes};
ghost use Rattle.case_view.specs.declared.kept.Kept.{Kept};
ghost use Rattle.case_view.specs.Views.{IsCaseOf};
ghost use Rattle.case_view.specs.Walks.{Reaches};
ghost use Rattle.case_view.specs.Marks.{HasGrown};
ghost use Rattle.case_view.specs.Caches.{AreFiledClauses, AreFiledTo, AreUnderAll, AreUnderAllTo, IsSubsumedBy, IsOther};

use crate::kept::{Case, Kept};
use crate::walking::walk;
use clause_filing::{AFTER_ARROW, BEFORE_ARROW, Filing, clause_mask, is_within, key};
use spl_terms::{Atom, Clause, at};
use spl_truth::is_subclause;
use split_tree::Table;
use std::alloc::{AllocError, Global};

/// Files the clauses from this place on, each with its place, under their first atoms.
pub fn file_clauses(filing: &mut Filing, clauses: &[Kept], from: usize) -> Result<(), AllocError>
    requires { AreFiledTo from clauses.now filing.old }
    ensures { OnOk result (AreFiledClauses clauses.now filing.new) }
{
    if clauses.len() > u32::MAX as usize {
        return Err(AllocError);
    }
    for place in from..clauses.len() {
        filing.file_clause(&clauses[place].stated.clause, place as u32)?;
    }
    Ok(())
}

/// Files the clauses from this place on, each with its place, under all their atoms.
pub fn file_under_all(filing: &mut Filing, clauses: &[Kept], from: usize) -> Result<(), AllocError>
    requires { AreUnderAllTo from clauses.now filing.old }
    ensures { OnOk result (AreUnderAll clauses.now filing.new) }
{
    if clauses.len() > u32::MAX as usize {
        return Err(AllocError);
    }
    for place in from..clauses.len() {
        filing.file_under_all(&clauses[place].stated.clause, place as u32)?;
    }
    Ok(())
}

/// The view goes on by all further events of the journal, as by `walk`, and what is new in it is filed.
pub fn walk_and_file(
    alloc: Global,
    table: &Table,
    case: &mut Case,
    leaf: u32,
    way: &[u32],
    clauses: &mut Filing,
    literals: &mut Filing,
) -> Result<(), AllocError>
    requires there { leaf < nodes table.now.past }
    requires reaches { Reaches table.now.setting table.now.past leaf way.now case.old.events case.old }
    requires clauses { AreFiledClauses case.old.listed clauses.old }
    requires literals { AreUnderAll case.old.worked literals.old }
    ensures is { OnOk result (IsCaseOf table.now.setting table.now.past case.new) }
    ensures node { OnOk result (case.new.node ≡ leaf) }
    ensures grows { OnOk result (HasGrown case.old case.new) }
    ensures clauses { OnOk result (AreFiledClauses case.new.listed clauses.new) }
    ensures literals { OnOk result (AreUnderAll case.new.worked literals.new) }
{
    let listed = case.listed.len();
    let worked = case.worked.len();
    walk(alloc, table, case, leaf, way)?;
    file_clauses(clauses, case.listed.as_slice(), listed)?;
    file_under_all(literals, case.worked.as_slice(), worked)?;
    Ok(())
}

/// Whether the clause at this place is a subclause of the clause.
fn is_subclause_at(clauses: &[Kept], place: u32, clause: &Clause) -> bool
    ensures { MatchBool result (IsSubsumedBy clauses.now clause.now) (IsOther clauses.now clause.now place) }
{
    match at(clauses, place as usize) {
        Some(kept) => is_subclause(&kept.stated.clause, clause),
        None => false,
    }
}

/// Whether a clause that is filed under the key, with a mask within this one, is a subclause of the clause.
fn is_subsumed_at(clauses: &[Kept], filing: &Filing, key: u64, clause: &Clause, mask: u64) -> bool
    ensures { MatchBool result (IsSubsumedBy clauses.now clause.now)
        (HoldsUnder (IsOther clauses.now clause.now) filing.now key mask) }
{
    let mut number = filing.newest(key);
    while let Some(entry) = filing.entry(number) {
        if is_within(entry.mask, mask) && is_subclause_at(clauses, entry.value, clause) {
            return true;
        }
        number = entry.older;
    }
    false
}

/// Whether a clause that is filed under the key of one of the atoms, with a mask within this one, is a subclause of the
/// clause.
fn is_subsumed_by(
    clauses: &[Kept],
    filing: &Filing,
    side: u64,
    atoms: &[Atom],
    clause: &Clause,
    mask: u64,
) -> bool
    ensures { MatchBool result (IsSubsumedBy clauses.now clause.now)
        (HoldUnder (IsOther clauses.now clause.now) filing.now side atoms.now mask) }
{
    for atom in atoms {
        if is_subsumed_at(clauses, filing, key(side, atom), clause, mask) {
            return true;
        }
    }
    false
}

/// Whether a clause that is filed is a subclause of the clause. Where none is, none that is filed for this very clause is
/// this one.
pub fn has_subclause(clauses: &[Kept], filing: &Filing, clause: &Clause) -> bool
    ensures { MatchBool result (IsSubsumedBy clauses.now clause.now)
        ((n : ℕ) → IsFiledClause filing.now clause.now n → IsOther clauses.now clause.now n) }
{
    let mask = clause_mask(clause);
    if is_subsumed_at(clauses, filing, 0, clause, mask) {
        return true;
    }
    let succedent = clause.succedent.as_slice();
    if is_subsumed_by(clauses, filing, AFTER_ARROW, succedent, clause, mask) {
        return true;
    }
    let antecedent = clause.antecedent.as_slice();
    if is_subsumed_by(clauses, filing, BEFORE_ARROW, antecedent, clause, mask) {
        return true;
    }
    let constraint = clause.constraint.as_slice();
    is_subsumed_by(clauses, filing, BEFORE_ARROW, constraint, clause, mask)
}

/// Those of the places that are below the count, in their order.
pub fn places_below(alloc: Global, places: &[u32], count: usize) -> Result<Vec<u32>, AllocError>
    ensures below { IfOk result (λ kept. (n : ℕ) → Contains kept.items n → n < count) }
    ensures all { IfOk result (λ kept. (n : ℕ) → Contains places.now n → n < count → Contains kept.items n) }
{
    let mut kept = Vec::new(alloc);
    for k in 0..places.len() {
        if (places[k] as usize) < count {
            kept.push(places[k])?;
        }
    }
    Ok(kept)
}
