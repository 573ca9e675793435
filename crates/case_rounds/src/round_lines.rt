//! The lines that a round keeps, filed so that they are found by their atoms.
ghost use Rattle.std.specs.Prelude.{◌≡◌, ℕ, [], ◌∷◌, ◌++◌, Some, IfOk, OnOk, MatchBool, Contains, slice_get};
ghost use Rattle.spl_truth.specs.Redundancy.{Subsumes};
ghost use Rattle.proof_steps.specs.declared.step.Line.{Line};
ghost use Rattle.case_view.specs.Views.{IsIn};

use clause_filing::Filing;
use proof_steps::Line;
use spl_terms::{Clause, Items, at};
use spl_truth::is_subclause;
use std::alloc::{AllocError, Global};
use std::marker::Model;

/// The lines that a round keeps so far.
///
/// Contracts see them in order.
#[derive(Debug, Drop)]
pub struct RoundLines {
    alloc: Global,
    lines: Items<Line>,
    /// The places of the lines, from 0, filed under the first atoms of their clauses.
    clauses: Filing,
}

impl Model for RoundLines {
    ghost use Rattle.std.specs.Prelude.{List};
    ghost use Rattle.proof_steps.specs.declared.step.Line.{Line};
    ghost use Rattle.case_rounds.specs.Filed.{AreFiledLines};
    ghost use Rattle.std.specs.Coded.{codes};
    ghost use Rattle.spl_terms.specs.contracts.term.Term as term;

    ghost Value = { List Line };

    ghost coded = { Prim.hlevel (codes, term.the_row.coded) };

    ghost view = { λ r. r.lines };

    ghost invariant = { λ r. AreFiledLines r.lines r.clauses };
}

impl RoundLines {
    /// No lines; it takes no memory.
    pub fn new(alloc: Global) -> RoundLines
        ensures { result ≡ [] }
    {
        RoundLines {
            alloc,
            lines: Items::new(alloc),
            clauses: Filing::new(alloc),
        }
    }

    /// Whether one of the lines states a subclause of the clause. Where none does, none states this very clause.
    pub fn is_subsumed(&self, clause: &Clause) -> Result<bool, AllocError>
        ensures { IfOk result (λ found. MatchBool found
            ((l : Line) × IsIn self.now l × Subsumes l.stated.clause clause.now)
            ((l : Line) → IsIn self.now l → ¬ (l.stated.clause ≡ clause.now))) }
    {
        let places = self.clauses.subclauses(self.alloc, clause)?;
        Ok(is_subclause_at(self.lines.as_slice(), places.as_slice(), clause))
    }

    /// Adds the line at the end.
    pub fn push(&mut self, line: Line) -> Result<(), AllocError>
        ensures { OnOk result (self.new ≡ self.old ++ line ∷ []) }
    {
        let place = self.lines.len();
        if place > u32::MAX as usize {
            return Err(AllocError);
        }
        self.clauses.file_clause(&line.stated.clause, place as u32)?;
        self.lines.push(line)?;
        Ok(())
    }

    /// The lines alone.
    pub fn into_items(self) -> Items<Line>
        ensures { result ≡ self }
    {
        self.lines
    }
}

/// Whether one of the lines at these places states a subclause of the clause. Where none does, none of them states this
/// very clause.
fn is_subclause_at(lines: &[Line], places: &[u32], clause: &Clause) -> bool
    ensures { MatchBool result
        ((l : Line) × IsIn lines.now l × Subsumes l.stated.clause clause.now)
        ((n : ℕ) (l : Line) → Contains places.now n → slice_get lines.now n ≡ Some l → ¬ (l.stated.clause ≡ clause.now)) }
{
    for k in 0..places.len() {
        if let Some(line) = at(lines, places[k] as usize) {
            if is_subclause(&line.stated.clause, clause) {
                return true;
            }
        }
    }
    false
}
