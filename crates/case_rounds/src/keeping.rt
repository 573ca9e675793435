//! Which inferences a round keeps.
ghost use Rattle.std.specs.Prelude.{OnOk, IfErr};
ghost use Rattle.proof_steps.specs.declared.step.Line.{Line};
ghost use Rattle.case_view.specs.Views.{IsIn};
ghost use Rattle.case_rounds.specs.Rounds.{Extends, IsLineOf, IsRound, IsCoveredIn, IsHaltOf};

use crate::halt::Halt;
use crate::round_lines::RoundLines;
use case_view::CaseView;
use proof_steps::Line;
use spl_terms::{Items, order_stays};
use spl_truth::is_tautology;

/// Adds the line to those of the round, unless it states a tautology or a listed clause or a line of the round subsumes
/// it as it stands. Stops where it states the empty clause.
fn keep_line(view: &CaseView, lines: &mut RoundLines, line: Line) -> Result<(), Halt>
    requires round { IsRound view.now lines.old }
    requires line { IsLineOf view.now line }
    ensures round { OnOk result (IsRound view.now lines.new) }
    ensures extends { OnOk result (Extends lines.old lines.new) }
    ensures covered { OnOk result (IsCoveredIn view.now lines.new line.stated.clause) }
    ensures halt { IfErr result (IsHaltOf view.now lines.new) }
{
    order_stays();
    view.clauses_are_in_order();
    if is_tautology(&line.stated.clause) {
        return Ok(());
    }
    let listed = view.is_subsumed(&line.stated.clause)?;
    if listed {
        return Ok(());
    }
    let before = lines.is_subsumed(&line.stated.clause)?;
    if before {
        return Ok(());
    }
    let empty = line.stated.clause.is_empty();
    lines.push(line)?;
    if empty {
        return Err(Halt::Closed);
    }
    Ok(())
}

/// Adds those of the lines that are wanted.
pub fn keep_all(view: &CaseView, lines: &mut RoundLines, made: Items<Line>) -> Result<(), Halt>
    requires round { IsRound view.now lines.old }
    requires each { (l : Line) → IsIn made l → IsLineOf view.now l }
    ensures round { OnOk result (IsRound view.now lines.new) }
    ensures extends { OnOk result (Extends lines.old lines.new) }
    ensures covered { OnOk result ((l : Line) → IsIn made l → IsCoveredIn view.now lines.new l.stated.clause) }
    ensures halt { IfErr result (IsHaltOf view.now lines.new) }
{
    for line in made.into_vec() {
        keep_line(view, lines, line)?;
    }
    Ok(())
}
