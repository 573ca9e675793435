//! Reductions of clauses: tautologies, steps by another clause and by the clause itself, backward subsumption.
ghost use Rattle.std.specs.Prelude.{IfOk};
ghost use Rattle.spl_terms.specs.InOrder.{IsInOrder};

use crate::inferences::{kept, ordered};
use crate::is_right_beside;
use crate::notes::stated;
use crate::unifiers::is_answer;
use calculus::Why;
use clause_texts::{Row, clause};
use dep_sets::{Assumption, Deps};
use justification::justified;
use proof_steps::{Line, Statement, conclude};
use reductions::{backward, reduce_by, reduce_self, tautology};
use spl_terms::{same_clause, symbols_of};
use spl_truth::Subst;
use std::alloc::{AllocError, Global};

/// Whether the line makes this clause of the earlier statements, as its step concludes; with `none`, whether there is no line.
fn makes(
    alloc: Global,
    line: Option<Line>,
    earlier: &[Statement],
    wanted: &str,
) -> Result<bool, AllocError> {
    let Some(line) = line else {
        return Ok(wanted == "none");
    };
    let Some(concluded) = conclude(alloc, &line.step, &[], earlier)? else {
        return Ok(false);
    };
    Ok(
        wanted != "none"
            && same_clause(&line.stated.clause, &clause(alloc, wanted)?)
            && same_clause(&line.stated.clause, &concluded.clause)
            && line.stated.deps.as_slice() == concluded.deps.as_slice(),
    )
}

/// The clause of a text in order, with an assumption.
fn assumed(alloc: Global, text: &str, split: u32) -> Result<Statement, AllocError>
    ensures { IfOk result (λ stated. IsInOrder stated.clause) }
{
    Ok(Statement {
        clause: ordered(alloc, text)?,
        deps: Deps::one(alloc, Assumption { split, side: 1 })?,
    })
}

/// `reduced CLAUSE CLAUSE CLAUSE|none`: what the first clause, with the number 1, makes of the second one, with the number 2.
fn by_another(alloc: Global, row: &Row) -> Result<bool, AllocError> {
    let mut earlier = Vec::new(alloc);
    earlier.push(assumed(alloc, row.text(1), 7)?)?;
    earlier.push(assumed(alloc, row.text(2), 8)?)?;
    let mut by = kept(alloc, 1, ordered(alloc, row.text(1))?, None);
    if symbols_of(&by.statement.clause) > 4096 {
        return Ok(false);
    }
    by.statement.deps = Deps::one(alloc, Assumption { split: 7, side: 1 })?;
    let target = assumed(alloc, row.text(2), 8)?;
    let own = reduce_by(alloc, 1, &target, &by)?;
    let line = reduce_by(alloc, 2, &target, &by)?;
    Ok(own.is_none() && makes(alloc, line, earlier.as_slice(), row.text(3))?)
}

/// `reduced_alone CLAUSE CLAUSE|none`: what the clause makes of itself.
fn by_itself(alloc: Global, row: &Row) -> Result<bool, AllocError> {
    let mut earlier = Vec::new(alloc);
    earlier.push(assumed(alloc, row.text(1), 7)?)?;
    let target = assumed(alloc, row.text(1), 7)?;
    let line = reduce_self(alloc, 1, &target)?;
    makes(alloc, line, earlier.as_slice(), row.text(2))
}

/// The entries by which a clause is subsumed; none where the reason is another one.
fn entries_of(why: Why) -> Option<Subst> {
    match why {
        Why::Subsumed { by: _by, subst } => Some(subst),
        _other => None,
    }
}

/// `backward CLAUSE CLAUSE N TERMS|none`: the entries by which the first clause, with the number N, which is 1 or 2, hides the
/// second one, with the other number; the note is justified.
fn hides(alloc: Global, row: &Row) -> Result<bool, AllocError> {
    let number = row.number(3) & 1;
    let given = kept(alloc, 2 - number, ordered(alloc, row.text(1))?, None);
    let other = kept(alloc, 1 + number, ordered(alloc, row.text(2))?, None);
    let Some(note) = backward(alloc, &given, &other)? else {
        return Ok(row.has_none(4));
    };
    let forth = row.number(3) == 1;
    let (first, second) = if forth { (1, 2) } else { (2, 1) };
    let text = format!(in alloc; "{};{}", row.text(first), row.text(second))?;
    let earlier = stated(alloc, text.as_str())?;
    if !justified(alloc, &note, earlier.as_slice())? {
        return Ok(false);
    }
    let given = entries_of(note.why);
    is_answer(alloc, &given, row.text(4))
}

/// Whether a row about reductions has its answer. `tautology CLAUSE yes|no` asks whether the clause is always true.
pub(crate) fn reduced(alloc: Global, row: &Row) -> Result<bool, AllocError> {
    match row.text(0) {
        "tautology" => Ok(tautology(&clause(alloc, row.text(1))?) == row.says(2)),
        "reduced" => by_another(alloc, row),
        "reduced_alone" => by_itself(alloc, row),
        "backward" => hides(alloc, row),
        _ => is_right_beside(alloc, row),
    }
}
