//! Notes that justify that a clause is hidden.
ghost use Rattle.std.specs.Prelude.{IfOk};
ghost use Rattle.justification.specs.Hiding.{AreStatedInOrder};

use crate::inferences::ordered;
use crate::steps::substitution;
use calculus::{Edit, HideNote, Why};
use clause_texts::{Row, part};
use dep_sets::Deps;
use justification::justified;
use proof_steps::Statement;
use spl_terms::{Items, Spot};
use std::alloc::{AllocError, Global};

/// `EQUATION,SIDE,PART,PLACE,PATH,TERMS`: an edit by an equation from its side `left` or `right`.
fn edit(alloc: Global, text: &str) -> Result<Edit, AllocError> {
    let fields = Row::split(alloc, text, ',')?;
    let mut path = Items::new(alloc);
    for digit in fields.text(4).bytes() {
        path.push((digit & 15) as u32)?;
    }
    Ok(Edit {
        equation: fields.number(0),
        subst: substitution(alloc, fields.text(5))?,
        right_to_left: fields.text(1) == "right",
        spot: Spot {
            part: part(fields.text(2)),
            place: fields.number(3),
            path,
        },
    })
}

/// The reason of the fields: `tautology`, `subsumed:BY:TERMS`, or `rewritten:REDUCT:TERMS:EDITS` with `/` between edits.
fn why(alloc: Global, fields: &Row) -> Result<Why, AllocError> {
    if fields.text(0) == "tautology" {
        return Ok(Why::Tautology);
    }
    let subst = substitution(alloc, fields.text(2))?;
    if fields.text(0) == "subsumed" {
        return Ok(Why::Subsumed {
            by: fields.number(1),
            subst,
        });
    }
    let mut edits = Items::new(alloc);
    for text in Row::split(alloc, fields.text(3), '/')?.words() {
        edits.push(edit(alloc, text.as_str())?)?;
    }
    Ok(Why::Rewritten {
        reduct: fields.number(1),
        subst,
        edits,
    })
}

/// The clauses of a text in order, with `;` between them, as statements without assumptions.
#[tactic(auto, using(crate::proofs::Stated::one_more))]
pub(crate) fn stated(alloc: Global, text: &str) -> Result<Vec<Statement>, AllocError>
    ensures { IfOk result (λ made. AreStatedInOrder made.items) }
{
    let mut made = Vec::new(alloc);
    for written in Row::split(alloc, text, ';')?.words() {
        let clause = ordered(alloc, written.as_str())?;
        made.push(Statement {
            clause,
            deps: Deps::none(alloc),
        })?;
    }
    Ok(made)
}

/// `hidden CLAUSES N REASON yes|no`, with `;` between clauses: whether the note with this reason justifies that the clause with
/// the number N is hidden.
pub fn hidden(alloc: Global, row: &Row) -> Result<bool, AllocError> {
    let earlier = stated(alloc, row.text(1))?;
    let note = HideNote {
        hidden: row.number(2),
        why: why(alloc, &Row::split(alloc, row.text(3), ':')?)?,
    };
    Ok(justified(alloc, &note, earlier.as_slice())? == row.says(4))
}
