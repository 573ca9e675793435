//! Inferences of two clauses and of one.
ghost use Rattle.std.specs.Prelude.{◌≡◌, IfOk};
ghost use Rattle.spl_terms.specs.InOrder.{IsInOrder};

use calculus::Kept;
use clause_texts::{Row, clause, number, symbol};
use dep_sets::Deps;
use proof_steps::{Line, Statement};
use sort_inference::{solved, sort_steps, unsolved_atom};
use spl_terms::{Atom, Clause, Items, Term, same_clause, symbols_of};
use std::alloc::{AllocError, Global};
use superposition::{
    InferError, equality_factorings, factorings, infer_pair, infer_self, reflections,
};

/// The clause of a text in order.
pub(crate) fn ordered(alloc: Global, text: &str) -> Result<Clause, AllocError>
    ensures { IfOk result (λ made. IsInOrder made) }
{
    clause(alloc, text)?.into_ordered(alloc)
}

/// The place of a word.
fn place(text: &str) -> Option<usize> {
    if text == "none" {
        None
    } else {
        Some(number(text) as usize)
    }
}

/// The clause as a premise.
pub(crate) fn kept(alloc: Global, number: u32, clause: Clause, selected: Option<usize>) -> Kept
    ensures clause { result.statement.clause ≡ clause }
    ensures number { result.number ≡ number }
{
    Kept {
        number,
        statement: Statement {
            clause,
            deps: Deps::none(alloc),
        },
        selected,
    }
}

/// Whether the lines conclude just these clauses, in this order, with `;` between them, or there are none and the text says
/// so.
fn conclude(alloc: Global, lines: &[Line], wanted: &str) -> Result<bool, AllocError> {
    if wanted == "none" {
        return Ok(lines.is_empty());
    }
    let wanted = Row::split(alloc, wanted, ';')?;
    if wanted.words().len() != lines.len() {
        return Ok(false);
    }
    for (line, written) in lines.iter().zip(wanted.words()) {
        if !same_clause(&line.stated.clause, &clause(alloc, written.as_str())?) {
            return Ok(false);
        }
    }
    Ok(true)
}

/// `pair CLAUSE SELECTED|none CLAUSE SELECTED|none CLAUSES|none`: the inferences of two clauses.
pub fn pair(alloc: Global, row: &Row) -> Result<bool, AllocError> {
    let first = ordered(alloc, row.text(1))?;
    let second = ordered(alloc, row.text(3))?;
    if symbols_of(&first) > 4096 || symbols_of(&second) > 4096 {
        return Ok(false);
    }
    let given = kept(alloc, 1, first, place(row.text(2)));
    let other = kept(alloc, 2, second, place(row.text(4)));
    let mut out = Vec::new(alloc);
    if infer_pair(alloc, &given, &other, &mut out).is_err() {
        return Ok(false);
    }
    conclude(alloc, out.as_slice(), row.text(5))
}

/// `own CLAUSE SELECTED|none CLAUSES|none`: the inferences of a clause with its copy and alone.
pub fn own(alloc: Global, row: &Row) -> Result<bool, AllocError> {
    let first = ordered(alloc, row.text(1))?;
    if symbols_of(&first) > 4096 {
        return Ok(false);
    }
    let given = kept(alloc, 1, first, place(row.text(2)));
    let mut out = Vec::new(alloc);
    if infer_self(alloc, &given, &mut out).is_err() {
        return Ok(false);
    }
    conclude(alloc, out.as_slice(), row.text(3))
}

/// `sorts CLAUSE CLAUSE CLAUSES|none`: the sort steps of two clauses.
pub fn sorts(alloc: Global, row: &Row) -> Result<bool, AllocError> {
    let first = ordered(alloc, row.text(1))?;
    let second = ordered(alloc, row.text(2))?;
    if symbols_of(&first) > 4096 || symbols_of(&second) > 4096 {
        return Ok(false);
    }
    let given = kept(alloc, 1, first, None);
    let other = kept(alloc, 2, second, None);
    let mut out = Vec::new(alloc);
    if sort_steps(alloc, &given, &other, &mut out).is_err() {
        return Ok(false);
    }
    conclude(alloc, out.as_slice(), row.text(3))
}

/// `unsolved CLAUSE PLACE|none`: the first place of the constraint that isn't solved.
pub fn unsolved(alloc: Global, row: &Row) -> Result<bool, AllocError> {
    let given = clause(alloc, row.text(1))?;
    let found = unsolved_atom(&given);
    Ok(found == place(row.text(2)) && solved(&given) == row.has_none(2))
}

/// `symbol(0, .., 0, a, .., a)` with so many of each.
fn wide(alloc: Global, copies: usize, constants: usize) -> Result<Atom, AllocError> {
    let mut args = Items::new(alloc);
    for _ in 0..copies {
        args.push(Term::Var(0))?;
    }
    for _ in 0..constants {
        args.push(Term::App(symbol(b'a'), Items::new(alloc)))?;
    }
    Ok(Atom::Holds(symbol(b'Q'), args))
}

/// How many symbols a refusal of the inferences of two clauses names; 0 where there is one conclusion.
fn refused(alloc: Global, first: Clause, second: Clause) -> Result<u64, AllocError> {
    let first = first.into_ordered(alloc)?;
    let second = second.into_ordered(alloc)?;
    if symbols_of(&first) > 4096 || symbols_of(&second) > 4096 {
        return Err(AllocError);
    }
    let given = kept(alloc, 1, first, None);
    let other = kept(alloc, 2, second, Some(0));
    let mut out = Vec::new(alloc);
    match infer_pair(alloc, &given, &other, &mut out) {
        Ok(()) => Ok(out.len() as u64 ^ 1),
        Err(InferError::Big { symbols }) => Ok(symbols),
        Err(InferError::Memory) => Err(AllocError),
    }
}

/// `large COPIES CONSTANTS SYMBOLS`: P(f(a, b)) with P(0) before an atom of so many variables 0 and so many constants: how
/// many symbols the resolvent has where it is refused, else 0.
pub fn large(alloc: Global, row: &Row) -> Result<bool, AllocError> {
    let mut other = clause(alloc, "|P0|")?;
    let atom = wide(alloc, row.number(1) as usize, row.number(2) as usize)?;
    other.succedent.push(atom)?;
    let answer = refused(alloc, clause(alloc, "||Pfab")?, other)?;
    Ok(answer == row.number(3) as u64)
}

/// `refused CLAUSE CLAUSE SYMBOLS`: how many symbols the refusal of the inferences of two clauses names, where the first atom
/// of the second one is selected.
pub fn refusal(alloc: Global, row: &Row) -> Result<bool, AllocError> {
    let first = clause(alloc, row.text(1))?;
    let answer = refused(alloc, first, clause(alloc, row.text(2))?)?;
    Ok(answer == row.number(3) as u64)
}

/// How many symbols the refusal of the inferences by one rule names; 0 where there is one conclusion.
fn refused_alone(
    alloc: Global,
    rule: &str,
    clause: Clause,
    selected: Option<usize>,
) -> Result<u64, AllocError> {
    let clause = clause.into_ordered(alloc)?;
    if symbols_of(&clause) > 4096 {
        return Err(AllocError);
    }
    let given = kept(alloc, 1, clause, selected);
    let mut out = Vec::new(alloc);
    let answer = match rule {
        "factoring" => factorings(alloc, &given, &mut out),
        "reflection" => reflections(alloc, &given, &mut out),
        _ => equality_factorings(alloc, &given, &mut out),
    };
    match answer {
        Ok(()) => Ok(out.len() as u64 ^ 1),
        Err(InferError::Big { symbols }) => Ok(symbols),
        Err(InferError::Memory) => Err(AllocError),
    }
}

/// `alone factoring|reflection|equality_factoring CLAUSE SELECTED|none SYMBOLS`: how many symbols the refusal of the
/// inferences of a clause by that rule names, or 0 where it gives one conclusion.
pub fn alone(alloc: Global, row: &Row) -> Result<bool, AllocError> {
    let given = clause(alloc, row.text(2))?;
    let answer = refused_alone(alloc, row.text(1), given, place(row.text(3)))?;
    Ok(answer == row.number(4) as u64)
}
