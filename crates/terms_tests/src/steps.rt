//! What steps conclude, and when lists of lines are proofs.
use clause_texts::{Row, clause, number, part, terms};
use dep_sets::{Assumption, Deps};
use proof_steps::{Line, Rule, Statement, Step, check, conclude, conclude_from_lines};
use spl_terms::{Clause, Items, Part, Spot, same_clause};
use spl_truth::Subst;
use std::alloc::{AllocError, Global};

/// The assumptions of a text such as `7-1,8-2`.
fn assumptions(alloc: Global, text: &str) -> Result<Deps, AllocError> {
    let mut deps = Deps::none(alloc);
    for item in text.split(',') {
        let fields = Row::split(alloc, item, '-')?;
        let (split, side) = (fields.number(0), fields.number(1));
        if side > 0 {
            deps = deps.union(&Deps::one(alloc, Assumption { split, side })?)?;
        }
    }
    Ok(deps)
}

/// The statement of a clause and its assumptions.
pub(crate) fn statement(alloc: Global, written: &str, deps: &str) -> Result<Statement, AllocError> {
    Ok(Statement {
        clause: clause(alloc, written)?,
        deps: assumptions(alloc, deps)?,
    })
}

/// What stands before the steps: the clauses from 1 with their assumptions. The second and third close both sides of the
/// first; the last three are for the rules about equations.
const EARLIER: [(&str, &str); 10] = [
    ("||PaQb", "7-1"),
    ("||", "1-1,8-2"),
    ("||", "1-2"),
    ("||SaQb", ""),
    ("||P0Q1", ""),
    ("||P0", "2-2"),
    ("|Pa|Q0", "7-1"),
    ("||=ab=ac", "7-1"),
    ("Sa|=aaPga|Qb", "2-2"),
    ("||=g0a", ""),
];

pub(crate) fn substitution(alloc: Global, text: &str) -> Result<Subst, AllocError> {
    Ok(Subst {
        terms: terms(alloc, text)?,
    })
}

/// `paramodulate:SIDE:PART:PLACE:PATH:TERMS`: by the first equation of the first parent, from its side `left` or `right`.
fn paramodulation(alloc: Global, fields: &Row) -> Result<Rule, AllocError> {
    let mut path = Items::new(alloc);
    for digit in fields.text(4).bytes() {
        path.push((digit & 15) as u32)?;
    }
    Ok(Rule::Paramodulate {
        i: 0,
        right_to_left: fields.text(1) == "right",
        spot: Spot {
            part: part(fields.text(2)),
            place: fields.number(3),
            path,
        },
        s: substitution(alloc, fields.text(5))?,
        t: substitution(alloc, "")?,
    })
}

/// `resolve:TERMS:TERMS`: the first atoms of the succedent and of the antecedent.
fn resolution(alloc: Global, fields: &Row) -> Result<Rule, AllocError> {
    Ok(Rule::Resolve {
        i: 0,
        part: Part::Antecedent,
        j: 0,
        s: substitution(alloc, fields.text(1))?,
        t: substitution(alloc, fields.text(2))?,
    })
}

/// `assume:SIDE` or `assume:SIDE:ATOM`.
fn assumption(fields: &Row) -> Rule {
    let negated = if fields.words().len() > 2 {
        Some(fields.number(2))
    } else {
        None
    };
    Rule::Assume {
        side: fields.number(1),
        negated,
    }
}

/// The rule of these fields.
fn rule(alloc: Global, fields: &Row) -> Result<Rule, AllocError> {
    match fields.text(0) {
        "input" => Ok(Rule::Input {
            no: fields.number(1),
        }),
        "assume" => Ok(assumption(fields)),
        "left" => Ok(Rule::CaseLeft),
        "right" => Ok(Rule::CaseRight),
        "both" => Ok(Rule::CaseBoth),
        "resolve" => resolution(alloc, fields),
        "paramodulate" => paramodulation(alloc, fields),
        "factor" => Ok(Rule::Factor {
            s: substitution(alloc, fields.text(1))?,
        }),
        "reflex" => Ok(Rule::Reflex {
            j: fields.number(1),
            s: substitution(alloc, fields.text(2))?,
        }),
        _ => Ok(Rule::EqFactor {
            i: fields.number(1),
            i_right: false,
            j: fields.number(2),
            j_right: false,
            s: substitution(alloc, fields.text(3))?,
        }),
    }
}

/// The step of a text: its rule, a `@`, and its parents with commas between them.
pub(crate) fn step(alloc: Global, text: &str) -> Result<Step, AllocError> {
    let halves = Row::split(alloc, text, '@')?;
    let rule = rule(alloc, &Row::split(alloc, halves.text(0), ':')?)?;
    let mut parents = Items::new(alloc);
    for parent in halves.text(1).split(',') {
        if !parent.is_empty() {
            parents.push(number(parent))?;
        }
    }
    Ok(Step { rule, parents })
}

/// `conclude STEP CLAUSE|none ASSUMPTIONS`: what a step over the clauses that stand before concludes.
pub fn concluded(alloc: Global, row: &Row) -> Result<bool, AllocError> {
    let mut earlier = Vec::with_capacity(alloc, EARLIER.len())?;
    for (written, deps) in EARLIER {
        earlier.push(statement(alloc, written, deps)?)?;
    }
    let step = step(alloc, row.text(1))?;
    let Some(made) = conclude(alloc, &step, &[], earlier.as_slice())? else {
        return Ok(row.has_none(2));
    };
    let wanted = statement(alloc, row.text(2), row.text(3))?;
    Ok(
        !row.has_none(2)
            && same_clause(&made.clause, &wanted.clause)
            && made.deps.as_slice() == wanted.deps.as_slice(),
    )
}

/// What a step over these lines concludes; the empty clause where it concludes nothing.
pub(crate) fn conclusion(
    alloc: Global,
    input: &[Clause],
    before: &[Line],
    step: &Step,
) -> Result<Statement, AllocError> {
    match conclude_from_lines(alloc, step, input, before)? {
        Some(stated) => Ok(stated),
        None => statement(alloc, "||", ""),
    }
}

/// The lines of these steps over the input, each with what it concludes.
fn lines(alloc: Global, input: &[Clause], steps: &Row) -> Result<Vec<Line>, AllocError> {
    let mut lines = Vec::new(alloc);
    for text in steps.words() {
        let step = step(alloc, text.as_str())?;
        let stated = conclusion(alloc, input, lines.as_slice(), &step)?;
        lines.push(Line { step, stated })?;
    }
    Ok(lines)
}

/// The clauses of a text, with `;` between them.
pub(crate) fn input_clauses(alloc: Global, text: &str) -> Result<Vec<Clause>, AllocError> {
    let mut input = Vec::new(alloc);
    for written in Row::split(alloc, text, ';')?.words() {
        input.push(clause(alloc, written.as_str())?)?;
    }
    Ok(input)
}

/// `proof CLAUSES STEPS yes|no`, with `;` between clauses and between steps: whether the steps are a proof from the clauses.
pub fn proof(alloc: Global, row: &Row) -> Result<bool, AllocError> {
    let input = input_clauses(alloc, row.text(1))?;
    let lines = lines(
        alloc,
        input.as_slice(),
        &Row::split(alloc, row.text(2), ';')?,
    )?;
    Ok(check(alloc, input.as_slice(), lines.as_slice())? == row.says(3))
}
