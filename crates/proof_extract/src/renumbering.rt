//! Copies of lines, with other numbers.
ghost use Rattle.std.specs.Prelude.{◌≡◌, map, IfOk};
ghost use Rattle.std.specs.List.{AllByRecursion};
ghost use Rattle.proof_steps.specs.declared.step.Rule.TheVariants.{Paramodulate, EqFactor};
ghost use Rattle.proof_extract.specs.Extracting.{IsMarked, new_number, renumbered_deps, renumbered_statement, renumbered_step, renumbered_line};
ghost use Rattle.proof_extract.specs.Marking.{counts_from};

use dep_sets::{Assumption, Deps};
use proof_steps::{Line, Rule, Statement, Step};
use spl_terms::{Items, Spot, Term};
use spl_truth::Subst;
use std::alloc::{AllocError, Global};

// ---- numbers

/// The new number of the line with this number, where `counts` are those of the marks.
fn new_number(marks: &[bool], counts: &[u32], number: u32) -> u32
    requires { counts.now ≡ counts_from 0 marks.now }
    ensures { result ≡ new_number marks.now number }
{
    let end = (number as usize).min(counts.len());
    if end == 0 { 0 } else { counts[end - 1] }
}

fn new_numbers(
    alloc: Global,
    marks: &[bool],
    counts: &[u32],
    numbers: &[u32],
) -> Result<Items<u32>, AllocError>
    requires { counts.now ≡ counts_from 0 marks.now }
    ensures { IfOk result (λ made. made ≡ map (new_number marks.now) numbers.now) }
{
    let mut made = Items::with_room(alloc, numbers.len())?;
    for number in numbers {
        made.push(new_number(marks, counts, *number))?;
    }
    Ok(made)
}

/// The assumptions, with the new numbers of the clauses that were split. The last ones come first, so that each set
/// is the one before with a smaller assumption.
fn new_deps(alloc: Global, marks: &[bool], counts: &[u32], deps: &Deps) -> Result<Deps, AllocError>
    requires counts { counts.now ≡ counts_from 0 marks.now }
    requires marked { AllByRecursion (λ a. IsMarked marks.now a.split) deps.now }
    ensures { IfOk result (λ made. made ≡ renumbered_deps (new_number marks.now) deps.now) }
{
    deps.law();
    let mut made = Deps::none(alloc);
    let mut left = deps.count();
    while left > 0 {
        left -= 1;
        let Assumption { split, side } = deps.at(left);
        let split = new_number(marks, counts, split);
        made = Deps::one(alloc, Assumption { split, side })?.union(&made)?;
    }
    Ok(made)
}

// ---- copies

fn copy_terms(alloc: Global, terms: &[Term]) -> Result<Items<Term>, AllocError>
    ensures { IfOk result (λ made. made ≡ terms.now) }
{
    let mut made = Items::with_room(alloc, terms.len())?;
    for term in terms {
        made.push(term.copy(alloc)?)?;
    }
    Ok(made)
}

fn copy_subst(alloc: Global, subst: &Subst) -> Result<Subst, AllocError>
    ensures { IfOk result (λ made. made ≡ subst.now) }
{
    Ok(Subst {
        terms: copy_terms(alloc, subst.terms.as_slice())?,
    })
}

fn copy_spot(alloc: Global, spot: &Spot) -> Result<Spot, AllocError>
    ensures { IfOk result (λ made. made ≡ spot.now) }
{
    Ok(Spot {
        part: spot.part,
        place: spot.place,
        path: Items::from_slice(alloc, spot.path.as_slice())?,
    })
}

fn copy_paramodulation(
    alloc: Global,
    i: u32,
    right_to_left: bool,
    spot: &Spot,
    s: &Subst,
    t: &Subst,
) -> Result<Rule, AllocError>
    ensures { IfOk result (λ made. made ≡ Paramodulate i right_to_left spot.now s.now t.now) }
{
    Ok(Rule::Paramodulate {
        i,
        right_to_left,
        spot: copy_spot(alloc, spot)?,
        s: copy_subst(alloc, s)?,
        t: copy_subst(alloc, t)?,
    })
}

fn copy_equality_factoring(
    alloc: Global,
    i: u32,
    i_right: bool,
    j: u32,
    j_right: bool,
    s: &Subst,
) -> Result<Rule, AllocError>
    ensures { IfOk result (λ made. made ≡ EqFactor i i_right j j_right s.now) }
{
    Ok(Rule::EqFactor {
        i,
        i_right,
        j,
        j_right,
        s: copy_subst(alloc, s)?,
    })
}

fn copy_rule(alloc: Global, rule: &Rule) -> Result<Rule, AllocError>
    ensures { IfOk result (λ made. made ≡ rule.now) }
{
    let made = match rule {
        Rule::Input { no } => Rule::Input { no: *no },
        Rule::Resolve { i, part, j, s, t } => Rule::Resolve {
            i: *i,
            part: *part,
            j: *j,
            s: copy_subst(alloc, s)?,
            t: copy_subst(alloc, t)?,
        },
        Rule::Factor { s } => Rule::Factor {
            s: copy_subst(alloc, s)?,
        },
        Rule::Paramodulate {
            i,
            right_to_left,
            spot,
            s,
            t,
        } => copy_paramodulation(alloc, *i, *right_to_left, spot, s, t)?,
        Rule::Reflex { j, s } => Rule::Reflex {
            j: *j,
            s: copy_subst(alloc, s)?,
        },
        Rule::EqFactor {
            i,
            i_right,
            j,
            j_right,
            s,
        } => copy_equality_factoring(alloc, *i, *i_right, *j, *j_right, s)?,
        Rule::Assume { side, negated } => Rule::Assume {
            side: *side,
            negated: *negated,
        },
        Rule::CaseLeft => Rule::CaseLeft,
        Rule::CaseRight => Rule::CaseRight,
        Rule::CaseBoth => Rule::CaseBoth,
    };
    Ok(made)
}

// ---- lines

fn new_step(alloc: Global, marks: &[bool], counts: &[u32], step: &Step) -> Result<Step, AllocError>
    requires { counts.now ≡ counts_from 0 marks.now }
    ensures { IfOk result (λ made. made ≡ renumbered_step (new_number marks.now) step.now) }
{
    Ok(Step {
        rule: copy_rule(alloc, &step.rule)?,
        parents: new_numbers(alloc, marks, counts, step.parents.as_slice())?,
    })
}

fn new_statement(
    alloc: Global,
    marks: &[bool],
    counts: &[u32],
    stated: &Statement,
) -> Result<Statement, AllocError>
    requires counts { counts.now ≡ counts_from 0 marks.now }
    requires marked { AllByRecursion (λ a. IsMarked marks.now a.split) stated.now.deps }
    ensures { IfOk result (λ made. made ≡ renumbered_statement (new_number marks.now) stated.now) }
{
    Ok(Statement {
        clause: stated.clause.copy(alloc)?,
        deps: new_deps(alloc, marks, counts, &stated.deps)?,
    })
}

/// The line with the new numbers of its parents and of the splits on which it depends.
pub(crate) fn new_line(
    alloc: Global,
    marks: &[bool],
    counts: &[u32],
    line: &Line,
) -> Result<Line, AllocError>
    requires counts { counts.now ≡ counts_from 0 marks.now }
    requires marked { AllByRecursion (λ a. IsMarked marks.now a.split) line.now.stated.deps }
    ensures { IfOk result (λ made. made ≡ renumbered_line (new_number marks.now) line.now) }
{
    Ok(Line {
        step: new_step(alloc, marks, counts, &line.step)?,
        stated: new_statement(alloc, marks, counts, &line.stated)?,
    })
}
