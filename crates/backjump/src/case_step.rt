//! The step that closes both sides of a split, as a line.
ghost use Rattle.std.specs.Prelude.{◌≡◌, IfOk};
ghost use Rattle.backjump.specs.Cases.{joined_deps, case_line};

use dep_sets::{Assumption, Deps};
use proof_steps::{Line, Rule, Statement, Step};
use spl_terms::{Clause, Items};
use std::alloc::{AllocError, Global};

/// What both closed sides of the split depend on, but for the split itself, and what the split clause depends on.
fn joined_deps(split: u32, whole: &Deps, left: &Deps, right: &Deps) -> Result<Deps, AllocError>
    ensures { IfOk result (λ deps. deps ≡ joined_deps split whole.now left.now right.now) }
{
    let left = left.without(Assumption { split, side: 1 })?;
    let right = right.without(Assumption { split, side: 2 })?;
    left.union(&right)?.union(whole)
}

/// The line that closes the split of the clause with this number by an empty clause of each side, which depend on
/// `left` and `right`, where the split clause depends on `whole`.
pub fn case_line(
    alloc: Global,
    split: u32,
    whole: &Deps,
    left_empty: u32,
    left: &Deps,
    right_empty: u32,
    right: &Deps,
) -> Result<Line, AllocError>
    ensures { IfOk result (λ line. line ≡ case_line split whole.now left_empty left.now right_empty right.now) }
{
    let clause = Clause {
        constraint: Items::new(alloc),
        antecedent: Items::new(alloc),
        succedent: Items::new(alloc),
    };
    let deps = joined_deps(split, whole, left, right)?;
    let parents = Items::from_slice(alloc, &[split, left_empty, right_empty])?;
    Ok(Line {
        step: Step {
            rule: Rule::CaseBoth,
            parents,
        },
        stated: Statement { clause, deps },
    })
}
