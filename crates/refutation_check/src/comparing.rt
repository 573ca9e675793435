//! Whether what a line states is what its step concludes.
ghost use Rattle.std.specs.Prelude.{◌≡◌, ◌↔◌, IsTrue, IfOk, MatchResult};
ghost use Rattle.refutation_check.specs.Faults.{IsErrorOf, Differ, IsMismatch};

use crate::fault::{CheckError, CheckFault, CheckKind};
use dep_sets::{Assumption, Deps};
use proof_steps::Statement;
use spl_terms::same_clause;
use std::alloc::{AllocError, Global};

fn same_assumption(a: Assumption, b: Assumption) -> bool
    ensures { IsTrue result ↔ (a ≡ b) }
{
    a.split == b.split && a.side == b.side
}

fn same_deps(a: &Deps, b: &Deps) -> bool
    ensures { IsTrue result ↔ (a.now ≡ b.now) }
{
    if a.count() != b.count() {
        return false;
    }
    for i in 0..a.count() {
        if !same_assumption(a.at(i), b.at(i)) {
            return false;
        }
    }
    true
}

fn copied(alloc: Global, stated: &Statement) -> Result<Statement, AllocError>
    ensures { IfOk result (λ copy. copy ≡ stated.now) }
{
    let clause = stated.clause.copy(alloc)?;
    let deps = stated.deps.copy()?;
    Ok(Statement { clause, deps })
}

/// The fault of this kind, in which both statements are told.
fn mismatch(
    alloc: Global,
    step: u32,
    kind: CheckKind,
    found: &Statement,
    wanted: Statement,
) -> CheckError
    requires { Differ kind found.now wanted }
    ensures { IsErrorOf (IsMismatch step found.now wanted) result }
{
    match copied(alloc, found) {
        Ok(copy) => CheckError::Fault(CheckFault {
            step,
            kind,
            found: Some(copy),
            wanted: Some(wanted),
        }),
        Err(_) => CheckError::Memory,
    }
}

/// Refuses the step with this number where what it states is not what is wanted.
pub fn compare(
    alloc: Global,
    step: u32,
    found: &Statement,
    wanted: Statement,
) -> Result<(), CheckError>
    ensures { MatchResult result (λ _. found.now ≡ wanted) (IsErrorOf (IsMismatch step found.now wanted)) }
{
    if !same_clause(&found.clause, &wanted.clause) {
        return Err(mismatch(alloc, step, CheckKind::Clause, found, wanted));
    }
    if !same_deps(&found.deps, &wanted.deps) {
        return Err(mismatch(alloc, step, CheckKind::Dependencies, found, wanted));
    }
    Ok(())
}
