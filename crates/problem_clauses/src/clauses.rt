//! From a problem to its clause set.

ghost use Rattle.std.specs.Prelude.{◌≡◌, ◌<◌, ◌≤◌, ◌^◌, ℕ, Some, length, map, slice_get, IfOk};
ghost use Rattle.std.specs.List.{AllByRecursion};
ghost use Rattle.spl_terms.specs.declared.clause.Clause.{Clause};
ghost use Rattle.spl_terms.specs.Clauses.{clause_symbols};
ghost use Rattle.spl_terms.specs.InOrder.{IsInOrder};
ghost use Rattle.spl_symbols.specs.Skolems.{HasSkolems};
ghost use Rattle.formulas.specs.Entries.{entry_formula};
ghost use Rattle.normal_form.specs.ClauseSets.{all_arities, origins_from, first_refusal, IsRefused};
ghost use Rattle.normal_form.specs.NormalForm.{normal_form};
ghost use Rattle.normal_form.specs.OfSignature.{AreClausesOf};
ghost use Rattle.normal_form.specs.Structures.{StandFor};
ghost use Rattle.dfg_problem.specs.WellFormed.{AreWellFormed};

use dfg_problem::Problem;
use normal_form::{ClauseSet, FormError, clauses_of};
use std::alloc::Global;

/// The clauses of a problem, with its symbols and their Skolem symbols behind them.
///
/// What `read_problem` answers meets the conditions. The clauses stand for the problem's formulas in every finite
/// structure, a conjecture negated. The refusals are those of `clauses_of`, entry by entry.
pub fn clauses_of_problem(alloc: Global, problem: Problem) -> Result<ClauseSet, FormError>
    requires numbered { length problem.entries < 2 ^ 32 }
    requires well_formed { AreWellFormed problem.signature problem.entries }
    ensures clauses { IfOk result (λ set.
        set.clauses ≡ normal_form (length problem.signature) (map entry_formula problem.entries)) }
    ensures symbols { IfOk result (λ set. (next : ℕ)
        × HasSkolems problem.signature 1
        (all_arities (length problem.signature) (map entry_formula problem.entries)) set.signature next) }
    ensures origins { IfOk result (λ set. set.origins ≡ origins_from 1 (map entry_formula problem.entries)) }
    ensures refused { IsRefused
        (first_refusal 1 0 (length problem.signature) (map entry_formula problem.entries)) result }
    ensures few { IfOk result (λ set. length set.clauses ≤ 65536) }
    ensures small { IfOk result (λ set. (k : ℕ) (c : Clause)
        → slice_get set.clauses k ≡ Some c → clause_symbols c ≤ 4096) }
    ensures ordered { IfOk result (λ set. AllByRecursion IsInOrder set.clauses) }
    ensures of_signature { IfOk result (λ set. AreClausesOf set.signature set.clauses) }
    ensures stand { IfOk result (λ set.
        StandFor (length problem.signature) set.clauses (map entry_formula problem.entries)) }
{
    let Problem {
        signature,
        entries,
        ..
    } = problem;
    clauses_of(alloc, signature, entries)
}
