//! The contradictions of a ledger.
ghost use Rattle.std.specs.Prelude.{ℕ, MatchOption};
ghost use Rattle.case_journal.specs.Journal.{ledger};
ghost use Rattle.proof_extract.specs.Contradictions.{IsContradictory, IsFirstContradiction};

use proof_steps::is_contradiction;
use split_tree::Table;

/// The smallest number of a line that states the empty clause without dependencies, from 1; none where no line does.
pub fn first_contradiction(table: &Table) -> Option<u32>
    ensures { MatchOption result
        ((n : ℕ) → ¬ IsContradictory (ledger table.now.setting table.now.past) n)
        (IsFirstContradiction (ledger table.now.setting table.now.past)) }
{
    for k in 0..table.steps() {
        if is_contradiction(&table.line(k + 1).stated) {
            return Some(k + 1);
        }
    }
    None
}
