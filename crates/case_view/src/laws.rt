//! What is known of each view, as laws that do nothing when they run.
ghost use Rattle.std.specs.Prelude.{◌≡◌, ℕ, ◌<◌, true, List};
ghost use Rattle.dep_sets.specs.declared.deps.Assumption.{Assumption};
ghost use Rattle.case_journal.specs.declared.event.Entry.{Entry};
ghost use Rattle.case_journal.specs.Journal.{Setting, nodes};
ghost use Rattle.case_journal.specs.Paths.{is_leaf, owner};
ghost use Rattle.case_journal.specs.Facts.{split};
ghost use Rattle.case_journal.specs.Legal.{IsLegalJournal};
ghost use Rattle.case_view.specs.declared.kept.Case.{Case};
ghost use Rattle.case_view.specs.Views.{path_nodes, path_sides, owner_on, is_split_on, IsCaseOf, HasClauses};

/// The lists of a view have the clauses that are listed and worked off at its leaf and no others, each as the ledger has
/// it, and the given clause is the one that is chosen there.
pub fn views_have_the_clauses()
    ensures { (s : Setting) (past : List Entry) (v : Case)
        → IsLegalJournal s past → IsCaseOf s past v → HasClauses s past v }
{}

/// The nodes of a path and what is assumed there give the owner of each statement on it.
pub fn paths_give_the_owners()
    ensures { (s : Setting) (past : List Entry) → IsLegalJournal s past
        → (deps : List Assumption) (m : ℕ) → m < nodes past
        → owner past deps m ≡ owner_on (path_nodes past m) (path_sides past m) deps }
{}

/// What is assumed on the path of a leaf tells which clauses were split there.
pub fn paths_give_the_splits()
    ensures { (s : Setting) (past : List Entry) → IsLegalJournal s past
        → (m i : ℕ) → m < nodes past → is_leaf past m ≡ true
        → split past m i ≡ is_split_on (path_sides past m) i }
{}
