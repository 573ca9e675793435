//! What a round's answer is worth in a journal, as laws that do nothing when they run.
ghost use Rattle.std.specs.Prelude.{◌≡◌, ℕ, List, ◌++◌, IsSome, map};
ghost use Rattle.case_journal.specs.declared.event.Entry.{Entry};
ghost use Rattle.case_journal.specs.declared.event.Event.{Event};
ghost use Rattle.case_journal.specs.Journal.{Setting};
ghost use Rattle.case_journal.specs.Facts.{IsLive};
ghost use Rattle.case_journal.specs.Legal.{IsLegalJournal};
ghost use Rattle.journal_laws.specs.Frame.{NoneBy};
ghost use Rattle.case_view.specs.declared.kept.Case.{Case};
ghost use Rattle.case_view.specs.Views.{StandsFor};
ghost use Rattle.case_rounds.specs.declared.round.Batch.{Batch};
ghost use Rattle.case_rounds.specs.Events.{AreAllOver, IsBatchOf, shifted_event};
ghost use Rattle.case_rounds.specs.Appending.{IsBatchReady};

use case_view::{paths_give_the_owners, views_have_the_clauses};
use journal_laws::{ready_stays, since_the_choice};

/// What was computed from a view can be appended to the journal for which the view stands.
pub fn rounds_can_be_appended()
    ensures { (s : Setting) (past : List Entry) (v : Case) (batch : Batch)
        → IsLegalJournal s past → StandsFor s past v → IsSome v.given
        → IsBatchOf s.limits.splits v batch → IsBatchReady s past v.worker v.node batch }
{
    views_have_the_clauses();
    paths_give_the_owners();
    since_the_choice();
    ready_stays();
}

/// And so it can once others have gone on, as long as the leaf is live.
pub fn rounds_wait()
    ensures { (s : Setting) (past later : List Entry) (w m : ℕ) (batch : Batch)
        → IsLegalJournal s (later ++ past) → NoneBy w later → IsLive s (later ++ past) m
        → IsBatchReady s past w m batch → IsBatchReady s (later ++ past) w m batch }
{
    ready_stays();
}

/// Steps that follow from those up to the base are the same behind others.
pub fn steps_over_the_base_stay()
    ensures { (base by : ℕ) (events : List Event) → AreAllOver base events
        → map (shifted_event base by) events ≡ events }
{}
