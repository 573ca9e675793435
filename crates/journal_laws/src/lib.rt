//! Laws of journals with several workers: what a worker's case keeps while others go on, and that what it computed in a
//! round may be appended then. They are functions without a body, and do nothing when they run.
//!
//! `specs/Frame.antt` says what stays, `specs/Batches.antt` what a round's lines are and how a round is finished,
//! `specs/PathEvents.antt` which events are at the nodes of a path, and `specs/Shifts.antt` how steps move behind others.
#![tactic(auto)]

ghost use Rattle.std.specs.Prelude.{◌≡◌, ℕ, suc, ◌+◌, ◌<◌, ◌≤◌, [], ◌∷◌, ◌++◌, List, Option, true, false, length, take, Some, None, slice_get};
ghost use Rattle.spl_terms.specs.Clauses.{is_empty, renumbered};
ghost use Rattle.spl_terms.specs.Lists.{numbered};
ghost use Rattle.spl_terms.specs.declared.clause.Clause.{Clause};
ghost use Rattle.proof_steps.specs.declared.step.Line.{Line};
ghost use Rattle.case_journal.specs.declared.event.Entry.{Entry};
ghost use Rattle.case_journal.specs.declared.event.Event.TheVariants.{Choose, Activate, Big};
ghost use Rattle.case_journal.specs.Journal.{Setting, counted, nodes};
ghost use Rattle.case_journal.specs.Facts.{chosen, listed, worked, Holds, IsDead, IsLive};
ghost use Rattle.case_journal.specs.Ending.{first_end};
ghost use Rattle.case_journal.specs.Legal.{IsLegal, IsLegalJournal, IsLegalBig, IsListed, IsSettled};
ghost use Rattle.journal_laws.specs.Frame.{NoneBy, StillHolds, IsSinceChoice, KeepsLeaf};
ghost use Rattle.proof_steps.specs.Checked.{IsConclusion, AreConclusions, stated};
ghost use Rattle.case_journal.specs.Paths.{on_path, owner, is_leaf};
ghost use Rattle.journal_laws.specs.PathEvents.{events_on, SamePath};
ghost use Rattle.journal_laws.specs.Shifts.{shifted, shifted_line, is_split_rule};
ghost use Rattle.journal_laws.specs.Batches.{IsBatch, IsUnderWay, publication, newest_first, with_lines, CanGoOn, IsWorkedOff};

use spl_terms::order_stays;

/// At most one worker holds a node.
pub fn one_worker_holds()
    ensures { (s : Setting) (past : List Entry) → IsLegalJournal s past
        → (v w m : ℕ) → Holds s past v m → Holds s past w m → v ≡ w }
{}

/// While others go on, a worker holds its leaf as it is, as long as the leaf is live: its path, what is chosen and worked
/// off there, and what was listed when it was chosen; more may be listed.
pub fn others_leave_the_leaf()
    ensures { (s : Setting) (past later : List Entry) (w m : ℕ) → IsLegalJournal s (later ++ past) → Holds s past w m
        → NoneBy w later → IsLive s (later ++ past) m → StillHolds s past (later ++ past) w m [] }
{}

/// What is listed and worked off at a node depends on the events at the nodes of its path alone: two journals with the
/// same events there agree, whatever happens in other cases.
pub fn only_the_path_counts()
    ensures { (s z : Setting) (past other : List Entry) → IsLegalJournal s past → IsLegalJournal z other → s.input ≡ z.input
        → (m : ℕ) → m < nodes past → m < nodes other → SamePath past other m
        → events_on (on_path past m) s past ≡ events_on (on_path past m) z other
        → (i : ℕ) → (listed s past m i ≡ listed z other m i) × (worked past m i ≡ worked other m i) }
{}

/// Whatever is appended while a worker holds its leaf, by itself or by others, the leaf is the same one: what was listed there
/// is, and of the lines that were there nothing new is listed. So a view goes on by the new lines alone.
pub fn a_held_leaf_is_kept()
    ensures event { (s : Setting) (past : List Entry) (e : Entry) (w m : ℕ) → IsLegalJournal s (e ∷ past)
        → Holds s past w m → Holds s (e ∷ past) w m → KeepsLeaf s past (e ∷ past) w m }
    ensures more { (s : Setting) (a b c : List Entry) (w m : ℕ)
        → KeepsLeaf s a b w m → KeepsLeaf s b c w m → KeepsLeaf s a c w m }
    ensures still { (s : Setting) (old new : List Entry) (w m : ℕ) (own : List Clause)
        → StillHolds s old new w m own → KeepsLeaf s old new w m }
    ensures whole { (s : Setting) (past later : List Entry) (w m : ℕ) → IsLegalJournal s (later ++ past)
        → Holds s past w m → Holds s (later ++ past) w m → KeepsLeaf s past (later ++ past) w m }
{}

/// A leaf where a clause is chosen is held by some worker, as long as it is live.
pub fn chosen_leaves_are_held()
    ensures { (s : Setting) (past : List Entry) → IsLegalJournal s past → (m c : ℕ) → chosen past m ≡ Some c
        → is_leaf past m ≡ true → IsLive s past m → (w : ℕ) × Holds s past w m }
{}

/// A dead node stays dead.
pub fn dead_nodes_stay_dead()
    ensures { (s : Setting) (past : List Entry) (e : Entry) (m : ℕ) → m < nodes past
        → IsDead s past m → IsDead s (e ∷ past) m }
{}

/// Where a clause has just been chosen, nothing was worked off since, and what was listed then still is; this stays while the
/// worker holds its leaf. So it is in each legal journal at each held leaf where a clause is chosen.
pub fn since_the_choice()
    ensures begins { (s : Setting) (past : List Entry) (by w m clause : ℕ) (selected : Option ℕ) → IsLegalJournal s past
        → m < nodes past → IsSinceChoice s (record { by = by; event = Choose m clause selected } ∷ past) w m }
    ensures stays { (s : Setting) (old new : List Entry) (w m : ℕ) (own : List Clause)
        → StillHolds s old new w m own → IsSinceChoice s old w m → IsSinceChoice s new w m }
    ensures always { (s : Setting) (past : List Entry) → IsLegalJournal s past
        → (w m c : ℕ) → Holds s past w m → chosen past m ≡ Some c → IsSinceChoice s past w m }
{}

/// The lines of a batch may be published one after another, whatever others have appended since it was made, as long as the
/// counted steps stay within the limit; where they are as many as may be, Full may be appended with the next line.
pub fn batch_is_legal()
    ensures { (s : Setting) (past later : List Entry) (w m : ℕ) (lines : List Line) → IsBatch s past w m lines
        → IsLegalJournal s (later ++ past) → NoneBy w later → IsLive s (later ++ past) m
        → first_end (later ++ past) ≡ None
        → (k : ℕ) (l : Line) → slice_get lines k ≡ Some l → counted (later ++ past) + k ≤ s.limits.steps
        → IsLegalJournal s (with_lines past w m (take k lines) (later ++ past))
        × CanGoOn s (with_lines past w m (take k lines) (later ++ past)) w m l }
{}

/// A batch that was made is ready to be published, and stays so while others go on.
pub fn ready_stays()
    ensures made { (s : Setting) (past : List Entry) (w m : ℕ) (lines : List Line)
        → IsBatch s past w m lines → IsUnderWay s past past w m lines 0 }
    ensures stays { (s : Setting) (start past later : List Entry) (w m : ℕ) (lines : List Line)
        → IsLegalJournal s (later ++ past) → NoneBy w later → IsLive s (later ++ past) m
        → IsUnderWay s start past w m lines 0 → IsUnderWay s start (later ++ past) w m lines 0 }
{}

/// A batch that is under way goes on line by line: the next one may be published or, where as many counted steps were
/// published as may be, ends the journal by a Full; and after a publication the rest of the batch is under way. A line that
/// is published at the node where it belongs is listed at the leaf, and a clause with atoms ends nothing.
pub fn lines_go_on()
    ensures next { (s : Setting) (start past : List Entry) (w m : ℕ) (lines : List Line) (k : ℕ) (l : Line)
        → IsLegalJournal s past → first_end past ≡ None → IsUnderWay s start past w m lines k
        → slice_get lines k ≡ Some l → CanGoOn s past w m l }
    ensures more { (s : Setting) (start past : List Entry) (w m : ℕ) (lines : List Line) (k : ℕ) (l : Line)
        → IsLegalJournal s (publication w (owner past l.stated.deps m) l ∷ past) → IsUnderWay s start past w m lines k
        → slice_get lines k ≡ Some l → is_empty l.stated.clause ≡ false
        → IsUnderWay s start (publication w (owner past l.stated.deps m) l ∷ past) w m lines (suc k) }
    ensures listed { (s : Setting) (past : List Entry) (w m : ℕ) (l : Line) → IsLegalJournal s past → m < nodes past
        → IsListed s (publication w (owner past l.stated.deps m) l ∷ past) m l.stated.clause }
    ensures unended { (past : List Entry) (w node : ℕ) (l : Line) → is_empty l.stated.clause ≡ false
        → first_end past ≡ None → first_end (publication w node l ∷ past) ≡ None }
{}

/// Once the lines of the round are published, what finishes it may be appended: the activation where all inferences were
/// covered by what was listed and by the lines, or Big where one was too large.
pub fn finish_stays_legal()
    ensures activate { (s : Setting) (old new : List Entry) (w m : ℕ) (lines : List Line) → IsLegalJournal s old
        → m < nodes old → IsWorkedOff s old w m lines → first_end new ≡ None → IsLegalJournal s new
        → StillHolds s old new w m (newest_first lines []) → IsLegal s new w (Activate m) }
    ensures big { (s : Setting) (old new : List Entry) (w m partner symbols : ℕ) (own : List Clause) → IsLegalJournal s old
        → IsLegalBig s old w m partner symbols → first_end new ≡ None → IsLegalJournal s new
        → StillHolds s old new w m own → IsLegal s new w (Big m partner symbols) }
{}

/// A settled tree stays settled where a clause with atoms is published.
pub fn publications_keep_settled()
    ensures { (s : Setting) (past : List Entry) (w node : ℕ) (l : Line) → IsLegalJournal s past
        → is_empty l.stated.clause ≡ false → IsSettled s past → IsSettled s (publication w node l ∷ past) }
{}

/// What a step concludes is in order: each line of a ledger states a clause that is its own renumbering.
pub fn conclusions_are_in_order()
    ensures { (input : List Clause) (lines : List Line) → AreConclusions input lines
        → (n : ℕ) (l : Line) → numbered lines n ≡ Some l → renumbered l.stated.clause ≡ l.stated.clause }
{
    order_stays();
}

/// A line of a chain that was computed over a ledger, moved behind lines that others have appended since, still states what its
/// step concludes. It holds of all rules but those of splits, whose assumptions name a clause by its number.
pub fn shifted_lines_conclude()
    ensures { (input : List Clause) (old more chain : List Line) (k : ℕ) (l : Line) → is_split_rule l.step.rule ≡ false
        → IsConclusion input (stated (old ++ take k chain)) l
        → IsConclusion input (stated ((old ++ more) ++ take k (shifted (length old) (length more) chain)))
        (shifted_line (length old) (length more) l) }
{}
