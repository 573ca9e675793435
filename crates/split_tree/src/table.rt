//! The table: a legal journal, and what is computed from it.
mod reading;

ghost use Rattle.std.specs.Prelude.{◌≡◌, ℕ, ◌+◌, ◌-◌, ◌<◌, ◌≤◌, ◌^◌, ◌&&◌, not, if◌then◌else◌, IfOk, OnOk, OnErr, IsSome, IsSomeAnd, [], ◌∷◌, length, replicate, true, None, Some};
ghost use Rattle.std.specs.List.{list_all};
ghost use Rattle.spl_terms.specs.Clauses.{clause_symbols};
ghost use Rattle.proof_steps.specs.declared.step.Line.{Line};
ghost use Rattle.proof_steps.specs.Checked.{AreConclusions};
ghost use Rattle.proof_steps.specs.Steps.{numbered};
ghost use Rattle.case_journal.specs.Journal.{IsSmall, input_line, input_lines, lines_of, ledger, nodes, steps, AreSmall};
ghost use Rattle.case_journal.specs.Paths.{branch};
ghost use Rattle.case_journal.specs.Facts.{cost_of, chosen, IsDead, Holds};
ghost use Rattle.case_journal.specs.Ending.{has_empty, first_end, reason};
ghost use Rattle.split_tree.specs.Caches.{empties, AreHomes, weights, retired, retired_at, retired_by, IsNumbered, IsNodeOf, new_state, seats};
ghost use Rattle.case_journal.specs.Legal.{IsLegal, IsLegalJournal, IsSettled, IsClaimable};
ghost use Rattle.case_journal.specs.Closing.{IsClosed};
ghost use Rattle.case_journal.specs.Symbols.{SymbolTest, clause_passes, line_passes};

use crate::caches::{
    NodeState, Retired, Seat, Spot, Tally, add_branches, add_copies, add_homes, add_retired,
    add_spots, add_weights, is_empty, nodes_of, note_empties, note_leaves, note_newest, note_node,
    note_seat,
};
use case_journal::{Branch, Entry, Event, Limits, subject};
use dep_sets::Deps;
use proof_steps::{Line, Rule, Statement, Step};
use spl_terms::{Clause, Items};
use std::alloc::{AllocError, Global};
use std::marker::Model;

/// A legal journal over an input, and what the journal says of each node.
///
/// Contracts see the input, the limits and the number of workers, the journal, and the spare room: how many events and
/// steps can be appended without memory, beside one Stop of each worker that has appended none.
#[derive(Debug, Drop)]
pub struct Table {
    input: Items<Clause>,
    limits: Limits,
    workers: u32,
    /// The steps of the input.
    opening: Items<Line>,
    /// Whether the input has an empty clause.
    refuted: bool,
    journal: Vec<Entry>,
    /// For each node how it hangs in the tree.
    branches: Vec<Option<Branch>>,
    /// For each node what is known of it.
    states: Vec<NodeState>,
    /// The leaves from left to right.
    leaves: Vec<u32>,
    /// For each clause number, from 1, the node where it is listed.
    homes: Vec<Option<u32>>,
    /// Where the steps stand that follow those of the input.
    spots: Vec<Spot>,
    /// For each node the first empty clause that was published or assumed there; input clauses stand at the root.
    empties: Vec<Option<u32>>,
    /// For each clause number, from 1, how many symbols the clause has.
    weights: Vec<u64>,
    /// The clauses that were activated or split, with the nodes, each linked to the last one before it of the same
    /// clause.
    retired: Vec<Retired>,
    /// For each clause number, from 1, the place of the last record of the clause among those.
    newest: Vec<Option<usize>>,
    /// For each worker, from 1, what is known of it.
    seats: Vec<Seat>,
    tally: Tally,
    spare_events: usize,
    spare_steps: usize,
}

impl Model for Table {
    ghost use Rattle.split_tree.specs.State.{State};

    ghost Value = { State };

    ghost use Rattle.std.specs.Coded.{codes};
    ghost use Rattle.spl_terms.specs.contracts.term.Term as term;

    ghost coded = { Prim.hlevel (codes, term.the_row.coded) };

    ghost use Rattle.split_tree.specs.Fields.{setting_of, IsTable};
    ghost use Rattle.split_tree.specs.Caches.{past_of};

    ghost view = { λ t. record { setting = setting_of t; past = past_of t.journal.items; spare_events = t.spare_events; spare_steps = t.spare_steps } };

    ghost invariant = { IsTable };
}

// ---- the input

fn input_line(alloc: Global, number: u32, clause: &Clause) -> Result<Line, AllocError>
    ensures is { IfOk result (λ line. line ≡ input_line number clause.now) }
    ensures small { IfOk result (λ line. clause_symbols line.stated.clause ≤ 4096) }
{
    match clause.numbered(alloc) {
        Ok(clause) => Ok(Line {
            step: Step {
                rule: Rule::Input { no: number },
                parents: Items::new(alloc),
            },
            stated: Statement {
                clause,
                deps: Deps::none(alloc),
            },
        }),
        Err(_) => Err(AllocError),
    }
}

fn input_lines(alloc: Global, input: &[Clause]) -> Result<Items<Line>, AllocError>
    requires { length input.now < 2 ^ 32 }
    ensures is { IfOk result (λ lines. lines ≡ input_lines 1 input.now) }
    ensures small { IfOk result AreSmall }
{
    let mut lines = Items::with_room(alloc, input.len())?;
    for k in 0..input.len() {
        let line = input_line(alloc, k as u32 + 1, &input[k])?;
        lines.push(line)?;
    }
    Ok(lines)
}

fn copies(alloc: Global, input: &[Clause]) -> Result<Items<Clause>, AllocError>
    ensures { IfOk result (λ clauses. clauses ≡ input.now) }
{
    let mut clauses = Items::with_room(alloc, input.len())?;
    for clause in input {
        clauses.push(clause.copy(alloc)?)?;
    }
    Ok(clauses)
}

fn has_empty(input: &[Clause]) -> bool
    ensures { result ≡ has_empty input.now }
{
    input.iter().any(|clause| is_empty(clause))
}

// ---- making, room, and appending

/// The spare room of a Stop or of another event, by a worker that has stopped before or not.
fn room_of(stop: bool, stopped: bool) -> usize
    ensures { result ≡ (if stop && not stopped then 0 else 1) }
{
    if stop && !stopped { 0 } else { 1 }
}

fn new_state() -> NodeState
    ensures { result ≡ new_state 0 }
{
    NodeState {
        leaf: true,
        chosen: None,
        choices: 0,
    }
}

/// The states of so many workers before the first event.
fn new_seats(alloc: Global, workers: u32) -> Result<Vec<Seat>, AllocError>
    ensures { IfOk result (λ made. made.items ≡ seats workers []) }
{
    let mut seats = Vec::with_capacity(alloc, workers as usize)?;
    for _ in 0..workers {
        seats.push(Seat {
            claimed: None,
            stopped: false,
        })?;
    }
    Ok(seats)
}

fn new_homes(alloc: Global, count: usize) -> Result<Vec<Option<u32>>, AllocError>
    ensures items { IfOk result (λ made. made.items ≡ replicate count (Some 0)) }
{
    let mut homes = Vec::with_capacity(alloc, count)?;
    add_copies(&mut homes, Some(0), count);
    Ok(homes)
}

fn new_empties(
    alloc: Global,
    homes: &[Option<u32>],
    lines: &[Line],
) -> Result<Vec<Option<u32>>, AllocError>
    requires each { length homes.now ≡ length lines.now }
    requires few { length lines.now < 2 ^ 32 }
    requires root { AreHomes 1 homes.now }
    ensures items { IfOk result (λ made. made.items ≡ empties 1 homes.now lines.now) }
{
    let mut made = vec![in alloc; None]?;
    note_empties(&mut made, homes, lines, 1);
    Ok(made)
}

fn new_weights(alloc: Global, lines: &[Line]) -> Result<Vec<u64>, AllocError>
    requires { AreSmall lines.now }
    ensures items { IfOk result (λ made. made.items ≡ weights lines.now) }
{
    let mut made = Vec::with_capacity(alloc, lines.len())?;
    add_weights(&mut made, lines);
    Ok(made)
}

fn new_newest(alloc: Global, count: usize) -> Result<Vec<Option<usize>>, AllocError>
    ensures items { IfOk result (λ made. made.items ≡ replicate count None) }
{
    let mut newest = Vec::with_capacity(alloc, count)?;
    add_copies(&mut newest, None, count);
    Ok(newest)
}

impl Table {
    /// A table with the empty journal, for 1 to 8 workers, over at most 65,536 input clauses. The ledger has their
    /// input steps, and there is room for one Stop of each worker.
    ///
    /// # Errors
    ///
    /// Only where there is no memory.
    pub fn start(
        alloc: Global,
        input: &[Clause],
        limits: Limits,
        workers: u32,
    ) -> Result<Table, AllocError>
        requires few_clauses { length input.now ≤ 65536 }
        requires some_workers { 1 ≤ workers }
        requires few_workers { workers ≤ 8 }
        ensures past { IfOk result (λ t. t.past ≡ []) }
        ensures setting { IfOk result (λ t. t.setting
            ≡ record { input = input.now; limits = limits; workers = workers }) }
    {
        limits.fit();
        let opening = input_lines(alloc, input)?;
        let weights = new_weights(alloc, opening.as_slice())?;
        let homes = new_homes(alloc, input.len())?;
        let empties = new_empties(alloc, &homes, opening.as_slice())?;
        let newest = new_newest(alloc, input.len())?;
        let journal = Vec::with_capacity(alloc, workers as usize)?;
        let branches = vec![in alloc; None]?;
        let states = vec![in alloc; new_state()]?;
        let leaves = vec![in alloc; 0]?;
        let seats = new_seats(alloc, workers)?;
        Ok(Table {
            input: copies(alloc, input)?,
            limits,
            workers,
            opening,
            refuted: has_empty(input),
            journal,
            branches,
            states,
            leaves,
            homes,
            spots: Vec::new(alloc),
            empties,
            weights,
            retired: Vec::new(alloc),
            newest,
            seats,
            tally: Tally {
                counted: 0,
                rounds: 0,
                splits: 0,
                end: None,
            },
            spare_events: 0,
            spare_steps: 0,
        })
    }

    /// Takes room for at least so many more events and steps, beside what is kept for the workers' Stops.
    ///
    /// # Errors
    ///
    /// Where there is no memory, or node or clause numbers would not fit. Then nothing has changed.
    pub fn reserve(&mut self, events: u32, steps: u32) -> Result<(), AllocError>
        ensures past { self.new.past ≡ self.old.past }
        ensures setting { self.new.setting ≡ self.old.setting }
        ensures ok { OnOk result ((events ≤ self.new.spare_events) × (steps ≤ self.new.spare_steps)) }
        ensures err { OnErr result (self.new ≡ self.old) }
    {
        let events = self.spare_events.max(events as usize);
        let steps = self.spare_steps.max(steps as usize);
        if self.branches.len() + 2 * events > u32::MAX as usize {
            return Err(AllocError);
        }
        if self.homes.len() + steps >= u32::MAX as usize {
            return Err(AllocError);
        }
        self.journal.reserve(events + 8)?;
        self.branches.reserve(2 * events)?;
        self.states.reserve(2 * events)?;
        self.leaves.reserve(events)?;
        self.homes.reserve(steps)?;
        self.spots.reserve(steps)?;
        self.empties.reserve(2 * events)?;
        self.weights.reserve(steps)?;
        self.newest.reserve(steps)?;
        self.retired.reserve(events)?;
        self.spare_events = events;
        self.spare_steps = steps;
        Ok(())
    }

    /// Appends a legal event. It takes no memory, and can't be refused. A worker's first Stop uses the room that was
    /// kept for it; each other event uses spare room.
    pub fn apply(&mut self, by: u32, event: Event)
        requires legal { IsLegal self.old.setting self.old.past by event }
        requires event_fits { cost_of self.old.past by event ≤ self.old.spare_events }
        requires steps_fit { length (lines_of event) ≤ self.old.spare_steps }
        ensures past { self.new.past ≡ record { by = by; event = event } ∷ self.old.past }
        ensures setting { self.new.setting ≡ self.old.setting }
        ensures spare_events { self.new.spare_events ≡ self.old.spare_events - cost_of self.old.past by event }
        ensures spare_steps { self.new.spare_steps ≡ self.old.spare_steps - length (lines_of event) }
    {
        let nodes = self.branches.len() as u32;
        let steps = self.homes.len();
        let lines = event.lines().len();
        let cost = self.cost(by, &event);
        let retired = self.retires(&event);
        add_homes(&mut self.homes, &event, nodes);
        add_spots(&mut self.spots, self.journal.len(), lines);
        add_copies(&mut self.empties, None, nodes_of(&event));
        note_empties(
            &mut self.empties,
            &self.homes[steps..],
            event.lines(),
            steps as u32 + 1,
        );
        add_weights(&mut self.weights, event.lines());
        note_newest(&mut self.newest, retired, self.retired.len());
        add_copies(&mut self.newest, None, lines);
        add_retired(&mut self.retired, retired);
        add_branches(&mut self.branches, &event);
        note_node(&mut self.states, &event);
        note_leaves(&mut self.leaves, &event, nodes);
        note_seat(&mut self.seats, by, &event);
        self.tally = self.tally.after(&event);
        self.journal.push_reserved(Entry { by, event });
        self.spare_events -= cost;
        self.spare_steps -= lines;
    }

    /// The spare room that the event takes.
    fn cost(&self, by: u32, event: &Event) -> usize
        requires some { 1 ≤ by }
        requires there { by ≤ self.now.setting.workers }
        ensures { result ≡ cost_of self.now.past by event.now }
    {
        let stopped = self.seats[by as usize - 1].stopped;
        room_of(event.is_stop(), stopped)
    }

    /// The record of the clause that is activated or split at the node.
    fn retired_at(&self, clause: u32, node: u32) -> Retired
        requires some { 1 ≤ clause }
        requires there { clause ≤ steps self.now.setting self.now.past }
        ensures { result ≡ retired_at clause node (retired self.now.past) }
    {
        Retired {
            clause,
            node,
            older: self.newest[clause as usize - 1],
        }
    }

    /// The record of the clause that the event activates or splits.
    fn retires(&self, event: &Event) -> Option<Retired>
        requires node { IsNodeOf event.now (nodes self.now.past) }
        requires clause { IsNumbered (retired_by event.now (chosen self.now.past) (retired self.now.past))
            (steps self.now.setting self.now.past) }
        ensures { result ≡ retired_by event.now (chosen self.now.past) (retired self.now.past) }
    {
        match event {
            Event::Activate { node } => match self.chosen(*node) {
                Some(clause) => Some(self.retired_at(clause, *node)),
                None => None,
            },
            Event::Split { node, steps, .. } => {
                Some(self.retired_at(subject(steps.as_slice()), *node))
            }
            _ => None,
        }
    }

    /// The law of the table: its journal is legal. It does nothing when it runs.
    pub fn journal_is_legal(&self)
        ensures { IsLegalJournal self.now.setting self.now.past }
    {
        let _ = &self.journal;
    }

    /// What is known of each table by its type: its journal is legal, so that no more was chosen, published and split
    /// than the limits allow; each line of its ledger states what its step concludes from the input and the lines
    /// before it, in at most 4,096 symbols; there are so few nodes and
    /// steps that their numbers fit; there are 1 to 8 workers; a tree of one node is settled; and where proving has not
    /// ended, no event ends the journal. It does nothing when it runs.
    pub fn laws(&self)
        ensures legal { IsLegalJournal self.now.setting self.now.past }
        ensures concluded { AreConclusions self.now.setting.input (ledger self.now.setting self.now.past) }
        ensures few_nodes { nodes self.now.past < 2 ^ 32 }
        ensures few_steps { steps self.now.setting self.now.past + 1 < 2 ^ 32 }
        ensures small { IsSmall self.now.setting.limits }
        ensures some_workers { 1 ≤ self.now.setting.workers }
        ensures few_workers { self.now.setting.workers ≤ 8 }
        ensures settled { nodes self.now.past ≡ 1 → IsSettled self.now.setting self.now.past }
        ensures unended { reason self.now.setting self.now.past ≡ None → first_end self.now.past ≡ None }
    {
        let _ = &self.journal;
    }

    /// The law of the ledger: each line states what its step concludes from the input and the lines before it, in at
    /// most 4,096 symbols. It does nothing when it runs.
    pub fn ledger_is_concluded(&self)
        ensures { AreConclusions self.now.setting.input (ledger self.now.setting self.now.past) }
    {
        let _ = &self.journal;
    }

    /// The law of symbols: each symbol of a line of the ledger, its substitutions included, occurs in the input in the
    /// same role, in terms or in atoms, with as many arguments. So each test of these that all of the input passes is
    /// passed by each line. It does nothing when it runs.
    pub fn symbols_are_of_the_input(&self)
        ensures { (test : SymbolTest) → list_all (clause_passes test) self.now.setting.input ≡ true
            → (n : ℕ) (l : Line) → numbered (ledger self.now.setting self.now.past) n ≡ Some l → line_passes test l ≡ true }
    {
        self.journal_is_legal();
    }

    /// The law on dead nodes: an empty clause stands at a node of the path of each, and depends on assumptions of that
    /// node's path alone. Where no empty clause was published at a dead node itself, so that it is discarded, that
    /// empty clause depends on neither side of the split that made the node. It does nothing when it runs.
    pub fn dead_nodes_are_closed(&self)
        ensures { (m : ℕ) → m < nodes self.now.past → IsDead self.now.setting self.now.past m
            → IsClosed self.now.setting self.now.past m }
    {
        self.journal_is_legal();
    }

    /// The law of the tree: the root hangs at no node, and each other node at one before it. So `parent` and
    /// `assumption` answer none exactly at the root. It does nothing when it runs.
    pub fn the_root_alone_hangs_nowhere(&self)
        ensures root { branch self.now.past 0 ≡ None }
        ensures others { (m : ℕ) → 0 < m → m < nodes self.now.past
            → IsSomeAnd (branch self.now.past m) (λ b. b.parent < m) }
    {
        self.journal_is_legal();
    }

    /// The law of a dead root: where the tree is settled, nobody holds a node and no live leaf is left to claim, the
    /// root is dead, an empty clause without assumptions is listed, and so proving has ended. It does nothing when it
    /// runs.
    pub fn dead_root_has_ended(&self)
        requires settled { IsSettled self.now.setting self.now.past }
        requires none { (m : ℕ) → ¬ IsClaimable self.now.setting self.now.past m }
        requires idle { (w m : ℕ) → 1 ≤ w → w ≤ self.now.setting.workers
            → ¬ Holds self.now.setting self.now.past w m }
        ensures { IsSome (reason self.now.setting self.now.past) }
    {
        self.journal_is_legal();
    }

    /// The law of a table that has not ended: no event ends the journal. It does nothing when it runs.
    pub fn has_not_ended(&self)
        requires { reason self.now.setting self.now.past ≡ None }
        ensures { first_end self.now.past ≡ None }
    {}

    /// The law of a table whose root is its one node: it is settled. It does nothing when it runs.
    pub fn root_is_settled(&self)
        requires { nodes self.now.past ≡ 1 }
        ensures { IsSettled self.now.setting self.now.past }
    {}
}
