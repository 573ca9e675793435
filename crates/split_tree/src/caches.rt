//! What a table keeps beside its journal, entry by entry.
ghost use Rattle.std.specs.Prelude.{◌≡◌, ◌+◌, ◌-◌, ◌<◌, ◌≤◌, ◌^◌, [], ◌∷◌, ◌++◌, length, vec_len, vec_capacity, insert, replicate};
ghost use Rattle.spl_terms.specs.Clauses.{is_empty};
ghost use Rattle.case_journal.specs.Journal.{lines_of, count_of, nodes_of, choices_of, splits_of, AreSmall};
ghost use Rattle.proof_steps.specs.Spots.{changed_at};
ghost use Rattle.case_journal.specs.Paths.{branch_to, replaced, leaves_by};
ghost use Rattle.case_journal.specs.Ending.{or_else};
ghost use Rattle.split_tree.specs.Caches.{branches_by, homes_by, spots_upto, or_first, noted_empty, noted_empties, IsHome, AreHomes, AddsLines, HasFewChoices, IsNodeOf, state_by, with_children, states_by, seat_by, tally_by, weights, pushed, with_retired, IsNumbered};

use case_journal::{Branch, End, Event, count_of, subject};
use dep_sets::Assumption;
use proof_steps::Line;
use spl_terms::{Clause, symbols_of};

/// Where a step stands: the place of its event in the journal, and its own in the event, both from 0.
#[derive(Clone, Copy, Debug)]
pub struct Spot {
    pub event: usize,
    pub place: usize,
}

/// A clause that was activated or split at a node.
#[derive(Clone, Copy, Debug)]
pub struct Retired {
    /// The clause's number, from 1.
    pub clause: u32,
    pub node: u32,
    /// The place of the record before this one of the same clause, from 0.
    pub older: Option<usize>,
}

/// What is known of a node.
#[derive(Clone, Copy, Debug)]
pub struct NodeState {
    /// It has no children.
    pub leaf: bool,
    /// The clause that is chosen here.
    pub chosen: Option<u32>,
    /// How many clauses were chosen at nodes of its path.
    pub choices: usize,
}

/// What is known of a worker.
#[derive(Clone, Copy, Debug)]
pub struct Seat {
    /// The node of its last Claim.
    pub claimed: Option<u32>,
    /// It has appended a Stop.
    pub stopped: bool,
}

/// What the journal counts, and why its first ending event ends it.
#[derive(Clone, Copy, Debug)]
pub struct Tally {
    /// The counted steps.
    pub counted: u32,
    /// The Choose events.
    pub rounds: u32,
    /// The Split events.
    pub splits: u32,
    pub end: Option<End>,
}

/// Adds how the nodes hang that the event makes.
pub fn add_branches(branches: &mut Vec<Option<Branch>>, event: &Event)
    requires { vec_len branches.old + nodes_of event.now ≤ vec_capacity branches.old }
    ensures items { branches.new.items ≡ branches.old.items ++ branches_by event.now }
    ensures capacity { vec_capacity branches.new ≡ vec_capacity branches.old }
{
    if let Event::Split { node, steps, .. } = event {
        let split = subject(steps.as_slice());
        branches.push_reserved(Some(branch_to(*node, split, 1)));
        branches.push_reserved(Some(branch_to(*node, split, 2)));
    }
}

fn branch_to(parent: u32, split: u32, side: u32) -> Branch
    ensures { result ≡ branch_to parent split side }
{
    let assumed = Assumption { split, side };
    Branch { parent, assumed }
}

/// Adds an item so many times.
pub fn add_copies<T: Copy>(items: &mut Vec<T>, item: T, count: usize)
    requires { vec_len items.old + count ≤ vec_capacity items.old }
    ensures items { items.new.items ≡ items.old.items ++ replicate count item }
    ensures capacity { vec_capacity items.new ≡ vec_capacity items.old }
{
    for _ in 0..count {
        items.push_reserved(item);
    }
}

/// Adds where each step of the event is listed.
pub fn add_homes(homes: &mut Vec<Option<u32>>, event: &Event, nodes: u32)
    requires room { vec_len homes.old + length (lines_of event.now) ≤ vec_capacity homes.old }
    requires nodes { nodes + nodes_of event.now < 2 ^ 32 }
    requires some { AddsLines event.now }
    ensures items { homes.new.items ≡ homes.old.items ++ homes_by event.now nodes }
    ensures capacity { vec_capacity homes.new ≡ vec_capacity homes.old }
{
    match event {
        Event::Publish { node, chain, .. } => {
            add_copies(homes, None, chain.len() - 1);
            homes.push_reserved(Some(*node));
        }
        Event::Split { steps, .. } => {
            homes.push_reserved(Some(nodes));
            add_copies(homes, Some(nodes + 1), steps.len() - 1);
        }
        _ => {}
    }
}

/// Adds where so many steps of an event stand, which is at this place of the journal.
pub fn add_spots(spots: &mut Vec<Spot>, event: usize, count: usize)
    requires { vec_len spots.old + count ≤ vec_capacity spots.old }
    ensures items { spots.new.items ≡ spots.old.items ++ spots_upto event count }
    ensures capacity { vec_capacity spots.new ≡ vec_capacity spots.old }
{
    for place in 0..count {
        spots.push_reserved(Spot { event, place });
    }
}

/// Whether no part of the clause has an atom.
pub fn is_empty(clause: &Clause) -> bool
    ensures { result ≡ is_empty clause.now }
{
    clause.is_empty()
}

/// How many nodes the event makes.
pub fn nodes_of(event: &Event) -> usize
    ensures { result ≡ nodes_of event.now }
{
    match event {
        Event::Split { .. } => 2,
        _ => 0,
    }
}

fn or_first(number: u32, first: Option<u32>) -> Option<u32>
    ensures { result ≡ or_first number first }
{
    match first {
        Some(first) => Some(first),
        None => Some(number),
    }
}

/// Notes the number at the node, if none is noted there.
fn note_first(empties: &mut Vec<Option<u32>>, node: u32, number: u32)
    requires { node < vec_len empties.old }
    ensures items { empties.new.items ≡ changed_at node (or_first number) empties.old.items }
    ensures len { vec_len empties.new ≡ vec_len empties.old }
    ensures capacity { vec_capacity empties.new ≡ vec_capacity empties.old }
{
    let place = node as usize;
    let first = or_first(number, empties[place]);
    empties[place] = first;
}

/// Notes the line's number at its home, if it states the empty clause and is the first line there that does.
fn note_empty(empties: &mut Vec<Option<u32>>, home: Option<u32>, line: &Line, number: u32)
    requires { IsHome (vec_len empties.old) home }
    ensures items { empties.new.items ≡ noted_empty home line.now number empties.old.items }
    ensures len { vec_len empties.new ≡ vec_len empties.old }
    ensures capacity { vec_capacity empties.new ≡ vec_capacity empties.old }
{
    if let Some(node) = home {
        if is_empty(&line.stated.clause) {
            note_first(empties, node, number);
        }
    }
}

/// Notes for each node the first of the lines that states the empty clause and has the node for its home, where there
/// is none yet. The first line has the number `first`.
pub fn note_empties(
    empties: &mut Vec<Option<u32>>,
    homes: &[Option<u32>],
    lines: &[Line],
    first: u32,
)
    requires each { length homes.now ≡ length lines.now }
    requires few { first + length lines.now ≤ 2 ^ 32 }
    requires there { AreHomes (vec_len empties.old) homes.now }
    ensures items { empties.new.items ≡ noted_empties homes.now lines.now first empties.old.items }
    ensures len { vec_len empties.new ≡ vec_len empties.old }
    ensures capacity { vec_capacity empties.new ≡ vec_capacity empties.old }
{
    for k in 0..lines.len() {
        note_empty(empties, homes[k], &lines[k], first + k as u32);
    }
}

impl NodeState {
    /// What is known of the node that the event names, after the event.
    fn after(self, event: &Event) -> NodeState
        requires { self.choices + 1 < 2 ^ 64 }
        ensures { result ≡ state_by event.now self }
    {
        match event {
            Event::Choose { clause, .. } => NodeState {
                leaf: self.leaf,
                chosen: Some(*clause),
                choices: self.choices + 1,
            },
            Event::Activate { .. } => NodeState {
                leaf: self.leaf,
                chosen: None,
                choices: self.choices,
            },
            Event::Split { .. } => NodeState {
                leaf: false,
                chosen: self.chosen,
                choices: self.choices,
            },
            _ => self,
        }
    }
}

impl Seat {
    /// What is known of the worker after an event of its own.
    fn after(self, event: &Event) -> Seat
        ensures { result ≡ seat_by event.now self }
    {
        Seat {
            claimed: event.claimed(self.claimed),
            stopped: event.is_stop() || self.stopped,
        }
    }
}

fn choices_of(event: &Event) -> u32
    ensures { result ≡ choices_of event.now }
{
    match event {
        Event::Choose { .. } => 1,
        _ => 0,
    }
}

fn splits_of(event: &Event) -> u32
    ensures { result ≡ splits_of event.now }
{
    match event {
        Event::Split { .. } => 1,
        _ => 0,
    }
}

fn or_else(first: Option<End>, later: Option<End>) -> Option<End>
    ensures { result ≡ or_else first later }
{
    match first {
        Some(end) => Some(end),
        None => later,
    }
}

impl Tally {
    /// The counts after the event.
    pub fn after(self, event: &Event) -> Tally
        requires counted { self.counted + count_of (lines_of event.now) < 2 ^ 32 }
        requires rounds { self.rounds + choices_of event.now < 2 ^ 32 }
        requires splits { self.splits + splits_of event.now < 2 ^ 32 }
        ensures { result ≡ tally_by event.now self }
    {
        Tally {
            counted: self.counted + count_of(event.lines()) as u32,
            rounds: self.rounds + choices_of(event),
            splits: self.splits + splits_of(event),
            end: or_else(self.end, event.end()),
        }
    }
}

/// Changes what is known of the node after the event.
fn change(states: &mut Vec<NodeState>, node: u32, event: &Event)
    requires there { node < vec_len states.old }
    requires few { HasFewChoices states.old.items }
    ensures items { states.new.items ≡ changed_at node (state_by event.now) states.old.items }
    ensures len { vec_len states.new ≡ vec_len states.old }
    ensures capacity { vec_capacity states.new ≡ vec_capacity states.old }
{
    let place = node as usize;
    let state = states[place].after(event);
    states[place] = state;
}

/// Adds two children of the node.
fn add_children(states: &mut Vec<NodeState>, node: u32)
    requires room { vec_len states.old + 2 ≤ vec_capacity states.old }
    requires there { node < vec_len states.old }
    ensures items { states.new.items ≡ with_children node states.old.items }
    ensures capacity { vec_capacity states.new ≡ vec_capacity states.old }
{
    let child = NodeState {
        leaf: true,
        chosen: None,
        choices: states[node as usize].choices,
    };
    states.push_reserved(child);
    states.push_reserved(child);
}

/// Changes what is known of the node that the event names, and adds its children.
pub fn note_node(states: &mut Vec<NodeState>, event: &Event)
    requires room { vec_len states.old + nodes_of event.now ≤ vec_capacity states.old }
    requires there { IsNodeOf event.now (vec_len states.old) }
    requires few { HasFewChoices states.old.items }
    ensures items { states.new.items ≡ states_by event.now states.old.items }
    ensures capacity { vec_capacity states.new ≡ vec_capacity states.old }
{
    match event {
        Event::Choose { node, .. } | Event::Activate { node } => change(states, *node, event),
        Event::Split { node, .. } => {
            change(states, *node, event);
            add_children(states, *node);
        }
        _ => {}
    }
}

/// Changes what is known of the worker that has appended the event.
pub fn note_seat(seats: &mut Vec<Seat>, by: u32, event: &Event)
    requires some { 1 ≤ by }
    requires there { by ≤ vec_len seats.old }
    ensures { seats.new.items ≡ changed_at (by - 1) (seat_by event.now) seats.old.items }
{
    let place = by as usize - 1;
    let seat = seats[place].after(event);
    seats[place] = seat;
}

/// Puts the two nodes from `count` on in the place of the leaf.
fn replace_leaf(leaves: &mut Vec<u32>, leaf: u32, count: u32)
    requires room { vec_len leaves.old + 1 ≤ vec_capacity leaves.old }
    requires few { count + 1 < 2 ^ 32 }
    ensures items { leaves.new.items ≡ replaced leaf count leaves.old.items }
    ensures capacity { vec_capacity leaves.new ≡ vec_capacity leaves.old }
    ensures len { vec_len leaves.new ≤ vec_len leaves.old + 1 }
{
    for place in 0..leaves.len() {
        if leaves[place] == leaf {
            leaves[place] = count;
            insert_reserved(leaves, place + 1, count + 1);
            return;
        }
    }
}

/// Puts an item into the place; those from there on move up.
fn insert_reserved(items: &mut Vec<u32>, place: usize, item: u32)
    requires room { vec_len items.old + 1 ≤ vec_capacity items.old }
    requires place { place ≤ vec_len items.old }
    ensures items { items.new.items ≡ insert items.old.items place item }
    ensures capacity { vec_capacity items.new ≡ vec_capacity items.old }
    ensures len { vec_len items.new ≡ vec_len items.old + 1 }
{
    match items.insert(place, item) {
        Ok(()) => {}
        Err(_) => unreachable!(),
    }
}

/// Puts the nodes that the event makes in the place of the one that it splits.
pub fn note_leaves(leaves: &mut Vec<u32>, event: &Event, count: u32)
    requires room { vec_len leaves.old + splits_of event.now ≤ vec_capacity leaves.old }
    requires few { count + nodes_of event.now < 2 ^ 32 }
    ensures items { leaves.new.items ≡ leaves_by event.now count leaves.old.items }
    ensures capacity { vec_capacity leaves.new ≡ vec_capacity leaves.old }
    ensures len { vec_len leaves.new ≤ vec_len leaves.old + splits_of event.now }
{
    if let Event::Split { node, .. } = event {
        replace_leaf(leaves, *node, count);
    }
}

/// Adds how many symbols the clause of each line has.
pub fn add_weights(list: &mut Vec<u64>, lines: &[Line])
    requires room { vec_len list.old + length lines.now ≤ vec_capacity list.old }
    requires small { AreSmall lines.now }
    ensures items { list.new.items ≡ list.old.items ++ weights lines.now }
    ensures capacity { vec_capacity list.new ≡ vec_capacity list.old }
{
    for k in 0..lines.len() {
        list.push_reserved(symbols_of(&lines[k].stated.clause));
    }
}

/// Adds the clause that was activated or split, if any.
pub fn add_retired(list: &mut Vec<Retired>, retired: Option<Retired>)
    requires { vec_len list.old + length (pushed [] retired) ≤ vec_capacity list.old }
    ensures items { list.new.items ≡ pushed list.old.items retired }
    ensures len { vec_len list.new ≡ vec_len list.old + length (pushed [] retired) }
    ensures capacity { vec_capacity list.new ≡ vec_capacity list.old }
{
    if let Some(retired) = retired {
        list.push_reserved(retired);
    }
}

/// Notes that the newest record of the clause that was activated or split, if any, has this place.
pub fn note_newest(newest: &mut Vec<Option<usize>>, retired: Option<Retired>, place: usize)
    requires { IsNumbered retired (vec_len newest.old) }
    ensures items { newest.new.items ≡ with_retired retired place newest.old.items }
    ensures len { vec_len newest.new ≡ vec_len newest.old }
    ensures capacity { vec_capacity newest.new ≡ vec_capacity newest.old }
{
    if let Some(Retired { clause, .. }) = retired {
        newest[clause as usize - 1] = Some(place);
    }
}
