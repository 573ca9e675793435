//! What a worker computes in a round.
ghost use Rattle.std.specs.Prelude.{◌≡◌, ℕ, ◌<◌, ◌≤◌, OnOk, IfOk, IfErr, IsSome, Some, Contains, [], length, map, option_to_list};
ghost use Rattle.case_view.specs.declared.kept.Kept.{Kept};
ghost use Rattle.case_rounds.specs.Rounds.{Extends, IsPremiseOf, IsPairOf, IsPremiseAt, IsRound, AreLinesOf, Covers, IsFinishOf, IsHaltOf};
ghost use Rattle.case_rounds.specs.Events.{publication_of, AreLastOf, AreEventsOf, IsBatchOf};

use crate::belonging::owner_on;
use crate::halt::Halt;
use crate::inferring::inferences;
use crate::keeping::keep_all;
use crate::round_lines::RoundLines;
use case_journal::{Event, Limits};
use case_view::{CaseView, Kept};
use clause_splitting::split_event;
use proof_steps::{Line, Parts, split_of};
use spl_terms::Items;
use std::alloc::{AllocError, Global};

/// How a round ends.
#[derive(Debug, Drop)]
pub enum Finish {
    /// The last line states the empty clause.
    Closed,
    /// A conclusion of the given clause with the clause of this number, from 1, has more than 4,096 symbols: their
    /// number, or 1,000,000 where there are more.
    Big { partner: u32, symbols: u64 },
    /// The given clause is split.
    Split { parts: Parts },
    /// All inferences of the given clause are covered by what is listed and by the lines.
    Activate,
}

/// What a worker computed in a round: the events that it may append, whatever others append meanwhile. First come the
/// publications; the last event finishes the round.
#[derive(Debug, Drop)]
pub struct Batch {
    /// How many steps the ledger had, over which it was computed: its own steps are numbered from the next number on.
    pub base: u32,
    /// The events, in the order in which they are to be appended.
    pub events: Items<Event>,
}

/// Infers all from the given clause and another one.
fn cover_pair(
    alloc: Global,
    view: &CaseView,
    lines: &mut RoundLines,
    given: &Kept,
    other: &Kept,
) -> Result<(), Halt>
    requires round { IsRound view.now lines.old }
    requires given { view.now.given ≡ Some given.now }
    requires other { IsPremiseOf view.now other.now }
    ensures round { OnOk result (IsRound view.now lines.new) }
    ensures extends { OnOk result (Extends lines.old lines.new) }
    ensures first { OnOk result (Covers view.now lines.new given.now other.now) }
    ensures second { OnOk result (Covers view.now lines.new other.now given.now) }
    ensures halt { IfErr result (IsHaltOf view.now lines.new) }
{
    let made = inferences(alloc, other.number, given, other)?;
    keep_all(view, lines, made)?;
    let back = inferences(alloc, other.number, other, given)?;
    keep_all(view, lines, back)?;
    Ok(())
}

/// The clause at this place, from 0, of those with which the given clause is tried: itself, and behind it the clauses that
/// are worked off and may be its partners.
fn premise_at<'a>(view: &'a CaseView, given: &'a Kept, partners: &[u32], place: usize) -> &'a Kept
    requires there { place ≤ length partners.now }
    requires worked { (n : ℕ) → Contains partners.now n → n < length view.now.worked }
    ensures { IsPremiseAt view.now given.now partners.now place result.now }
{
    if place == 0 {
        return given;
    }
    &view.worked()[partners[place - 1] as usize]
}

/// Infers all from the given clause with itself and with each clause that is worked off and may be its partner.
fn cover_all(
    alloc: Global,
    view: &CaseView,
    lines: &mut RoundLines,
    given: &Kept,
) -> Result<(), Halt>
    requires none { lines.old ≡ [] }
    requires given { view.now.given ≡ Some given.now }
    ensures round { OnOk result (IsRound view.now lines.new) }
    ensures covers { OnOk result ((p q : Kept) → IsPairOf view.now p q → Covers view.now lines.new p q) }
    ensures halt { IfErr result (IsHaltOf view.now lines.new) }
{
    let partners = view.partners()?;
    for place in 0..partners.len() + 1 {
        let other = premise_at(view, given, partners.as_slice(), place);
        cover_pair(alloc, view, lines, given, other)?;
    }
    Ok(())
}

/// Splits the given clause where it has parts and splits are left, else infers all from it, and says how the round is
/// finished.
fn finish_round(
    alloc: Global,
    view: &CaseView,
    limits: &Limits,
    lines: &mut RoundLines,
) -> Result<Finish, AllocError>
    requires given { IsSome view.now.given }
    requires none { lines.old ≡ [] }
    ensures lines { OnOk result (AreLinesOf view.now lines.new) }
    ensures finish { IfOk result (λ finish. IsFinishOf limits.now.splits view.now lines.new finish) }
{
    let given = view.given().unwrap();
    if view.splits() < limits.splits {
        if let Some(parts) = split_of(alloc, &given.stated.clause)? {
            return Ok(Finish::Split { parts });
        }
    }
    match cover_all(alloc, view, lines, given) {
        Ok(()) => Ok(Finish::Activate),
        Err(Halt::Closed) => Ok(Finish::Closed),
        Err(Halt::Big { partner, symbols }) => Ok(Finish::Big { partner, symbols }),
        Err(Halt::Memory) => Err(AllocError),
    }
}

/// The publication of the line at the node of the path where it belongs.
fn publication(alloc: Global, view: &CaseView, line: Line) -> Result<Event, AllocError>
    ensures { IfOk result (λ event. event ≡ publication_of view.now line) }
{
    let node = owner_on(view.nodes(), view.path(), &line.stated.deps);
    let mut chain = Items::with_room(alloc, 1)?;
    chain.push(line)?;
    let put_off = false;
    Ok(Event::Publish {
        node,
        chain,
        put_off,
    })
}

/// The event that finishes the round after the publications, if there is one.
fn last_event(alloc: Global, view: &CaseView, finish: Finish) -> Result<Option<Event>, AllocError>
    requires { IsSome view.now.given }
    ensures { IfOk result (λ last. AreLastOf view.now finish (option_to_list last)) }
{
    let node = view.node();
    match finish {
        Finish::Closed => Ok(None),
        Finish::Big { partner, symbols } => Ok(Some(Event::Big {
            node,
            partner,
            symbols,
        })),
        Finish::Split { parts } => {
            let clause = view.given().unwrap().number;
            Ok(Some(split_event(alloc, node, clause, &parts)?))
        }
        Finish::Activate => Ok(Some(Event::Activate { node })),
    }
}

/// The events that publish the lines, with room for one more.
fn publications(
    alloc: Global,
    view: &CaseView,
    lines: Items<Line>,
) -> Result<Items<Event>, AllocError>
    ensures { IfOk result (λ events. events ≡ map (publication_of view.now) lines) }
{
    let mut events = Items::with_room(alloc, lines.len().saturating_add(1))?;
    for line in lines.into_vec() {
        events.push(publication(alloc, view, line)?)?;
    }
    Ok(events)
}

/// The events that publish the lines and finish the round.
fn events_of(
    alloc: Global,
    view: &CaseView,
    lines: Items<Line>,
    finish: Finish,
) -> Result<Items<Event>, AllocError>
    requires { IsSome view.now.given }
    ensures { IfOk result (AreEventsOf view.now lines finish) }
{
    let mut events = publications(alloc, view, lines)?;
    let last = last_event(alloc, view, finish)?;
    if let Some(event) = last {
        events.push(event)?;
    }
    Ok(events)
}

/// Computes a round of the case: splits the given clause where it has parts and splits are left, else infers all from
/// it and the clauses that are worked off, and keeps what is new (the main loop of Weidenbach 2001). It sees no table:
/// what it answers may be published whatever other workers append meanwhile (`rounds_can_be_appended`, `rounds_wait`).
///
/// # Errors
///
/// Only where there is no memory.
pub fn compute_round(alloc: Global, view: &CaseView, limits: &Limits) -> Result<Batch, AllocError>
    requires { IsSome view.now.given }
    ensures { IfOk result (IsBatchOf limits.now.splits view.now) }
{
    let mut lines = RoundLines::new(alloc);
    let finish = finish_round(alloc, view, limits, &mut lines)?;
    let events = events_of(alloc, view, lines.into_items(), finish)?;
    Ok(Batch {
        base: view.base(),
        events,
    })
}
