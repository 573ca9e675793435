//! The events of a journal, the limits of a run, and why proving ends.
ghost use Rattle.std.specs.Prelude.{◌≡◌, ◌<◌, length, slice_get, Some};
ghost use Rattle.case_journal.specs.Journal.{IsSmall, lines_of, is_counted, count_of};
ghost use Rattle.case_journal.specs.Paths.{subject};
ghost use Rattle.case_journal.specs.Facts.{is_stop, claimed_by};
ghost use Rattle.case_journal.specs.Ending.{ends_contradictory, end_by};

use proof_steps::{Line, Rule, is_contradiction};
use spl_terms::Items;

/// How much a run may spend.
#[derive(Clone, Copy, PartialEq, Eq, Debug)]
pub struct Limits {
    /// How many clauses may be chosen.
    pub rounds: u32,
    /// How many steps may be published; input steps and the steps that close cases are not counted.
    pub steps: u32,
    /// How many clauses may be split.
    pub splits: u32,
}

impl Limits {
    /// The law that the limits are numbers of 32 bits, which does nothing when it runs.
    pub fn fit(&self)
        ensures { IsSmall self.now }
    {
        let (_rounds, _steps, _splits) = (self.rounds, self.steps, self.splits);
    }
}

/// What a worker may append to the journal. Nodes are numbered from 0, the root; clauses and workers from 1.
///
/// The loop of chosen and worked clauses, and the splitting of clauses into cases, are those of Weidenbach 2001, the
/// section on the main loop and the splitting rule; that several workers share the tree of cases is this project's own.
#[derive(Debug, Drop)]
pub enum Event {
    /// The worker takes the node, which is a leaf.
    Claim {
        node: u32,
    },
    /// The clause is chosen at the node. No literal is selected yet.
    Choose {
        node: u32,
        clause: u32,
        selected: Option<usize>,
    },
    /// The steps of the chain are added to the ledger, and the last one's clause is listed at the node. Whether it is
    /// put off is false for now.
    Publish {
        node: u32,
        chain: Items<Line>,
        put_off: bool,
    },
    /// The node gets two children: the first step's clause is listed at the left one, which has the next number, and
    /// those of the others at the right one. Whether each is put off is false for now.
    Split {
        node: u32,
        steps: Items<Line>,
        put_off: Items<bool>,
    },
    /// The chosen clause has been worked off at the node.
    Activate {
        node: u32,
    },
    /// Nothing is left to choose at the node: the case is complete.
    Saturated {
        node: u32,
    },
    /// As many clauses were chosen as may be.
    Spent {
        node: u32,
    },
    /// An inference of the chosen clause with the partner has more than 4,096 symbols; `symbols` is their number, or
    /// 1,000,000 where there are more.
    Big {
        node: u32,
        partner: u32,
        symbols: u64,
    },
    /// The steps of the chain would pass the number of steps that may be published.
    Full {
        node: u32,
        chain: Items<Line>,
    },
    /// The worker stops; it is meant for one that found no memory.
    Stop,
}

/// An event, and the worker that appended it, from 1.
#[derive(Debug, Drop)]
pub struct Entry {
    pub by: u32,
    pub event: Event,
}

/// Why proving ended.
#[derive(Clone, Copy, PartialEq, Eq, Debug)]
pub enum End {
    /// An empty clause depends on no assumption.
    Proved,
    /// The case at this node, from 0, is complete.
    Completed { node: u32 },
    /// As many clauses were chosen as may be.
    Rounds,
    /// The next steps would pass the number of steps that may be published.
    Steps,
    /// An inference has more than 4,096 symbols: their number, or 1,000,000 where there are more.
    Size { symbols: u64 },
    /// A worker found no memory.
    Memory,
}

fn is_counted(rule: &Rule) -> bool
    ensures { result ≡ is_counted rule.now }
{
    !matches!(
        rule,
        Rule::Input { .. } | Rule::CaseLeft | Rule::CaseRight | Rule::CaseBoth
    )
}

/// How many of the steps count against the limit.
pub fn count_of(lines: &[Line]) -> usize
    ensures { result ≡ count_of lines.now }
{
    let mut count = 0;
    for line in lines {
        if is_counted(&line.step.rule) {
            count += 1;
        }
    }
    count
}

fn ends_contradictory(lines: &[Line]) -> bool
    ensures { result ≡ ends_contradictory lines.now }
{
    match lines.last() {
        Some(last) => is_contradiction(&last.stated),
        None => false,
    }
}

/// The clause that the steps of a Split are about, from 1; 0 where there are no steps.
pub fn subject(lines: &[Line]) -> u32
    ensures { result ≡ subject lines.now }
{
    match lines {
        [] => 0,
        [first, ..] => match first.step.parents.as_slice() {
            [] => 0,
            [number, ..] => *number,
        },
    }
}

impl Event {
    /// The steps that the event adds to the ledger.
    pub fn lines(&self) -> &[Line]
        ensures { result.now ≡ lines_of self.now }
    {
        match self {
            Event::Publish { chain, .. } => chain.as_slice(),
            Event::Split { steps, .. } => steps.as_slice(),
            _ => &[],
        }
    }

    /// The step at this place of those that the event adds, from 0.
    pub fn line(&self, place: usize) -> &Line
        requires { place < length (lines_of self.now) }
        ensures { slice_get (lines_of self.now) place ≡ Some result.now }
    {
        &self.lines()[place]
    }

    /// Whether a worker stops.
    pub fn is_stop(&self) -> bool
        ensures { result ≡ is_stop self.now }
    {
        matches!(self, Event::Stop)
    }

    /// The node that a worker has claimed last, after this event of its own.
    pub fn claimed(&self, earlier: Option<u32>) -> Option<u32>
        ensures { result ≡ claimed_by self.now earlier }
    {
        match self {
            Event::Claim { node } => Some(*node),
            _ => earlier,
        }
    }

    /// Why the event ends the journal, if it does.
    pub fn end(&self) -> Option<End>
        ensures { result ≡ end_by self.now }
    {
        match self {
            Event::Publish { chain, .. } => {
                if ends_contradictory(chain.as_slice()) {
                    Some(End::Proved)
                } else {
                    None
                }
            }
            Event::Saturated { node } => Some(End::Completed { node: *node }),
            Event::Spent { .. } => Some(End::Rounds),
            Event::Big { symbols, .. } => Some(End::Size { symbols: *symbols }),
            Event::Full { .. } => Some(End::Steps),
            Event::Stop => Some(End::Memory),
            _ => None,
        }
    }
}
