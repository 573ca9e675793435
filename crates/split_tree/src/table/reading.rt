//! What the table says of its journal. Nothing here takes memory.
ghost use Rattle.std.specs.Prelude.{◌≡◌, ℕ, ◌+◌, ◌<◌, ◌≤◌, ◌||◌, if◌then◌else◌, IfSome, MatchBool, MatchOption, length, option_map, reverse, slice_get, Some};
ghost use Rattle.spl_truth.specs.Picking.{better};
ghost use Rattle.proof_steps.specs.declared.step.Line.{Line};
ghost use Rattle.proof_steps.specs.Steps.{numbered};
ghost use Rattle.case_journal.specs.Journal.{ledger, nodes, steps, counted, rounds, splits};
ghost use Rattle.case_journal.specs.Paths.{on_path, branch, owner, is_leaf, leaves};
ghost use Rattle.case_journal.specs.Facts.{listed, kept, worked, split, chosen, claimed, IsDead, IsLive, Holds};
ghost use Rattle.case_journal.specs.Picking.{is_passive, choices, weighed, pick_at};
ghost use Rattle.case_journal.specs.Ending.{reason};
ghost use Rattle.case_journal.specs.Legal.{IsClaimable, IsNextClaim, IsFirstEmpty};
ghost use Rattle.split_tree.specs.Caches.{at_home, homes, own_empty, smaller};

use super::Table;
use case_journal::{Branch, End, Event, Limits};
use dep_sets::{Assumption, Deps};
use proof_steps::Line;
use spl_terms::Clause;
use spl_truth::{Candidate, better, is_fifth};

// ---- the journal

impl Table {
    /// How many events the journal has.
    pub fn events(&self) -> u64
        ensures { result ≡ length self.now.past }
    {
        self.journal.len() as u64
    }

    /// The event at this place of the journal, from 0, with the worker that appended it.
    pub fn event(&self, at: u64) -> (u32, &Event)
        requires { at < length self.now.past }
        ensures { slice_get (reverse self.now.past) at ≡ Some (record { by = result.0; event = result.1.now }) }
    {
        let entry = &self.journal[at as usize];
        (entry.by, &entry.event)
    }

    /// The input clauses.
    pub fn input(&self) -> &[Clause]
        ensures { result.now ≡ self.now.setting.input }
    {
        self.input.as_slice()
    }

    /// The limits.
    pub fn limits(&self) -> Limits
        ensures { result ≡ self.now.setting.limits }
    {
        self.limits
    }

    /// The number of workers.
    pub fn workers(&self) -> u32
        ensures { result ≡ self.now.setting.workers }
    {
        self.workers
    }

    /// How many counted steps the ledger has: all but those of the input and those that close cases.
    pub fn counted(&self) -> u32
        ensures { result ≡ counted self.now.past }
    {
        self.tally.counted
    }

    /// How many Choose events the journal has.
    pub fn rounds(&self) -> u32
        ensures { result ≡ rounds self.now.past }
    {
        self.tally.rounds
    }

    /// How many Split events the journal has.
    pub fn splits(&self) -> u32
        ensures { result ≡ splits self.now.past }
    {
        self.tally.splits
    }

    /// Why proving ended, by the first event that ends the journal; at once where the input has an empty clause.
    pub fn reason(&self) -> Option<End>
        ensures { result ≡ reason self.now.setting self.now.past }
    {
        if self.refuted {
            Some(End::Proved)
        } else {
            self.tally.end
        }
    }
}

// ---- the ledger

impl Table {
    /// How many steps the ledger has.
    pub fn steps(&self) -> u32
        ensures { result ≡ steps self.now.setting self.now.past }
    {
        self.homes.len() as u32
    }

    /// The line of the ledger with this number, from 1.
    pub fn line(&self, number: u32) -> &Line
        requires some { 1 ≤ number }
        requires there { number ≤ steps self.now.setting self.now.past }
        ensures { numbered (ledger self.now.setting self.now.past) number ≡ Some result.now }
    {
        let at = number as usize - 1;
        let opening = self.opening.as_slice();
        if at < opening.len() {
            return &opening[at];
        }
        let spot = self.spots[at - opening.len()];
        let entry = &self.journal[spot.event];
        entry.event.line(spot.place)
    }
}

// ---- nodes

impl Table {
    /// How many nodes there are.
    pub fn nodes(&self) -> u32
        ensures { result ≡ nodes self.now.past }
    {
        self.branches.len() as u32
    }

    fn branch(&self, node: u32) -> Option<Branch>
        requires { node < nodes self.now.past }
        ensures { result ≡ branch self.now.past node }
    {
        self.branches[node as usize]
    }

    /// The node's parent; none exactly at the root.
    pub fn parent(&self, node: u32) -> Option<u32>
        requires { node < nodes self.now.past }
        ensures { result ≡ option_map (λ b. b.parent) (branch self.now.past node) }
    {
        match self.branch(node) {
            Some(branch) => Some(branch.parent),
            None => None,
        }
    }

    /// The assumption of the node; none exactly at the root.
    pub fn assumption(&self, node: u32) -> Option<Assumption>
        requires { node < nodes self.now.past }
        ensures { result ≡ option_map (λ b. b.assumed) (branch self.now.past node) }
    {
        match self.branch(node) {
            Some(branch) => Some(branch.assumed),
            None => None,
        }
    }

    /// Whether the node has not been split.
    pub fn leaf(&self, node: u32) -> bool
        requires { node < nodes self.now.past }
        ensures { result ≡ is_leaf self.now.past node }
    {
        self.states[node as usize].leaf
    }

    /// The clause that is chosen at the node.
    pub fn chosen(&self, node: u32) -> Option<u32>
        requires { node < nodes self.now.past }
        ensures { result ≡ chosen self.now.past node }
    {
        self.states[node as usize].chosen
    }

    /// Whether the second node is on the path from the root to the first.
    pub fn on_path(&self, node: u32, above: u32) -> bool
        requires { node < nodes self.now.past }
        ensures { result ≡ on_path self.now.past node above }
    {
        let mut at = node;
        while at != above {
            match self.branches[at as usize] {
                Some(branch) => at = branch.parent,
                None => return false,
            }
        }
        true
    }
}

// ---- owners

impl Table {
    /// The deepest node of the path whose assumption is one of these; the root where there is none.
    pub fn owner(&self, node: u32, deps: &Deps) -> u32
        requires { node < nodes self.now.past }
        ensures { result ≡ owner self.now.past deps.now node }
    {
        self.journal_is_legal();
        let mut at = node;
        while at != 0 {
            let Some(branch) = self.branch(at) else {
                return 0;
            };
            if deps.contains(branch.assumed) {
                return at;
            }
            at = branch.parent;
        }
        0
    }
}

// ---- clauses at a node

/// The smaller number of two, as far as there are some.
fn smaller(first: Option<u32>, second: Option<u32>) -> Option<u32>
    ensures { result ≡ smaller first second }
{
    match (first, second) {
        (Some(first), Some(second)) => Some(first.min(second)),
        (None, second) => second,
        (first, None) => first,
    }
}

impl Table {
    /// The node, from 0, where the clause was published or assumed, the root for an input clause; none for a clause
    /// within a chain. The clause is listed where that node is on the path.
    pub fn home(&self, clause: u32) -> Option<u32>
        requires some { 1 ≤ clause }
        requires there { clause ≤ steps self.now.setting self.now.past }
        ensures lists { (m : ℕ) → m < nodes self.now.past → listed self.now.setting self.now.past m clause
            ≡ at_home (on_path self.now.past m) result }
        ensures node { IfSome result (λ home. home < nodes self.now.past) }
    {
        self.homes[clause as usize - 1]
    }

    /// Whether the clause is listed at the node.
    pub fn listed(&self, node: u32, clause: u32) -> bool
        requires node { node < nodes self.now.past }
        requires some { 1 ≤ clause }
        requires there { clause ≤ steps self.now.setting self.now.past }
        ensures { result ≡ listed self.now.setting self.now.past node clause }
    {
        match self.home(clause) {
            Some(home) => self.on_path(node, home),
            None => false,
        }
    }

    /// Whether the clause is kept at the node.
    pub fn kept(&self, node: u32, clause: u32) -> bool
        requires node { node < nodes self.now.past }
        requires some { 1 ≤ clause }
        requires there { clause ≤ steps self.now.setting self.now.past }
        ensures { result ≡ kept self.now.setting self.now.past node clause }
    {
        self.listed(node, clause)
    }

    /// The first empty clause that was published or assumed at the node itself.
    fn own_empty(&self, node: u32) -> Option<u32>
        requires { node < nodes self.now.past }
        ensures { result ≡ own_empty node 1 (homes self.now.setting self.now.past)
            (ledger self.now.setting self.now.past) }
    {
        self.empties[node as usize]
    }

    /// The empty clause with the smallest number that is listed at the node; none exactly where the node is live.
    pub fn first_empty(&self, node: u32) -> Option<u32>
        requires { node < nodes self.now.past }
        ensures { MatchOption result (IsLive self.now.setting self.now.past node)
            (λ n. IsFirstEmpty self.now.setting self.now.past node n) }
    {
        self.journal_is_legal();
        let mut first = None;
        let mut at = node;
        loop {
            first = smaller(first, self.own_empty(at));
            match self.branch(at) {
                Some(branch) => at = branch.parent,
                None => return first,
            }
        }
    }

    /// Whether no empty clause is listed at the node.
    pub fn live(&self, node: u32) -> bool
        requires { node < nodes self.now.past }
        ensures { MatchBool result (IsLive self.now.setting self.now.past node)
            (IsDead self.now.setting self.now.past node) }
    {
        self.first_empty(node).is_none()
    }
}

// ---- workers

impl Table {
    /// The node of the worker's last Claim.
    fn claimed(&self, worker: u32) -> Option<u32>
        requires some { 1 ≤ worker }
        requires there { worker ≤ self.now.setting.workers }
        ensures { result ≡ claimed self.now.past worker }
    {
        self.seats[worker as usize - 1].claimed
    }

    /// The node that the worker holds: that of its last Claim, while it is live and a leaf.
    pub fn held(&self, worker: u32) -> Option<u32>
        requires some { 1 ≤ worker }
        requires there { worker ≤ self.now.setting.workers }
        ensures { MatchOption result ((m : ℕ) → ¬ Holds self.now.setting self.now.past worker m)
            (λ m. Holds self.now.setting self.now.past worker m) }
    {
        self.journal_is_legal();
        match self.claimed(worker) {
            None => None,
            Some(node) => {
                if self.leaf(node) && self.live(node) {
                    Some(node)
                } else {
                    None
                }
            }
        }
    }

    /// Whether the node is that of no worker's last Claim.
    fn unclaimed(&self, node: u32) -> bool
        ensures { MatchBool result
            ((w : ℕ) → 1 ≤ w → w ≤ self.now.setting.workers → ¬ (claimed self.now.past w ≡ Some node))
            ((w : ℕ) × (claimed self.now.past w ≡ Some node)) }
    {
        for k in 0..self.workers() {
            if self.claimed(k + 1) == Some(node) {
                return false;
            }
        }
        true
    }

    /// Whether the node is a live leaf that nobody holds.
    fn claimable(&self, node: u32) -> bool
        requires { node < nodes self.now.past }
        ensures { MatchBool result (IsClaimable self.now.setting self.now.past node)
            (¬ IsClaimable self.now.setting self.now.past node) }
    {
        self.journal_is_legal();
        if !self.leaf(node) {
            return false;
        }
        if !self.live(node) {
            return false;
        }
        self.unclaimed(node)
    }

    /// How many leaves there are.
    fn leaf_count(&self) -> usize
        ensures { result ≡ length (leaves self.now.past) }
    {
        self.leaves.len()
    }

    /// The leaf at this place from the left, from 0.
    fn leaf_at(&self, place: usize) -> u32
        requires { place < length (leaves self.now.past) }
        ensures found { slice_get (leaves self.now.past) place ≡ Some result }
        ensures there { result < nodes self.now.past }
    {
        self.leaves[place]
    }

    /// The leftmost live leaf that nobody holds; none exactly where there is none.
    pub fn claim_next(&self) -> Option<u32>
        ensures { MatchOption result ((m : ℕ) → ¬ IsClaimable self.now.setting self.now.past m)
            (λ m. IsNextClaim self.now.setting self.now.past m) }
    {
        self.journal_is_legal();
        for place in 0..self.leaf_count() {
            let node = self.leaf_at(place);
            if self.claimable(node) {
                return Some(node);
            }
        }
        None
    }
}

// ---- the pick

impl Table {
    /// Whether the clause was activated or split at a node of the path, by a look at the nodes where it was.
    fn is_retired(&self, node: u32, clause: u32) -> bool
        requires node { node < nodes self.now.past }
        requires some { 1 ≤ clause }
        requires there { clause ≤ steps self.now.setting self.now.past }
        ensures { result ≡ (worked self.now.past node clause || split self.now.past node clause) }
    {
        let mut next = self.newest[clause as usize - 1];
        while let Some(place) = next {
            let retired = self.retired[place];
            if self.on_path(node, retired.node) {
                return true;
            }
            next = retired.older;
        }
        false
    }

    /// Whether the clause is passive at the node.
    pub fn passive(&self, node: u32, clause: u32) -> bool
        requires node { node < nodes self.now.past }
        requires some { 1 ≤ clause }
        requires there { clause ≤ steps self.now.setting self.now.past }
        ensures { result ≡ is_passive self.now.setting self.now.past node clause }
    {
        self.kept(node, clause) && !self.is_retired(node, clause)
    }

    /// How many clauses were chosen at nodes of the path.
    pub fn choices(&self, node: u32) -> usize
        requires { node < nodes self.now.past }
        ensures { result ≡ choices self.now.past node }
    {
        self.states[node as usize].choices
    }

    /// The clause with its size, as the pick rule sees it.
    fn weighed(&self, clause: u32) -> Candidate
        requires some { 1 ≤ clause }
        requires there { clause ≤ steps self.now.setting self.now.past }
        ensures { (l : Line) → numbered (ledger self.now.setting self.now.past) clause ≡ Some l
            → result ≡ weighed clause l }
    {
        Candidate {
            number: clause,
            symbols: self.weights[clause as usize - 1],
        }
    }

    /// The better one of the best so far and the clause, if it is passive at the node.
    fn picked(
        &self,
        by_age: bool,
        best: Option<Candidate>,
        node: u32,
        clause: u32,
    ) -> Option<Candidate>
        requires node { node < nodes self.now.past }
        requires some { 1 ≤ clause }
        requires there { clause ≤ steps self.now.setting self.now.past }
        ensures { (l : Line) → numbered (ledger self.now.setting self.now.past) clause ≡ Some l
            → result ≡ (if is_passive self.now.setting self.now.past node clause then better by_age best (weighed clause l) else best) }
    {
        if self.passive(node, clause) {
            better(by_age, best, self.weighed(clause))
        } else {
            best
        }
    }

    /// The clause that is to be chosen next at the node; none where nothing is passive there.
    ///
    /// This is the plain slow call, whose contract is the definition: it goes over the numbers of all clauses. A worker
    /// keeps a queue of its own instead.
    pub fn pick(&self, node: u32) -> Option<u32>
        requires { node < nodes self.now.past }
        ensures { result ≡ pick_at self.now.setting self.now.past node }
    {
        let by_age = is_fifth(self.choices(node));
        let mut best = None;
        for k in 0..self.steps() {
            best = self.picked(by_age, best, node, k + 1);
        }
        match best {
            Some(best) => Some(best.number),
            None => None,
        }
    }
}
