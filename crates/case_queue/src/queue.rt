//! Adding clauses to the queue, and taking out of it what is chosen next.
ghost use Rattle.std.specs.Prelude.{◌≡◌, ℕ, ◌-◌, ◌<◌, ◌≤◌, true, false, [], MatchOption, OnOk};
ghost use Rattle.case_journal.specs.Journal.{nodes, steps};
ghost use Rattle.case_journal.specs.Picking.{pick_at};
ghost use Rattle.case_queue.specs.Queues.{entries, best_by, AreOfLedger, HasFirst, HasQueue, HasPassive, IsPut, IsTop};

use spl_terms::symbols_of;
use spl_truth::is_fifth;
use split_tree::Table;
use std::alloc::{AllocError, Global};
use std::cmp::Reverse;
use std::collections::BinaryHeap;

/// The clauses that may be chosen next at one node.
#[derive(Debug, Drop)]
pub struct CaseQueue {
    /// Symbols and number of clauses, from 1, the lightest first: all that are passive, and some that no longer are.
    lightest: BinaryHeap<Reverse<(u64, u32)>>,
    /// No clause with a smaller number is passive.
    oldest: u32,
}

impl CaseQueue {
    /// An empty queue; it takes no memory.
    pub fn new(alloc: Global) -> CaseQueue
        ensures { entries result ≡ [] }
    {
        CaseQueue {
            lightest: BinaryHeap::new(alloc),
            oldest: 1,
        }
    }

    /// Makes it the queue of each node where all passive clauses are among those with these numbers, from 1, in any order.
    /// Whatever was in it goes, and its memory is kept. It takes a look at each of the numbers.
    ///
    /// # Errors
    ///
    /// Only where there is no memory; then it is no node's queue.
    pub fn fill(&mut self, table: &Table, numbers: &[u32]) -> Result<(), AllocError>
        requires { AreOfLedger table.now.setting table.now.past numbers.now }
        ensures queue { OnOk result ((m : ℕ) → HasPassive table.now.setting table.now.past m numbers.now
            → HasQueue table.now.setting table.now.past m self.new) }
    {
        self.lightest.clear();
        self.oldest = table.steps().max(1);
        for k in 0..numbers.len() {
            self.put(table, numbers[k])?;
        }
        Ok(())
    }

    /// Adds the clause with this number, from 1, if it is passive at the node, where those before it have been added.
    ///
    /// # Errors
    ///
    /// Only where there is no memory; then it has to be filled again.
    pub fn add(&mut self, table: &Table, node: u32, number: u32) -> Result<(), AllocError>
        requires there { node < nodes table.now.past }
        requires some { 1 ≤ number }
        requires within { number ≤ steps table.now.setting table.now.past }
        requires first { HasFirst table.now.setting table.now.past node (number - 1) self.old }
        ensures first { OnOk result (HasFirst table.now.setting table.now.past node number self.new) }
    {
        if !table.passive(node, number) {
            return Ok(());
        }
        self.put(table, number)?;
        Ok(())
    }

    /// Adds the clause with this number, from 1.
    fn put(&mut self, table: &Table, number: u32) -> Result<(), AllocError>
        requires some { 1 ≤ number }
        requires within { number ≤ steps table.now.setting table.now.past }
        ensures { OnOk result (IsPut table.now.setting table.now.past number self.old self.new) }
    {
        table.laws();
        let symbols = symbols_of(&table.line(number).stated.clause);
        self.lightest.push(Reverse((symbols, number)))?;
        self.oldest = self.oldest.min(number);
        Ok(())
    }

    /// The clause that is to be chosen next at the node; none where nothing is passive there. It takes no memory.
    pub fn pick(&mut self, table: &Table, node: u32) -> Option<u32>
        requires there { node < nodes table.now.past }
        requires queue { HasQueue table.now.setting table.now.past node self.old }
        ensures pick { result ≡ pick_at table.now.setting table.now.past node }
        ensures queue { HasQueue table.now.setting table.now.past node self.new }
    {
        if is_fifth(table.choices(node)) {
            self.first_oldest(table, node)
        } else {
            self.first_lightest(table, node)
        }
    }

    /// The passive clause with the smallest number.
    fn first_oldest(&mut self, table: &Table, node: u32) -> Option<u32>
        requires there { node < nodes table.now.past }
        requires queue { HasQueue table.now.setting table.now.past node self.old }
        ensures pick { result ≡ best_by true table.now.setting table.now.past node }
        ensures queue { HasQueue table.now.setting table.now.past node self.new }
    {
        for number in self.oldest..=table.steps() {
            self.oldest = number;
            if table.passive(node, number) {
                return Some(number);
            }
        }
        None
    }

    /// The number of the clause at the top of the heap.
    fn top(&self) -> Option<u32>
        ensures { MatchOption result (entries self.now ≡ []) (λ n. IsTop self.now n) }
    {
        match self.lightest.peek() {
            Some(Reverse((_, number))) => Some(*number),
            None => None,
        }
    }

    /// The passive clause with the fewest symbols, and of these with the smallest number. What is lighter and no longer
    /// passive is dropped.
    fn first_lightest(&mut self, table: &Table, node: u32) -> Option<u32>
        requires there { node < nodes table.now.past }
        requires queue { HasQueue table.now.setting table.now.past node self.old }
        ensures pick { result ≡ best_by false table.now.setting table.now.past node }
        ensures queue { HasQueue table.now.setting table.now.past node self.new }
    {
        while let Some(number) = self.top() {
            if table.passive(node, number) {
                return Some(number);
            }
            self.lightest.pop();
        }
        None
    }
}
