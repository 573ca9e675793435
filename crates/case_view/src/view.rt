//! The view of a case, and what it says.
ghost use Rattle.std.specs.Prelude.{◌≡◌, ℕ, ◌<◌, true, length, Some, IfOk, OnOk, MatchBool, Contains, slice_get};
ghost use Rattle.std.specs.Option.{option_copied};
ghost use Rattle.spl_truth.specs.Redundancy.{Subsumes};
ghost use Rattle.case_journal.specs.Journal.{nodes};
ghost use Rattle.case_journal.specs.Paths.{on_path};
ghost use Rattle.case_journal.specs.Facts.{Holds};
ghost use Rattle.case_view.specs.declared.kept.Case.{Case};
ghost use Rattle.case_view.specs.declared.kept.Kept.{Kept};
ghost use Rattle.case_view.specs.Marks.{HasGrown, IsMarkOf};
ghost use Rattle.case_view.specs.Walks.{Reaches};
ghost use Rattle.case_view.specs.Views.{IsIn, IsOrdered, IsPartnerOf, IsCaseOf, StandsFor, GoesOn};

use crate::filed::{file_clauses, file_under_all, has_subclause, places_below, walk_and_file};
use crate::kept::{Case, Kept, Mark};
use crate::walking::{path_to, root_case, walk};
use clause_filing::Filing;
use dep_sets::Assumption;
use journal_laws::conclusions_are_in_order;
use spl_terms::{Clause, Items};
use split_tree::Table;
use std::alloc::{AllocError, Global};
use std::marker::Model;

/// One worker's copy of the case on which it works: of the leaf that it holds, after some beginning of the journal.
///
/// Contracts see all that it has; its type keeps that its clauses are in order.
#[derive(Debug, Drop)]
pub struct CaseView {
    alloc: Global,
    case: Case,
    /// The places of the listed clauses, from 0, filed under their first atoms.
    clauses: Filing,
    /// The places of the worked clauses, from 0, filed under all their atoms.
    literals: Filing,
}

impl Model for CaseView {
    ghost use Rattle.case_view.specs.declared.kept.Case.{Case};
    ghost use Rattle.case_view.specs.Caches.{IsView};
    ghost use Rattle.std.specs.Coded.{codes};
    ghost use Rattle.spl_terms.specs.contracts.term.Term as term;

    ghost Value = { Case };

    ghost coded = { Prim.hlevel (codes, term.the_row.coded) };

    ghost view = { λ v. v.case };

    ghost invariant = { IsView };
}

impl CaseView {
    /// The view of the leaf that the worker holds.
    ///
    /// # Errors
    ///
    /// Only where there is no memory.
    pub fn begin(alloc: Global, table: &Table, worker: u32) -> Result<CaseView, AllocError>
        requires { (m : ℕ) × Holds table.now.setting table.now.past worker m }
        ensures stands { IfOk result (λ view. StandsFor table.now.setting table.now.past view) }
        ensures worker { IfOk result (λ view. view.worker ≡ worker) }
    {
        conclusions_are_in_order();
        table.laws();
        let leaf = table.held(worker).unwrap();
        let way = path_to(alloc, table, leaf)?;
        let mut case = root_case(alloc, table, worker)?;
        let mut clauses = Filing::new(alloc);
        let mut literals = Filing::new(alloc);
        walk(alloc, table, &mut case, leaf, way.as_slice())?;
        file_clauses(&mut clauses, case.listed.as_slice(), 0)?;
        file_under_all(&mut literals, case.worked.as_slice(), 0)?;
        Ok(CaseView {
            alloc,
            case,
            clauses,
            literals,
        })
    }

    /// The view goes on by all further events of the journal, as by `walk`. Where there is no memory it has no clauses
    /// any more.
    fn go_on(&mut self, table: &Table, leaf: u32, way: &[u32]) -> Result<(), AllocError>
        requires there { leaf < nodes table.now.past }
        requires reaches { Reaches table.now.setting table.now.past leaf way.now self.old.events self.old }
        ensures is { OnOk result (IsCaseOf table.now.setting table.now.past self.new) }
        ensures node { OnOk result (self.new.node ≡ leaf) }
        ensures grows { OnOk result (HasGrown self.old self.new) }
    {
        conclusions_are_in_order();
        table.laws();
        let gone_on = walk_and_file(
            self.alloc,
            table,
            &mut self.case,
            leaf,
            way,
            &mut self.clauses,
            &mut self.literals,
        );
        match gone_on {
            Ok(()) => Ok(()),
            Err(error) => {
                self.case.given = None;
                self.case.worked = Items::new(self.alloc);
                self.case.listed = Items::new(self.alloc);
                Err(error)
            }
        }
    }

    /// Brings the view up to the table, by a look at the events alone that were appended since. The leaf and the worker
    /// stay.
    ///
    /// # Errors
    ///
    /// Only where there is no memory; then the view has no clauses any more, and is of no use.
    pub fn sync(&mut self, table: &Table) -> Result<(), AllocError>
        requires goes_on { GoesOn table.now.setting table.now.past self.old }
        requires holds { Holds table.now.setting table.now.past self.old.worker self.old.node }
        ensures stands { OnOk result (StandsFor table.now.setting table.now.past self.new) }
        ensures worker { OnOk result (self.new.worker ≡ self.old.worker) }
        ensures node { OnOk result (self.new.node ≡ self.old.node) }
        ensures grows { OnOk result (HasGrown self.old self.new) }
    {
        table.laws();
        let leaf = self.case.node;
        self.go_on(table, leaf, &[])?;
        Ok(())
    }

    /// Brings the view up to the table and down to the leaf that the worker holds, by a look at the events alone that were
    /// appended since. The view's own leaf is on the path of that one.
    ///
    /// # Errors
    ///
    /// Only where there is no memory; then the view is of no use.
    pub fn enter(&mut self, table: &Table) -> Result<(), AllocError>
        requires goes_on { GoesOn table.now.setting table.now.past self.old }
        requires below { (m : ℕ) × Holds table.now.setting table.now.past self.old.worker m
            × (on_path table.now.past m self.old.node ≡ true) }
        ensures stands { OnOk result (StandsFor table.now.setting table.now.past self.new) }
        ensures grows { OnOk result (HasGrown self.old self.new) }
    {
        table.laws();
        let leaf = table.held(self.case.worker).unwrap();
        let way = path_to(self.alloc, table, leaf)?;
        self.go_on(table, leaf, way.as_slice())?;
        Ok(())
    }

    /// What the view has now, to go back to.
    ///
    /// # Errors
    ///
    /// Only where there is no memory.
    pub fn mark(&self) -> Result<Mark, AllocError>
        ensures { IfOk result (λ mark. IsMarkOf mark self.now) }
    {
        let case = &self.case;
        let given = match &case.given {
            Some(given) => Some(given.copy(self.alloc)?),
            None => None,
        };
        Ok(Mark {
            node: case.node,
            events: case.events,
            base: case.base,
            splits: case.splits,
            given,
            nodes: case.nodes.len(),
            path: case.path.len(),
            worked: case.worked.len(),
            listed: case.listed.len(),
        })
    }

    /// Goes back to what the view had at the mark, out of which it has grown. It takes no memory, and no time but for what
    /// has come since.
    pub fn go_back(&mut self, mark: Mark)
        requires { (v : Case) × IsMarkOf mark v × HasGrown v self.old }
        ensures { (v : Case) → IsMarkOf mark v → HasGrown v self.old → self.new ≡ v }
    {
        self.case.node = mark.node;
        self.case.events = mark.events;
        self.case.base = mark.base;
        self.case.splits = mark.splits;
        self.case.given = mark.given;
        self.case.nodes.truncate(mark.nodes);
        self.case.path.truncate(mark.path);
        self.case.worked.truncate(mark.worked);
        self.case.listed.truncate(mark.listed);
        self.clauses.drop_from(mark.listed);
        self.literals.drop_from(mark.worked);
    }

    /// The law of a view, which does nothing when it runs: its clauses are in order.
    pub fn clauses_are_in_order(&self)
        ensures { IsOrdered self.now }
    {
        let _ = &self.case;
    }

    /// The chosen clause.
    pub fn given(&self) -> Option<&Kept>
        ensures { option_copied result ≡ self.now.given }
    {
        self.case.given.as_ref()
    }

    /// The clauses that are worked off and kept at the leaf, in the order in which they were activated.
    pub fn worked(&self) -> &[Kept]
        ensures { result.now ≡ self.now.worked }
    {
        self.case.worked.as_slice()
    }

    /// Places in `worked`, from 0, among which are those of all clauses with which the given clause has an inference.
    ///
    /// # Errors
    ///
    /// Only where there is no memory.
    pub fn partners(&self) -> Result<Vec<u32>, AllocError>
        ensures places { IfOk result (λ places. (n : ℕ) → Contains places.items n → n < length self.now.worked) }
        ensures all { IfOk result (λ places. (n : ℕ) (other : Kept) → slice_get self.now.worked n ≡ Some other
            → IsPartnerOf self.now other → Contains places.items n) }
    {
        let Some(given) = &self.case.given else {
            return Ok(Vec::new(self.alloc));
        };
        let mut found = self.literals.partners(self.alloc, &given.stated.clause)?;
        found.sort_unstable();
        found.dedup();
        let places = places_below(self.alloc, found.as_slice(), self.case.worked.len())?;
        Ok(places)
    }

    /// Whether a listed clause is a subclause of this one. Where none is, no listed clause is this very one.
    ///
    /// # Errors
    ///
    /// Only where there is no memory.
    pub fn is_subsumed(&self, clause: &Clause) -> Result<bool, AllocError>
        ensures { IfOk result (λ found. MatchBool found
            ((k : Kept) × IsIn self.now.listed k × Subsumes k.stated.clause clause.now)
            ((k : Kept) → IsIn self.now.listed k → ¬ (k.stated.clause ≡ clause.now))) }
    {
        Ok(has_subclause(self.case.listed.as_slice(), &self.clauses, clause))
    }

    /// How many steps the ledger had.
    pub fn base(&self) -> u32
        ensures { result ≡ self.now.base }
    {
        self.case.base
    }

    /// The worker, from 1.
    pub fn worker(&self) -> u32
        ensures { result ≡ self.now.worker }
    {
        self.case.worker
    }

    /// The leaf, from 0.
    pub fn node(&self) -> u32
        ensures { result ≡ self.now.node }
    {
        self.case.node
    }

    /// What is assumed on the leaf's path, from the root down.
    pub fn path(&self) -> &[Assumption]
        ensures { result.now ≡ self.now.path }
    {
        self.case.path.as_slice()
    }

    /// The nodes of the leaf's path, from the root down: one more than `path` has.
    pub fn nodes(&self) -> &[u32]
        ensures { result.now ≡ self.now.nodes }
    {
        self.case.nodes.as_slice()
    }

    /// How many clauses had been split.
    pub fn splits(&self) -> u32
        ensures { result ≡ self.now.splits }
    {
        self.case.splits
    }

    /// The clauses that are listed at the leaf, by ascending number.
    pub fn listed(&self) -> &[Kept]
        ensures { result.now ≡ self.now.listed }
    {
        self.case.listed.as_slice()
    }
}
