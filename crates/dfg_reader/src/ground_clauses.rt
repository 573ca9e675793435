//! The clauses of a problem whose formulas are clauses without variables.

ghost use Rattle.std.specs.Prelude.{◌≡◌, ◌<◌, ◌≤◌, ◌++◌, [], ◌∷◌, true, false, ℕ, fold, length, slice_get, Some, IfOk, OnOk, OnErr, IfErr};
ghost use Rattle.std.specs.List.{list_any, list_all};
ghost use Rattle.spl_terms.specs.declared.clause.Clause.{Clause};
ghost use Rattle.spl_terms.specs.Clauses.{clause_symbols, FitsOrBig};
ghost use Rattle.dfg_reader.specs.declared.formula.Formula.{out-Formula};
ghost use Rattle.dfg_reader.specs.declared.problem.Entry.{Entry};
ghost use Rattle.dfg_reader.specs.GroundClauses.{is_true_literal, is_false_layer, negated_part, with_negated, with_literal, IsWithinLimit, no_literals, literals, formula_clauses, entry_clauses, clauses, is_small, are_within_limits, HasLimits};

use crate::formula::Formula;
use crate::problem::{Entry, Problem, Role};
use spl_terms::{Atom, Clause, ClauseBuilder, Items, Part, PushError};
use std::alloc::{AllocError, Global};
use std::marker::Model;
use std::slice;

fn is_false(formula: &Formula) -> bool
    ensures { result ≡ is_false_layer (out-Formula formula.now) }
{
    match formula {
        Formula::False => true,
        _ => false,
    }
}

/// Whether the literal is `true` or `not(false)`.
fn is_true_literal(literal: &Formula) -> bool
    ensures { result ≡ is_true_literal literal.now }
{
    match literal {
        Formula::True => true,
        Formula::Not(inner) => is_false(inner.get()),
        _ => false,
    }
}

fn any_is_true(literals: &[Formula]) -> bool
    ensures { result ≡ list_any is_true_literal literals.now }
{
    literals.iter().any(is_true_literal)
}

/// The part in which the negation of an atom stands.
fn negated_part(atom: &Atom) -> Part
    ensures { result ≡ negated_part atom.now }
{
    if atom.is_of_sort() {
        Part::Constraint
    } else {
        Part::Antecedent
    }
}

/// Adds the atom of a negated literal; `not(true)` adds nothing.
fn push_negated(alloc: Global, clause: &mut ClauseBuilder, inner: &Formula) -> Result<(), PushError>
    requires { clause_symbols clause.old ≤ 4096 }
    ensures ok { OnOk result (clause.new ≡ with_negated clause.old (out-Formula inner.now)) }
    ensures big { FitsOrBig (clause_symbols (with_negated clause.old (out-Formula inner.now))) result }
{
    match inner {
        Formula::Atom(atom) => clause.push_copy(alloc, negated_part(atom), atom),
        _ => Ok(()),
    }
}

/// Adds the literal to the clause.
fn push_literal(
    alloc: Global,
    clause: &mut ClauseBuilder,
    literal: &Formula,
) -> Result<(), PushError>
    requires { clause_symbols clause.old ≤ 4096 }
    ensures ok { OnOk result (clause.new ≡ with_literal clause.old literal.now) }
    ensures big { FitsOrBig (clause_symbols (with_literal clause.old literal.now)) result }
{
    match literal {
        Formula::Atom(atom) => clause.push_copy(alloc, Part::Succedent, atom),
        Formula::Not(inner) => push_negated(alloc, clause, inner.get()),
        _ => Ok(()),
    }
}

/// The clause of the literals; none where it has more than 4,096 symbols.
fn clause_within(alloc: Global, literals: &[Formula]) -> Result<Option<Clause>, AllocError>
    ensures { IfOk result (λ found. IsWithinLimit found (fold with_literal no_literals literals.now)) }
{
    let mut clause = ClauseBuilder::new(alloc);
    for literal in literals {
        match push_literal(alloc, &mut clause, literal) {
            Ok(()) => {}
            Err(PushError::Big { .. }) => return Ok(None),
            Err(PushError::Memory) => return Err(AllocError),
        }
    }
    Ok(Some(clause.finish()))
}

/// Whether the clause of the literals has at most 4,096 symbols.
fn is_small(alloc: Global, literals: &[Formula]) -> Result<bool, AllocError>
    ensures { IfOk result (λ small. small ≡ is_small (fold with_literal no_literals literals.now)) }
{
    let found = clause_within(alloc, literals)?;
    Ok(found.is_some())
}

/// The literals of a clause: the parts of an `or`, or the one literal.
fn literals(formula: &Formula) -> &[Formula]
    ensures { result.now ≡ literals formula.now }
{
    match formula {
        Formula::Or(parts) => parts.as_slice(),
        _ => slice::from_ref(formula),
    }
}

/// The entries read so far, whose clauses are within the limits; contracts see the list of entries.
#[derive(Drop)]
pub struct ReadClauses {
    entries: Items<Entry>,
    /// How many clauses they give.
    given: usize,
}

impl Model for ReadClauses {
    ghost use Rattle.std.specs.Prelude.{◌≡◌, List, length};
    ghost use Rattle.dfg_reader.specs.declared.problem.Entry.{Entry};
    ghost use Rattle.dfg_reader.specs.GroundClauses.{clauses, HasLimits};
    ghost use Rattle.dfg_reader.specs.contracts.formula.Formula as formula;
    ghost use Rattle.std.specs.Coded.{codes};

    ghost Value = { List Entry };

    ghost coded = { Prim.hlevel (codes, formula.the_row.coded) };

    ghost view = { λ r. r.entries };

    ghost invariant = { λ r. (r.given ≡ length (clauses r.entries)) × HasLimits r.entries };
}

impl ReadClauses {
    /// No entries; it takes no memory.
    pub fn new(alloc: Global) -> ReadClauses
        ensures { result ≡ [] }
    {
        ReadClauses {
            entries: Items::new(alloc),
            given: 0,
        }
    }

    /// Whether a clause may follow: it gives none, or it has at most 4,096 symbols and there are fewer than 65,536.
    pub fn may_take(&self, alloc: Global, body: &Formula) -> Result<bool, AllocError>
        ensures { IfOk result (λ may. may ≡ are_within_limits (clauses self.now ++ formula_clauses body.now)) }
    {
        let given = self.given;
        let literals = literals(body);
        if any_is_true(literals) {
            return Ok(true);
        }
        if is_small(alloc, literals)? {
            Ok(given < 65536)
        } else {
            Ok(false)
        }
    }

    /// Adds a clause that may follow.
    pub fn push(&mut self, formula: Formula, at: usize) -> Result<(), AllocError>
        requires { are_within_limits (clauses self.old ++ formula_clauses formula) ≡ true }
        ensures { OnOk result (self.new ≡ self.old ++ record { role = Role.Clause; formula = formula; at = at } ∷ []) }
    {
        let gives = !any_is_true(literals(&formula));
        self.entries.push(Entry {
            role: Role::Clause,
            formula,
            at,
        })?;
        if gives {
            self.given += 1;
        }
        Ok(())
    }

    /// The entries, when all lists are read.
    pub fn into_entries(self) -> Items<Entry>
        ensures same { result ≡ self }
        ensures limits { HasLimits result }
    {
        let ReadClauses { entries, .. } = self;
        entries
    }
}

/// Adds the clause of an entry, if it gives one.
fn push_clause(alloc: Global, found: &mut Items<Clause>, entry: &Entry) -> Result<(), AllocError>
    requires { list_all is_small (entry_clauses entry.now) ≡ true }
    ensures { OnOk result (found.new ≡ found.old ++ entry_clauses entry.now) }
{
    let literals = match entry.role {
        Role::Clause => literals(&entry.formula),
        _ => return Ok(()),
    };
    if any_is_true(literals) {
        return Ok(());
    }
    match clause_within(alloc, literals)? {
        Some(clause) => found.push(clause),
        None => unreachable!(),
    }
}

/// The clauses of a problem whose formulas are clauses, in order.
///
/// Each entry of role [`Role::Clause`] gives its clause: a positive atom stands in the succedent, a negated one in
/// the antecedent, in order, and repeated atoms of a part, the same up to exchanged sides, are dropped after the
/// first. `false` and `not(true)` add nothing; an entry with the literal `true` or `not(false)` gives no clause. An
/// error is want of memory.
pub fn clauses_of(alloc: Global, problem: &Problem) -> Result<Items<Clause>, AllocError>
    requires { HasLimits problem.now.entries }
    ensures exact { IfOk result (λ found. found ≡ clauses problem.now.entries) }
    ensures few { IfOk result (λ found. length found ≤ 65536) }
    ensures small { IfOk result (λ found. (k : ℕ) (c : Clause) → slice_get found k ≡ Some c → clause_symbols c ≤ 4096) }
{
    let mut found = Items::new(alloc);
    for entry in problem.entries.as_slice() {
        push_clause(alloc, &mut found, entry)?;
    }
    Ok(found)
}
