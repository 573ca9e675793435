//! The clause set of a problem.

ghost use Rattle.std.specs.Prelude.{◌≡◌, ◌<◌, ◌≤◌, ◌^◌, ℕ, true, Some, length, map, slice_get, IfOk, Contains};
ghost use Rattle.std.specs.List.{AllByRecursion};
ghost use Rattle.spl_terms.specs.declared.clause.Clause.{Clause};
ghost use Rattle.spl_terms.specs.Clauses.{clause_symbols};
ghost use Rattle.spl_terms.specs.InOrder.{IsInOrder};
ghost use Rattle.spl_symbols.specs.Skolems.{HasSkolems};
ghost use Rattle.formulas.specs.declared.entry.Entry.{Entry};
ghost use Rattle.formulas.specs.declared.tree.Tree.{Tree};
ghost use Rattle.formulas.specs.Entries.{entry_formula};
ghost use Rattle.normal_form.specs.ClauseSets.{all_arities, origins_from, first_refusal, IsRefused};
ghost use Rattle.normal_form.specs.Law.{IsFormula};
ghost use Rattle.formulas.specs.Bindings.{bindings, all_distinct};
ghost use Rattle.normal_form.specs.NormalForm.{normal_form};
ghost use Rattle.normal_form.specs.OfSignature.{AreOfSignature, AreClausesOf};
ghost use Rattle.normal_form.specs.Structures.{StandFor};

use crate::error::FormError;
use crate::forming::{Forming, form_all};
use crate::laws::clauses_stand;
use formulas::Entry;
use spl_symbols::Signature;
use spl_terms::{Clause, Items};
use std::alloc::Global;

/// The clauses of a problem, and its symbols.
#[derive(Drop)]
pub struct ClauseSet {
    /// The declared symbols, and behind them the Skolem symbols.
    pub signature: Signature,
    /// The clauses, in the order of the entries.
    pub clauses: Items<Clause>,
    /// For each clause the number of its entry, from 1.
    pub origins: Items<u32>,
}

/// The clauses of a problem's entries, with its signature and their Skolem symbols behind it.
///
/// No two bindings of an entry have the same number, and there are fewer than 2^32 entries. The entries are taken in order.
/// For each one `Many` comes exactly where the clauses up to it number more than 65,536, which is known before any is made,
/// then `Symbols` exactly where its Skolem symbols and those before it number more than 65,536, then `Big` exactly where a
/// clause of it has more than 4,096 symbols. Where no variable of the entries is free and their functions are of the
/// signature, the clauses stand for the formulas in every finite structure.
pub fn clauses_of(
    alloc: Global,
    signature: Signature,
    entries: Items<Entry>,
) -> Result<ClauseSet, FormError>
    requires numbered { length entries < 2 ^ 32 }
    requires different { (e : Entry) → Contains entries e → all_distinct (bindings e.formula) ≡ true }
    ensures clauses { IfOk result (λ set. set.clauses ≡ normal_form (length signature) (map entry_formula entries)) }
    ensures symbols { IfOk result (λ set. (next : ℕ)
        × HasSkolems signature 1 (all_arities (length signature) (map entry_formula entries)) set.signature next) }
    ensures origins { IfOk result (λ set. set.origins ≡ origins_from 1 (map entry_formula entries)) }
    ensures refused { IsRefused (first_refusal 1 0 (length signature) (map entry_formula entries)) result }
    ensures few { IfOk result (λ set. length set.clauses ≤ 65536) }
    ensures small { IfOk result (λ set. (k : ℕ) (c : Clause) → slice_get set.clauses k ≡ Some c → clause_symbols c ≤ 4096) }
    ensures ordered { IfOk result (λ set. AllByRecursion IsInOrder set.clauses) }
    ensures of_signature { AreOfSignature signature entries → IfOk result (λ set. AreClausesOf set.signature set.clauses) }
    ensures stand { ((f : Tree) → Contains (map entry_formula entries) f → IsFormula (length signature) f)
        → IfOk result (λ set. StandFor (length signature) set.clauses (map entry_formula entries)) }
{
    signature.names_are_identifiers();
    clauses_stand();
    let mut forming = Forming {
        signature,
        next_name: 1,
        clauses: Items::new(alloc),
        origins: Items::new(alloc),
    };
    match form_all(&mut forming, alloc, entries.as_slice()) {
        Ok(()) => {}
        Err(error) => return Err(error),
    }
    let Forming {
        signature,
        clauses,
        origins,
        ..
    } = forming;
    Ok(ClauseSet {
        signature,
        clauses,
        origins,
    })
}
