//! Conclusions of more than 4,096 symbols, refused before their unifiers are written out, rule by rule.
ghost use Rattle.std.specs.Prelude.{◌≡◌, ℕ, List, ◌<◌, ◌∷◌, ◌++◌, [], map, length, is_some, true, IfOk, IfErr};
ghost use Rattle.spl_terms.specs.declared.term.Term.{Term};
ghost use Rattle.spl_terms.specs.Clauses.{part_of, replace_in_atom};
ghost use Rattle.spl_truth.specs.Places.{part_eq};
ghost use Rattle.spl_truth.specs.Truth.{entry, apply};
ghost use Rattle.spl_truth.specs.Unifiers.{entries_below};
ghost use Rattle.proof_steps.specs.Spots.{term_under, with_term_under};
ghost use Rattle.unify.specs.Bindings.{substitution, IsTriangular};
ghost use Rattle.superposition.specs.Pairs.{IsPair};
ghost use Rattle.superposition.specs.Walks.{IsReady, raised_atom};
ghost use Rattle.superposition.specs.Sizes.{StandIn, resolvent_by, paramodulant_by, reflected_by, compared, atoms_by, Refuses};

use crate::building::{Literals, left_of};
use crate::counting::symbols_up_to;
use crate::error::InferError;
use crate::pairs::Pair;
use crate::placing::atom_with;
use crate::rewriting::Rewriting;
use crate::sizing::{Origins, are_small, refuse_big};
use crate::unifiers::entries_from;
use spl_terms::{Atom, Clause, Items, Part, Term};
use std::alloc::{AllocError, Global};
use unify::Bindings;

// ---- resolution

/// The atoms of a part of the resolvent.
fn resolved<'a>(pair: Pair<'a>, literals: Literals, of: Part) -> Origins<'a>
    requires pair { IsPair pair }
    requires literals { StandIn pair literals }
    ensures { (made : List (ℕ × Term)) → atoms_by pair.entry.first pair.entry.both made result
        ≡ part_of (resolvent_by pair.entry literals (entries_below pair.entry.both (substitution made))) of }
{
    let Literals { i, part, j } = literals;
    let p = &pair.p.statement.clause;
    let q = &pair.q.statement.clause;
    let (before, behind) = left_of(p, of, Part::Succedent, i as usize);
    let (others, rest) = left_of(q, of, part, j as usize);
    Origins {
        before,
        behind,
        others,
        changed: &[],
        rest,
    }
}

/// Refuses a resolvent of more than 4,096 symbols.
pub(crate) fn refuse_resolvent<'a>(
    alloc: Global,
    bindings: &Bindings<'a>,
    pair: Pair,
    literals: Literals,
) -> Result<(), InferError>
    requires triangular { IsTriangular bindings.now.0 bindings.now.1 }
    requires pair { IsPair pair }
    requires literals { StandIn pair literals }
    ensures { IfErr result (Refuses
        (resolvent_by pair.entry literals (entries_below pair.entry.both (substitution bindings.now.1)))) }
{
    let parts = (
        resolved(pair, literals, Part::Constraint),
        resolved(pair, literals, Part::Antecedent),
        resolved(pair, literals, Part::Succedent),
    );
    refuse_big(alloc, bindings, pair.first, pair.both, parts)
}

// ---- superposition

/// The atom of the second premise with its variables raised, and with the right side of the equation at the end of the path.
fn changed_atom(alloc: Global, r: Rewriting, path: &[u32]) -> Result<Atom, AllocError>
    requires ready { IsReady r }
    requires leads { is_some (term_under path.now r.atom.now) ≡ true }
    ensures { IfOk result (λ made. made ≡ with_term_under path.now r.entry.equation.right_side.now (raised_atom r.entry)) }
{
    let pair = r.pair;
    let none = Bindings::new(alloc, pair.both)?;
    let raising = entries_from(alloc, &none, pair.first, pair.both)?;
    let new = r.equation.right_side.copy(alloc)?;
    atom_with(alloc, raising.terms.as_slice(), path, new, r.atom)
}

/// Whether the two are one part.
fn is_same(part: Part, other: Part) -> bool
    ensures { result ≡ part_eq part other }
{
    part == other
}

/// The atoms of a part of the paramodulant, with a changed one in place of the one at the spot.
fn rewritten<'a>(r: Rewriting<'a>, changed: &'a [Atom], of: Part) -> Origins<'a>
    requires { IsReady r }
    ensures { (path : List ℕ) (made : List (ℕ × Term))
        → changed.now ≡ with_term_under path r.entry.equation.right_side.now (raised_atom r.entry) ∷ []
        → is_some (term_under path (raised_atom r.entry)) ≡ true
        → atoms_by r.entry.pair.first r.entry.pair.both made result
        ≡ part_of (paramodulant_by r.entry.pair r.entry.equation.place
        (record { part = r.entry.part; place = r.entry.place; path = path })
        r.entry.equation.right_side.now (entries_below r.entry.pair.both (substitution made))) of }
{
    let p = &r.pair.p.statement.clause;
    let (before, behind) = left_of(p, of, Part::Succedent, r.equation.place as usize);
    let atoms = r.pair.q.statement.clause.part(of);
    let place = r.place as usize;
    if is_same(of, r.part) {
        return Origins {
            before,
            behind,
            others: &atoms[..place],
            changed,
            rest: &atoms[place + 1..],
        };
    }
    Origins {
        before,
        behind,
        others: atoms,
        changed: &[],
        rest: &[],
    }
}

/// The atoms of a part of both premises without the equation.
fn unchanged<'a>(r: Rewriting<'a>, of: Part) -> Origins<'a>
    requires { IsReady r }
{
    let p = &r.pair.p.statement.clause;
    let (before, behind) = left_of(p, of, Part::Succedent, r.equation.place as usize);
    Origins {
        before,
        behind,
        others: r.pair.q.statement.clause.part(of),
        changed: &[],
        rest: &[],
    }
}

/// Whether the paramodulant can't have more than 4,096 symbols, since it has no more with the subterm that is replaced.
fn is_small<'a>(bindings: &Bindings<'a>, r: Rewriting) -> bool
    requires triangular { IsTriangular bindings.now.0 bindings.now.1 }
    requires ready { IsReady r }
{
    let pair = r.pair;
    let new = symbols_up_to(bindings, 0, pair.first, r.equation.right_side, 4096);
    let parts = (
        unchanged(r, Part::Constraint),
        unchanged(r, Part::Antecedent),
        unchanged(r, Part::Succedent),
    );
    are_small(bindings, pair.first, pair.both, parts, 4096 - new)
}

/// Refuses a paramodulant of more than 4,096 symbols.
pub(crate) fn refuse_paramodulant<'a>(
    alloc: Global,
    bindings: &Bindings<'a>,
    r: Rewriting,
    path: &[u32],
) -> Result<(), InferError>
    requires triangular { IsTriangular bindings.now.0 bindings.now.1 }
    requires ready { IsReady r }
    requires leads { is_some (term_under path.now r.atom.now) ≡ true }
    ensures { IfErr result (Refuses (paramodulant_by r.entry.pair r.entry.equation.place
        (record { part = r.entry.part; place = r.entry.place; path = path.now })
        r.entry.equation.right_side.now (entries_below r.entry.pair.both (substitution bindings.now.1)))) }
{
    if is_small(bindings, r) {
        return Ok(());
    }
    let mut changed = Items::with_room(alloc, 1)?;
    changed.push(changed_atom(alloc, r, path)?)?;
    let atoms = changed.as_slice();
    let parts = (
        rewritten(r, atoms, Part::Constraint),
        rewritten(r, atoms, Part::Antecedent),
        rewritten(r, atoms, Part::Succedent),
    );
    refuse_big(alloc, bindings, r.pair.first, r.pair.both, parts)
}

// ---- rules on one clause

/// The atoms of a part that are left of one clause.
fn left<'a>(parts: (&'a [Atom], &'a [Atom])) -> Origins<'a>
    ensures { (vars : ℕ) (made : List (ℕ × Term)) → atoms_by vars vars made result
        ≡ map (replace_in_atom (entry (entries_below vars (substitution made)))) (parts.entry.0.now ++ parts.entry.1.now) }
{
    Origins {
        before: parts.0,
        behind: parts.1,
        others: &[],
        changed: &[],
        rest: &[],
    }
}

/// Refuses an instance of more than 4,096 symbols.
pub(crate) fn refuse_instance<'a>(
    alloc: Global,
    bindings: &Bindings<'a>,
    vars: u32,
    p: &Clause,
) -> Result<(), InferError>
    requires { IsTriangular bindings.now.0 bindings.now.1 }
    ensures { IfErr result (Refuses (apply (entries_below vars (substitution bindings.now.1)) p.now)) }
{
    let parts = (
        left((p.constraint.as_slice(), &[])),
        left((p.antecedent.as_slice(), &[])),
        left((p.succedent.as_slice(), &[])),
    );
    refuse_big(alloc, bindings, vars, vars, parts)
}

/// Refuses what equality resolution leaves of the clause, where it has more than 4,096 symbols.
pub(crate) fn refuse_reflected<'a>(
    alloc: Global,
    bindings: &Bindings<'a>,
    vars: u32,
    p: &Clause,
    j: u32,
) -> Result<(), InferError>
    requires triangular { IsTriangular bindings.now.0 bindings.now.1 }
    requires j { j < length p.now.antecedent }
    ensures { IfErr result (Refuses (reflected_by p.now j (entries_below vars (substitution bindings.now.1)))) }
{
    let place = j as usize;
    let parts = (
        left(left_of(p, Part::Constraint, Part::Antecedent, place)),
        left(left_of(p, Part::Antecedent, Part::Antecedent, place)),
        left(left_of(p, Part::Succedent, Part::Antecedent, place)),
    );
    refuse_big(alloc, bindings, vars, vars, parts)
}

/// Refuses what equality factoring makes of the clause, where it has more than 4,096 symbols: it is without the equation
/// at this place, and an equation of these sides stands in its antecedent.
pub(crate) fn refuse_compared<'a>(
    alloc: Global,
    bindings: &Bindings<'a>,
    vars: u32,
    p: &Clause,
    i: u32,
    sides: (&Term, &Term),
) -> Result<(), InferError>
    requires triangular { IsTriangular bindings.now.0 bindings.now.1 }
    requires i { i < length p.now.succedent }
    ensures { IfErr result (Refuses (apply (entries_below vars (substitution bindings.now.1))
        (compared p.now i sides.entry.0.now sides.entry.1.now))) }
{
    let place = i as usize;
    let mut equation = Items::with_room(alloc, 1)?;
    equation.push(Atom::Equal(sides.0.copy(alloc)?, sides.1.copy(alloc)?))?;
    let (before, behind) = left_of(p, Part::Antecedent, Part::Succedent, place);
    let antecedent = Origins {
        before,
        behind,
        others: &[],
        changed: equation.as_slice(),
        rest: &[],
    };
    let parts = (
        left(left_of(p, Part::Constraint, Part::Succedent, place)),
        antecedent,
        left(left_of(p, Part::Succedent, Part::Succedent, place)),
    );
    refuse_big(alloc, bindings, vars, vars, parts)
}
