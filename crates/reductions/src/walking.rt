//! The walk through a clause that looks for a term which an equation rewrites.
ghost use Rattle.std.specs.Prelude.{◌≡◌, ◌≤◌, ◌++◌, ◌∷◌, [], ℕ, List, slice_get, IfOk, OnOk, MatchOption, IsSomeAnd, ⊤};
ghost use Rattle.spl_terms.specs.Terms.{term_symbols, replace};
ghost use Rattle.spl_terms.specs.Clauses.{part_of};
ghost use Rattle.spl_truth.specs.Truth.{entry};
ghost use Rattle.spl_truth.specs.Orders.{is_greater};
ghost use Rattle.reductions.specs.Rewriting.{IsJudged, Rewrites, IsNotRewritten, IsIrreducible, IsReached, IsReachedFrom};
ghost use Rattle.reductions.specs.Rewriting.{AreIrreducible, IsIrreducibleAtom, IsRewrittenAt, AreIrreducibleAtoms, IsIrreducibleClause};
ghost use Rattle.reductions.specs.Rewriting.{IsRewrittenIn};

use crate::judging::Rewrite;
use kbo::{Order, compare};
use spl_terms::{Atom, Clause, Part, Term};
use spl_truth::{Subst, applied_symbols, replaced};
use std::alloc::{AllocError, Global};
use unify::match_into;

// ---- one term

fn is_greater(term: &Term, other: &Term) -> bool
    requires size { term_symbols term.now ≤ 4294967295 }
    requires other_size { term_symbols other.now ≤ 4294967295 }
    ensures { result ≡ is_greater term.now other.now }
{
    match compare(term, other) {
        Order::Greater => true,
        Order::Less => false,
        Order::Equal => false,
        Order::Incomparable => false,
    }
}

/// Whether the term is greater than the instance of the other one. No instance is built that is larger than the term.
fn is_greater_than(
    alloc: Global,
    term: &Term,
    entries: &[Term],
    other: &Term,
) -> Result<bool, AllocError>
    ensures { IfOk result (λ yes. yes ≡ is_greater term.now (replace (entry entries.now) other.now)) }
{
    let size = term.symbols();
    if size > 4_294_967_295 {
        return Err(AllocError);
    }
    if applied_symbols(other, entries, size + 1) > size {
        return Ok(false);
    }
    let made = replaced(alloc, entries, other)?;
    Ok(is_greater(term, &made))
}

/// The entries by which the term is rewritten, one for each variable of the equation; none where it isn't. Heads are
/// compared before memory is taken, and the order only where the left side matches.
fn rewrite_term(alloc: Global, r: Rewrite, term: &Term) -> Result<Option<Subst>, AllocError>
    requires { IsJudged r }
    ensures { IfOk result (λ found. MatchOption found
        (IsNotRewritten r.entry term.now)
        (λ s. Rewrites r.entry term.now s.terms)) }
{
    let Some(s) = match_into(alloc, r.left, term, r.vars)? else {
        return Ok(None);
    };
    if r.always {
        return Ok(Some(s));
    }
    if is_greater_than(alloc, term, s.terms.as_slice(), r.right)? {
        Ok(Some(s))
    } else {
        Ok(None)
    }
}

// ---- the walk

/// Goes on to the argument at this place.
fn go_into(path: &mut Vec<u32>, place: u32) -> Result<(), AllocError>
    ensures { OnOk result (path.new.items ≡ path.old.items ++ place ∷ []) }
{
    path.push(place)?;
    Ok(())
}

/// Goes back from the argument that was gone into last.
fn go_back(path: &mut Vec<u32>)
    ensures { (before : List ℕ) (last : ℕ) → path.old.items ≡ before ++ last ∷ [] → path.new.items ≡ before }
{
    path.pop();
}

/// Looks for a term that is rewritten: the term itself, unless it is a variable, and then all that stands in it. Where
/// one is found the path leads to it; else the path is as before.
#[cycle(walking)]
fn find_in_term(
    alloc: Global,
    r: Rewrite,
    term: &Term,
    path: &mut Vec<u32>,
) -> Result<Option<Subst>, AllocError>
    requires { IsJudged r }
    ensures found { IfOk result (λ found. MatchOption found
        (IsIrreducible r.entry term.now)
        (λ s. IsReachedFrom r.entry term.now path.old.items path.new.items s.terms)) }
    ensures path { IfOk result (λ found. MatchOption found (path.new.items ≡ path.old.items) (λ s. ⊤)) }
{
    match term {
        Term::Var(_) => Ok(None),
        Term::App(_, args) => {
            if let Some(s) = rewrite_term(alloc, r, term)? {
                return Ok(Some(s));
            }
            let found = find_in_arguments(alloc, r, args.as_slice(), path)?;
            Ok(found)
        }
    }
}

/// The same in each of the terms, to which the path leads by their places.
#[cycle(walking)]
fn find_in_arguments(
    alloc: Global,
    r: Rewrite,
    terms: &[Term],
    path: &mut Vec<u32>,
) -> Result<Option<Subst>, AllocError>
    requires { IsJudged r }
    ensures found { IfOk result (λ found. MatchOption found
        (AreIrreducible r.entry terms.now)
        (λ s. IsReached r.entry terms.now path.old.items path.new.items s.terms)) }
    ensures path { IfOk result (λ found. MatchOption found (path.new.items ≡ path.old.items) (λ s. ⊤)) }
{
    if terms.len() > 4_294_967_295 {
        return Err(AllocError);
    }
    for k in 0..terms.len() {
        go_into(path, k as u32)?;
        let found = find_in_term(alloc, r, &terms[k], path)?;
        if let Some(s) = found {
            return Ok(Some(s));
        }
        go_back(path);
    }
    Ok(None)
}

/// Looks for a term that is rewritten in the sides of an equation.
fn find_in_sides(
    alloc: Global,
    r: Rewrite,
    left: &Term,
    right: &Term,
    path: &mut Vec<u32>,
) -> Result<Option<Subst>, AllocError>
    requires { IsJudged r }
    ensures found { IfOk result (λ found. MatchOption found
        (AreIrreducible r.entry (left.now ∷ right.now ∷ []))
        (λ s. IsReached r.entry (left.now ∷ right.now ∷ []) path.old.items path.new.items s.terms)) }
    ensures path { IfOk result (λ found. MatchOption found (path.new.items ≡ path.old.items) (λ s. ⊤)) }
{
    go_into(path, 0)?;
    let first = find_in_term(alloc, r, left, path)?;
    if let Some(s) = first {
        return Ok(Some(s));
    }
    go_back(path);
    go_into(path, 1)?;
    let second = find_in_term(alloc, r, right, path)?;
    if let Some(s) = second {
        return Ok(Some(s));
    }
    go_back(path);
    Ok(None)
}

/// Looks for a term of the atom that is rewritten. Where one is found the path leads to it; else the path is empty as
/// before.
fn find_in_atom(
    alloc: Global,
    r: Rewrite,
    atom: &Atom,
    path: &mut Vec<u32>,
) -> Result<Option<Subst>, AllocError>
    requires judged { IsJudged r }
    requires empty { path.old.items ≡ [] }
    ensures found { IfOk result (λ found. MatchOption found
        (IsIrreducibleAtom r.entry atom.now)
        (λ s. IsRewrittenAt r.entry atom.now path.new.items s.terms)) }
    ensures path { IfOk result (λ found. MatchOption found (path.new.items ≡ []) (λ s. ⊤)) }
{
    match atom {
        Atom::Holds(_, args) => {
            let found = find_in_arguments(alloc, r, args.as_slice(), path)?;
            Ok(found)
        }
        Atom::Equal(left, right) => {
            let found = find_in_sides(alloc, r, left, right, path)?;
            Ok(found)
        }
    }
}

/// Looks for a term of the atoms that is rewritten; the answer has the atom's place, from 0, too.
fn find_in_atoms(
    alloc: Global,
    r: Rewrite,
    atoms: &[Atom],
    path: &mut Vec<u32>,
) -> Result<Option<(usize, Subst)>, AllocError>
    requires judged { IsJudged r }
    requires empty { path.old.items ≡ [] }
    ensures found { IfOk result (λ found. MatchOption found
        (AreIrreducibleAtoms r.entry atoms.now)
        (λ f. IsSomeAnd (slice_get atoms.now f.0) (λ a. IsRewrittenAt r.entry a path.new.items f.1.terms))) }
    ensures path { IfOk result (λ found. MatchOption found (path.new.items ≡ []) (λ s. ⊤)) }
{
    for (place, atom) in atoms.iter().enumerate() {
        let found = find_in_atom(alloc, r, atom, path)?;
        if let Some(s) = found {
            return Ok(Some((place, s)));
        }
    }
    Ok(None)
}

// ---- the clause

/// A term of a clause that is rewritten, and the entries by which it is.
#[derive(Drop)]
pub(crate) struct Rewritten {
    /// The part of the atom.
    pub(crate) part: Part,
    /// Its place there, from 0.
    pub(crate) place: usize,
    /// The way from the atom to the term.
    pub(crate) path: Vec<u32>,
    /// One entry for each variable of the equation.
    pub(crate) s: Subst,
}

/// Looks for a term of this part that is rewritten.
fn find_in_part(
    alloc: Global,
    r: Rewrite,
    clause: &Clause,
    part: Part,
) -> Result<Option<Rewritten>, AllocError>
    requires { IsJudged r }
    ensures { IfOk result (λ found. MatchOption found
        (AreIrreducibleAtoms r.entry (part_of clause.now part))
        (IsRewrittenIn r.entry clause.now)) }
{
    let mut path = Vec::new(alloc);
    let found = find_in_atoms(alloc, r, clause.part(part), &mut path)?;
    match found {
        None => Ok(None),
        Some((place, s)) => Ok(Some(Rewritten {
            part,
            place,
            path,
            s,
        })),
    }
}

/// The first term of the clause that is rewritten, in the order of constraint, antecedent, succedent, a term before what
/// stands in it, from left to right; none where none is.
pub(crate) fn find_in_clause(
    alloc: Global,
    r: Rewrite,
    clause: &Clause,
) -> Result<Option<Rewritten>, AllocError>
    requires { IsJudged r }
    ensures { IfOk result (λ found. MatchOption found
        (IsIrreducibleClause r.entry clause.now)
        (IsRewrittenIn r.entry clause.now)) }
{
    if let Some(found) = find_in_part(alloc, r, clause, Part::Constraint)? {
        return Ok(Some(found));
    }
    if let Some(found) = find_in_part(alloc, r, clause, Part::Antecedent)? {
        return Ok(Some(found));
    }
    let found = find_in_part(alloc, r, clause, Part::Succedent)?;
    Ok(found)
}
