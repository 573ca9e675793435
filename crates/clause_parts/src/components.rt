//! Components of atoms that share variables, by marks: the first one with a succedent atom.
ghost use Rattle.std.specs.Prelude.{◌≡◌, ◌==◌, ◌<◌, ◌+◌, ◌++◌, not, map, IfSome, length, IsTrue, ◌↔◌, IfOk, OnOk};
ghost use Rattle.std.specs.List.{list_any, flat_map, slice_get};
ghost use Rattle.spl_terms.specs.Terms.{term_variables};
ghost use Rattle.spl_terms.specs.Clauses.{atom_variables, atoms_of};
ghost use Rattle.clause_parts.specs.Parts.{variable_lists, share, spread, only, component, has_succedent, leaves_succedent, first_head, left_marks};
ghost use Rattle.clause_parts.specs.Marking.{marked_variables, spread_over, all_if};

use spl_terms::{Atom, Clause, Items, Term};
use std::alloc::{AllocError, Global};

// ---- variables

#[cycle(collect)]
#[tactic(auto, using(crate::proofs::Marks::variable_laws))]
fn collect_term(term: &Term, found: &mut Items<u32>) -> Result<(), AllocError>
    ensures { OnOk result (found.new ≡ found.old ++ term_variables term.now) }
{
    match term {
        Term::Var(variable) => found.push(*variable),
        Term::App(_, args) => collect_terms(args.as_slice(), found),
    }
}

/// Adds the variables of the terms, from left to right, each as often as it occurs.
#[cycle(collect)]
#[tactic(auto, using(crate::proofs::Marks::variable_laws))]
fn collect_terms(terms: &[Term], found: &mut Items<u32>) -> Result<(), AllocError>
    ensures { OnOk result (found.new ≡ found.old ++ flat_map term_variables terms.now) }
{
    for term in terms {
        collect_term(term, found)?;
    }
    Ok(())
}

#[tactic(auto, using(crate::proofs::Marks::variable_laws))]
fn collect_atom(atom: &Atom, found: &mut Items<u32>) -> Result<(), AllocError>
    ensures { OnOk result (found.new ≡ found.old ++ atom_variables atom.now) }
{
    match atom {
        Atom::Holds(_, args) => collect_terms(args.as_slice(), found),
        Atom::Equal(left, right) => {
            collect_term(left, found)?;
            collect_term(right, found)
        }
    }
}

fn variables_of(alloc: Global, atom: &Atom) -> Result<Items<u32>, AllocError>
    ensures { IfOk result (λ found. found ≡ atom_variables atom.now) }
{
    let mut found = Items::new(alloc);
    collect_atom(atom, &mut found)?;
    Ok(found)
}

fn list_variables(
    alloc: Global,
    atoms: &[Atom],
    lists: &mut Items<Items<u32>>,
) -> Result<(), AllocError>
    ensures { OnOk result (lists.new ≡ lists.old ++ map atom_variables atoms.now) }
{
    for atom in atoms {
        lists.push(variables_of(alloc, atom)?)?;
    }
    Ok(())
}

/// The variables of each atom. Atoms without variables take no memory of their own.
#[tactic(auto, using(crate::proofs::Marks::list_laws))]
fn variable_lists(alloc: Global, clause: &Clause) -> Result<Items<Items<u32>>, AllocError>
    ensures { IfOk result (λ lists. lists ≡ variable_lists clause.now) }
{
    let (constraint, antecedent, succedent) = (
        clause.constraint.as_slice(),
        clause.antecedent.as_slice(),
        clause.succedent.as_slice(),
    );
    let mut lists = Items::with_room(alloc, constraint.len() + antecedent.len() + succedent.len())?;
    list_variables(alloc, constraint, &mut lists)?;
    list_variables(alloc, antecedent, &mut lists)?;
    list_variables(alloc, succedent, &mut lists)?;
    Ok(lists)
}

fn contains(variables: &[u32], variable: u32) -> bool
    ensures { result ≡ list_any (λ w. variable == w) variables.now }
{
    variables.iter().any(|other| variable == *other)
}

fn shares(variables: &[u32], others: &[u32]) -> bool
    ensures { result ≡ share variables.now others.now }
{
    variables.iter().any(|variable| contains(others, *variable))
}

// ---- components

fn add_if(mark: bool, variables: &[u32], found: &mut Vec<u32>) -> Result<(), AllocError>
    ensures { OnOk result (found.new.items ≡ found.old.items ++ all_if mark variables.now) }
{
    if mark {
        found.extend_from_slice(variables)?;
    }
    Ok(())
}

/// The variables of the marked atoms.
#[tactic(auto, using(crate::proofs::Marks::reached_laws, std::proofs::lemmas::List::drop_all))]
fn reached(alloc: Global, lists: &[Items<u32>], marks: &[bool]) -> Result<Vec<u32>, AllocError>
    ensures { IfOk result (λ found. found.items ≡ marked_variables marks.now lists.now) }
{
    let mut found = Vec::new(alloc);
    for (k, list) in lists.iter().enumerate() {
        let Some(mark) = marks.get(k) else {
            return Ok(found);
        };
        add_if(*mark, list.as_slice(), &mut found)?;
    }
    Ok(found)
}

/// The marks, and one for each atom that has one of these variables.
#[tactic(auto, using(crate::proofs::Marks::spread_laws, std::proofs::lemmas::List::drop_all))]
fn spread_over(
    alloc: Global,
    variables: &[u32],
    lists: &[Items<u32>],
    marks: &[bool],
) -> Result<Items<bool>, AllocError>
    ensures { IfOk result (λ made. made ≡ spread_over variables.now lists.now marks.now) }
{
    let mut made = Items::with_room(alloc, lists.len())?;
    for (k, list) in lists.iter().enumerate() {
        let Some(mark) = marks.get(k) else {
            return Ok(made);
        };
        made.push(*mark || shares(list.as_slice(), variables))?;
    }
    Ok(made)
}

/// The marks, and one for each atom that shares a variable with a marked one.
#[tactic(auto, using(crate::proofs::Marks::spread_is))]
fn spread(alloc: Global, lists: &[Items<u32>], marks: &[bool]) -> Result<Items<bool>, AllocError>
    ensures { IfOk result (λ made. made ≡ spread lists.now marks.now) }
{
    let variables = reached(alloc, lists, marks)?;
    spread_over(alloc, variables.as_slice(), lists, marks)
}

fn same_at(a: &[bool], b: &[bool], k: usize) -> bool
    requires first { k < length a.now }
    requires second { k < length b.now }
    ensures { IsTrue result ↔ (slice_get a.now k ≡ slice_get b.now k) }
{
    a[k] == b[k]
}

#[tactic(auto, using(crate::proofs::Marks::next_alike))]
fn same_marks(a: &[bool], b: &[bool]) -> bool
    ensures { IsTrue result ↔ (a.now ≡ b.now) }
{
    if a.len() != b.len() {
        return false;
    }
    for k in 0..a.len() {
        if !same_at(a, b, k) {
            return false;
        }
    }
    true
}

fn only(alloc: Global, k: usize, lists: &[Items<u32>]) -> Result<Items<bool>, AllocError>
    requires { k < length lists.now }
    ensures { IfOk result (λ marks. marks ≡ only k lists.now) }
{
    let mut marks = vec![in alloc; false; lists.len()]?;
    marks[k] = true;
    Ok(Items::from_vec(marks))
}

/// The marks of the atoms to which a chain of shared variables leads from this one.
#[tactic(auto, using(crate::proofs::Marks::rounds))]
fn component(alloc: Global, k: usize, lists: &[Items<u32>]) -> Result<Items<bool>, AllocError>
    requires { k < length lists.now }
    ensures { IfOk result (λ marks. marks ≡ component k lists.now) }
{
    let mut marks = only(alloc, k, lists)?;
    let mut rounds = lists.len();
    while rounds > 0 {
        let next = spread(alloc, lists, marks.as_slice())?;
        if same_marks(next.as_slice(), marks.as_slice()) {
            return Ok(marks);
        }
        marks = next;
        rounds -= 1;
    }
    Ok(marks)
}

// ---- the marks of the left part

/// Where the succedent's atoms begin among the clause's.
pub fn succedent_start(clause: &Clause) -> usize
    ensures { result ≡ length clause.now.constraint + length clause.now.antecedent }
{
    clause.constraint.as_slice().len() + clause.antecedent.as_slice().len()
}

fn some_set(marks: &[bool]) -> bool
    ensures { result ≡ list_any (λ b. b) marks.now }
{
    marks.iter().any(|mark| *mark)
}

fn some_unset(marks: &[bool]) -> bool
    ensures { result ≡ list_any not marks.now }
{
    marks.iter().any(|mark| !*mark)
}

#[tactic(auto, using(crate::proofs::Marks::atom_counts))]
fn has_succedent(clause: &Clause, marks: &[bool]) -> bool
    requires { length marks.now ≡ length (variable_lists clause.now) }
    ensures { result ≡ has_succedent clause.now marks.now }
{
    some_set(&marks[succedent_start(clause)..])
}

#[tactic(auto, using(crate::proofs::Marks::atom_counts))]
fn leaves_succedent(clause: &Clause, marks: &[bool]) -> bool
    requires { length marks.now ≡ length (variable_lists clause.now) }
    ensures { result ≡ leaves_succedent clause.now marks.now }
{
    some_unset(&marks[succedent_start(clause)..])
}

/// The first component with an atom of the succedent.
#[tactic(auto, using(crate::proofs::Marks::lengths, crate::proofs::Marks::heads))]
fn first_head(
    alloc: Global,
    clause: &Clause,
    lists: &[Items<u32>],
) -> Result<Option<Items<bool>>, AllocError>
    requires { lists.now ≡ variable_lists clause.now }
    ensures first { IfOk result (λ found. found ≡ first_head (length (atoms_of clause.now)) 0 clause.now) }
    ensures length { IfOk result (λ found. IfSome found (λ marks. length marks ≡ length (variable_lists clause.now))) }
{
    for k in 0..lists.len() {
        let marks = component(alloc, k, lists)?;
        if has_succedent(clause, marks.as_slice()) {
            return Ok(Some(marks));
        }
    }
    Ok(None)
}

/// The marks of the left part, where the clause has parts. A clause with fewer than two atoms in the succedent has
/// none, and takes no memory.
#[tactic(auto, using(crate::proofs::Marks::few_have_none))]
pub fn left_marks(alloc: Global, clause: &Clause) -> Result<Option<Items<bool>>, AllocError>
    ensures exact { IfOk result (λ found. found ≡ left_marks clause.now) }
    ensures length { IfOk result (λ found. IfSome found (λ marks. length marks ≡ length (variable_lists clause.now))) }
{
    if clause.succedent.len() < 2 {
        return Ok(None);
    }
    let lists = variable_lists(alloc, clause)?;
    let Some(marks) = first_head(alloc, clause, lists.as_slice())? else {
        return Ok(None);
    };
    if leaves_succedent(clause, marks.as_slice()) {
        Ok(Some(marks))
    } else {
        Ok(None)
    }
}
