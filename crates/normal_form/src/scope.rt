//! The quantifiers in whose scope a part of a formula stands, and atoms with the Skolem terms in place.

ghost use Rattle.std.specs.Prelude.{◌≡◌, ◌-◌, true, min, sum, map, IfOk, MatchOption};
ghost use Rattle.spl_terms.specs.declared.term.Term.{Var};
ghost use Rattle.spl_terms.specs.Terms.{replace, term_symbols};
ghost use Rattle.spl_terms.specs.Clauses.{replace_in_atom, atom_symbols};
ghost use Rattle.normal_form.specs.Blocks.{has_variable, arity_of, skolem_at, own_term, term_in};

use spl_terms::{Atom, Items, Kind, Symbol, Term};
use std::alloc::{AllocError, Global};

/// The Skolem terms of a quantifier's variables: a symbol each, and the same arguments.
#[derive(Debug, Drop)]
pub struct SkolemTerms {
    /// The number of the first variable's symbol; the others follow it.
    pub next: u32,
    /// The variables that are the arguments, in order.
    pub args: Items<u32>,
}

/// The variables of one quantifier.
#[derive(Debug, Drop)]
pub struct Block {
    /// The first variable's number; the others follow it.
    pub first: u32,
    /// How many variables there are.
    pub count: u32,
    /// The Skolem terms of an existential quantifier's variables; none of a universal one.
    pub skolems: Option<SkolemTerms>,
}

impl Block {
    /// Whether the variable is one of the block.
    pub fn has(&self, variable: u32) -> bool
        ensures { result ≡ has_variable self.now variable }
    {
        variable >= self.first && variable - self.first < self.count
    }

    /// How many arguments the block's Skolem terms have; 0 where it is universal.
    pub fn arity(&self) -> usize
        ensures { result ≡ arity_of self.now.skolems }
    {
        match &self.skolems {
            None => 0,
            Some(terms) => terms.args.len(),
        }
    }
}

/// The Skolem terms of the block that has a variable, the innermost one, and the variable's place among them; none where it
/// stands for itself.
#[tactic(auto, using(crate::proofs::BlockLemmas::last_block))]
pub fn term_of(blocks: &[Block], variable: u32) -> Option<(&SkolemTerms, u32)>
    ensures { MatchOption result (term_in blocks.now variable ≡ Var variable)
        (λ found. skolem_at found.0.now found.1 ≡ term_in blocks.now variable) }
{
    match blocks {
        [] => None,
        [outer @ .., block] => {
            if block.has(variable) {
                own_terms(block, variable)
            } else {
                term_of(outer, variable)
            }
        }
    }
}

/// The Skolem terms of a block, and the place among them of one of its variables.
fn own_terms(block: &Block, variable: u32) -> Option<(&SkolemTerms, u32)>
    requires { has_variable block.now variable ≡ true }
    ensures { MatchOption result (own_term block.now.skolems (variable - block.now.first) variable ≡ Var variable)
        (λ found. skolem_at found.0.now found.1 ≡ own_term block.now.skolems (variable - block.now.first) variable) }
{
    match &block.skolems {
        None => None,
        Some(terms) => Some((terms, variable - block.first)),
    }
}

/// The variables as terms.
fn variables(alloc: Global, numbers: &[u32]) -> Result<Items<Term>, AllocError>
    ensures { IfOk result (λ made. made ≡ map Var numbers.now) }
{
    let mut made = Items::with_room(alloc, numbers.len())?;
    for number in numbers {
        made.push(Term::Var(*number))?;
    }
    Ok(made)
}

/// One of the Skolem terms. Its symbol's number is at most 65,536 here; one that didn't fit would be answered as want of memory.
fn skolem_term(alloc: Global, terms: &SkolemTerms, place: u32) -> Result<Term, AllocError>
    ensures { IfOk result (λ t. t ≡ skolem_at terms.now place) }
{
    match terms.next.checked_add(place) {
        None => Err(AllocError),
        Some(number) => {
            let symbol = Symbol {
                number,
                kind: Kind::Function,
            };
            Ok(Term::App(symbol, variables(alloc, terms.args.as_slice())?))
        }
    }
}

fn term_or_itself(alloc: Global, blocks: &[Block], variable: u32) -> Result<Term, AllocError>
    ensures { IfOk result (λ t. t ≡ term_in blocks.now variable) }
{
    match term_of(blocks, variable) {
        None => Ok(Term::Var(variable)),
        Some((terms, place)) => skolem_term(alloc, terms, place),
    }
}

/// The term with Skolem terms in place; the only error is want of memory.
#[cycle(instance)]
#[tactic(auto, using(crate::proofs::Terms::replace_laws))]
fn instance(alloc: Global, blocks: &[Block], term: &Term) -> Result<Term, AllocError>
    ensures { IfOk result (λ t. t ≡ replace (term_in blocks.now) term.now) }
{
    match term {
        Term::Var(variable) => term_or_itself(alloc, blocks, *variable),
        Term::App(symbol, args) => Ok(Term::App(
            *symbol,
            instances(alloc, blocks, args.as_slice())?,
        )),
    }
}

#[cycle(instance)]
#[tactic(auto, using(crate::proofs::Terms::replace_laws))]
fn instances(alloc: Global, blocks: &[Block], terms: &[Term]) -> Result<Items<Term>, AllocError>
    ensures { IfOk result (λ made. made ≡ map (replace (term_in blocks.now)) terms.now) }
{
    let mut made = Items::with_room(alloc, terms.len())?;
    for term in terms {
        made.push(instance(alloc, blocks, term)?)?;
    }
    Ok(made)
}

/// The atom with Skolem terms in place; the only error is want of memory.
pub fn atom_instance(alloc: Global, blocks: &[Block], atom: &Atom) -> Result<Atom, AllocError>
    ensures { IfOk result (λ a. a ≡ replace_in_atom (term_in blocks.now) atom.now) }
{
    match atom {
        Atom::Holds(symbol, args) => Ok(Atom::Holds(
            *symbol,
            instances(alloc, blocks, args.as_slice())?,
        )),
        Atom::Equal(left, right) => Ok(Atom::Equal(
            instance(alloc, blocks, left)?,
            instance(alloc, blocks, right)?,
        )),
    }
}

// ---- sizes

/// How many symbols the term that stands for a variable has, or the last value of `u64`.
fn variable_symbols(blocks: &[Block], variable: u32) -> u64
    ensures { result ≡ min (term_symbols (term_in blocks.now variable)) 18446744073709551615 }
{
    match term_of(blocks, variable) {
        None => 1,
        Some((terms, _)) => (terms.args.len() as u64).saturating_add(1),
    }
}

/// How many symbols the term has with Skolem terms in place, or the last value of `u64`.
#[cycle(size)]
#[tactic(auto, using(crate::proofs::Terms::size_laws))]
fn instance_symbols(blocks: &[Block], term: &Term) -> u64
    ensures { result ≡ min (term_symbols (replace (term_in blocks.now) term.now)) 18446744073709551615 }
{
    match term {
        Term::Var(variable) => variable_symbols(blocks, *variable),
        Term::App(_, args) => instances_symbols(blocks, args.as_slice()).saturating_add(1),
    }
}

#[cycle(size)]
#[tactic(auto, using(crate::proofs::Terms::size_laws))]
fn instances_symbols(blocks: &[Block], terms: &[Term]) -> u64
    ensures { result ≡ min (sum (map term_symbols (map (replace (term_in blocks.now)) terms.now))) 18446744073709551615 }
{
    let mut count: u64 = 0;
    for term in terms {
        count = count.saturating_add(instance_symbols(blocks, term));
    }
    count
}

/// How many symbols the atom has with Skolem terms in place, or the last value of `u64`; nothing is made.
pub fn atom_instance_symbols(blocks: &[Block], atom: &Atom) -> u64
    ensures { result ≡ min (atom_symbols (replace_in_atom (term_in blocks.now) atom.now)) 18446744073709551615 }
{
    match atom {
        Atom::Holds(_, args) => instances_symbols(blocks, args.as_slice()).saturating_add(1),
        Atom::Equal(left, right) => instance_symbols(blocks, left)
            .saturating_add(instance_symbols(blocks, right))
            .saturating_add(1),
    }
}
