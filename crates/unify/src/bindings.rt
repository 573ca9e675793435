//! Variables bound to terms by reference, in the order in which they were bound, so that binding can be undone.
ghost use Rattle.std.specs.Prelude.{◌≡◌, ℕ, List, [], ◌∷◌, ◌++◌, ◌-◌, ◌<◌, length, drop, Some, None, IfOk, OnOk, OnErr, MatchOption};
ghost use Rattle.spl_terms.specs.declared.term.Term.{Term};
ghost use Rattle.spl_truth.specs.Unifiers.{entries_below};
ghost use Rattle.unify.specs.Bindings.{bound_to, filled};

use spl_terms::{Items, Term};
use spl_truth::Subst;
use std::alloc::{AllocError, Global};
use std::marker::Model;

/// What the variables below a number are bound to, by reference.
///
/// Contracts see that number and the list of the bindings made, the newest first. Each binding can be looked up at
/// once, and the newest ones can be taken back.
#[derive(Drop)]
pub struct Bindings<'a> {
    terms: Vec<Option<&'a Term>>,
    made: Vec<(u32, &'a Term)>,
}

impl<'a> Model for Bindings<'a> {
    ghost use Rattle.std.specs.Prelude.{ℕ, List, length};
    ghost use Rattle.std.specs.Coded.{codes};
    ghost use Rattle.spl_terms.specs.declared.term.Term.{Term};
    ghost use Rattle.spl_terms.specs.contracts.term.Term as term;
    ghost use Rattle.unify.specs.Bindings.{plain_terms, newest_first, IsIndexed};

    ghost Value = { ℕ × List (ℕ × Term) };

    ghost coded = { Prim.hlevel (codes, term.the_row.coded) };

    ghost view = { λ b. (length b.terms.items, newest_first b.made.items) };

    ghost invariant = { λ b. IsIndexed (plain_terms b.terms.items) (newest_first b.made.items) };
}

impl<'a> Bindings<'a> {
    /// No binding, for the variables below `vars`. The only error is want of memory.
    pub fn new(alloc: Global, vars: u32) -> Result<Bindings<'a>, AllocError>
        ensures { IfOk result (λ bindings. bindings ≡ (vars, [])) }
    {
        let mut terms = Vec::with_capacity(alloc, vars as usize)?;
        for _ in 0..vars {
            terms.push(None)?;
        }
        Ok(Bindings {
            terms,
            made: Vec::new(alloc),
        })
    }

    /// What the variable is bound to; none where it is unbound.
    pub fn get(&self, variable: u32) -> Option<&'a Term>
        ensures { MatchOption result (bound_to self.now.1 variable ≡ None) (λ term. bound_to self.now.1 variable ≡ Some term.now) }
    {
        match self.terms.get(variable as usize) {
            Some(Some(term)) => Some(*term),
            _ => None,
        }
    }

    /// Binds an unbound variable. The only error is want of memory, and then the bindings are as before.
    pub fn bind(&mut self, variable: u32, term: &'a Term) -> Result<(), AllocError>
        requires below { variable < self.old.0 }
        requires unbound { bound_to self.old.1 variable ≡ None }
        ensures ok { OnOk result (self.new ≡ (self.old.0, (variable, term.now) ∷ self.old.1)) }
        ensures err { OnErr result (self.new ≡ self.old) }
    {
        self.made.push((variable, term))?;
        self.terms[variable as usize] = Some(term);
        Ok(())
    }

    /// Takes back the newest binding, if there is one.
    fn undo_newest(&mut self)
        ensures { self.new ≡ (self.old.0, drop 1 self.old.1) }
    {
        if let Some((variable, _)) = self.made.pop() {
            self.terms[variable as usize] = None;
        }
    }

    /// Takes back all bindings but the first `count`. Where the bindings were that many before more were made, they are
    /// again what they were.
    pub fn undo(&mut self, count: usize)
        ensures exact { self.new ≡ (self.old.0, drop (length self.old.1 - count) self.old.1) }
        ensures restored { (more before : List (ℕ × Term)) → self.old.1 ≡ more ++ before → length before ≡ count → self.new ≡ (self.old.0, before) }
    {
        while self.count() > count {
            self.undo_newest();
        }
    }

    /// How many variables are bound.
    pub fn count(&self) -> usize
        ensures { result ≡ length self.now.1 }
    {
        self.made.len()
    }

    /// The term of the variable: what it is bound to, or the variable itself. The only error is want of memory.
    pub(crate) fn entry(&self, alloc: Global, variable: u32) -> Result<Term, AllocError>
        ensures { IfOk result (λ term. term ≡ filled self.now.1 variable) }
    {
        match self.get(variable) {
            Some(term) => term.copy(alloc),
            None => Ok(Term::Var(variable)),
        }
    }

    /// The bindings as a substitution with an entry for each variable below `vars`; an entry of an unbound variable is
    /// the variable itself. The only error is want of memory.
    pub fn entries(&self, alloc: Global, vars: u32) -> Result<Subst, AllocError>
        ensures { IfOk result (λ subst. subst.terms ≡ entries_below vars (filled self.now.1)) }
    {
        let mut terms = Items::with_room(alloc, vars as usize)?;
        for variable in 0..vars {
            terms.push(self.entry(alloc, variable)?)?;
        }
        Ok(Subst { terms })
    }
}
