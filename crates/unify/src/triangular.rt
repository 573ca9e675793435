//! Terms seen through bindings that refer to one another.
ghost use Rattle.std.specs.Prelude.{◌≡◌, min, map, sum_by, IfOk};
ghost use Rattle.spl_terms.specs.Terms.{term_symbols, replace};
ghost use Rattle.unify.specs.Below.{IsBelow};
ghost use Rattle.unify.specs.Bindings.{substitution, IsFree, IsTriangular};

use crate::bindings::Bindings;
use spl_terms::{Items, Term};
use std::alloc::{AllocError, Global};

/// The term that stands for this one at its top: an application, or an unbound variable.
pub(crate) fn dereferenced<'a>(bindings: &Bindings<'a>, term: &'a Term) -> &'a Term
    requires { IsTriangular bindings.now.0 bindings.now.1 }
    ensures same { replace (substitution bindings.now.1) result.now ≡ replace (substitution bindings.now.1) term.now }
    ensures free { IsFree bindings.now.1 result.now }
    ensures below { IsBelow bindings.now.0 term.now → IsBelow bindings.now.0 result.now }
{
    let mut term = term;
    while let Term::Var(variable) = term {
        match bindings.get(*variable) {
            Some(next) => term = next,
            None => return term,
        }
    }
    term
}

#[cycle(applying)]
fn applied<'a>(alloc: Global, bindings: &Bindings<'a>, term: &'a Term) -> Result<Term, AllocError>
    requires { IsTriangular bindings.now.0 bindings.now.1 }
    ensures { IfOk result (λ made. made ≡ replace (substitution bindings.now.1) term.now) }
{
    match dereferenced(bindings, term) {
        Term::Var(variable) => Ok(Term::Var(*variable)),
        Term::App(symbol, args) => {
            let args = all_applied(alloc, bindings, args.as_slice())?;
            Ok(Term::App(*symbol, args))
        }
    }
}

#[cycle(applying)]
fn all_applied<'a>(
    alloc: Global,
    bindings: &Bindings<'a>,
    terms: &'a [Term],
) -> Result<Items<Term>, AllocError>
    requires { IsTriangular bindings.now.0 bindings.now.1 }
    ensures { IfOk result (λ made. made ≡ map (replace (substitution bindings.now.1)) terms.now) }
{
    let mut made = Items::with_room(alloc, terms.len())?;
    for term in terms {
        made.push(applied(alloc, bindings, term)?)?;
    }
    Ok(made)
}

#[cycle(counting)]
fn symbols_up_to<'a>(bindings: &Bindings<'a>, term: &'a Term, limit: u64) -> u64
    requires { IsTriangular bindings.now.0 bindings.now.1 }
    ensures { result ≡ min (term_symbols (replace (substitution bindings.now.1) term.now)) limit }
{
    if limit == 0 {
        return 0;
    }
    match dereferenced(bindings, term) {
        Term::Var(_) => 1,
        Term::App(_, args) => symbols_in_up_to(bindings, args.as_slice(), limit - 1) + 1,
    }
}

/// It stops at the first term with which the limit is reached.
#[cycle(counting)]
fn symbols_in_up_to<'a>(bindings: &Bindings<'a>, terms: &'a [Term], limit: u64) -> u64
    requires { IsTriangular bindings.now.0 bindings.now.1 }
    ensures { result ≡ min (sum_by (λ t. term_symbols (replace (substitution bindings.now.1) t)) terms.now) limit }
{
    let mut count: u64 = 0;
    for term in terms {
        if count >= limit {
            return limit;
        }
        count += symbols_up_to(bindings, term, limit - count);
    }
    count
}

impl<'a> Bindings<'a> {
    /// The term with the bindings applied, in a copy of its own with no room to spare. It can be exponentially larger
    /// than the terms: see `instance_symbols` first. The only error is want of memory.
    pub fn applied(&self, alloc: Global, term: &'a Term) -> Result<Term, AllocError>
        requires { IsTriangular self.now.0 self.now.1 }
        ensures { IfOk result (λ made. made ≡ replace (substitution self.now.1) term.now) }
    {
        applied(alloc, self, term)
    }

    /// The terms with the bindings applied, as `applied` makes each of them. The only error is want of memory.
    pub fn all_applied(&self, alloc: Global, terms: &'a [Term]) -> Result<Items<Term>, AllocError>
        requires { IsTriangular self.now.0 self.now.1 }
        ensures { IfOk result (λ made. made ≡ map (replace (substitution self.now.1)) terms.now) }
    {
        all_applied(alloc, self, terms)
    }

    /// What the variable stands for, with the bindings applied, in a copy of its own; an unbound variable stands for
    /// itself. The only error is want of memory.
    pub fn applied_entry(&self, alloc: Global, variable: u32) -> Result<Term, AllocError>
        requires { IsTriangular self.now.0 self.now.1 }
        ensures { IfOk result (λ made. made ≡ substitution self.now.1 variable) }
    {
        match self.get(variable) {
            Some(term) => applied(alloc, self, term),
            None => Ok(Term::Var(variable)),
        }
    }

    /// How many symbols the term has with the bindings applied, or the limit where there are as many or more: a
    /// variable counts 1, an application 1 and its arguments. Nothing is built, and counting stops once the limit is
    /// reached.
    pub fn instance_symbols(&self, term: &'a Term, limit: u64) -> u64
        requires { IsTriangular self.now.0 self.now.1 }
        ensures { result ≡ min (term_symbols (replace (substitution self.now.1) term.now)) limit }
    {
        symbols_up_to(self, term, limit)
    }

    /// How many symbols what the variable stands for has, as `instance_symbols` counts them; an unbound variable stands
    /// for itself.
    pub fn entry_symbols(&self, variable: u32, limit: u64) -> u64
        requires { IsTriangular self.now.0 self.now.1 }
        ensures { result ≡ min (term_symbols (substitution self.now.1 variable)) limit }
    {
        match self.get(variable) {
            Some(term) => symbols_up_to(self, term, limit),
            None => limit.min(1),
        }
    }

    /// How many symbols the terms have together with the bindings applied, or the limit where there are as many or
    /// more, as `instance_symbols` counts them.
    pub fn instance_symbols_in_terms(&self, terms: &'a [Term], limit: u64) -> u64
        requires { IsTriangular self.now.0 self.now.1 }
        ensures { result ≡ min (sum_by (λ t. term_symbols (replace (substitution self.now.1) t)) terms.now) limit }
    {
        symbols_in_up_to(self, terms, limit)
    }
}
