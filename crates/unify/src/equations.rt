//! The equations that a unifier still has to solve.
ghost use Rattle.std.specs.Prelude.{◌≡◌, [], ◌∷◌, ◌++◌, length, OnOk, MatchOption};
ghost use Rattle.std.specs.List.{zip};

use spl_terms::Term;
use std::alloc::{AllocError, Global};
use std::marker::Model;

/// The equations that are left, as references into the terms that are unified; the first of them stands last.
#[derive(Drop)]
pub(crate) struct Equations<'a> {
    items: Vec<(&'a Term, &'a Term)>,
}

impl<'a> Model for Equations<'a> {
    ghost use Rattle.std.specs.Prelude.{List};
    ghost use Rattle.std.specs.Coded.{codes};
    ghost use Rattle.spl_terms.specs.declared.term.Term.{Term};
    ghost use Rattle.spl_terms.specs.contracts.term.Term as term;
    ghost use Rattle.unify.specs.Bindings.{first_first};

    ghost Value = { List (Term × Term) };

    ghost coded = { Prim.hlevel (codes, term.the_row.coded) };

    ghost view = { λ e. first_first e.items.items };
}

impl<'a> Equations<'a> {
    /// No equation; it takes no memory.
    pub(crate) fn new(alloc: Global) -> Equations<'a>
        ensures { result ≡ [] }
    {
        Equations {
            items: Vec::new(alloc),
        }
    }

    /// Puts an equation in front. The only error is want of memory.
    pub(crate) fn push(&mut self, left: &'a Term, right: &'a Term) -> Result<(), AllocError>
        ensures { OnOk result (self.new ≡ (left.now, right.now) ∷ self.old) }
    {
        self.items.push((left, right))?;
        Ok(())
    }

    /// Takes the first equation off; none where no equation is left.
    pub(crate) fn pop(&mut self) -> Option<(&'a Term, &'a Term)>
        ensures { MatchOption result (self.old ≡ []) (λ first. self.old ≡ (first.0.now, first.1.now) ∷ self.new) }
    {
        self.items.pop()
    }

    /// Puts the equations of the arguments in front, in order. The only error is want of memory.
    pub(crate) fn push_arguments(
        &mut self,
        lefts: &'a [Term],
        rights: &'a [Term],
    ) -> Result<(), AllocError>
        requires { length lefts.now ≡ length rights.now }
        ensures { OnOk result (self.new ≡ zip lefts.now rights.now ++ self.old) }
    {
        let mut place = lefts.len();
        while place > 0 {
            place -= 1;
            self.push(&lefts[place], &rights[place])?;
        }
        Ok(())
    }
}
