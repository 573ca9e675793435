//! Terms and atoms seen alike, so that atoms are compared without a copy.
ghost use Rattle.std.specs.Prelude.{◌≡◌};
ghost use Rattle.kbo.specs.Views.{term_of};

use spl_terms::{Symbol, Term};

/// The uppermost layer of a term, which may be lent from parts: a predicate with its arguments counts as a term too.
#[derive(Clone, Copy, Debug)]
pub enum View<'a> {
    /// A variable, by its number.
    Var(u32),
    /// A symbol with its arguments.
    App(Symbol, &'a [Term]),
}

impl<'a> View<'a> {
    /// The uppermost layer of a term.
    pub fn of(term: &'a Term) -> View<'a>
        ensures { term_of result ≡ term.now }
    {
        match term {
            Term::Var(variable) => View::Var(*variable),
            Term::App(symbol, args) => View::App(*symbol, args.as_slice()),
        }
    }
}
