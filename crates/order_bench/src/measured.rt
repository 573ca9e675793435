//! Terms of which it is known that they are small enough to be compared.
ghost use Rattle.std.specs.Prelude.{◌≡◌, ◌<◌, ◌≤◌, MatchOption};
ghost use Rattle.spl_terms.specs.Terms.{term_symbols};

use spl_terms::Term;

/// A term that is small enough to be compared.
#[derive(Debug, Drop)]
pub struct Measured {
    /// The term.
    pub term: Term,
    ghost small: { term_symbols term ≤ 4294967295 },
}

impl Measured {
    /// The term, if it has at most 4,294,967,295 symbols.
    pub fn new(term: Term) -> Option<Measured>
        ensures { MatchOption result (4294967295 < term_symbols term) (λ made. made.term ≡ term) }
    {
        if term.symbols() > 4_294_967_295 {
            return None;
        }
        Some(Measured { term })
    }
}
