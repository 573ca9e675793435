//! Notes that say why a clause may be hidden. Their form is this project's own.
use spl_terms::{Items, Spot};
use spl_truth::Subst;

/// An instance of an equation, and the place that it rewrites.
#[derive(Debug, Drop)]
pub struct Edit {
    /// The number of the equation, from 1.
    pub equation: u32,
    /// One entry for each variable of the equation.
    pub subst: Subst,
    /// Whether the right side is replaced by the left one.
    pub right_to_left: bool,
    /// Where the side that is replaced stands.
    pub spot: Spot,
}

/// Why a clause isn't needed beside others (Weidenbach 2001, the section on reductions).
#[derive(Debug, Drop)]
pub enum Why {
    /// It is a tautology.
    Tautology,
    /// The clause with the number `by` subsumes it, by this substitution.
    Subsumed {
        by: u32,
        subst: Subst,
    },
    /// Equations rewrite it, edit by edit, and the clause with the number `reduct` maps into what has stood there.
    Rewritten {
        reduct: u32,
        subst: Subst,
        edits: Items<Edit>,
    },
}

/// Which clause may be hidden, and why.
#[derive(Debug, Drop)]
pub struct HideNote {
    /// The number of the hidden clause, from 1.
    pub hidden: u32,
    /// The reasons for which it isn't needed.
    pub why: Why,
}
