//! Formulas.

use spl_terms::{Atom, Items};
use sqlite_items::Boxed;

/// A formula of first-order logic with equality, as a tree.
///
/// A clause is the formula of its literals: `Or` of them, or the one literal; a literal is `True`, `False`, an atom,
/// or `Not` of one of these. An `And` without parts is true, an `Or` without parts false. A quantifier has the number
/// of its variable; each binding of an entry has a number of its own, from 0 in the order of the text.
#[derive(Debug, Drop)]
pub enum Formula {
    /// `true`.
    True,
    /// `false`.
    False,
    /// An atom.
    Atom(Atom),
    /// The negation of a formula.
    Not(Boxed<Formula>),
    /// All of the formulas hold.
    And(Items<Formula>),
    /// One of the formulas holds.
    Or(Items<Formula>),
    /// If the first holds, the second does.
    Implies(Boxed<Formula>, Boxed<Formula>),
    /// Both hold, or neither.
    Equiv(Boxed<Formula>, Boxed<Formula>),
    /// The formula holds for each value of the variable.
    Forall(u32, Boxed<Formula>),
    /// The formula holds for some value of the variable.
    Exists(u32, Boxed<Formula>),
}
