//! Formulas, with quantified variables in blocks.

ghost use Rattle.std.specs.Prelude.{◌≡◌, ◌≤◌, ◌<◌, true, false, IfOk};
ghost use Rattle.formulas.specs.declared.tree.Tree as tree;
ghost use Rattle.formulas.specs.Trees.{foralls, exists, tree_size};
ghost use Rattle.formulas.specs.Negations.{all_of, some_hold};
ghost use Rattle.formulas.specs.Counts.{form_count, counts_of};
ghost use Rattle.formulas.specs.Cases.{tree_of_case, AreSmaller};

use crate::counts::{Count, Counts};
use spl_terms::{Atom, Items};
use sqlite_items::Boxed;
use std::alloc::{AllocError, Global};
use std::marker::Model;

/// A formula, which contracts see as a plain tree.
///
/// The variables of one quantifier of the text are a block, so the formula is no deeper than the text: its drop, and
/// every walk, goes down as deep as the text nests. It keeps how many clauses it gives, so that nothing is built where
/// there are too many.
#[derive(Drop)]
#[cycle(formula)]
pub struct Formula {
    case: Held,
    /// How many clauses it gives, and its negation.
    counts: Counts,
}

#[derive(Drop)]
#[cycle(formula)]
enum Held {
    True,
    False,
    Atom(Atom),
    Not(Boxed<Formula>),
    And(Items<Formula>),
    Or(Items<Formula>),
    Implies(Boxed<Formula>, Boxed<Formula>),
    Equiv(Boxed<Formula>, Boxed<Formula>),
    Forall(u32, u32, Boxed<Formula>),
    Exists(u32, u32, Boxed<Formula>),
}

impl Model for Formula {
    ghost use Rattle.formulas.specs.declared.tree.Tree.{Tree};

    ghost Value = { Tree };

    ghost use Rattle.formulas.specs.contracts.tree.Tree as tree;
    ghost use Rattle.std.specs.Coded.{codes};

    ghost coded = { Prim.hlevel (codes, tree.the_row.coded) };

    ghost use Rattle.formulas.specs.Views.{tree_of, IsHeld};

    ghost view = { λ f. tree_of f.case };

    ghost use Rattle.std.specs.Prelude.{◌≡◌};
    ghost use Rattle.formulas.specs.Counts.{counts_of};

    ghost invariant = { λ f. IsHeld f.case × (f.counts ≡ counts_of (tree_of f.case)) };

    ghost use Rattle.formulas.specs.Trees.{tree_size};

    ghost size = { tree_size };

    ghost use Rattle.formulas.specs.DepthLaws.{depth_falls};

    ghost size_decreases = { λ a h. depth_falls a.case h.0 };
}

/// A formula's outermost case, with its parts lent.
#[derive(Clone, Copy)]
pub enum Case<'a> {
    /// `true`.
    True,
    /// `false`.
    False,
    /// An atom.
    Atom(&'a Atom),
    /// The negation of a formula.
    Not(&'a Formula),
    /// All of the formulas hold.
    And(&'a [Formula]),
    /// One of the formulas holds.
    Or(&'a [Formula]),
    /// If the first holds, the second does.
    Implies(&'a Formula, &'a Formula),
    /// Both hold, or neither.
    Equiv(&'a Formula, &'a Formula),
    /// For each value of the variables: the first one's number, how many there are, and the formula that holds.
    Forall(u32, u32, &'a Formula),
    /// For some value of the variables.
    Exists(u32, u32, &'a Formula),
}

/// The counts where all of the formulas hold, and where not all do.
fn counts_of_all(parts: &[Formula]) -> Counts
    ensures { result ≡ record { positive = form_count (all_of true parts.now); negative = form_count (some_hold false parts.now) } }
{
    let mut positive = Count::constant(true);
    let mut negative = Count::constant(false);
    for part in parts {
        let counts = part.counts();
        positive = positive.both(counts.positive);
        negative = negative.either(counts.negative);
    }
    Counts { positive, negative }
}

/// The counts where one of the formulas holds, and where none does.
fn counts_of_some(parts: &[Formula]) -> Counts
    ensures { result ≡ record { positive = form_count (some_hold true parts.now); negative = form_count (all_of false parts.now) } }
{
    let mut positive = Count::constant(false);
    let mut negative = Count::constant(true);
    for part in parts {
        let counts = part.counts();
        positive = positive.either(counts.positive);
        negative = negative.both(counts.negative);
    }
    Counts { positive, negative }
}

impl Formula {
    /// How many clauses the formula and its negation give, and how many Skolem symbols they take.
    pub fn counts(&self) -> Counts
        ensures { result ≡ counts_of self.now }
    {
        self.counts
    }

    /// `true`.
    pub fn always() -> Formula
        ensures { result ≡ tree.True }
    {
        Formula {
            case: Held::True,
            counts: Counts {
                positive: Count::constant(true),
                negative: Count::constant(false),
            },
        }
    }

    /// `false`.
    pub fn never() -> Formula
        ensures { result ≡ tree.False }
    {
        Formula {
            case: Held::False,
            counts: Counts {
                positive: Count::constant(false),
                negative: Count::constant(true),
            },
        }
    }

    /// The formula that is the atom.
    pub fn atom(atom: Atom) -> Formula
        ensures { result ≡ tree.Atom atom }
    {
        Formula {
            case: Held::Atom(atom),
            counts: Counts {
                positive: Count::literal(),
                negative: Count::literal(),
            },
        }
    }

    /// The negation of a formula; the only error is want of memory.
    pub fn negation(alloc: Global, part: Formula) -> Result<Formula, AllocError>
        ensures { IfOk result (λ f. f ≡ tree.Not part) }
    {
        let Counts { positive, negative } = part.counts();
        Ok(Formula {
            case: Held::Not(Boxed::new(alloc, part)?),
            counts: Counts {
                positive: negative,
                negative: positive,
            },
        })
    }

    /// The formula that all of these hold.
    pub fn conjunction(parts: Items<Formula>) -> Formula
        ensures { result ≡ tree.And parts }
    {
        let counts = counts_of_all(parts.as_slice());
        Formula {
            case: Held::And(parts),
            counts,
        }
    }

    /// The formula that one of these holds.
    pub fn disjunction(parts: Items<Formula>) -> Formula
        ensures { result ≡ tree.Or parts }
    {
        let counts = counts_of_some(parts.as_slice());
        Formula {
            case: Held::Or(parts),
            counts,
        }
    }

    /// The formula that the second holds if the first does; the only error is want of memory.
    pub fn implication(alloc: Global, left: Formula, right: Formula) -> Result<Formula, AllocError>
        ensures { IfOk result (λ f. f ≡ tree.Implies left right) }
    {
        let a = left.counts();
        let b = right.counts();
        let left = Boxed::new(alloc, left)?;
        let right = Boxed::new(alloc, right)?;
        Ok(Formula {
            case: Held::Implies(left, right),
            counts: a.implies(b),
        })
    }

    /// The formula that both hold or neither; the only error is want of memory.
    pub fn equivalence(alloc: Global, left: Formula, right: Formula) -> Result<Formula, AllocError>
        ensures { IfOk result (λ f. f ≡ tree.Equiv left right) }
    {
        let a = left.counts();
        let b = right.counts();
        let left = Boxed::new(alloc, left)?;
        let right = Boxed::new(alloc, right)?;
        Ok(Formula {
            case: Held::Equiv(left, right),
            counts: a.equals(b),
        })
    }

    /// The formula for each value of `count` variables, numbered from `first`; the only error is want of memory.
    pub fn for_all(
        alloc: Global,
        first: u32,
        count: u32,
        part: Formula,
    ) -> Result<Formula, AllocError>
        requires { 1 ≤ count }
        ensures { IfOk result (λ f. f ≡ foralls first count part) }
    {
        let counts = part.counts().for_all(count);
        Ok(Formula {
            case: Held::Forall(first, count, Boxed::new(alloc, part)?),
            counts,
        })
    }

    /// The formula for some value of `count` variables, numbered from `first`; the only error is want of memory.
    pub fn for_some(
        alloc: Global,
        first: u32,
        count: u32,
        part: Formula,
    ) -> Result<Formula, AllocError>
        requires { 1 ≤ count }
        ensures { IfOk result (λ f. f ≡ exists first count part) }
    {
        let counts = part.counts().for_some(count);
        Ok(Formula {
            case: Held::Exists(first, count, Boxed::new(alloc, part)?),
            counts,
        })
    }

    /// The formula's case; a quantifier has all variables of its block, at least one.
    #[tactic(auto, using(crate::proofs::Sizes::sizes))]
    pub fn case(&self) -> Case<'_>
        ensures shown { self.now ≡ tree_of_case result }
        ensures smaller { AreSmaller (tree_size self.now) result }
    {
        match &self.case {
            Held::True => Case::True,
            Held::False => Case::False,
            Held::Atom(atom) => Case::Atom(atom),
            Held::Not(part) => Case::Not(part.get()),
            Held::And(parts) => Case::And(parts.as_slice()),
            Held::Or(parts) => Case::Or(parts.as_slice()),
            Held::Implies(left, right) => Case::Implies(left.get(), right.get()),
            Held::Equiv(left, right) => Case::Equiv(left.get(), right.get()),
            Held::Forall(first, count, part) => Case::Forall(*first, *count, part.get()),
            Held::Exists(first, count, part) => Case::Exists(*first, *count, part.get()),
        }
    }
}
