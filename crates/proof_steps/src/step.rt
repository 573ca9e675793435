//! Statements, rules, steps and lines.
use dep_sets::Deps;
use spl_terms::{Clause, Items, Part, Spot};
use spl_truth::Subst;

/// A clause, and the assumptions on which it depends.
#[derive(Debug, Drop)]
pub struct Statement {
    /// What is stated; a conclusion is in order: no part has two atoms that are the same, and variables count from 0
    /// by first occurrence.
    pub clause: Clause,
    /// The sides of splits that the statement assumes.
    pub deps: Deps,
}

/// By which rule a step concludes, and at which places.
///
/// Places count from 0 in their part of the parent's instance; a substitution has one entry for each variable of
/// its parent, `s` for the first one and `t` for the second. The rules on literals are those of Weidenbach 2001,
/// here for given substitutions; the last four are its splitting rule, as steps of one proof.
#[derive(Debug, Drop)]
pub enum Rule {
    /// The input clause with this number, from 1.
    Input {
        no: u32,
    },
    /// Atom `i` of the first parent's succedent is the same as atom `j` of that part of the second parent, its
    /// constraint or its antecedent; both clauses without these.
    Resolve {
        i: u32,
        part: Part,
        j: u32,
        s: Subst,
        t: Subst,
    },
    /// An instance, in which repeated atoms are dropped.
    Factor {
        s: Subst,
    },
    /// Atom `i` of the first parent's succedent is an equation, read from left to right or from right to left; its
    /// first side stands at the spot in the second parent and is replaced by the other one.
    Paramodulate {
        i: u32,
        right_to_left: bool,
        spot: Spot,
        s: Subst,
        t: Subst,
    },
    /// Atom `j` of the antecedent is an equation with equal sides, and is removed.
    Reflex {
        j: u32,
        s: Subst,
    },
    /// Atoms `i` and `j` of the succedent are equations, each read from left to right or from right to left, with
    /// equal first sides; atom `i` is replaced by the equation of both second sides in the antecedent.
    EqFactor {
        i: u32,
        i_right: bool,
        j: u32,
        j_right: bool,
        s: Subst,
    },
    /// A side of the parent's split: 1 the left part, 2 the right part; or, with side 2, the negation of the left
    /// part's atom with this number, from 0, where that part has no variables.
    Assume {
        side: u32,
        negated: Option<u32>,
    },
    /// The left side of the first parent's split is closed by the second parent: the right part.
    CaseLeft,
    /// The right side of the first parent's split is closed by the second parent: the left part.
    CaseRight,
    /// Both sides of the first parent's split are closed, by the second and the third parent: the empty clause.
    CaseBoth,
}

/// A rule, and the numbers of the lines from which it concludes.
#[derive(Debug, Drop)]
pub struct Step {
    /// The rule, with its places and substitutions.
    pub rule: Rule,
    /// The numbers of the lines from which it concludes, from 1, in the order that the rule names.
    pub parents: Items<u32>,
}

/// A step, and what it states.
#[derive(Debug, Drop)]
pub struct Line {
    /// How the statement is concluded from the lines before this one.
    pub step: Step,
    /// What the line states.
    pub stated: Statement,
}
