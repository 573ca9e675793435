//! Whether two clauses are equal but for the numbers of their variables, without a copy of them.
ghost use Rattle.std.specs.Prelude.{◌≡◌, ◌↔◌, IsTrue};
ghost use Rattle.spl_terms.specs.declared.clause.Clause.{Clause};
ghost use Rattle.spl_terms.specs.Clauses.{renumbered, in_order};
ghost use Rattle.spl_terms.specs.Alike.{alike, alike_terms, alike_atoms, alike_lists, alike_clauses, correspond};

use crate::atom::Atom;
use crate::clause::Clause;
use crate::term::Term;

/// A test of two variables that stand at one place of two clauses.
trait Pairing {
    ghost use Rattle.std.specs.Prelude.{ℕ, Bool, ◌≡◌};

    ghost passes: { Self → ℕ → ℕ → Bool };

    fn test(&self, left: u32, right: u32) -> bool
        ensures { result ≡ passes self.now left right };
}

/// Passes where the first variable is `left` exactly if the second one is `right`.
#[derive(Clone, Copy)]
struct Agree {
    left: u32,
    right: u32,
}

impl Pairing for Agree {
    ghost use Rattle.spl_terms.specs.Alike.{agree};

    ghost passes = { λ pair. agree pair.left pair.right };

    fn test(&self, left: u32, right: u32) -> bool {
        if left == self.left {
            right == self.right
        } else {
            right != self.right
        }
    }
}

/// Passes where the one variable stands in the first clause exactly where the other stands in the second.
#[derive(Clone, Copy)]
struct Correspond<'a> {
    first: &'a Clause,
    second: &'a Clause,
}

impl Pairing for Correspond<'_> {
    ghost use Rattle.spl_terms.specs.Alike.{correspond};

    ghost passes = { λ pair. correspond pair.first.now pair.second.now };

    fn test(&self, left: u32, right: u32) -> bool {
        alike_clauses(self.first, self.second, &Agree { left, right })
    }
}

#[cycle(alike)]
#[tactic(auto, using(crate::proofs::AlikeLemmas::measures))]
fn alike<P: Pairing>(some: &Term, other: &Term, pairing: &P) -> bool
    ensures { result ≡ alike (P.passes pairing.now) some.now other.now }
{
    match (some, other) {
        (Term::Var(v), Term::Var(w)) => pairing.test(*v, *w),
        (Term::App(f, args), Term::App(g, others)) => {
            f.same(*g) && alike_terms(args.as_slice(), others.as_slice(), pairing)
        }
        _ => false,
    }
}

#[cycle(alike)]
#[tactic(auto, using(crate::proofs::AlikeLemmas::measures))]
fn alike_terms<P: Pairing>(some: &[Term], others: &[Term], pairing: &P) -> bool
    ensures { result ≡ alike_terms (P.passes pairing.now) some.now others.now }
{
    match some {
        [] => others.is_empty(),
        [first, rest @ ..] => match others {
            [] => false,
            [other, more @ ..] => {
                alike(first, other, pairing) && alike_terms(rest, more, pairing)
            }
        },
    }
}

fn alike_atoms<P: Pairing>(some: &Atom, other: &Atom, pairing: &P) -> bool
    ensures { result ≡ alike_atoms (P.passes pairing.now) some.now other.now }
{
    match (some, other) {
        (Atom::Holds(p, args), Atom::Holds(q, others)) => {
            p.same(*q) && alike_terms(args.as_slice(), others.as_slice(), pairing)
        }
        (Atom::Equal(s, t), Atom::Equal(u, v)) => alike(s, u, pairing) && alike(t, v, pairing),
        _ => false,
    }
}

fn alike_lists<P: Pairing>(some: &[Atom], others: &[Atom], pairing: &P) -> bool
    ensures { result ≡ alike_lists (P.passes pairing.now) some.now others.now }
{
    match some {
        [] => others.is_empty(),
        [first, rest @ ..] => match others {
            [] => false,
            [other, more @ ..] => {
                alike_atoms(first, other, pairing) && alike_lists(rest, more, pairing)
            }
        },
    }
}

fn alike_clauses<P: Pairing>(first: &Clause, second: &Clause, pairing: &P) -> bool
    ensures { result ≡ alike_clauses (P.passes pairing.now) first.now second.now }
{
    alike_lists(
        first.constraint.as_slice(),
        second.constraint.as_slice(),
        pairing,
    ) && alike_lists(
        first.antecedent.as_slice(),
        second.antecedent.as_slice(),
        pairing,
    ) && alike_lists(
        first.succedent.as_slice(),
        second.succedent.as_slice(),
        pairing,
    )
}

/// Whether two clauses are equal list by list once their variables are renumbered by first occurrence.
///
/// It takes no memory. For each place where variables stand it walks both clauses once, so it takes time by the square
/// of their size; where they differ in more than variables one walk tells. For clauses in order, whose variables are
/// numbered by first occurrence, `same_clause` gives the same answer in one walk.
#[tactic(auto, using(crate::proofs::VariantLemmas::variant_laws))]
pub fn variant(a: &Clause, b: &Clause) -> bool
    ensures { IsTrue result ↔ (renumbered a.now ≡ renumbered b.now) }
{
    alike_clauses(
        a,
        b,
        &Correspond {
            first: a,
            second: b,
        },
    )
}

/// A law, with nothing to run: a clause that was brought into order is its own renumbering.
///
/// So two clauses in order are variants exactly where they are equal, which `same_clause` tells in one walk.
#[tactic(auto, using(crate::proofs::VariantLemmas::order_laws))]
pub fn order_stays()
    ensures { (c : Clause) → renumbered (in_order c) ≡ in_order c }
{}
