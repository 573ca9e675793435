//! Comparing a variable with an application, and applications of equal weight argument by argument.
ghost use Rattle.std.specs.Prelude.{◌≡◌, false, ◌==◌, ◌≤◌, length, sum, map, nat_lt, if◌then◌else◌};
ghost use Rattle.std.specs.List.{list_any, flat_map};
ghost use Rattle.spl_terms.specs.Terms.{term_symbols, term_variables};
ghost use Rattle.kbo.specs.Comparisons.{compare, then_by, compare_lists};
ghost use Rattle.kbo.specs.Tallies.{is_blind, IsEven, TalliesTerms, TalliesLists};

use crate::heads::compare_heads;
use crate::order::Order;
use crate::side::Side;
use crate::tally::Tally;
use crate::walking::occurs_in;
use spl_terms::{Symbol, Term};

/// How a variable stands to an application with these arguments: it is less than each that it occurs in.
pub(crate) fn compare_variable(variable: u32, args: &[Term]) -> Order
    ensures { result ≡ (if list_any (λ w. variable == w) (flat_map term_variables args.now) then Order.Less else Order.Incomparable) }
{
    if occurs_in(variable, args) {
        Order::Less
    } else {
        Order::Incomparable
    }
}

/// How an application with these arguments stands to a variable: it is greater than each that occurs in it.
pub(crate) fn compare_with_variable(args: &[Term], variable: u32) -> Order
    ensures { result ≡ (if list_any (λ w. variable == w) (flat_map term_variables args.now) then Order.Greater else Order.Incomparable) }
{
    if occurs_in(variable, args) {
        Order::Greater
    } else {
        Order::Incomparable
    }
}

impl<const N: usize> Tally<N> {
    /// Counts two terms, one on each side.
    fn count_both(&mut self, term: &Term, other: &Term)
        requires even { IsEven N self.old.balances self.old.beyond self.old.left self.old.right }
        requires term_size { term_symbols term.now ≤ 4294967295 }
        requires other_size { term_symbols other.now ≤ 4294967295 }
        ensures { TalliesTerms N self.new.balances self.new.beyond self.new.left self.new.right term.now other.now }
    {
        self.count(Side::Left, term);
        self.count(Side::Right, other);
    }

    /// Counts two lists of terms, one on each side.
    fn count_lists(&mut self, terms: &[Term], others: &[Term])
        requires even { IsEven N self.old.balances self.old.beyond self.old.left self.old.right }
        requires terms_size { sum (map term_symbols terms.now) ≤ 4294967295 }
        requires others_size { sum (map term_symbols others.now) ≤ 4294967295 }
        ensures { TalliesLists N self.new.balances self.new.beyond self.new.left self.new.right terms.now others.now }
    {
        self.count_all(Side::Left, terms);
        self.count_all(Side::Right, others);
    }

    /// How two terms stand. The tally is even before, and then tells how they differ.
    #[cycle(ordering)]
    fn order_terms(&mut self, term: &Term, other: &Term) -> Order
        requires even { IsEven N self.old.balances self.old.beyond self.old.left self.old.right }
        requires term_size { term_symbols term.now ≤ 4294967295 }
        requires other_size { term_symbols other.now ≤ 4294967295 }
        ensures order { is_blind self.new.beyond (nat_lt 64 N) ≡ false → result ≡ compare term.now other.now }
        ensures even { result ≡ Order.Equal → IsEven N self.new.balances self.new.beyond self.new.left self.new.right }
        ensures tally { TalliesTerms N self.new.balances self.new.beyond self.new.left self.new.right term.now other.now }
    {
        match (term, other) {
            (Term::App(symbol, args), Term::App(head, others)) => {
                self.order_applications(*symbol, args.as_slice(), *head, others.as_slice())
            }
            (Term::Var(variable), Term::Var(second)) => {
                if *variable == *second {
                    return Order::Equal;
                }
                self.count_both(term, other);
                Order::Incomparable
            }
            (Term::Var(variable), Term::App(_, others)) => {
                self.count_both(term, other);
                compare_variable(*variable, others.as_slice())
            }
            (Term::App(_, args), Term::Var(variable)) => {
                self.count_both(term, other);
                compare_with_variable(args.as_slice(), *variable)
            }
        }
    }

    /// How two applications stand, unless the tally is blind. It is even before, and then tells how their arguments differ.
    #[cycle(ordering)]
    pub(crate) fn order_applications(
        &mut self,
        symbol: Symbol,
        args: &[Term],
        head: Symbol,
        others: &[Term],
    ) -> Order
        requires even { IsEven N self.old.balances self.old.beyond self.old.left self.old.right }
        requires args_size { sum (map term_symbols args.now) ≤ 4294967295 }
        requires others_size { sum (map term_symbols others.now) ≤ 4294967295 }
        ensures order { is_blind self.new.beyond (nat_lt 64 N) ≡ false → result ≡ compare (Term.App symbol args.now) (Term.App head others.now) }
        ensures even { result ≡ Order.Equal → IsEven N self.new.balances self.new.beyond self.new.left self.new.right }
        ensures tally { TalliesLists N self.new.balances self.new.beyond self.new.left self.new.right args.now others.now }
    {
        let heads = compare_heads(symbol, args.len(), head, others.len());
        let lower = self.order_below(heads, args, others);
        self.judge(args, others, lower)
    }

    /// How two applications of the same weight stand, by their heads and arguments.
    #[cycle(ordering)]
    fn order_below(&mut self, heads: Order, args: &[Term], others: &[Term]) -> Order
        requires even { IsEven N self.old.balances self.old.beyond self.old.left self.old.right }
        requires args_size { sum (map term_symbols args.now) ≤ 4294967295 }
        requires others_size { sum (map term_symbols others.now) ≤ 4294967295 }
        requires count { heads ≡ Order.Equal → length args.now ≡ length others.now }
        ensures order { is_blind self.new.beyond (nat_lt 64 N) ≡ false → result ≡ then_by heads (compare_lists args.now others.now) }
        ensures even { result ≡ Order.Equal → IsEven N self.new.balances self.new.beyond self.new.left self.new.right }
        ensures tally { TalliesLists N self.new.balances self.new.beyond self.new.left self.new.right args.now others.now }
    {
        match heads {
            Order::Equal => self.order_lists(args, others),
            _ => {
                self.count_lists(args, others);
                heads
            }
        }
    }

    /// How the first terms stand that differ. The tally is even before, and then tells how the lists differ.
    #[cycle(ordering)]
    fn order_lists(&mut self, terms: &[Term], others: &[Term]) -> Order
        requires even { IsEven N self.old.balances self.old.beyond self.old.left self.old.right }
        requires terms_size { sum (map term_symbols terms.now) ≤ 4294967295 }
        requires others_size { sum (map term_symbols others.now) ≤ 4294967295 }
        requires count { length terms.now ≡ length others.now }
        ensures order { is_blind self.new.beyond (nat_lt 64 N) ≡ false → result ≡ compare_lists terms.now others.now }
        ensures even { result ≡ Order.Equal → IsEven N self.new.balances self.new.beyond self.new.left self.new.right }
        ensures tally { TalliesLists N self.new.balances self.new.beyond self.new.left self.new.right terms.now others.now }
    {
        match terms {
            [] => Order::Equal,
            [first, rest @ ..] => match others {
                [] => Order::Equal,
                [other, more @ ..] => {
                    match self.order_terms(first, other) {
                        Order::Equal => self.order_lists(rest, more),
                        order => {
                            self.count_all(Side::Left, rest);
                            self.count_all(Side::Right, more);
                            order
                        }
                    }
                }
            },
        }
    }
}
