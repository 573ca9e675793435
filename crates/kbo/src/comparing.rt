//! How two terms, or two views of atoms, stand in the order of Knuth and Bendix.
ghost use Rattle.std.specs.Prelude.{◌≡◌, ◌≤◌, sum, map, IfSome};
ghost use Rattle.spl_terms.specs.Terms.{term_symbols, term_eq};
ghost use Rattle.kbo.specs.Comparisons.{compare};
ghost use Rattle.kbo.specs.Views.{term_of};

use crate::order::Order;
use crate::ordering::{compare_variable, compare_with_variable};
use crate::tally::{FEW, Tally};
use crate::view::View;
use spl_terms::{Symbol, Term, all_equal};

/// How many variables a large tally counts: those of two clauses of 4,096 symbols, one renamed apart from the other.
const MANY: usize = 8192;

// None where a variable was met that a small tally doesn't count.
fn compare_few(symbol: Symbol, args: &[Term], head: Symbol, others: &[Term]) -> Option<Order>
    requires args_size { sum (map term_symbols args.now) ≤ 4294967295 }
    requires others_size { sum (map term_symbols others.now) ≤ 4294967295 }
    ensures { IfSome result (λ order. order ≡ compare (Term.App symbol args.now) (Term.App head others.now)) }
{
    let mut tally = Tally::<FEW>::new();
    let order = tally.order_applications(symbol, args, head, others);
    if tally.is_blind() { None } else { Some(order) }
}

#[tactic(auto, using(crate::proofs::TallyLemmas::never_blind))]
fn compare_many(symbol: Symbol, args: &[Term], head: Symbol, others: &[Term]) -> Order
    requires args_size { sum (map term_symbols args.now) ≤ 4294967295 }
    requires others_size { sum (map term_symbols others.now) ≤ 4294967295 }
    ensures { result ≡ compare (Term.App symbol args.now) (Term.App head others.now) }
{
    let mut tally = Tally::<MANY>::new();
    tally.order_applications(symbol, args, head, others)
}

fn compare_applications(symbol: Symbol, args: &[Term], head: Symbol, others: &[Term]) -> Order
    requires args_size { sum (map term_symbols args.now) ≤ 4294967295 }
    requires others_size { sum (map term_symbols others.now) ≤ 4294967295 }
    ensures { result ≡ compare (Term.App symbol args.now) (Term.App head others.now) }
{
    match compare_few(symbol, args, head, others) {
        Some(order) => order,
        None => compare_many(symbol, args, head, others),
    }
}

/// How the terms stand that two views show (Knuth and Bendix 1970). A predicate with its arguments is compared as a term.
/// It takes no memory, and for variables below 8,192 time in proportion to the size of the terms.
pub fn compare_views(view: View, other: View) -> Order
    requires size { term_symbols (term_of view) ≤ 4294967295 }
    requires other_size { term_symbols (term_of other) ≤ 4294967295 }
    ensures { result ≡ compare (term_of view.entry) (term_of other.entry) }
{
    match (view, other) {
        (View::App(symbol, args), View::App(head, others)) => {
            compare_applications(symbol, args, head, others)
        }
        (View::Var(variable), View::App(_, others)) => compare_variable(variable, others),
        (View::App(_, args), View::Var(variable)) => compare_with_variable(args, variable),
        (View::Var(variable), View::Var(second)) => {
            if variable == second {
                Order::Equal
            } else {
                Order::Incomparable
            }
        }
    }
}

/// How two terms stand in the order of Knuth and Bendix (1970), where each symbol and variable weighs 1.
///
/// The first is greater if no variable occurs more often in the second, and it has more symbols, or as many and the
/// greater head, or the same head too and the greater one of the first arguments that differ. Of two heads the one with
/// more arguments is greater, then the one whose symbol has the greater number, then the one of the later kind of
/// function, predicate and sort. It takes no memory.
pub fn compare(term: &Term, other: &Term) -> Order
    requires size { term_symbols term.now ≤ 4294967295 }
    requires other_size { term_symbols other.now ≤ 4294967295 }
    ensures { result ≡ compare term.now other.now }
{
    compare_views(View::of(term), View::of(other))
}

/// Whether two views show the same term.
pub(crate) fn same_view(view: View, other: View) -> bool
    ensures { result ≡ term_eq (term_of view.entry) (term_of other.entry) }
{
    match (view, other) {
        (View::App(symbol, args), View::App(head, others)) => {
            symbol.same(head) && all_equal(args, others)
        }
        (View::Var(variable), View::Var(second)) => variable == second,
        _ => false,
    }
}
