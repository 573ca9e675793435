//! The precedence: which head of two applications is greater.
ghost use Rattle.std.specs.Prelude.{◌≡◌};
ghost use Rattle.spl_truth.specs.Orders.{kind_rank, is_greater_symbol, is_greater_head};
ghost use Rattle.kbo.specs.Comparisons.{compare_heads};

use crate::order::Order;
use spl_terms::{Kind, Symbol};

fn rank(kind: Kind) -> u8
    ensures { result ≡ kind_rank kind }
{
    match kind {
        Kind::Function => 0,
        Kind::Predicate => 1,
        Kind::Sort => 2,
    }
}

fn greater_symbol(symbol: Symbol, other: Symbol) -> bool
    ensures { result ≡ is_greater_symbol symbol other }
{
    symbol.number > other.number
        || symbol.number == other.number && rank(symbol.kind) > rank(other.kind)
}

fn greater_head(symbol: Symbol, count: usize, other: Symbol, other_count: usize) -> bool
    ensures { result ≡ is_greater_head symbol count other other_count }
{
    count > other_count || count == other_count && greater_symbol(symbol, other)
}

/// How two heads stand in the precedence, each a symbol with its number of arguments.
pub(crate) fn compare_heads(
    symbol: Symbol,
    count: usize,
    other: Symbol,
    other_count: usize,
) -> Order
    ensures { result ≡ compare_heads symbol count other other_count }
{
    if count == other_count && symbol.same(other) {
        Order::Equal
    } else if greater_head(symbol, count, other, other_count) {
        Order::Greater
    } else {
        Order::Less
    }
}
