//! How terms and their instances stand in the order on terms.
ghost use Rattle.std.specs.Prelude.{◌≡◌, not, IfOk};
ghost use Rattle.spl_truth.specs.Orders.{is_below};
ghost use Rattle.superposition.specs.Standings.{IsStanding};

use kbo::{Order, compare, order_is_stable};
use spl_terms::Term;
use std::alloc::AllocError;

/// What is known of two terms whatever their variables stand for.
#[derive(Clone, Copy, Debug)]
pub(crate) enum Standing {
    /// The first one is greater.
    Upper,
    /// The first one is less, or the two are equal.
    Lower,
    /// It depends on what the variables stand for.
    Open,
}

/// How the terms stand whatever their variables stand for, and how they do with the two exchanged. Terms that are too
/// large to compare are left open.
pub(crate) fn standings(left: &Term, right: &Term) -> (Standing, Standing)
    ensures forth { IsStanding result.0 left.now right.now }
    ensures back { IsStanding result.1 right.now left.now }
{
    order_is_stable();
    if left.symbols() > 4_294_967_295 || right.symbols() > 4_294_967_295 {
        return (Standing::Open, Standing::Open);
    }
    match compare(left, right) {
        Order::Greater => (Standing::Upper, Standing::Lower),
        Order::Less => (Standing::Lower, Standing::Upper),
        Order::Equal => (Standing::Lower, Standing::Lower),
        Order::Incomparable => (Standing::Open, Standing::Open),
    }
}

/// Whether the first term is neither less than the second one nor equal to it. Terms that are too large to compare are
/// want of memory.
pub(crate) fn is_upper(first: &Term, second: &Term) -> Result<bool, AllocError>
    ensures { IfOk result (λ yes. yes ≡ not (is_below first.now second.now)) }
{
    if first.symbols() > 4_294_967_295 || second.symbols() > 4_294_967_295 {
        return Err(AllocError);
    }
    match compare(first, second) {
        Order::Greater => Ok(true),
        Order::Incomparable => Ok(true),
        Order::Less => Ok(false),
        Order::Equal => Ok(false),
    }
}
