//! Unifies and matches terms of 10, 100 and 1,000 symbols. With the argument `--time` it prints how many nanoseconds a
//! call took, and else how many variables the answers bind.
#![tactic(auto)]

ghost use Rattle.spl_truth.specs.Unifiers.{HasVariablesBelow};

use spl_terms::{Items, Kind, Symbol, Term};
use spl_truth::Subst;
use std::alloc::{AllocError, Global};
use std::rt::Runtime;
use std::time::Instant;
use std::{env, io};
use unify::{has_variables_below, match_into, unify};

/// How many variables the terms may have: ten on each side.
const VARS: u32 = 20;

/// How many pairs of terms there are of one length.
const PAIRS: u32 = 3;

/// What stands at the places of a term where the sides may differ.
#[derive(Clone, Copy, Debug, PartialEq, Eq)]
enum Side {
    /// Now and then a variable of the first ten.
    Left,
    /// Now and then a variable of the second ten.
    Right,
    /// No variable.
    Ground,
}

fn symbol(number: u32) -> Symbol {
    Symbol {
        number,
        kind: Kind::Function,
    }
}

/// One of five constants.
fn constant(alloc: Global, place: u32) -> Term {
    Term::App(symbol(place % 5), Items::new(alloc))
}

/// The leaf at a place, so that equal variables always meet equal constants.
fn leaf(alloc: Global, place: u32, shift: u32, side: Side) -> Term {
    match (side, (place % 3 + shift % 3) % 3) {
        (Side::Left, 0) => Term::Var(place % 10),
        (Side::Right, 1) => Term::Var(10 + place % 10),
        _ => constant(alloc, place),
    }
}

fn application(
    alloc: Global,
    number: u32,
    first: Term,
    second: Option<Term>,
) -> Result<Term, AllocError> {
    let mut args = Items::with_room(alloc, 2)?;
    args.push(first)?;
    if let Some(second) = second {
        args.push(second)?;
    }
    Ok(Term::App(symbol(number), args))
}

/// A list of so many leaves, with three symbols each, which ends in a constant.
fn list(alloc: Global, leaves: u32, shift: u32, side: Side, end: u32) -> Result<Term, AllocError> {
    let mut term = constant(alloc, end);
    for place in 0..leaves {
        let item = application(alloc, 5, leaf(alloc, place, shift, side), None)?;
        term = application(alloc, 6, item, Some(term))?;
    }
    Ok(term)
}

/// What a call does with two terms.
#[derive(Clone, Copy, Debug, PartialEq, Eq)]
enum Call {
    /// It unifies them.
    Unify,
    /// It unifies them, and they differ at the very end.
    UnifyApart,
    /// It matches the first one to the second one.
    Match,
    /// It matches them, and they differ at the very end.
    MatchApart,
}

impl Call {
    fn other_side(self) -> Side {
        match self {
            Call::Unify | Call::UnifyApart => Side::Right,
            Call::Match | Call::MatchApart => Side::Ground,
        }
    }

    fn other_end(self) -> u32 {
        match self {
            Call::Unify | Call::Match => 0,
            Call::UnifyApart | Call::MatchApart => 1,
        }
    }

    fn name(self) -> &'static str {
        match self {
            Call::Unify => "unify",
            Call::UnifyApart => "unify, no answer",
            Call::Match => "match",
            Call::MatchApart => "match, no answer",
        }
    }
}

/// How many entries are no variables.
fn bound(found: &Option<Subst>) -> u64 {
    let Some(subst) = found else {
        return 0;
    };
    let mut count: u64 = 0;
    for term in subst.terms.as_slice() {
        if let Term::App(_, _) = term {
            count = count.saturating_add(1);
        }
    }
    count
}

/// How many variables the answer binds.
fn bound_by(alloc: Global, call: Call, left: &Term, right: &Term) -> Result<u64, AllocError>
    requires left { HasVariablesBelow 20 left.now }
    requires right { HasVariablesBelow 20 right.now }
{
    let found = match call {
        Call::Unify | Call::UnifyApart => unify(alloc, left, right, VARS)?,
        Call::Match | Call::MatchApart => match_into(alloc, left, right, VARS)?,
    };
    Ok(bound(&found))
}

/// The pairs of terms of one length.
fn pairs(alloc: Global, call: Call, leaves: u32) -> Result<Vec<(Term, Term)>, AllocError> {
    let mut made = Vec::with_capacity(alloc, PAIRS as usize)?;
    for shift in 0..PAIRS {
        let left = list(alloc, leaves, shift, Side::Left, 0)?;
        let right = list(alloc, leaves, shift, call.other_side(), call.other_end())?;
        made.push((left, right))?;
    }
    Ok(made)
}

/// How many variables are bound by so many calls with the same terms.
fn bound_in_calls(
    alloc: Global,
    call: Call,
    left: &Term,
    right: &Term,
    rounds: u64,
) -> Result<u64, AllocError>
    requires left { HasVariablesBelow 20 left.now }
    requires right { HasVariablesBelow 20 right.now }
{
    let mut count: u64 = 0;
    for _ in 0..rounds {
        count = count.saturating_add(bound_by(alloc, call, left, right)?);
    }
    Ok(count)
}

/// How many variables are bound by so many calls with each pair of terms.
fn bound_in_all(
    alloc: Global,
    call: Call,
    pairs: &[(Term, Term)],
    rounds: u64,
) -> Result<u64, AllocError> {
    let mut count: u64 = 0;
    for (left, right) in pairs {
        if has_variables_below(left, VARS) && has_variables_below(right, VARS) {
            count = count.saturating_add(bound_in_calls(alloc, call, left, right, rounds)?);
        }
    }
    Ok(count)
}

// Whether the first argument asks for times.
fn asks_for_times<R: Runtime>(rt: &R) -> io::Result<bool> {
    let first = env::args(rt)?.nth(1);
    Ok(first.is_some_and(|word| word.as_str() == "--time"))
}

/// Prints how long a call takes, by 3,000 to 300,000 calls.
fn print_time<R: Runtime>(rt: &R, alloc: Global, call: Call, leaves: u32) -> io::Result<()> {
    let pairs = pairs(alloc, call, leaves)?;
    let symbols = 3 * leaves as u64 + 1;
    let rounds = 1_000_000 / symbols;
    let start = Instant::now(rt)?;
    let count = bound_in_all(alloc, call, pairs.as_slice(), rounds)?;
    let spent = start.elapsed(rt)?.as_nanos();
    let calls = rounds as u128 * PAIRS as u128;
    println!(rt;
        "{}, {symbols} symbols: {} ns a call, {count} bound",
        call.name(),
        spent / calls.max(1)
    )
}

fn main(rt: HostRuntime) -> io::Result<()> {
    let times = asks_for_times(&rt)?;
    let alloc = rt.alloc();
    for call in [Call::Unify, Call::UnifyApart, Call::Match, Call::MatchApart] {
        for leaves in [3, 33, 333] {
            if times {
                print_time(&rt, alloc, call, leaves)?;
            } else {
                let pairs = pairs(alloc, call, leaves)?;
                let symbols = 3 * leaves as u64 + 1;
                let count = bound_in_all(alloc, call, pairs.as_slice(), 1)?;
                println!(rt; "{}, {symbols} symbols: {count} bound", call.name())?;
            }
        }
    }
    Ok(())
}
