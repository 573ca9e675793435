//! Makes the inferences of pairs of clauses. With the argument `--time` it prints how many nanoseconds a pair took, and else
//! how many conclusions there are, and by how many of the pairs.
#![tactic(auto)]

ghost use Rattle.std.specs.Prelude.{◌≡◌, ◌≤◌, IfOk};
ghost use Rattle.spl_terms.specs.Clauses.{clause_symbols};
ghost use Rattle.spl_terms.specs.InOrder.{IsInOrder};

use calculus::Kept;
use clause_texts::clause;
use dep_sets::Deps;
use proof_steps::Statement;
use spl_terms::{Clause, symbols_of};
use std::alloc::{AllocError, Global};
use std::rt::Runtime;
use std::time::Instant;
use std::{env, io};
use superposition::infer_pair;

/// Pairs of clauses of one kind.
type Kind = (&'static str, &'static [(&'static str, &'static str)]);

/// Heads, constants or the occurs check keep these apart.
const APART: [(&str, &str); 6] = [
    ("||Pfab", "|Pg0|"),
    ("||Pfgab", "|Pfgbb|"),
    ("||Qga", "|Pg0|Qa"),
    ("||T0g0", "|T00|"),
    ("||Pfggagb", "|Pfgg0ga|"),
    ("||=ga0", "|Pb|"),
];

/// Clauses of three atoms.
const THREE: [(&str, &str); 4] = [
    ("|QaKa|Pfga0", "|Pf0g1Q0|K1"),
    ("|Q0K1|Pf01", "|Pfg0g1Q0|K1"),
    ("|Q0|Pg0Ka", "|Pgg0Ka|Q0"),
    ("|QaKa|Pgga", "|Pgg0Qa|K0"),
];

/// Associativity, the left unit and the left inverse.
const GROUP: [(&str, &str); 3] = [
    ("||=fe00", "||=ff012f0f12"),
    ("||=fg00e", "||=ff012f0f12"),
    ("||=fe00", "||=fg00e"),
];

/// Clauses of twenty atoms, of which the largest ones meet, or don't.
const TWENTY: [(&str, &str); 2] = [
    (
        "|KaKbKcKdKeQaQbQcQdQe|PaPbPcPdPeTabTacTadTaePfggg0ggg1",
        "|KaKbKcKdKeQaQbQcQdPfgg0gg1|PaPbPcPdPeTabTacTadTaeTba",
    ),
    (
        "|KaKbKcKdKeQaQbQcQdQe|PaPbPcPdPeTabTacTadTaePfgggaggg1",
        "|KaKbKcKdKeQaQbQcQdPfgggbgg1|PaPbPcPdPeTabTacTadTaeTba",
    ),
];

const KINDS: [Kind; 4] = [
    ("pairs that don't unify", &APART),
    ("resolution of three atoms", &THREE),
    ("axioms of a group", &GROUP),
    ("twenty atoms", &TWENTY),
];

/// The clause of a text in order.
fn ordered(alloc: Global, text: &str) -> Result<Clause, AllocError>
    ensures { IfOk result (λ made. IsInOrder made) }
{
    clause(alloc, text)?.into_ordered(alloc)
}

/// The clause as a premise.
fn kept(alloc: Global, number: u32, clause: Clause) -> Kept
    ensures { result.statement.clause ≡ clause }
{
    Kept {
        number,
        statement: Statement {
            clause,
            deps: Deps::none(alloc),
        },
        selected: None,
    }
}

/// How many conclusions so many calls with two premises have.
fn concluded(alloc: Global, given: &Kept, other: &Kept, rounds: u64) -> Result<u64, AllocError>
    requires given_in_order { IsInOrder given.now.statement.clause }
    requires other_in_order { IsInOrder other.now.statement.clause }
    requires given_size { clause_symbols given.now.statement.clause ≤ 4096 }
    requires other_size { clause_symbols other.now.statement.clause ≤ 4096 }
{
    let mut count: u64 = 0;
    for _ in 0..rounds {
        let mut out = Vec::new(alloc);
        if infer_pair(alloc, given, other, &mut out).is_err() {
            return Err(AllocError);
        }
        count = count.wrapping_add(out.len() as u64);
    }
    Ok(count)
}

/// How many conclusions so many calls with the clauses of two texts have.
fn conclusions(alloc: Global, pair: (&str, &str), rounds: u64) -> Result<u64, AllocError> {
    let first = ordered(alloc, pair.0)?;
    let second = ordered(alloc, pair.1)?;
    if symbols_of(&first) > 4096 || symbols_of(&second) > 4096 {
        return Err(AllocError);
    }
    let given = kept(alloc, 1, first);
    let other = kept(alloc, 2, second);
    concluded(alloc, &given, &other, rounds)
}

/// How many conclusions there are, and by how many of the pairs.
fn print_counts<R: Runtime>(rt: &R, alloc: Global, kind: Kind) -> io::Result<()> {
    let (name, pairs) = kind;
    let mut all: u64 = 0;
    let mut concluding: u64 = 0;
    for pair in pairs {
        let count = conclusions(alloc, *pair, 1)?;
        all = all.wrapping_add(count);
        concluding = concluding.wrapping_add(count.min(1));
    }
    println!(rt;
        "{name}: {all} conclusions, by {concluding} of {} pairs",
        pairs.len()
    )
}

/// How many nanoseconds a pair takes, by 20,000 calls with each.
fn print_time<R: Runtime>(rt: &R, alloc: Global, kind: Kind) -> io::Result<()> {
    let (name, pairs) = kind;
    let start = Instant::now(rt)?;
    let mut all: u64 = 0;
    for pair in pairs {
        all = all.wrapping_add(conclusions(alloc, *pair, 20_000)?);
    }
    let spent = start.elapsed(rt)?.as_nanos();
    let calls = (pairs.len() as u128).wrapping_mul(20_000).max(1);
    println!(rt; "{name}: {} ns a pair, {all} conclusions", spent / calls)
}

// Whether the first argument asks for times.
fn asks_for_times<R: Runtime>(rt: &R) -> io::Result<bool> {
    let first = env::args(rt)?.nth(1);
    Ok(first.is_some_and(|word| word.as_str() == "--time"))
}

fn main(rt: HostRuntime) -> io::Result<()> {
    let times = asks_for_times(&rt)?;
    for kind in KINDS {
        if times {
            print_time(&rt, rt.alloc(), kind)?;
        } else {
            print_counts(&rt, rt.alloc(), kind)?;
        }
    }
    Ok(())
}
