//! One, two and four workers append to one tally by turns. With the argument `--time` it prints how many turns they had in a second, and else how many they had.
#![tactic(auto)]

ghost use Rattle.std.specs.Prelude.{◌<◌};

use std::alloc::Global;
use std::rt::Runtime;
use std::sync::Wait;
use std::thread::Threads;
use std::time::Instant;
use std::{env, io};
use turn_tally::tally_by_turns;

/// How many turns each worker has.
const TURNS: u32 = 1_000;

/// How many turns each worker has where they are timed.
const TIMED_TURNS: u32 = 1_000_000;

// Whether the first argument asks for times.
fn asks_for_times<R: Runtime>(rt: &R) -> io::Result<bool> {
    let first = env::args(rt)?.nth(1);
    Ok(first.is_some_and(|word| word.as_str() == "--time"))
}

// How many turns these workers had.
fn count_turns<R: Threads + Wait + Sync>(rt: &R, alloc: Global, workers: u32) -> io::Result<usize>
    requires { 0 < workers }
{
    Ok(tally_by_turns(rt, alloc, workers, TURNS)?.entries().len())
}

// How many turns these workers had in a second, in each of which one entry was appended.
fn turns_per_second<R: Runtime + Threads + Wait + Sync>(
    rt: &R,
    alloc: Global,
    workers: u32,
) -> io::Result<u128>
    requires { 0 < workers }
{
    let start = Instant::now(rt)?;
    let tally = tally_by_turns(rt, alloc, workers, TIMED_TURNS)?;
    let spent = start.elapsed(rt)?.as_nanos().max(1);
    Ok(tally.entries().len() as u128 * 1_000_000_000 / spent)
}

fn main(rt: HostRuntime) -> io::Result<()> {
    let times = asks_for_times(&rt)?;
    for workers in [1, 2, 4] {
        if times {
            let rate = turns_per_second(&rt, rt.alloc(), workers)?;
            println!(rt; "threads {workers}: {rate} turns a second")?;
        } else {
            let turns = count_turns(&rt, rt.alloc(), workers)?;
            println!(rt; "threads {workers}: {turns} turns")?;
        }
    }
    Ok(())
}
