//! The program `spass`: hands standard input and output to the top call and ends with its status.
#![tactic(auto)]

use outside_io::{StdSink, StdSource};
use prover_top::run_alone;
use std::env;
use std::process::ExitCode;

fn main(rt: HostRuntime) -> ExitCode {
    let alloc = rt.alloc();
    let Ok(arguments) = env::args(&rt) else {
        return ExitCode::from(3);
    };
    let Ok(words) = arguments.skip(1).collect::<Vec<String>>(alloc) else {
        return ExitCode::from(8);
    };
    let mut source = StdSource::new(rt.stdin());
    let mut sink = StdSink::new(rt.stdout());
    let report = run_alone(alloc, words.as_slice(), &mut source, &mut sink);
    ExitCode::from(report.status)
}
