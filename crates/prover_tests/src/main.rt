//! Examples of the top call. Each line of standard input is a run: what is to be printed of it, the words, and the
//! input, between bars. The first two are printed, and behind them what was asked for; a line without bars is printed
//! as it stands.
#![tactic(auto)]

mod shown;

use outside_io::{MemorySink, MemorySource, SureSink, SureSource};
use prover_top::{Report, run_alone};
use shown::show;
use std::alloc::{AllocError, Global};
use std::io;

/// What most inputs begin with: a name and descriptions, 111 bytes.
const HEAD: &str =
    "begin_problem(p).list_of_descriptions.name({*n*}).author({*a*}).status(unknown).description({*d*}).end_of_list.";

/// The words as the top call takes them.
fn words_of(alloc: Global, text: &str) -> Result<Vec<String>, AllocError> {
    let mut words = Vec::new(alloc);
    for word in text.split_whitespace() {
        words.push(String::from_str(alloc, word)?)?;
    }
    Ok(words)
}

/// Adds what a piece stands for: the head, so many copies of a text, as of `3^f(`, or itself.
fn push_piece(made: &mut Vec<u8>, piece: &str) -> Result<(), AllocError> {
    if piece == "head" {
        return made.extend_from_slice(HEAD.as_bytes());
    }
    let Some((count, copied)) = piece.split_once("^") else {
        return made.extend_from_slice(piece.as_bytes());
    };
    for _ in 0..count.parse::<u32>().unwrap_or(0) {
        made.extend_from_slice(copied.as_bytes())?;
    }
    Ok(())
}

/// The bytes that a text stands for, whose pieces are kept apart by backquotes.
fn expanded(alloc: Global, text: &str) -> Result<Vec<u8>, AllocError> {
    let mut made = Vec::new(alloc);
    for piece in text.split("`") {
        push_piece(&mut made, piece)?;
    }
    Ok(made)
}

/// Runs where the calls of these numbers fail, from 1.
fn run_failing(
    alloc: Global,
    words: &[String],
    input: Vec<u8>,
    reads: Vec<u64>,
    writes: Vec<u64>,
) -> Result<(Report, Vec<u8>), AllocError> {
    let mut source = MemorySource::new(alloc, input, 16, reads);
    let mut sink = MemorySink::new(alloc, 5, writes);
    let report = run_alone(alloc, words, &mut source, &mut sink);
    Ok((report, Vec::from_slice(alloc, sink.written())?))
}

/// Runs where no call fails.
fn run_surely(
    alloc: Global,
    words: &[String],
    input: Vec<u8>,
) -> Result<(Report, Vec<u8>), AllocError> {
    let mut source = SureSource::new(alloc, input, 1000);
    let mut sink = SureSink::new(alloc);
    let report = run_alone(alloc, words, &mut source, &mut sink);
    Ok((report, Vec::from_slice(alloc, sink.written())?))
}

/// Runs as is asked for: the second read or write may fail.
fn run(
    alloc: Global,
    what: &str,
    words: &[String],
    input: Vec<u8>,
) -> Result<(Report, Vec<u8>), AllocError> {
    match what {
        "read fails" => run_failing(alloc, words, input, vec![in alloc; 2]?, Vec::new(alloc)),
        "write fails" => run_failing(alloc, words, input, Vec::new(alloc), vec![in alloc; 2]?),
        _ => run_surely(alloc, words, input),
    }
}

fn main(rt: HostRuntime) -> io::Result<()> {
    let alloc = rt.alloc();
    for line in rt.lines(alloc) {
        let line = line?;
        let pieces: Vec<&str> = line.as_str().split(" | ").collect(alloc)?;
        match pieces.as_slice() {
            [what, words, rest] => {
                println!(rt; "{what} | {words}")?;
                let words = words_of(alloc, *words)?;
                let input = expanded(alloc, *rest)?;
                let (report, text) = run(alloc, *what, words.as_slice(), input)?;
                let text = std::str::from_utf8(text.as_slice()).unwrap_or("no text");
                show(&rt, *what, &report, text)?;
            }
            _ => println!(rt; "{line}")?,
        }
    }
    Ok(())
}
