//! Streams in memory and the standard ones over memory: pieces, limits, and calls that fail.
use outside_io::{
    MemorySink, MemorySource, Sink, Source, StdSink, StdSource, SureSink, SureSource, read_all,
    write_all,
};
use std::alloc::{AllocError, Global};
use std::io;
use std::rt::Runtime;

/// The numbers of a text.
fn numbers(alloc: Global, text: &str) -> Result<Vec<u64>, AllocError> {
    let mut found = Vec::new(alloc);
    for word in text.split_whitespace() {
        found.push(word.parse().unwrap_or(0))?;
    }
    Ok(found)
}

/// For each limit reads to the end and then once more, and prints what came.
fn show_source<R: Runtime, S: Source>(
    rt: &R,
    alloc: Global,
    source: &mut S,
    limits: &str,
) -> io::Result<()> {
    for limit in limits.split_whitespace() {
        let limit = limit.parse().unwrap_or(usize::MAX);
        println!(rt; "{:?}", read_all(alloc, source, limit))?;
        let mut next = [0; 32];
        println!(rt; "{:?}, {}", source.read(&mut next), next[0])?;
    }
    Ok(())
}

/// Writes each of the words, and prints what came.
fn show_sink<R: Runtime, K: Sink>(rt: &R, sink: &mut K, words: &str) -> io::Result<()> {
    for word in words.split_whitespace() {
        println!(rt; "{:?}", write_all(sink, word.as_bytes()))?;
    }
    Ok(())
}

/// Tries a source or a sink of the text, whose calls of these numbers fail.
pub fn show_stream<R: Runtime>(
    rt: &R,
    alloc: Global,
    what: &str,
    text: &str,
    failing: &str,
    limits: &str,
) -> io::Result<()> {
    let bytes = Vec::from_slice(alloc, text.as_bytes())?;
    let failing = numbers(alloc, failing)?;
    match what {
        "memory source" => show_source(
            rt,
            alloc,
            &mut MemorySource::new(alloc, bytes, 16, failing),
            limits,
        ),
        "sure source" => show_source(rt, alloc, &mut SureSource::new(alloc, bytes, 7), limits),
        "standard source" => show_source(rt, alloc, &mut StdSource::new(bytes.as_slice()), limits),
        "memory sink" => {
            let mut sink = MemorySink::new(alloc, 5, failing);
            show_sink(rt, &mut sink, text)?;
            println!(rt; "{:?}", sink.written())
        }
        "sure sink" => {
            let mut sink = SureSink::new(alloc);
            show_sink(rt, &mut sink, text)?;
            println!(rt; "{:?}", sink.written())
        }
        _ => {
            let mut room = [0; 5];
            show_sink(rt, &mut StdSink::new(room.as_mut_slice()), text)?;
            println!(rt; "{room:?}")
        }
    }
}
