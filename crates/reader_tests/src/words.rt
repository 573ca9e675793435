//! The tokens of a text, and names.
use dfg_tokens::{Mark, Word, is_name, mark_byte, spelled, tokens_of};
use std::alloc::Global;
use std::io;
use std::rt::Runtime;

/// Prints each token: its place, its length and its kind.
pub fn show_tokens<R: Runtime>(rt: &R, alloc: Global, bytes: &[u8]) -> io::Result<()> {
    if bytes.len() >= 4_294_967_296 {
        return Ok(());
    }
    let tokens = tokens_of(alloc, bytes)?;
    for token in tokens.iter() {
        println!(rt; "{} {} {:?}", token.at, token.len, token.kind)?;
    }
    Ok(())
}

/// Prints whether the bytes are a name.
pub fn show_name<R: Runtime>(rt: &R, bytes: &[u8]) -> io::Result<()> {
    println!(rt; "{}", is_name(bytes))
}

/// Prints the bytes that spell a word and a mark.
pub fn show_spelling<R: Runtime>(rt: &R) -> io::Result<()> {
    println!(rt;
        "{:?}, {}",
        spelled(Word::Clause),
        mark_byte(Mark::OpenParenthesis)
    )
}
