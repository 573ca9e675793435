//! Proof lists that are read back.
use crate::texts::{read, show_error};
use dfg_problem::Problem;
use dfg_terms::InputError;
use proof_reader::read_proof;
use proof_steps::Line;
use proof_text::print_proof;
use spl_symbols::Signature;
use std::alloc::{AllocError, Global};
use std::io;
use std::rt::Runtime;

/// The lines of the proof list at a place of the bytes; more than may be are told as want of memory.
fn lines_at(
    alloc: Global,
    bytes: &[u8],
    at: usize,
    signature: &Signature,
) -> Result<Vec<Line>, InputError> {
    if bytes.len() >= 4_294_967_296 || at > bytes.len() {
        return Err(InputError::Memory);
    }
    read_proof(alloc, bytes, at, signature)
}

/// Whether the lines are printed as they are written there.
fn is_printed_so(
    alloc: Global,
    written: &[u8],
    signature: &Signature,
    lines: &[Line],
) -> Result<bool, AllocError> {
    if lines.len() >= 4_294_967_296 {
        return Ok(false);
    }
    let printed = print_proof(alloc, Vec::new(alloc), signature, lines)?;
    Ok(written.starts_with(printed.as_slice()))
}

/// Prints how many lines the proof list at this place has, and whether they are printed as they are written; or its fault.
fn show_lines<R: Runtime>(
    rt: &R,
    alloc: Global,
    bytes: &[u8],
    at: usize,
    signature: &Signature,
) -> io::Result<()> {
    match lines_at(alloc, bytes, at, signature) {
        Ok(lines) => {
            let (_, written) = bytes.split_at(bytes.len().min(at));
            let same = is_printed_so(alloc, written, signature, lines.as_slice())?;
            println!(rt; "lines {}, printed so: {same}", lines.len())
        }
        Err(error) => show_error(rt, error),
    }
}

/// The place of the problem's one proof list, from 0; none where there is none or there are several.
fn only_proof(problem: &Problem) -> Option<usize> {
    match problem.proofs.as_slice() {
        [at] => Some(*at),
        _ => None,
    }
}

/// Prints what comes of the one proof list of a problem.
pub fn show_proof_list<R: Runtime>(rt: &R, alloc: Global, bytes: &[u8]) -> io::Result<()> {
    match read(alloc, bytes) {
        Ok(problem) => match only_proof(&problem) {
            Some(at) => show_lines(rt, alloc, bytes, at, &problem.signature),
            None => println!(rt; "proofs {}", problem.proofs.len()),
        },
        Err(error) => show_error(rt, error),
    }
}

/// Prints what comes of the one proof list of a problem, cut at each byte from its first one on.
pub fn show_proof_prefixes<R: Runtime>(rt: &R, alloc: Global, bytes: &[u8]) -> io::Result<()> {
    match read(alloc, bytes) {
        Ok(problem) => match only_proof(&problem) {
            Some(at) => {
                for length in at..bytes.len() {
                    print!(rt; "{length} bytes: ")?;
                    show_lines(rt, alloc, &bytes[..length], at, &problem.signature)?;
                }
                Ok(())
            }
            None => println!(rt; "proofs {}", problem.proofs.len()),
        },
        Err(error) => show_error(rt, error),
    }
}
