//! Texts out of pieces.
use std::alloc::{AllocError, Global};

/// The 111 bytes with which most examples begin: a name and descriptions.
const HEAD: &str =
    "begin_problem(p).list_of_descriptions.name({*n*}).author({*a*}).status(unknown).description({*d*}).end_of_list.";

/// Adds declarations of the 65,536 names of four hexadecimal digits, 8 bytes each, with commas between them.
fn push_names(alloc: Global, made: &mut Vec<u8>) -> Result<(), AllocError> {
    for number in 0..65536u32 {
        let comma = if number == 0 { "" } else { "," };
        let entry = format!(in alloc; "{comma}({number:04x},0)")?;
        made.extend_from_slice(entry.as_bytes())?;
    }
    Ok(())
}

/// Adds so many copies.
fn push_copies(made: &mut Vec<u8>, count: u32, copied: &str) -> Result<(), AllocError> {
    for _ in 0..count {
        made.extend_from_slice(copied.as_bytes())?;
    }
    Ok(())
}

/// Adds what a piece stands for: the names, copies as of `3^f(`, or what it is a name of, or itself.
fn push_piece(alloc: Global, made: &mut Vec<u8>, piece: &str) -> Result<(), AllocError> {
    if piece == "names" {
        return push_names(alloc, made);
    }
    if let Some((count, copied)) = piece.split_once("^") {
        return push_copies(made, count.parse().unwrap_or(0), copied);
    }
    match piece {
        "head" => made.extend_from_slice(HEAD.as_bytes()),
        "tab" => made.extend_from_slice(b"\t"),
        "line feed" => made.extend_from_slice(b"\n"),
        "return" => made.extend_from_slice(b"\r"),
        _ => made.extend_from_slice(piece.as_bytes()),
    }
}

/// The bytes that a text stands for, whose pieces are kept apart by backquotes.
pub fn expanded(alloc: Global, text: &str) -> Result<Vec<u8>, AllocError> {
    let mut made = Vec::new(alloc);
    for piece in text.split("`") {
        push_piece(alloc, &mut made, piece)?;
    }
    Ok(made)
}
