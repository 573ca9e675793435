//! The text of a generated problem, piece by piece.
ghost use Rattle.std.specs.Prelude.{◌≡◌, ◌<◌, ◌≤◌, ◌++◌, OnOk, IfOk};
ghost use Rattle.std.specs.Fmt.{decimal};
ghost use Rattle.std.specs.String.{string_bytes};
ghost use Rattle.problem_make.specs.Generated.{texts_below, has_split, next_predicate, split_predicates, split_clause, link_clause, where_split, made_link, made_head, made_predicates, made_symbols, made_denial, made_clauses, made_problem};

use std::alloc::{AllocError, Global};

/// Whether a disjunction stands beside link `i`.
fn has_split(number: u32, i: u32) -> bool
    requires number { number ≤ 999999 }
    requires place { i < 1500 }
    ensures { result ≡ has_split number i }
{
    (number + 7 * i) % 4 == 0
}

fn write_text(text: &mut String, piece: &str) -> Result<(), AllocError>
    ensures { OnOk result (string_bytes text.new ≡ string_bytes text.old ++ piece.now) }
{
    text.push_str(piece)
}

fn write_number(text: &mut String, number: u32) -> Result<(), AllocError>
    ensures { OnOk result (string_bytes text.new ≡ string_bytes text.old ++ decimal number) }
{
    write!(text, "{number}")
}

// ---- symbols

fn write_next_predicate(text: &mut String, i: u32) -> Result<(), AllocError>
    requires { i < 1500 }
    ensures { OnOk result (string_bytes text.new ≡ string_bytes text.old ++ next_predicate i) }
{
    let next = i + 1;
    write!(text, ",(r{next},1)")
}

fn write_split_predicates(text: &mut String, number: u32, i: u32) -> Result<(), AllocError>
    requires number { number ≤ 999999 }
    requires place { i < 1500 }
    ensures { OnOk result (string_bytes text.new ≡ string_bytes text.old ++ where_split split_predicates number i) }
{
    if has_split(number, i) {
        write!(text, ",(p{i},1),(q{i},1)")?;
    }
    Ok(())
}

fn write_chain(text: &mut String, size: u32) -> Result<(), AllocError>
    requires { size ≤ 1500 }
    ensures { OnOk result (string_bytes text.new ≡ string_bytes text.old ++ texts_below next_predicate size) }
{
    for i in 0..size {
        write_next_predicate(text, i)?;
    }
    Ok(())
}

fn write_splits(text: &mut String, number: u32, size: u32) -> Result<(), AllocError>
    requires number { number ≤ 999999 }
    requires size { size ≤ 1500 }
    ensures { OnOk result (string_bytes text.new ≡ string_bytes text.old
        ++ texts_below (where_split split_predicates number) size) }
{
    for i in 0..size {
        write_split_predicates(text, number, i)?;
    }
    Ok(())
}

fn write_predicates(text: &mut String, number: u32, size: u32) -> Result<(), AllocError>
    requires number { number ≤ 999999 }
    requires size { size ≤ 1500 }
    ensures { OnOk result (string_bytes text.new ≡ string_bytes text.old ++ made_predicates number size) }
{
    write_text(text, "predicates[(r0,1)")?;
    write_chain(text, size)?;
    write_splits(text, number, size)?;
    write_text(text, "].\n")?;
    Ok(())
}

fn write_symbols(text: &mut String, number: u32, size: u32) -> Result<(), AllocError>
    requires number { number ≤ 999999 }
    requires size { size ≤ 1500 }
    ensures { OnOk result (string_bytes text.new ≡ string_bytes text.old ++ made_symbols number size) }
{
    write_text(text, "list_of_symbols.\nfunctions[(a,0),(b,0),(c,0)].\n")?;
    write_predicates(text, number, size)?;
    write_text(text, "end_of_list.\n")?;
    Ok(())
}

// ---- clauses

fn write_split_clause(text: &mut String, i: u32) -> Result<(), AllocError>
    ensures { OnOk result (string_bytes text.new ≡ string_bytes text.old ++ split_clause i) }
{
    write_text(text, "clause(or(p")?;
    write_number(text, i)?;
    write_text(text, "(a),q")?;
    write_number(text, i)?;
    write_text(text, "(b))).\n")?;
    Ok(())
}

fn write_split(text: &mut String, number: u32, i: u32) -> Result<(), AllocError>
    requires number { number ≤ 999999 }
    requires place { i < 1500 }
    ensures { OnOk result (string_bytes text.new ≡ string_bytes text.old ++ where_split split_clause number i) }
{
    if has_split(number, i) {
        write_split_clause(text, i)?;
    }
    Ok(())
}

fn write_link(text: &mut String, i: u32) -> Result<(), AllocError>
    requires { i < 1500 }
    ensures { OnOk result (string_bytes text.new ≡ string_bytes text.old ++ link_clause i) }
{
    write_text(text, "clause(or(not(r")?;
    write_number(text, i)?;
    write_text(text, "(c)),r")?;
    write_number(text, i + 1)?;
    write_text(text, "(c))).\n")?;
    Ok(())
}

fn write_links(text: &mut String, number: u32, size: u32) -> Result<(), AllocError>
    requires number { number ≤ 999999 }
    requires size { size ≤ 1500 }
    ensures { OnOk result (string_bytes text.new ≡ string_bytes text.old ++ texts_below (made_link number) size) }
{
    for i in 0..size {
        write_split(text, number, i)?;
        write_link(text, i)?;
    }
    Ok(())
}

fn write_denial(text: &mut String, size: u32) -> Result<(), AllocError>
    ensures { OnOk result (string_bytes text.new ≡ string_bytes text.old ++ made_denial size) }
{
    write_text(text, "clause(or(not(r")?;
    write_number(text, size)?;
    write_text(text, "(c)))).\n")?;
    Ok(())
}

fn write_clauses(text: &mut String, number: u32, size: u32) -> Result<(), AllocError>
    requires number { number ≤ 999999 }
    requires size { size ≤ 1500 }
    ensures { OnOk result (string_bytes text.new ≡ string_bytes text.old ++ made_clauses number size) }
{
    write_text(text, "list_of_clauses(axioms,cnf).\nclause(or(r0(c))).\n")?;
    write_links(text, number, size)?;
    write_denial(text, size)?;
    write_text(text, "end_of_list.\n")?;
    Ok(())
}

// ---- the problem

fn write_head(text: &mut String) -> Result<(), AllocError>
    ensures { OnOk result (string_bytes text.new ≡ string_bytes text.old ++ made_head) }
{
    write_text(
        text,
        "begin_problem(made).\nlist_of_descriptions.\nname({*made*}).\nauthor({*spl*}).\nstatus(unknown).\n",
    )?;
    write_text(text, "description({*clause normal form*}).\nend_of_list.\n")?;
    Ok(())
}

fn write_problem(text: &mut String, number: u32, size: u32) -> Result<(), AllocError>
    requires number { number ≤ 999999 }
    requires size { size ≤ 1500 }
    ensures { OnOk result (string_bytes text.new ≡ string_bytes text.old ++ made_problem number size) }
{
    write_head(text)?;
    write_symbols(text, number, size)?;
    write_clauses(text, number, size)?;
    write_text(text, "end_problem.\n")?;
    Ok(())
}

/// The text of the problem with this number whose chain has so many links, in DFG syntax.
///
/// Predicates `r0` to `r` and the size form a chain: `r0` holds of `c`, each link says that the next predicate holds of
/// `c` where one does, and the last one is denied, so the chain refutes the problem. Beside link `i`, from 0, stands a
/// disjunction of `p` and `q` with that number where the problem's number and 7 times `i` add up to a multiple of 4;
/// nothing else needs it.
///
/// # Errors
///
/// Only where there is no memory.
pub fn make(alloc: Global, number: u32, size: u32) -> Result<Vec<u8>, AllocError>
    requires number { number ≤ 999999 }
    requires some { 1 ≤ size }
    requires size { size ≤ 1500 }
    ensures { IfOk result (λ text. text.items ≡ made_problem number size) }
{
    let mut text = String::new(alloc);
    write_problem(&mut text, number, size)?;
    Ok(text.into_bytes())
}
