//! Words, numbers, names and terms.
ghost use Rattle.std.specs.Prelude.{◌≡◌, ◌++◌, [], ◌∷◌, ◌⊎◌, codes, OnOk, OnErr, map};
ghost use Rattle.std.specs.Fmt.{decimal};
ghost use Rattle.spl_symbols.specs.Symbols.{name_of};
ghost use Rattle.proof_text.specs.Texts.{applied_text, atom_text, closing, direction_text, negated_text, part_text, place_text, rule_text, separator, term_text};

use proof_steps::Rule;
use spl_symbols::Signature;
use spl_terms::{Atom, Part, Term};
use std::alloc::{AllocError, Global};

/// Appends the bytes.
///
/// # Errors
///
/// Only where there is no memory; nothing was appended then.
pub fn push_bytes(out: &mut Vec<u8>, bytes: &[u8]) -> Result<(), AllocError>
    ensures ok { OnOk result (out.new.items ≡ out.old.items ++ bytes.now) }
    ensures err { OnErr result (out.new.items ≡ out.old.items) }
{
    out.extend_from_slice(bytes)
}

/// Appends the number in decimal digits.
///
/// # Errors
///
/// Only where there is no memory; nothing was appended then.
pub fn push_number(alloc: Global, out: &mut Vec<u8>, number: u64) -> Result<(), AllocError>
    ensures ok { OnOk result (out.new.items ≡ out.old.items ++ decimal number) }
    ensures err { OnErr result (out.new.items ≡ out.old.items) }
{
    let digits = number.to_string(alloc)?;
    push_bytes(out, digits.as_bytes())
}

/// Appends a label and a number.
pub fn push_place(
    alloc: Global,
    out: &mut Vec<u8>,
    label: &[u8],
    number: u32,
) -> Result<(), AllocError>
    ensures { OnOk result (out.new.items ≡ out.old.items ++ place_text label.now number) }
{
    push_bytes(out, label)?;
    push_number(alloc, out, u64::from(number))
}

fn push_name(out: &mut Vec<u8>, signature: &Signature, number: u32) -> Result<(), AllocError>
    ensures { OnOk result (out.new.items ≡ out.old.items ++ name_of signature.now number) }
{
    match signature.name_at(number) {
        Some(name) => push_bytes(out, name.as_bytes()),
        None => Ok(()),
    }
}

fn push_separator(out: &mut Vec<u8>, first: bool) -> Result<(), AllocError>
    ensures { OnOk result (out.new.items ≡ out.old.items ++ separator first) }
{
    let mark = if first { b"(" } else { b"," };
    push_bytes(out, mark)
}

fn push_close(out: &mut Vec<u8>, args: &[Term]) -> Result<(), AllocError>
    ensures { OnOk result (out.new.items ≡ out.old.items ++ closing args.now) }
{
    match args {
        [] => Ok(()),
        _ => push_bytes(out, b")"),
    }
}

/// Appends a term: a variable as `?` and its number from 0, else the symbol's name with the arguments in parentheses.
#[cycle(terms)]
#[tactic(auto, using(crate::proofs::TextLemmas::term_laws))]
pub fn push_term(
    alloc: Global,
    out: &mut Vec<u8>,
    signature: &Signature,
    term: &Term,
) -> Result<(), AllocError>
    ensures { OnOk result (out.new.items ≡ out.old.items ++ term_text signature.now term.now) }
{
    match term {
        Term::Var(variable) => push_place(alloc, out, b"?", *variable),
        Term::App(symbol, args) => {
            push_applied(alloc, out, signature, symbol.number, args.as_slice())
        }
    }
}

#[cycle(terms)]
#[tactic(auto, using(crate::proofs::TextLemmas::term_laws))]
fn push_applied(
    alloc: Global,
    out: &mut Vec<u8>,
    signature: &Signature,
    number: u32,
    args: &[Term],
) -> Result<(), AllocError>
    ensures { OnOk result (out.new.items ≡ out.old.items
        ++ applied_text (name_of signature.now number) (map (term_text signature.now) args.now)) }
{
    push_name(out, signature, number)?;
    for (k, term) in args.iter().enumerate() {
        push_separator(out, k == 0)?;
        push_term(alloc, out, signature, term)?;
    }
    push_close(out, args)
}

/// Appends an atom: the predicate's name with the arguments in parentheses, or `equal` with both sides.
pub fn push_atom(
    alloc: Global,
    out: &mut Vec<u8>,
    signature: &Signature,
    atom: &Atom,
) -> Result<(), AllocError>
    ensures { OnOk result (out.new.items ≡ out.old.items ++ atom_text signature.now atom.now) }
{
    match atom {
        Atom::Holds(predicate, args) => {
            push_applied(alloc, out, signature, predicate.number, args.as_slice())
        }
        Atom::Equal(left, right) => {
            push_bytes(out, b"equal(")?;
            push_term(alloc, out, signature, left)?;
            push_bytes(out, b",")?;
            push_term(alloc, out, signature, right)?;
            push_bytes(out, b")")
        }
    }
}

/// Appends the word of a part of a clause.
pub fn push_part(out: &mut Vec<u8>, part: Part) -> Result<(), AllocError>
    ensures { OnOk result (out.new.items ≡ out.old.items ++ part_text part) }
{
    match part {
        Part::Constraint => push_bytes(out, b"con"),
        Part::Antecedent => push_bytes(out, b"ant"),
        Part::Succedent => push_bytes(out, b"suc"),
    }
}

/// Appends how an equation is read.
pub fn push_direction(out: &mut Vec<u8>, right_to_left: bool) -> Result<(), AllocError>
    ensures { OnOk result (out.new.items ≡ out.old.items ++ direction_text right_to_left) }
{
    let direction = if right_to_left { b"rl" } else { b"lr" };
    push_bytes(out, direction)
}

/// Appends the place of the negated atom, from 0, or `no` where a part is assumed.
pub fn push_negated(
    alloc: Global,
    out: &mut Vec<u8>,
    negated: Option<u32>,
) -> Result<(), AllocError>
    ensures { OnOk result (out.new.items ≡ out.old.items ++ negated_text negated) }
{
    match negated {
        None => push_bytes(out, b"no"),
        Some(place) => push_number(alloc, out, u64::from(place)),
    }
}

/// Appends the word of a rule.
pub fn push_rule(out: &mut Vec<u8>, rule: &Rule) -> Result<(), AllocError>
    ensures { OnOk result (out.new.items ≡ out.old.items ++ rule_text rule.now) }
{
    match rule {
        Rule::Input { .. } => push_bytes(out, b"inp"),
        Rule::Resolve { .. } => push_bytes(out, b"res"),
        Rule::Factor { .. } => push_bytes(out, b"fac"),
        Rule::Paramodulate { .. } => push_bytes(out, b"par"),
        Rule::Reflex { .. } => push_bytes(out, b"ref"),
        Rule::EqFactor { .. } => push_bytes(out, b"eqf"),
        Rule::Assume { .. } => push_bytes(out, b"asm"),
        Rule::CaseLeft => push_bytes(out, b"cal"),
        Rule::CaseRight => push_bytes(out, b"car"),
        Rule::CaseBoth => push_bytes(out, b"cab"),
    }
}
