//! The text of a line and of the whole list.
ghost use Rattle.std.specs.Prelude.{◌≡◌, ◌<◌, ◌^◌, ◌++◌, length, IfOk, OnOk};
ghost use Rattle.proof_text.specs.Texts.{assumed_text, factored_text, line_text, lines_text, pairs_text, proof_text, replaced_text, resolved_text, spot_text, substitutions_text};

use crate::lists::{push_clause, push_last_terms, push_list, push_terms};
use crate::words::{
    push_bytes, push_direction, push_negated, push_number, push_part, push_place, push_rule,
};
use proof_steps::{Line, Rule};
use spl_symbols::Signature;
use spl_terms::{Part, Spot};
use spl_truth::Subst;
use std::alloc::{AllocError, Global};

/// Appends the places of the two atoms that are resolved, from 0, with the second one's part.
fn push_resolved(
    alloc: Global,
    out: &mut Vec<u8>,
    i: u32,
    part: Part,
    j: u32,
) -> Result<(), AllocError>
    ensures { OnOk result (out.new.items ≡ out.old.items ++ resolved_text i part j) }
{
    push_place(alloc, out, b"i:", i)?;
    push_bytes(out, b",part:")?;
    push_part(out, part)?;
    push_place(alloc, out, b",j:", j)
}

/// Appends where a term is replaced.
fn push_spot(
    alloc: Global,
    out: &mut Vec<u8>,
    signature: &Signature,
    spot: &Spot,
) -> Result<(), AllocError>
    ensures { OnOk result (out.new.items ≡ out.old.items ++ spot_text spot.now) }
{
    push_bytes(out, b",part:")?;
    push_part(out, spot.part)?;
    push_place(alloc, out, b",j:", spot.place)?;
    push_bytes(out, b",pos:")?;
    push_list(alloc, out, signature, spot.path.as_slice())
}

/// Appends the place of the equation, how it is read, and where a term is replaced by it.
fn push_replaced(
    alloc: Global,
    out: &mut Vec<u8>,
    signature: &Signature,
    i: u32,
    right_to_left: bool,
    spot: &Spot,
) -> Result<(), AllocError>
    ensures { OnOk result (out.new.items ≡ out.old.items ++ replaced_text i right_to_left spot.now) }
{
    push_place(alloc, out, b"i:", i)?;
    push_bytes(out, b",dir:")?;
    push_direction(out, right_to_left)?;
    push_spot(alloc, out, signature, spot)
}

/// Appends the side that is assumed, the place of the negated atom where it is one, and a comma.
fn push_assumed(
    alloc: Global,
    out: &mut Vec<u8>,
    side: u32,
    negated: Option<u32>,
) -> Result<(), AllocError>
    ensures { OnOk result (out.new.items ≡ out.old.items ++ assumed_text side negated) }
{
    push_place(alloc, out, b"side:", side)?;
    push_bytes(out, b",neg:")?;
    push_negated(alloc, out, negated)?;
    push_bytes(out, b",")
}

/// Appends the places of the two equations that are factored, from 0, and how each is read.
fn push_factored(
    alloc: Global,
    out: &mut Vec<u8>,
    i: u32,
    i_right: bool,
    j: u32,
    j_right: bool,
) -> Result<(), AllocError>
    ensures { OnOk result (out.new.items ≡ out.old.items ++ factored_text i i_right j j_right) }
{
    push_place(alloc, out, b"i:", i)?;
    push_bytes(out, b",idir:")?;
    push_direction(out, i_right)?;
    push_place(alloc, out, b",j:", j)?;
    push_bytes(out, b",jdir:")?;
    push_direction(out, j_right)
}

/// Appends the substitutions of the two parents, each with its label, and a comma.
fn push_substitutions(
    alloc: Global,
    out: &mut Vec<u8>,
    signature: &Signature,
    s: &Subst,
    t: &Subst,
) -> Result<(), AllocError>
    ensures { OnOk result (out.new.items ≡ out.old.items ++ substitutions_text signature.now s.now t.now) }
{
    push_terms(alloc, out, signature, b",s:", s.terms.as_slice())?;
    push_last_terms(alloc, out, signature, b",t:", t.terms.as_slice())
}

/// Appends the pairs of the rule, each with a comma after it.
fn push_pairs(
    alloc: Global,
    out: &mut Vec<u8>,
    signature: &Signature,
    rule: &Rule,
) -> Result<(), AllocError>
    ensures { OnOk result (out.new.items ≡ out.old.items ++ pairs_text signature.now rule.now) }
{
    match rule {
        Rule::Input { no } => {
            push_place(alloc, out, b"no:", *no)?;
            push_bytes(out, b",")
        }
        Rule::Resolve { i, part, j, s, t } => {
            push_resolved(alloc, out, *i, *part, *j)?;
            push_substitutions(alloc, out, signature, s, t)
        }
        Rule::Factor { s } => push_last_terms(alloc, out, signature, b"s:", s.terms.as_slice()),
        Rule::Paramodulate {
            i,
            right_to_left,
            spot,
            s,
            t,
        } => {
            push_replaced(alloc, out, signature, *i, *right_to_left, spot)?;
            push_substitutions(alloc, out, signature, s, t)
        }
        Rule::Reflex { j, s } => {
            push_place(alloc, out, b"j:", *j)?;
            push_last_terms(alloc, out, signature, b",s:", s.terms.as_slice())
        }
        Rule::EqFactor {
            i,
            i_right,
            j,
            j_right,
            s,
        } => {
            push_factored(alloc, out, *i, *i_right, *j, *j_right)?;
            push_last_terms(alloc, out, signature, b",s:", s.terms.as_slice())
        }
        Rule::Assume { side, negated } => push_assumed(alloc, out, *side, *negated),
        Rule::CaseLeft | Rule::CaseRight | Rule::CaseBoth => Ok(()),
    }
}

/// Appends the text of the line with this number, from 1.
fn push_line(
    alloc: Global,
    out: &mut Vec<u8>,
    signature: &Signature,
    number: u32,
    line: &Line,
) -> Result<(), AllocError>
    ensures { OnOk result (out.new.items ≡ out.old.items ++ line_text signature.now number line.now) }
{
    push_place(alloc, out, b"step(", number)?;
    push_bytes(out, b",")?;
    push_clause(alloc, out, signature, &line.stated.clause)?;
    push_bytes(out, b",")?;
    push_rule(out, &line.step.rule)?;
    push_bytes(out, b",")?;
    push_list(alloc, out, signature, line.step.parents.as_slice())?;
    push_bytes(out, b",[")?;
    push_pairs(alloc, out, signature, &line.step.rule)?;
    push_bytes(out, b"dep:")?;
    push_list(alloc, out, signature, line.stated.deps.as_slice())?;
    push_bytes(out, b"]).\n")
}

fn push_lines(
    alloc: Global,
    out: &mut Vec<u8>,
    signature: &Signature,
    lines: &[Line],
) -> Result<(), AllocError>
    requires { length lines.now < 2 ^ 32 }
    ensures { OnOk result (out.new.items ≡ out.old.items ++ lines_text signature.now 1 lines.now) }
{
    for (k, line) in lines.iter().enumerate() {
        push_line(alloc, out, signature, k as u32 + 1, line)?;
    }
    Ok(())
}

/// The bytes, and behind them the text of the proof list: a head, one line a step with the numbers from 1, and an end.
///
/// Symbols are printed by their names in the signature; one that isn't there has no text.
///
/// # Errors
///
/// Only where there is no memory; the bytes are lost then.
pub fn print_proof(
    alloc: Global,
    mut out: Vec<u8>,
    signature: &Signature,
    lines: &[Line],
) -> Result<Vec<u8>, AllocError>
    requires { length lines.now < 2 ^ 32 }
    ensures { IfOk result (λ text. text.items ≡ out.items ++ proof_text signature.now lines.now) }
{
    push_bytes(&mut out, b"list_of_proof(spl).\n")?;
    push_lines(alloc, &mut out, signature, lines)?;
    push_bytes(&mut out, b"end_of_list.\n")?;
    Ok(out)
}
