//! Lists in brackets, with commas between their members.
ghost use Rattle.std.specs.Prelude.{◌≡◌, List, ℕ, ◌++◌, ◌∷◌, OnOk};
ghost use Rattle.std.specs.List.{flat_map};
ghost use Rattle.std.specs.Fmt.{decimal};
ghost use Rattle.spl_symbols.specs.Symbols.{Declared};
ghost use Rattle.proof_text.specs.Texts.{assumption_text, atom_text, bracketed, clause_text, commas, last_terms_text, term_text, terms_text};

use crate::words::{push_atom, push_bytes, push_number, push_term};
use dep_sets::Assumption;
use spl_symbols::Signature;
use spl_terms::{Atom, Clause, Term};
use std::alloc::{AllocError, Global};

/// What stands in a list, and has a text under the names of a signature.
pub trait Printed {
    /// The text, with the names of these symbols.
    ghost text: { List Declared → Self → List ℕ };

    /// Appends the text.
    fn push_text(
        &self,
        alloc: Global,
        out: &mut Vec<u8>,
        signature: &Signature,
    ) -> Result<(), AllocError>
        ensures { OnOk result (out.new.items ≡ out.old.items ++ text signature.now self.now) };
}

impl Printed for Term {
    ghost text = { term_text };

    fn push_text(
        &self,
        alloc: Global,
        out: &mut Vec<u8>,
        signature: &Signature,
    ) -> Result<(), AllocError> {
        push_term(alloc, out, signature, self)
    }
}

impl Printed for Atom {
    ghost text = { atom_text };

    fn push_text(
        &self,
        alloc: Global,
        out: &mut Vec<u8>,
        signature: &Signature,
    ) -> Result<(), AllocError> {
        push_atom(alloc, out, signature, self)
    }
}

impl Printed for u32 {
    ghost text = { λ signature. decimal };

    fn push_text(
        &self,
        alloc: Global,
        out: &mut Vec<u8>,
        _signature: &Signature,
    ) -> Result<(), AllocError> {
        push_number(alloc, out, u64::from(*self))
    }
}

impl Printed for Assumption {
    ghost text = { λ signature. assumption_text };

    fn push_text(
        &self,
        alloc: Global,
        out: &mut Vec<u8>,
        _signature: &Signature,
    ) -> Result<(), AllocError> {
        push_number(alloc, out, u64::from(self.split))?;
        push_bytes(out, b"-")?;
        push_number(alloc, out, u64::from(self.side))
    }
}

/// The texts of the items, each with a comma before it.
fn push_more<T: Printed>(
    alloc: Global,
    out: &mut Vec<u8>,
    signature: &Signature,
    items: &[T],
) -> Result<(), AllocError>
    ensures { OnOk result (out.new.items ≡ out.old.items ++ flat_map (λ x. 44 ∷ T.text signature.now x) items.now) }
{
    for item in items {
        push_bytes(out, b",")?;
        item.push_text(alloc, out, signature)?;
    }
    Ok(())
}

fn push_with_commas<T: Printed>(
    alloc: Global,
    out: &mut Vec<u8>,
    signature: &Signature,
    items: &[T],
) -> Result<(), AllocError>
    ensures { OnOk result (out.new.items ≡ out.old.items ++ commas (T.text signature.now) items.now) }
{
    match items {
        [] => Ok(()),
        [first, rest @ ..] => {
            first.push_text(alloc, out, signature)?;
            push_more(alloc, out, signature, rest)
        }
    }
}

/// Appends the texts of the items in brackets, with commas between them.
pub fn push_list<T: Printed>(
    alloc: Global,
    out: &mut Vec<u8>,
    signature: &Signature,
    items: &[T],
) -> Result<(), AllocError>
    ensures { OnOk result (out.new.items ≡ out.old.items ++ bracketed (T.text signature.now) items.now) }
{
    push_bytes(out, b"[")?;
    push_with_commas(alloc, out, signature, items)?;
    push_bytes(out, b"]")
}

/// Appends a label and the terms in brackets.
pub fn push_terms(
    alloc: Global,
    out: &mut Vec<u8>,
    signature: &Signature,
    label: &[u8],
    terms: &[Term],
) -> Result<(), AllocError>
    ensures { OnOk result (out.new.items ≡ out.old.items ++ terms_text signature.now label.now terms.now) }
{
    push_bytes(out, label)?;
    push_list(alloc, out, signature, terms)
}

/// Appends a label, the terms in brackets and a comma.
pub fn push_last_terms(
    alloc: Global,
    out: &mut Vec<u8>,
    signature: &Signature,
    label: &[u8],
    terms: &[Term],
) -> Result<(), AllocError>
    ensures { OnOk result (out.new.items ≡ out.old.items ++ last_terms_text signature.now label.now terms.now) }
{
    push_terms(alloc, out, signature, label, terms)?;
    push_bytes(out, b",")
}

/// Appends the three parts of the clause.
pub fn push_clause(
    alloc: Global,
    out: &mut Vec<u8>,
    signature: &Signature,
    clause: &Clause,
) -> Result<(), AllocError>
    ensures { OnOk result (out.new.items ≡ out.old.items ++ clause_text signature.now clause.now) }
{
    push_bytes(out, b"cl(")?;
    push_list(alloc, out, signature, clause.constraint.as_slice())?;
    push_bytes(out, b",")?;
    push_list(alloc, out, signature, clause.antecedent.as_slice())?;
    push_bytes(out, b",")?;
    push_list(alloc, out, signature, clause.succedent.as_slice())?;
    push_bytes(out, b")")
}
