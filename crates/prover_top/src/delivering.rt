//! The text of an answer, and what is reported once it was written.
ghost use Rattle.std.specs.Prelude.{◌≡◌, ◌≢◌, ◌<◌, ◌^◌, ◌++◌, length, codes, OnOk, IfOk};
ghost use Rattle.outside_io.specs.Outside.{count_after};
ghost use Rattle.prover_top.specs.Answers.{found_text, completion_text, rounds_text, steps_text, size_text, kind_text, input_text, answer_text, reported_status};
ghost use Rattle.prover_top.specs.Deliveries.{IsDelivered};
ghost use Rattle.prover_top.specs.Reports.{IsAnswerWritten};

use crate::answers::Answer;
use dfg_reader::{FaultKind, ReadFault};
use outside_io::{Sink, WriteError, write_all};
use proof_steps::Line;
use proof_text::{print_proof, push_bytes, push_number};
use spl_symbols::Signature;
use std::alloc::{AllocError, Global};

fn found_text(alloc: Global, signature: &Signature, proof: &[Line]) -> Result<Vec<u8>, AllocError>
    requires { length proof.now < 2 ^ 32 }
    ensures { IfOk result (λ text. text.items ≡ found_text signature.now proof.now) }
{
    let mut out = Vec::new(alloc);
    push_bytes(&mut out, b"Proof found.\n")?;
    print_proof(alloc, out, signature, proof)
}

fn push_completion(
    alloc: Global,
    out: &mut Vec<u8>,
    node: u32,
    kept: u32,
    put_off: u32,
) -> Result<(), AllocError>
    ensures { OnOk result (out.new.items ≡ out.old.items ++ completion_text node kept put_off) }
{
    push_bytes(out, b"Completion found.\nCase ")?;
    push_number(alloc, out, node as u64)?;
    push_bytes(out, b": kept ")?;
    push_number(alloc, out, kept as u64)?;
    push_bytes(out, b", put off ")?;
    push_number(alloc, out, put_off as u64)?;
    push_bytes(out, b".\n")?;
    Ok(())
}

fn push_rounds(alloc: Global, out: &mut Vec<u8>, count: u32) -> Result<(), AllocError>
    ensures { OnOk result (out.new.items ≡ out.old.items ++ rounds_text count) }
{
    push_bytes(out, b"Gave up: rounds ")?;
    push_number(alloc, out, count as u64)?;
    push_bytes(out, b".\n")?;
    Ok(())
}

fn push_steps(alloc: Global, out: &mut Vec<u8>, limit: u32) -> Result<(), AllocError>
    ensures { OnOk result (out.new.items ≡ out.old.items ++ steps_text limit) }
{
    push_bytes(out, b"Gave up: steps ")?;
    push_number(alloc, out, limit as u64)?;
    push_bytes(out, b".\n")?;
    Ok(())
}

fn push_size(alloc: Global, out: &mut Vec<u8>, symbols: u64) -> Result<(), AllocError>
    ensures { OnOk result (out.new.items ≡ out.old.items ++ size_text symbols) }
{
    push_bytes(out, b"Gave up: size ")?;
    push_number(alloc, out, symbols)?;
    push_bytes(out, b".\n")?;
    Ok(())
}

fn push_kind(out: &mut Vec<u8>, kind: FaultKind) -> Result<(), AllocError>
    ensures { OnOk result (out.new.items ≡ out.old.items ++ kind_text kind) }
{
    match kind {
        FaultKind::Unexpected => push_bytes(out, b"Unexpected"),
        FaultKind::Undeclared => push_bytes(out, b"Undeclared"),
        FaultKind::Arity { .. } => push_bytes(out, b"Arity"),
        FaultKind::DeclaredTwice => push_bytes(out, b"DeclaredTwice"),
        FaultKind::SecondConjecture => push_bytes(out, b"SecondConjecture"),
        FaultKind::OutsideProfile => push_bytes(out, b"OutsideProfile"),
        FaultKind::LimitReached(_) => push_bytes(out, b"LimitReached"),
    }
}

fn push_input(alloc: Global, out: &mut Vec<u8>, fault: ReadFault) -> Result<(), AllocError>
    ensures { OnOk result (out.new.items ≡ out.old.items ++ input_text fault.at fault.kind) }
{
    push_bytes(out, b"Input refused at byte ")?;
    push_number(alloc, out, fault.at as u64)?;
    push_bytes(out, b": ")?;
    push_kind(out, fault.kind)?;
    push_bytes(out, b".\n")?;
    Ok(())
}

/// Appends the text of an answer that is no proof: signature and proof don't matter for it.
fn push_other(
    alloc: Global,
    out: &mut Vec<u8>,
    _signature: &Signature,
    _proof: &[Line],
    answer: Answer,
) -> Result<(), AllocError>
    requires { answer ≢ Answer.ProofFound }
    ensures { OnOk result (out.new.items ≡ out.old.items ++ answer_text _signature.now _proof.now answer) }
{
    match answer {
        Answer::ProofFound => unreachable!(),
        Answer::Completion {
            node,
            kept,
            put_off,
        } => push_completion(alloc, out, node, kept, put_off),
        Answer::Rounds { count } => push_rounds(alloc, out, count),
        Answer::Steps { limit } => push_steps(alloc, out, limit),
        Answer::Size { symbols } => push_size(alloc, out, symbols),
        Answer::Words => push_bytes(out, b"Words refused.\n"),
        Answer::Input(fault) => push_input(alloc, out, fault),
        Answer::TooLong => push_bytes(out, b"Input too long.\n"),
        Answer::ReadFault => push_bytes(out, b"Read fault.\n"),
        Answer::Memory => push_bytes(out, b"Out of memory.\n"),
    }
}

fn other_text(
    alloc: Global,
    signature: &Signature,
    proof: &[Line],
    answer: Answer,
) -> Result<Vec<u8>, AllocError>
    requires { answer ≢ Answer.ProofFound }
    ensures { IfOk result (λ text. text.items ≡ answer_text signature.now proof.now answer) }
{
    let mut out = Vec::new(alloc);
    push_other(alloc, &mut out, signature, proof, answer)?;
    Ok(out)
}

fn text_of(
    alloc: Global,
    signature: &Signature,
    proof: &[Line],
    answer: Answer,
) -> Result<Vec<u8>, AllocError>
    requires { length proof.now < 2 ^ 32 }
    ensures { IfOk result (λ text. text.items ≡ answer_text signature.now proof.now answer) }
{
    match answer {
        Answer::ProofFound => found_text(alloc, signature, proof),
        other => other_text(alloc, signature, proof, other),
    }
}

/// What is reported of an answer once its text was written.
#[derive(Clone, Copy, Debug)]
pub struct Delivery {
    /// The answer, or `Memory` where there was none.
    pub reported: Answer,
    /// Whether a write failed by a fault.
    pub failed: bool,
}

impl Delivery {
    /// The exit status: 7 where a write failed, else that of the answer that is reported.
    pub fn status(self) -> u8
        ensures { result ≡ reported_status self.failed self.reported }
    {
        if self.failed {
            7
        } else {
            self.reported.status()
        }
    }
}

fn write_text<K: Sink>(sink: &mut K, text: &[u8], answer: Answer) -> Delivery
    ensures delivered { IsDelivered text.now answer result.reported result.failed
        (K.written sink.old) (K.written sink.new) }
    ensures counted { K.faults sink.new ≡ count_after result.failed (K.faults sink.old) }
{
    let (reported, failed) = match write_all(sink, text) {
        Ok(()) => (answer, false),
        Err(WriteError::Fault) => (answer, true),
        Err(WriteError::Memory) => (Answer::Memory, false),
    };
    Delivery { reported, failed }
}

/// Builds the text of the answer whole and writes it; where there is no memory to build it, the text of want of memory.
pub fn deliver<K: Sink>(
    alloc: Global,
    sink: &mut K,
    signature: &Signature,
    proof: &[Line],
    answer: Answer,
) -> Delivery
    requires { length proof.now < 2 ^ 32 }
    ensures written { IsAnswerWritten signature.now proof.now answer
        result.reported result.failed (K.written sink.old) (K.written sink.new) }
    ensures counted { K.faults sink.new ≡ count_after result.failed (K.faults sink.old) }
{
    match text_of(alloc, signature, proof, answer) {
        Ok(text) => write_text(sink, text.as_slice(), answer),
        Err(_) => write_text(sink, b"Out of memory.\n", Answer::Memory),
    }
}
