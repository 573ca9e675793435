//! Reading to the end and writing whole, over any source and any sink.
ghost use Rattle.std.specs.Prelude.{◌≡◌, IfOk, OnOk, OnErr, IsErrOf, IfErr};
ghost use Rattle.std.specs.Io.KnownBytes.{Appends};
ghost use Rattle.outside_io.specs.Outside.{CameWhole, CamePast, CameWithin, WrotePrefix, count_after, is_read_fault, is_write_fault};

use crate::errors::{ReadError, WriteError};
use crate::traits::{Sink, Source};
use std::alloc::Global;

/// How many bytes one read asks for at most.
const PIECE: usize = 65_536;

/// Reads all bytes to the end, which are at most `limit`.
///
/// At most `limit + 1` bytes are read, whatever the answer; each read but the one at the end gives
/// at least one of them. The bytes of a source that is at its end stay read.
///
/// # Errors
///
/// `Fault` at the first read that fails, by which the source's count of faults rises by one, and at no
/// other answer; `Memory` where there was none. Then at most `limit` bytes were read, and they are
/// lost. `TooLong` with this limit exactly where more bytes came than it, which is found at the first
/// byte past it.
#[tactic(auto, using(crate::proofs::Streams::stream_laws))]
pub fn read_all<S: Source>(
    alloc: Global,
    source: &mut S,
    limit: usize,
) -> Result<Vec<u8>, ReadError>
    ensures whole { IfOk result (λ bytes. CameWhole (S.left source.old) (S.left source.new) limit bytes.items) }
    ensures too_long { IsErrOf result (ReadError.TooLong limit) → CamePast (S.left source.old) (S.left source.new) limit }
    ensures limit { IfErr result (λ e. (other : _) → e ≡ ReadError.TooLong other → other ≡ limit) }
    ensures fault { IsErrOf result ReadError.Fault → CameWithin (S.left source.old) (S.left source.new) limit }
    ensures memory { IsErrOf result ReadError.Memory → CameWithin (S.left source.old) (S.left source.new) limit }
    ensures faults { S.faults source.new ≡ count_after (is_read_fault result) (S.faults source.old) }
{
    let mut bytes = Vec::new(alloc);
    let mut piece = vec![in alloc; 0u8; limit.saturating_add(1).min(PIECE)]?;
    loop {
        let room = limit - bytes.len();
        let asked = room.saturating_add(1).min(piece.len());
        let front = &mut piece[..asked];
        let count = source.read(front)?;
        if count == 0 {
            return Ok(bytes);
        }
        if room < count {
            return Err(ReadError::TooLong { limit });
        }
        bytes.extend_from_slice(&front[..count])?;
    }
}

/// Writes the bytes whole.
///
/// # Errors
///
/// `Fault` at the first write that fails, by which the sink's count of faults rises by one, and at no
/// other answer; `Memory` where the sink had none. Some first bytes were written, and none of the
/// others.
#[tactic(auto, using(crate::proofs::Streams::stream_laws))]
pub fn write_all<K: Sink>(sink: &mut K, bytes: &[u8]) -> Result<(), WriteError>
    ensures whole { OnOk result (Appends (K.written sink.old) (K.written sink.new) bytes.now) }
    ensures part { OnErr result (WrotePrefix (K.written sink.old) (K.written sink.new) bytes.now) }
    ensures faults { K.faults sink.new ≡ count_after (is_write_fault result) (K.faults sink.old) }
{
    let mut at = 0;
    while at < bytes.len() {
        at += sink.write(&bytes[at..])?;
    }
    Ok(())
}
