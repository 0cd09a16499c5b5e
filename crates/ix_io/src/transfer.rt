//! Reading to the end and writing all, over any source and any sink.
ghost use Rattle.std.specs.Prelude.{MatchBool, vec_len, [], ◌≡◌, ◌+◌, ◌-◌, ◌^◌, ◌<◌, ◌≤◌, ◌++◌, Some, length, drop, List, ℕ, IfOk, OnOk, OnErr, IfSome, IsErrOf};
ghost use Rattle.std.specs.Io.KnownBytes.{Consumes, Appends, IsAtEnd};
ghost use Rattle.ix_types.specs.Count.{CountsWhere};
ghost use Rattle.ix_io.specs.Failures.{read_failed, sink_failed};
ghost use Rattle.ix_io.specs.Transfer.{intake_of, IsWithin, TakesAtMost, AppendsPart, Gains};

use crate::sink::{Sink, SinkError};
use crate::source::Source;
use ix_types::Seq;
use std::alloc::{AllocError, Global};
use thiserror::Error;

/// The most bytes that are asked of a source at once.
const CHUNK: usize = 65_536;

/// What a source gave up to a limit.
#[derive(Debug, PartialEq, Drop)]
pub enum Intake {
    /// All its bytes.
    All(Seq<u8>),
    /// It holds more than the limit.
    TooLarge,
}

/// Why a source wasn't read to the end.
#[derive(Clone, Copy, Debug, PartialEq, Eq, Error)]
pub enum ReadError {
    /// A read failed.
    #[error("failed")]
    Failed,
    /// Memory was wanting.
    #[error("memory")]
    Memory,
}

/// Reads to the end, but takes at most one byte more than the limit. It ends at the first failed read.
pub fn read_all<S: Source>(alloc: Global, source: &mut S, limit: usize) -> Result<Intake, ReadError>
    requires { limit < 2 ^ 64 - 1 }
    ensures intake { IfOk result (λ intake. IfSome (S.remaining source.old) (λ bytes.
        intake ≡ intake_of limit bytes)) }
    ensures rest { OnOk result (IfSome (S.remaining source.old) (λ bytes.
        S.remaining source.new ≡ Some (drop (limit + 1) bytes))) }
    ensures within { IfOk result (IsWithin limit) }
    ensures front { TakesAtMost (S.remaining source.old) (S.remaining source.new) (limit + 1) }
    ensures cause { CountsWhere (read_failed result) (S.faults source.old) (S.faults source.new) }
{
    let mut chunk = match zeros(alloc, CHUNK) {
        Ok(chunk) => chunk,
        Err(_) => return Err(ReadError::Memory),
    };
    let mut bytes = Vec::new(alloc);
    if read_up_to(source, &mut chunk, &mut bytes, limit)? {
        Ok(Intake::All(Seq::of(bytes)))
    } else {
        Ok(Intake::TooLarge)
    }
}

fn zeros(alloc: Global, len: usize) -> Result<Vec<u8>, AllocError>
    ensures { IfOk result (λ v. vec_len v ≡ len) }
{
    vec![in alloc; 0u8; len]
}

/// Reads to the end or past the limit, and answers whether it came to the end.
fn read_up_to<S: Source>(
    source: &mut S,
    chunk: &mut [u8],
    bytes: &mut Vec<u8>,
    limit: usize,
) -> Result<bool, ReadError>
    requires room { 0 < length chunk.old }
    requires empty { bytes.old.items ≡ [] }
    requires limit { limit < 2 ^ 64 - 1 }
    ensures taken { OnOk result (Consumes (S.remaining source.old) (S.remaining source.new) bytes.new.items) }
    ensures end { IfOk result (λ ended. MatchBool ended
        (IsAtEnd (S.remaining source.new) × (length bytes.new.items ≤ limit))
        (length bytes.new.items ≡ limit + 1)) }
    ensures front { OnErr result (TakesAtMost (S.remaining source.old) (S.remaining source.new) (limit + 1)) }
    ensures cause { CountsWhere (read_failed result) (S.faults source.old) (S.faults source.new) }
{
    while bytes.len() <= limit {
        let room = chunk.len().min(limit + 1 - bytes.len());
        if read_piece(source, &mut chunk[..room], bytes)? == 0 {
            return Ok(true);
        }
    }
    Ok(false)
}

/// One read into the chunk, whose bytes go behind those that are there.
fn read_piece<S: Source>(
    source: &mut S,
    chunk: &mut [u8],
    bytes: &mut Vec<u8>,
) -> Result<usize, ReadError>
    requires { 0 < length chunk.old }
    ensures gained { IfOk result (λ n. Gains (S.remaining source.old) (S.remaining source.new)
        bytes.old.items bytes.new.items n) }
    ensures room { IfOk result (λ n. n ≤ length chunk.old) }
    ensures end { IfOk result (λ n. n ≡ 0 → IsAtEnd (S.remaining source.new)) }
    ensures front { OnErr result (TakesAtMost (S.remaining source.old) (S.remaining source.new) (length chunk.old)) }
    ensures cause { CountsWhere (read_failed result) (S.faults source.old) (S.faults source.new) }
{
    match source.read(chunk) {
        Ok(taken) => match bytes.extend_from_slice(&chunk[..taken]) {
            Ok(()) => Ok(taken),
            Err(_) => Err(ReadError::Memory),
        },
        Err(_) => Err(ReadError::Failed),
    }
}

/// Writes all the bytes. With an error a front of them was written, and not all.
pub fn write_all<K: Sink>(sink: &mut K, bytes: &[u8]) -> Result<(), SinkError>
    ensures written { OnOk result (Appends (K.contents sink.old) (K.contents sink.new) bytes.now) }
    ensures front { OnErr result (AppendsPart (K.contents sink.old) (K.contents sink.new) bytes.now) }
    ensures cause { CountsWhere (sink_failed result) (K.faults sink.old) (K.faults sink.new) }
{
    let mut rest = bytes;
    while !rest.is_empty() {
        let taken = sink.write(rest)?;
        rest = &rest[taken..];
    }
    Ok(())
}
