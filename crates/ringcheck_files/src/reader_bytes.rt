//! All bytes of a reader, within a limit.

ghost use Rattle.std.specs.Prelude.{◌≡◌, ◌≢◌, ◌<◌, ◌≤◌, ◌+◌, ◌++◌, ℕ, List, length, OnOk, IfOk, IfErr, vec_len};
ghost use Rattle.std.specs.Io.KnownBytes.{IsAtEnd};
ghost use Rattle.ringcheck_files.specs.Inner.{HasReadCause, IsFresh, extra_reads};
ghost use Rattle.ringcheck_files.specs.ReaderBytes.{HandsAll, ReadsAll, max_limit};
ghost use Rattle.ringcheck_files.specs.declared.reader_bytes.ReadFail.TheVariants as fails;

use crate::Sink;
use crate::read_counter::ReadCounter;
use std::alloc::{AllocError, Global};
use std::io::Read;
use thiserror::Error;

/// Why the bytes of a reader were not read.
#[derive(Clone, Copy, Debug, PartialEq, Eq, Error)]
pub enum ReadFail {
    /// A read failed, or too many of them gave nothing.
    #[error("the reader failed")]
    ReadFault,
    /// There are more bytes than the limit.
    #[error("too many bytes")]
    TooLong,
    /// There is no memory.
    #[error("out of memory")]
    Memory,
}

impl From<AllocError> for ReadFail {
    ghost from_gives = { λ _ e. e ≡ fails.Memory };

    fn from(_error: AllocError) -> ReadFail {
        ReadFail::Memory
    }
}

/// The greatest limit of [`read_all`], in bytes.
pub const MAX_LIMIT: u64 = 268_435_456;

/// How many more reads may be made than the limit has bytes.
const EXTRA_READS: u64 = 65_536;

/// How many bytes one read asks for. The block for them is no local, as a stack may be as small as that.
const BLOCK: usize = 65_536;

/// All that a reader has left, if that is not more than `limit` bytes; a limit is at most [`MAX_LIMIT`]. A read that was
/// interrupted is called again.
///
/// # Errors
///
/// [`ReadFail::TooLong`] where more than `limit` bytes come; [`ReadFail::ReadFault`] where a read fails, was interrupted 65,536 times
/// in a row, or has been called `limit + 65,536` times; [`ReadFail::Memory`] where there is no memory.
pub fn read_all<R: Read>(alloc: Global, reader: &mut R, limit: u64) -> Result<Vec<u8>, ReadFail>
    requires limit { limit ≤ max_limit }
    ensures exact { ReadsAll (R.remaining reader.old) limit result }
    ensures end { OnOk result (IsAtEnd (R.remaining reader.new)) }
{
    let mut bytes = Vec::new(alloc);
    read_into(alloc, reader, limit, &mut bytes)?;
    Ok(bytes)
}

/// Hands all that a reader has left to a sink, if that is not more than `limit` bytes, in pieces of at most 65,536 bytes, each as soon as
/// it is read; a limit is at most [`MAX_LIMIT`]. After an error the sink may have taken the first bytes. A read that was interrupted is
/// called again.
///
/// # Errors
///
/// As those of [`read_all`]; [`ReadFail::Memory`] also where the sink has no memory.
pub fn read_into<R: Read, S: Sink>(
    alloc: Global,
    reader: &mut R,
    limit: u64,
    sink: &mut S,
) -> Result<(), ReadFail>
    requires limit { limit ≤ max_limit }
    ensures exact { HandsAll (R.remaining reader.old) limit (λ bytes. (start : S) (text : List ℕ) → S.has_taken start sink.old text → S.has_taken start sink.new (text ++ bytes)) result }
    ensures end { OnOk result (IsAtEnd (R.remaining reader.new)) }
{
    let mut block = zero_block(alloc, BLOCK)?;
    let mut read_counter = ReadCounter::new();
    read_in_blocks(reader, &mut read_counter, block.as_mut_slice(), limit, sink)
}

/// A block of so many zeros.
fn zero_block(alloc: Global, count: usize) -> Result<Vec<u8>, AllocError>
    ensures { IfOk result (λ v. vec_len v ≡ count) }
{
    vec![in alloc; 0u8; count]
}

/// Hands all that a reader has left to a sink, as `read_into` says; each read fills the block and is counted.
fn read_in_blocks<R: Read, S: Sink>(
    reader: &mut R,
    read_counter: &mut ReadCounter,
    block: &mut [u8],
    limit: u64,
    sink: &mut S,
) -> Result<(), ReadFail>
    requires limit { limit ≤ max_limit }
    requires block { 0 < length block.old }
    requires unread { IsFresh read_counter.old }
    ensures exact { HandsAll (R.remaining reader.old) limit (λ bytes. (start : S) (text : List ℕ) → S.has_taken start sink.old text → S.has_taken start sink.new (text ++ bytes)) result }
    ensures end { OnOk result (IsAtEnd (R.remaining reader.new)) }
    ensures made { read_counter.new.made ≤ limit + extra_reads }
    ensures fault { IfErr result (HasReadCause read_counter.new limit) }
{
    let mut total: u64 = 0;
    while read_counter.made() < limit + EXTRA_READS {
        match read_counter.read(reader, block) {
            Ok(Some(0)) => return Ok(()),
            Ok(Some(count)) => total = hand_on(&block[..count], limit, total, sink)?,
            Ok(None) => {}
            Err(fail) => return Err(fail),
        }
    }
    Err(ReadFail::ReadFault)
}

/// Hands a piece to the sink, if the limit has room for it after `total` bytes; returns how many bytes the sink has taken then.
fn hand_on<S: Sink>(piece: &[u8], limit: u64, total: u64, sink: &mut S) -> Result<u64, ReadFail>
    requires { total ≤ limit }
    ensures taken { (start : S) (text : List ℕ) → S.has_taken start sink.old text → OnOk result (S.has_taken start sink.new (text ++ piece.now)) }
    ensures total { IfOk result (λ sum. (sum ≡ total + length piece.now) × (sum ≤ limit)) }
    ensures long { IfErr result (λ e. e ≡ ReadFail.TooLong → limit < total + length piece.now) }
    ensures no_fault { IfErr result (λ e. e ≢ ReadFail.ReadFault) }
{
    if piece.len() as u64 > limit - total {
        return Err(ReadFail::TooLong);
    }
    sink.take(piece)?;
    Ok(total + piece.len() as u64)
}
