//! Texts above the limit of 268,435,456 bytes, which come in pieces to readers that keep nothing of them; and one below the limit whose
//! canonical text is above it.

use crate::answer::Answer;
use crate::cuts::Tally;
use crate::readers::Reader;
use drill_text::{Drill, DrillCommand, DrillReader, drill_sayable, write_drill};
use grid_units::{Fail, Fault, Reason};
use std::alloc::{AllocError, Global};

/// The number of pieces in a text of the greatest length.
const PIECES: u64 = 256;

/// The length of each of them in bytes.
const PIECE: usize = 1_048_576;

/// A piece that is one comment, with this front and back.
fn piece(alloc: Global, front: &str, back: &str) -> Result<Vec<u8>, AllocError> {
    let mut piece = Vec::from_slice(alloc, front.as_bytes())?;
    for _ in front.len()..PIECE.saturating_sub(back.len()) {
        piece.push(b'a')?;
    }
    piece.extend_from_slice(back.as_bytes())?;
    Ok(piece)
}

/// Whether a reader refuses the first byte after as many comments as the limit holds.
fn is_refused(alloc: Global, reader: Reader, front: &str, back: &str) -> Result<bool, AllocError> {
    let piece = piece(alloc, front, back)?;
    let wanted = Fault {
        place: PIECES + 1,
        byte: 268_435_456,
        reason: Reason::TooLong,
    };
    Ok(reader.repeated(alloc, &piece, PIECES) == Answer::Failed(Fail::Refused(wanted)))
}

/// The number of comments in the drill file below the limit: 260,046,848 bytes.
const COMMENTS: u64 = 248;

/// How many times 4,096 hits follow them: 7,311,360 bytes, and 9,400,320 in the canonical text.
const HITS: u64 = 255;

/// Feeds a piece `count` times.
fn feed_again(reader: &mut DrillReader, piece: &[u8], count: u64) -> Result<(), Fail> {
    for _ in 0..count {
        reader.feed(piece)?;
    }
    Ok(())
}

/// Feeds a drill file of these comments and hits.
fn feed_all(reader: &mut DrillReader, comment: &[u8], hits: &[u8]) -> Result<(), Fail> {
    reader.feed(b"M48\nMETRIC\nT1C0.4\n%\nT1\n")?;
    feed_again(reader, comment, COMMENTS)?;
    feed_again(reader, hits, HITS)?;
    reader.feed(b"M30\n")
}

/// A drill file below the limit whose canonical text is above it.
fn long_drill(alloc: Global) -> Result<Drill, Fail> {
    let comment = piece(alloc, ";", "\n")?;
    let hits = "X1.Y1.\n".repeat(alloc, 4_096)?;
    let mut reader = DrillReader::new(alloc);
    feed_all(&mut reader, &comment, hits.as_bytes())?;
    reader.finish()
}

/// Whether commands that can be written are refused for their length.
fn are_too_long(alloc: Global, commands: &[DrillCommand]) -> bool {
    let wanted = Fault {
        place: 0,
        byte: 0,
        reason: Reason::TooLong,
    };
    if !drill_sayable(commands) {
        return false;
    }
    match write_drill(alloc, commands) {
        Ok(_) => false,
        Err(fail) => fail == Fail::Refused(wanted),
    }
}

/// Whether a drill file that can be read is refused when it is written.
fn is_refused_written(alloc: Global) -> Result<bool, Fail> {
    let drill = long_drill(alloc)?;
    Ok(are_too_long(alloc, drill.commands()))
}

/// Tries the readers that keep no comment, and the writer of drill files.
pub(crate) fn run(alloc: Global) -> Result<Tally, AllocError> {
    let mut tally = Tally::new();
    tally.count(is_refused(alloc, Reader::Sum, "G04", "*\n")?);
    tally.count(is_refused(alloc, Reader::Holes, ";", "\n")?);
    tally.count(matches!(is_refused_written(alloc), Ok(true)));
    Ok(tally)
}
