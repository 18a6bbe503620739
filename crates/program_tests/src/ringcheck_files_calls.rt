//! Readers that are read up to a limit, and how they fail.

use ringcheck_files::*;
use std::alloc::AllocError;
use std::io::{Error, ErrorKind, Read, Result as IoResult};
use std::test::Fail;

/// A reader that gives two bytes, and then fails.
#[derive(Drop)]
struct Failing {
    calls: u64,
}

impl Read for Failing {
    fn read(&mut self, buf: &mut [u8]) -> IoResult<usize> {
        self.calls = self.calls.saturating_add(1);
        if self.calls > 1 || buf.len() < 2 {
            return Err(Error::from(ErrorKind::Other));
        }
        buf[0] = b'a';
        buf[1] = b'b';
        Ok(2)
    }
}

/// A reader that is interrupted at each call.
#[derive(Drop)]
struct Interrupted {
    calls: u64,
}

impl Read for Interrupted {
    fn read(&mut self, _buf: &mut [u8]) -> IoResult<usize> {
        self.calls = self.calls.saturating_add(1);
        Err(Error::from(ErrorKind::Interrupted))
    }
}

/// A reader that gives byte after byte, and is interrupted before each of them.
#[derive(Drop)]
struct Hesitant<'a> {
    bytes: &'a [u8],
    gives: bool,
}

impl Read for Hesitant<'_> {
    fn read(&mut self, buf: &mut [u8]) -> IoResult<usize> {
        self.gives = !self.gives;
        if self.gives {
            return Err(Error::from(ErrorKind::Interrupted));
        }
        let Some((first, rest)) = self.bytes.split_first() else {
            return Ok(0);
        };
        if buf.is_empty() {
            return Ok(0);
        }
        buf[0] = *first;
        self.bytes = rest;
        Ok(1)
    }
}

/// A reader that gives one byte at each call, for ever.
#[derive(Drop)]
struct Endless {
    calls: u64,
}

impl Read for Endless {
    fn read(&mut self, buf: &mut [u8]) -> IoResult<usize> {
        self.calls = self.calls.saturating_add(1);
        if buf.is_empty() {
            return Ok(0);
        }
        buf[0] = b'z';
        Ok(1)
    }
}

/// Whether a reader's bytes, read up to a limit, are just these.
fn reads<R: Read>(rt: HostRuntime, reader: &mut R, limit: u64, bytes: &[u8]) -> bool {
    limit <= MAX_LIMIT
        && matches!(read_all(rt.alloc(), reader, limit), Ok(all) if all.as_slice() == bytes)
}

/// The failure of reading a reader up to a limit.
fn failure<R: Read>(rt: HostRuntime, reader: &mut R, limit: u64) -> Option<ReadFail> {
    if limit > MAX_LIMIT {
        return None;
    }
    read_all(rt.alloc(), reader, limit).err()
}

/// A text, and a limit that it is within.
const WITHIN: [(&str, u64); 3] = [("abcd", 4), ("abcd", MAX_LIMIT), ("", 0)];

#[test]
fn bytes_within_the_limit_are_read(rt: HostRuntime) {
    for &(text, limit) in &WITHIN {
        let mut reader = text.as_bytes();
        assert!(rt;
            reads(rt, &mut reader, limit, text.as_bytes()),
            "of {limit}"
        );
    }
}

#[test]
fn a_reader_may_be_interrupted(rt: HostRuntime) {
    let mut hesitant = Hesitant {
        bytes: b"abcd",
        gives: false,
    };
    assert!(rt; reads(rt, &mut hesitant, 4, b"abcd"));
}

/// A text, and a limit that it is above.
const ABOVE: [(&str, u64); 2] = [("abcd", 3), ("a", 0)];

#[test]
fn bytes_above_the_limit_are_too_long(rt: HostRuntime) {
    for &(text, limit) in &ABOVE {
        let mut reader = text.as_bytes();
        assert!(rt;
            failure(rt, &mut reader, limit) == Some(ReadFail::TooLong),
            "of {limit}"
        );
    }
}

#[test]
fn an_endless_reader_is_left_above_the_limit(rt: HostRuntime) {
    let mut endless = Endless { calls: 0 };
    let failed = failure(rt, &mut endless, 1000);
    assert!(rt; failed == Some(ReadFail::TooLong) && endless.calls == 1001);
}

/// Whether bytes are read up to their number, and are too long for a limit below it.
fn are_many_read(rt: HostRuntime, bytes: &[u8]) -> bool {
    let mut reader: &[u8] = bytes;
    let is_read = reads(rt, &mut reader, 300_000, bytes);
    let mut reader: &[u8] = bytes;
    is_read && failure(rt, &mut reader, 299_999) == Some(ReadFail::TooLong)
}

#[test]
fn many_blocks_are_read(rt: HostRuntime) -> Result<(), Fail> {
    let text = "0123456789".repeat(rt.alloc(), 30_000)?;
    assert!(rt; are_many_read(rt, text.as_bytes()));
    Ok(())
}

#[test]
fn a_read_that_fails_is_told(rt: HostRuntime) {
    let mut failing = Failing { calls: 0 };
    let failed = failure(rt, &mut failing, 4);
    assert!(rt; failed == Some(ReadFail::ReadFault) && failing.calls == 2);
}

/// A limit, and how often a reader is called that is interrupted each time: at most so often in a row, whatever the limit.
const CALLS: [(u64, u64); 3] = [(0, 65_536), (1000, 65_536), (268_435_456, 65_536)];

#[test]
fn reads_are_called_no_more_than_so_often(rt: HostRuntime) {
    for &(limit, calls) in &CALLS {
        let mut interrupted = Interrupted { calls: 0 };
        let failed = failure(rt, &mut interrupted, limit);
        assert!(rt;
            failed == Some(ReadFail::ReadFault) && interrupted.calls == calls,
            "of {limit}"
        );
    }
}

/// A sink that counts the pieces that it takes, and their bytes.
#[derive(Drop)]
struct Counts {
    pieces: usize,
    bytes: usize,
}

impl Sink for Counts {
    ghost has_taken = { λ start now text. Unit {0} };

    fn take(&mut self, piece: &[u8]) -> Result<(), AllocError> {
        self.pieces = self.pieces.saturating_add(1);
        self.bytes = self.bytes.saturating_add(piece.len());
        Ok(())
    }
}

/// How many pieces and bytes of a reader are handed on, and how that failed, if it did.
fn handed<R: Read>(
    rt: HostRuntime,
    reader: &mut R,
    limit: u64,
) -> (usize, usize, Option<ReadFail>) {
    let mut counts = Counts {
        pieces: 0,
        bytes: 0,
    };
    if limit > MAX_LIMIT {
        return (0, 0, None);
    }
    let failed = read_into(rt.alloc(), reader, limit, &mut counts).err();
    (counts.pieces, counts.bytes, failed)
}

#[test]
fn bytes_are_handed_on_as_they_are_read(rt: HostRuntime) {
    let mut hesitant = Hesitant {
        bytes: b"abcd",
        gives: false,
    };
    assert!(rt; handed(rt, &mut hesitant, 4) == (4, 4, None));
    let mut failing = Failing { calls: 0 };
    let fault = Some(ReadFail::ReadFault);
    assert!(rt; handed(rt, &mut failing, 4) == (1, 2, fault));
}

#[test]
fn bytes_above_the_limit_are_not_handed_on(rt: HostRuntime) {
    let too_long = Some(ReadFail::TooLong);
    let mut endless = Endless { calls: 0 };
    assert!(rt; handed(rt, &mut endless, 1000) == (1000, 1000, too_long));
    let mut whole: &[u8] = b"abcd";
    assert!(rt; handed(rt, &mut whole, 3) == (0, 0, too_long));
}
