//! Texts that are cut: the answer to the pieces must be that to the whole.

use crate::answer::Answer;
use crate::readers::{READERS, Reader};
use crate::texts::{Paragraph, Wanted};
use std::alloc::{AllocError, Global};

/// The longest text that is cut after each byte.
const CUT_ANYWHERE: usize = 4_096;

/// The longest text that is cut at some sixty places. A longer one is cut at five.
const CUT_OFTEN: usize = 2_097_152;

/// The number of comparisons, and of those that differ.
#[derive(Clone, Copy)]
pub(crate) struct Tally {
    pub(crate) all: u64,
    pub(crate) different: u64,
}

impl Tally {
    pub(crate) fn new() -> Tally {
        Tally {
            all: 0,
            different: 0,
        }
    }

    pub(crate) fn count(&mut self, is_right: bool) {
        self.all = self.all.saturating_add(1);
        if !is_right {
            self.different = self.different.saturating_add(1);
        }
    }
}

/// Whether a text of this length is cut at a place.
fn is_place(at: usize, length: usize) -> bool {
    if length <= CUT_ANYWHERE {
        return true;
    }
    if length > CUT_OFTEN {
        return at % (length / 4) == 0;
    }
    at < 20 || length.saturating_sub(at) < 20 || at % (length / 20) == 0
}

/// Cuts a text at all these places, for each of the readers.
pub(crate) fn cut(alloc: Global, text: &[u8], tally: &mut Tally) {
    for reader in READERS {
        cut_for(reader, alloc, text, tally);
    }
}

/// Compares the text in two pieces, and each front of it in pieces, with the whole.
fn cut_for(reader: Reader, alloc: Global, text: &[u8], tally: &mut Tally) {
    let whole = reader.whole(alloc, text);
    tally.count(reader.in_bytes(alloc, text) == whole);
    for at in 0..=text.len() {
        if is_place(at, text.len()) {
            tally.count(reader.in_two(alloc, text, at) == whole);
            tally.count(is_front_same(reader, alloc, &text[..at]));
        }
    }
}

/// Whether a front has the same answer in pieces as whole: byte by byte, unless it is long.
fn is_front_same(reader: Reader, alloc: Global, front: &[u8]) -> bool {
    let answer = if front.len() <= CUT_ANYWHERE {
        reader.in_bytes(alloc, front)
    } else {
        reader.in_two(alloc, front, front.len() / 2)
    };
    answer == reader.whole(alloc, front)
}

fn is_wanted(alloc: Global, answer: &Answer, wanted: &Wanted) -> Result<bool, AllocError> {
    match wanted {
        Wanted::Counts(first, second) => Ok(answer.has_counts((*first, *second))),
        Wanted::Line(line) => Ok(format!(in alloc; "{answer}")?.as_str() == line.as_str()),
    }
}

/// Whether a row has its stated answer: whole, in two pieces and byte by byte.
pub(crate) fn is_answered(alloc: Global, row: &Paragraph) -> Result<bool, AllocError> {
    let (Some(reader), Some(wanted)) = (row.reader, &row.wanted) else {
        return Ok(false);
    };
    let answer = reader.whole(alloc, &row.text);
    Ok(
        is_wanted(alloc, &answer, wanted)?
            && reader.in_two(alloc, &row.text, row.text.len() / 2) == answer
            && reader.in_bytes(alloc, &row.text) == answer,
    )
}
