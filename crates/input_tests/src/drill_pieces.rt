//! Texts that come in pieces.

use drill_text::{Drill, DrillReader, Keep};
use grid_units::Fail;
use std::alloc::Global;

/// How a text is cut into pieces: in two at a place, or after each byte, with an empty piece after each.
#[derive(Clone, Copy)]
pub(crate) enum Cut {
    At(usize),
    EachByte,
}

fn feed_in_two(reader: &mut DrillReader, text: &[u8], at: usize) -> Result<(), Fail> {
    let at = at.min(text.len());
    reader.feed(&text[..at])?;
    reader.feed(&text[at..])
}

fn feed_bytes(reader: &mut DrillReader, text: &[u8]) -> Result<(), Fail> {
    for i in 0..text.len() {
        reader.feed(&text[i..i + 1])?;
        reader.feed(&[])?;
    }
    Ok(())
}

/// Reads a text that is cut so.
pub(crate) fn read_cut(alloc: Global, keep: Keep, text: &[u8], cut: Cut) -> Result<Drill, Fail> {
    let mut reader = DrillReader::keeping(alloc, keep);
    match cut {
        Cut::At(at) => feed_in_two(&mut reader, text, at),
        Cut::EachByte => feed_bytes(&mut reader, text),
    }?;
    reader.finish()
}

/// The failure of a read, or `None` where it succeeded.
pub(crate) fn failure_of(read: Result<Drill, Fail>) -> Option<Fail> {
    match read {
        Ok(_) => None,
        Err(fail) => Some(fail),
    }
}
