//! Commands with the places and offsets of their items.

ghost use Rattle.std.specs.Prelude.{◌≡◌, ◌+◌, ◌≤◌, length};
ghost use Rattle.gerber_text.specs.Holding.{passed_text};

use crate::fast_path::LeadingOperation;
use crate::text_items::LeadingText;

/// A command, with the number of its item, from 1, and the offset of that item's first byte.
#[derive(Drop)]
pub struct Placed<T> {
    pub place: u64,
    pub byte: u64,
    pub what: T,
}

/// An operation whose commands a reader does not hold, with the number of its item, from 1, the offset of that item's
/// first byte, and how many bytes the reader passed.
#[derive(Clone, Copy)]
pub struct PassedOperation {
    pub operation: LeadingOperation,
    pub place: u64,
    pub byte: u64,
    pub len: usize,
}

/// A comment or an attribute whose command a reader does not hold, with the number of its item, from 1, the offset of that
/// item's first byte, and how many bytes the reader passed.
#[derive(Clone, Copy)]
pub struct PassedText {
    pub item: LeadingText,
    pub place: u64,
    pub byte: u64,
    pub len: usize,
}

impl PassedText {
    /// The text, in the bytes that the reader was given.
    pub fn text_in(self, bytes: &[u8]) -> &[u8]
        requires { self.item.text_len + 3 ≤ length bytes.now }
        ensures { result.now ≡ passed_text self bytes.now }
    {
        &bytes[3..3 + self.item.text_len]
    }
}
