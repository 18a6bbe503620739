//! The trait of what takes the bytes of a file piece by piece.

ghost use Rattle.std.specs.Prelude.{◌++◌, ◌≡◌, ◌≤◌, ℕ, List, OnOk, max, vec_capacity, vec_len, ◌+◌, ◌/◌};

use std::alloc::{AllocError, Global};

/// Takes the bytes of a file piece by piece, so that the file need not be whole in memory.
pub trait Sink {
    /// Whether just these bytes were taken between two states.
    ghost has_taken: { Self → Self → List ℕ → Type 0 };

    /// Takes the next piece.
    ///
    /// # Errors
    ///
    /// An `AllocError` where there is no memory.
    fn take(&mut self, piece: &[u8]) -> Result<(), AllocError>
        ensures { (start : Self) (text : List ℕ) → has_taken start self.old text → OnOk result (has_taken start self.new (text ++ piece.now)) };
}

/// A vector takes bytes by appending them.
impl Sink for Vec<u8> {
    ghost has_taken = { λ start now text. now.items ≡ start.items ++ text };

    fn take(&mut self, piece: &[u8]) -> Result<(), AllocError> {
        append(self, piece)
    }
}

/// Appends bytes.
fn append(bytes: &mut Vec<u8>, more: &[u8]) -> Result<(), AllocError>
    ensures { OnOk result (bytes.new.items ≡ bytes.old.items ++ more.now) }
{
    make_room(bytes, more.len())?;
    bytes.extend_from_slice(more)
}

/// Makes room for so many more bytes. A vector that has to grow does so by a sixteenth at least: so it holds little more
/// than its bytes, and is seldom moved.
fn make_room(bytes: &mut Vec<u8>, count: usize) -> Result<(), AllocError>
    ensures items { bytes.new.items ≡ bytes.old.items }
    ensures room { OnOk result (vec_len bytes.new + count ≤ vec_capacity bytes.new) }
    ensures little { OnOk result (vec_capacity bytes.new ≤ max (vec_capacity bytes.old) (vec_len bytes.old + max count (vec_len bytes.old / 16))) }
{
    if count <= bytes.capacity() - bytes.len() {
        return Ok(());
    }
    bytes.reserve_exact(count.max(bytes.len() / 16))
}
