//! The profiles: which part of both formats is read, and which copper counts.

/// Which texts are read, and which copper counts as a pad.
#[derive(Clone, Copy, Debug, PartialEq, Eq)]
pub enum Profile {
    /// Flashed discs, rectangles and obrounds alone, all dark; each slot is one command.
    Strict,
    /// Also flashes of macros, contours, clear polarity, slots that are routed and files without holes.
    Wide,
}
