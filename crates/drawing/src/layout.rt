//! How panels stand on a page.

ghost use Rattle.std.specs.Prelude.{◌≤◌, ◌^◌, unsigned_abs};

use picture::{Frame, Pen};

/// Where the panels of a board stand on a page: in rows, each with the same number of columns.
#[derive(Clone, Copy)]
pub(crate) struct Layout {
    /// The box of the board, which all panels share.
    pub(crate) frame: Frame,
    /// The unit and the required ring, in pm.
    pub(crate) pen: Pen,
    /// The number of columns, at least 1.
    pub(crate) columns: usize,
    /// The number of rows.
    pub(crate) rows: usize,
    /// The length of the bar of the scale in pm.
    pub(crate) bar: u64,
    ghost some: { 1 ≤ columns },
    ghost left: { unsigned_abs frame.left ≤ 10 ^ 14 },
    ghost wide: { unsigned_abs frame.width ≤ 10 ^ 14 },
    ghost high: { unsigned_abs frame.height ≤ 10 ^ 14 },
    ghost short: { bar ≤ 10 ^ 14 },
}
