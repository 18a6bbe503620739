//! The box of a board.

ghost use Rattle.std.specs.Prelude.{◌≤◌, ◌^◌, unsigned_abs};

/// The box of a board, which all panels of a picture share.
#[derive(Clone, Copy)]
pub struct Frame {
    /// The least x in pm.
    pub left: i64,
    /// The greatest y in pm, at most 100 m in absolute value.
    pub top: i64,
    /// The width in pm.
    pub width: i64,
    /// The height in pm.
    pub height: i64,
    ghost near: { unsigned_abs top ≤ 10 ^ 14 },
}

/// The unit, which sets the widths of lines and marks, and the required ring.
#[derive(Clone, Copy)]
pub struct Pen {
    /// The unit in pm, at most 10 m.
    pub unit: u64,
    /// The required ring in pm, at most 10 m; 0 without rules.
    pub ring: u64,
    /// Whether there are rules; without them there are no findings.
    pub has_rules: bool,
    ghost small: { unit ≤ 10 ^ 13 },
    ghost near: { ring ≤ 10 ^ 13 },
}

/// The file of a panel, and the place of the panel's origin on the page.
#[derive(Clone, Copy)]
pub struct Place<'a> {
    /// The number of the file in the package, from 1.
    pub file: usize,
    /// The name of the file, not escaped.
    pub name: &'a str,
    /// Whether it is the first panel of the page.
    pub first: bool,
    /// The distance of the origin from the left of the page, in pm.
    pub x: i64,
    /// The distance of the origin from the top of the page, in pm.
    pub y: i64,
}
