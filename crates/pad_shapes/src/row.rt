//! The flashes and contours of a layer as they are listed: without their pads.

ghost use Rattle.std.specs.Prelude.{◌≡◌};
ghost use Rattle.pad_shapes.specs.Rows.{is_pad_row};

use grid_units::Point;

/// Why a flash is no pad. Where several reasons apply, the first in this order is given.
#[derive(Clone, Copy, Debug, PartialEq, Eq)]
pub enum Why {
    /// Its aperture is made by a macro (`%AM..*%`).
    Macro,
    /// Its aperture is a regular polygon (`P`).
    Polygon,
    /// Its aperture has a hole, as that of `%ADD10C,0.5X0.2*%` has.
    Holed,
    /// It is scaled by other than 1 (`%LS..*%`).
    Scaled,
    /// It is turned by no multiple of 90 degrees (`%LR..*%`).
    Turned,
}

/// What a flash or a contour is, without its pad.
#[derive(Clone, Copy)]
pub enum RowKind {
    /// A flash that is a pad.
    Pad,
    /// A contour that is a pad.
    Contour,
    /// A flash that is no pad, and why.
    Other(Why),
    /// A flash in clear polarity.
    Clear,
    /// A flash that clear polarity takes away.
    Cleared,
}

/// A flash at its point, or a contour at its first corner, without its pad: so it is listed. The pads of a layer are those of its rows that
/// are pads, in the same order.
#[derive(Clone, Copy)]
pub struct FeatureRow {
    pub at: Point,
    pub what: RowKind,
}

impl RowKind {
    /// Whether it is a pad: a flash or a contour.
    pub fn is_pad(self) -> bool
        ensures { result ≡ is_pad_row self }
    {
        matches!(self, RowKind::Pad | RowKind::Contour)
    }
}
