//! What a layer draws beside its pads.

use crate::shared::SharedRounded;
use grid_units::Point;

/// A part of what a layer draws with `D01`, or a flash of a macro. Points and widths are in pm.
#[derive(Drop)]
pub enum Drawn {
    /// A straight line with round ends, drawn by a round aperture.
    Line {
        /// Where it begins.
        from: Point,
        /// Where it ends.
        to: Point,
        /// Its width: the diameter of the aperture, at most 10 m.
        width: i64,
    },
    /// An arc with round ends, drawn by a round aperture. Where both ends are one point it is a full circle.
    Arc {
        /// Where it begins.
        from: Point,
        /// Where it ends.
        to: Point,
        /// Its centre. The file may set it at distances from the two ends that differ.
        centre: Point,
        /// Its width: the diameter of the aperture, at most 10 m.
        width: i64,
        /// Whether it goes clockwise, with y upwards.
        clockwise: bool,
    },
    /// A flash of a macro.
    Flash {
        /// Its point.
        at: Point,
        /// The shape of the macro about that point, which is (0, 0) for the shape.
        shape: SharedRounded,
    },
    /// The first corner of a contour of a region.
    Contour(Point),
    /// The next corner of the contour, to which it goes straight; also the end of an arc that is drawn as its chord.
    Corner(Point),
    /// The next part of the contour, an arc. Where both ends are one point it is a full circle.
    Bend {
        /// Where it begins: the corner before it.
        from: Point,
        /// Where it ends.
        to: Point,
        /// Its centre. The file may set it at distances from the two ends that differ.
        centre: Point,
        /// Whether it goes clockwise, with y upwards.
        clockwise: bool,
    },
}
