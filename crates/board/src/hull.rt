//! Hulls of shapes, which bound how deep a point lies in each of them.

ghost use Rattle.std.specs.Prelude.{◌≤◌};
ghost use Rattle.pad_shapes.specs.Shapes.{max_half_side};

use grid_units::Point;

/// A hull of shapes: a box and a box with round corners about one middle. What a shape covers with a reach lies at
/// least so deep in both, and no reach is more than the greatest depth. All lengths are in pm, at most five metres.
#[derive(Clone, Copy)]
pub struct Hull {
    /// The middle.
    pub centre: Point,
    /// Half of the side of the box along x.
    pub half_x: u64,
    /// Half of the side of the box along y.
    pub half_y: u64,
    /// The radius of the round corners.
    pub radius: u64,
    /// From the middle to the centres of the round corners, along x.
    pub axis_x: u64,
    /// From the middle to the centres of the round corners, along y.
    pub axis_y: u64,
    /// No point lies deeper in one of the shapes.
    pub depth: u64,
    ghost wide: { half_x ≤ max_half_side },
    ghost high: { half_y ≤ max_half_side },
    ghost round: { radius ≤ max_half_side },
}
