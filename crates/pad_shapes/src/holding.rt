//! Which holes a shape covers, and the shapes that hold what they cover.

ghost use Rattle.std.specs.Prelude.{◌≡◌};
ghost use Rattle.pad_shapes.specs.Holding.{covers_hole, HoldsCoveredHoles};
ghost use Rattle.pad_shapes.specs.Inner.HoldingLaws.{disc_holds, rect_holds, obround_holds, pad_holds, rounded_holds};

use crate::{Disc, Obround, Pad, PadShape, PlacedRounded, Rect, Rounded};
use grid_units::{Hole, Rules};

/// A shape that holds each hole that it covers, at whatever angle the hole lies: each grid point that is no further than the
/// radius and the ring from the hole's centre line is a point of the shape.
pub trait SlotShape: PadShape {
    /// The shape holds the holes that it covers.
    ghost holds_holes: { HoldsCoveredHoles Self.points Self.covers };
}

impl SlotShape for Disc {
    ghost holds_holes = { disc_holds };
}

impl SlotShape for Rect {
    ghost holds_holes = { rect_holds };
}

impl SlotShape for Obround {
    ghost holds_holes = { obround_holds };
}

impl SlotShape for Pad {
    ghost holds_holes = { pad_holds };
}

impl SlotShape for Rounded {
    ghost holds_holes = { rounded_holds };
}

impl SlotShape for PlacedRounded {
    ghost holds_holes = { rounded_holds };
}

/// Whether a pad covers a hole with the ring of the rules: both of its ends with the hole's radius and the ring. The hole
/// may be round or a slot at any angle. The gap of the rules is not looked at.
pub fn covers_hole<S: PadShape>(pad: &S, hole: &Hole, rules: Rules) -> bool
    ensures { result ≡ covers_hole S.covers rules.ring hole.now pad.now }
{
    let reach = hole.radius() + rules.ring();
    pad.covers(hole.from(), reach) && pad.covers(hole.to(), reach)
}
