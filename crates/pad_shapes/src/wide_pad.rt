//! Pads of a wider profile.

ghost use Rattle.std.specs.Prelude.{◌≡◌};
ghost use Rattle.pad_shapes.specs.WidePads.{IsInWidePad, wide_pad_covers, wide_pad_left, wide_pad_right};
ghost use Rattle.pad_shapes.specs.Inner.WidePadLaws.{wide_pad_contains_covered, wide_pad_contains_slots, wide_pad_between, wide_pad_extent, wide_pad_holds};

use crate::holding::SlotShape;
use crate::{Pad, PadShape, PlacedRounded, Zone};
use grid_units::Point;

/// A pad of the wide profile.
#[derive(Debug, Drop)]
pub enum WidePad {
    /// A disc, a rectangle or an obround, as the strict profile judges them.
    Plain(Pad),
    /// A rounded polygon, such as the flash of a macro.
    Rounded(PlacedRounded),
}

impl PadShape for WidePad {
    ghost points = { IsInWidePad };

    ghost covers = { wide_pad_covers };

    ghost left = { wide_pad_left };

    ghost right = { wide_pad_right };

    ghost holds = { wide_pad_contains_covered };

    ghost holds_slots = { wide_pad_contains_slots };

    ghost between = { wide_pad_between };

    ghost extent = { wide_pad_extent };

    fn covers(&self, hole: Point, reach: i64) -> bool {
        match self {
            WidePad::Plain(pad) => pad.covers(hole, reach),
            WidePad::Rounded(rounded) => rounded.covers(hole, reach),
        }
    }

    fn left(&self) -> i64 {
        match self {
            WidePad::Plain(pad) => pad.left(),
            WidePad::Rounded(rounded) => rounded.left(),
        }
    }

    fn right(&self) -> i64 {
        match self {
            WidePad::Plain(pad) => pad.right(),
            WidePad::Rounded(rounded) => rounded.right(),
        }
    }

    fn zone(&self, reach: u64) -> Option<Zone> {
        match self {
            WidePad::Plain(pad) => pad.zone(reach),
            WidePad::Rounded(rounded) => rounded.zone(reach),
        }
    }

    fn may_cover(&self, zone: &Zone, reach: u64) -> bool {
        match self {
            WidePad::Plain(pad) => pad.may_cover(zone, reach),
            WidePad::Rounded(rounded) => rounded.may_cover(zone, reach),
        }
    }
}

impl SlotShape for WidePad {
    ghost holds_holes = { wide_pad_holds };
}
