//! Laws of holes at any angle. Calling a law does nothing but give its clause.

ghost use Rattle.pad_shapes.specs.Pads.{IsInPad, pad_covers};
ghost use Rattle.pad_shapes.specs.Rounded.{IsInRounded, rounded_covers};
ghost use Rattle.pad_shapes.specs.Shapes.{IsInDisc, IsInRect, IsInObround, disc_covers, rect_covers, obround_covers};
ghost use Rattle.pad_shapes.specs.Holding.{HoldsCoveredHoles};
ghost use Rattle.pad_shapes.specs.HoleLaws.{CoversRoundHoles, HoldsRoundHoles, CoversSlotsAlongAxes, HoldsSlotsAlongAxes, CentreLineIsSlot};

use crate::PadShape;
use crate::holding::SlotShape;

/// A shape of any kind holds each hole that it covers, at whatever angle the hole lies.
pub fn covered_holes_are_held<S: SlotShape>()
    ensures { HoldsCoveredHoles S.points S.covers }
{}

/// So does a disc, a rectangle, an obround and a rounded polygon, by the sets and the tests of their definitions.
pub fn shapes_hold_covered_holes()
    ensures discs { HoldsCoveredHoles IsInDisc disc_covers }
    ensures rectangles { HoldsCoveredHoles IsInRect rect_covers }
    ensures obrounds { HoldsCoveredHoles IsInObround obround_covers }
    ensures rounded { HoldsCoveredHoles IsInRounded rounded_covers }
{}

/// A round hole is covered where `covers` says so of its centre, and held where the points round its centre are.
pub fn round_holes_are_as_centres<S: PadShape>()
    ensures covers { CoversRoundHoles S.covers }
    ensures holds { HoldsRoundHoles S.points }
{}

/// A slot along an axis is covered where `covers_slot` says so, and held where the points round its core are.
pub fn slots_along_axes_are_as_cores<S: PadShape>()
    ensures covers { CoversSlotsAlongAxes S.covers }
    ensures holds { HoldsSlotsAlongAxes S.points }
{}

/// The points near the centre line of a hole are those near some mean of its ends.
pub fn centre_line_is_slot()
    ensures { CentreLineIsSlot }
{}
