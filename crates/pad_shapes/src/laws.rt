//! Laws of the shapes. Calling a law does nothing but give its clause.

ghost use Rattle.pad_shapes.specs.Shapes.{ContainsCovered, ContainsCoveredSlots, CoveredIsBetween, HasExtent, RectIsTight, ObroundIsRectangleAndDiscs};
ghost use Rattle.pad_shapes.specs.Rounded.{HoldsObliqueSlots, OneCornerIsDisc, OneCornerCovers, GreaterRadiusHolds, CoversLess, PolygonIsLeftOfEdges, PointsAreCovered};

use crate::shape::PadShape;

/// A shape holds each point within the reach of what it covers, slots along an axis too. A covered centre lies between its
/// least and its greatest x, which are those of its points.
pub fn shape_laws<S: PadShape>()
    ensures holds { ContainsCovered S.points S.covers }
    ensures slots { ContainsCoveredSlots S.points S.covers }
    ensures between { CoveredIsBetween S.covers S.left S.right }
    ensures extent { HasExtent S.points S.left S.right }
{}

/// Where a rectangle does not cover a centre, it misses a point within the reach.
pub fn rect_is_tight()
    ensures { RectIsTight }
{}

/// An obround is a rectangle with half circles for its shorter sides: its points are those of the rectangle in the middle and of
/// the discs round the two ends of its axis.
pub fn obround_points()
    ensures { ObroundIsRectangleAndDiscs }
{}

/// Where a rounded polygon covers both ends of a slot at any angle, it holds each point of the slot.
pub fn rounded_holds_oblique_slots()
    ensures { HoldsObliqueSlots }
{}

/// A rounded polygon of one corner is a disc, by its points and by what it covers.
pub fn one_corner_is_disc()
    ensures points { OneCornerIsDisc }
    ensures covers { OneCornerCovers }
{}

/// Round the same corners a greater radius holds no less.
pub fn greater_radius_holds()
    ensures { GreaterRadiusHolds }
{}

/// A rounded polygon that covers a centre with one reach covers it with each lesser one.
pub fn rounded_covers_less()
    ensures { CoversLess }
{}

/// The points of a convex polygon are those that lie to the right of no edge.
pub fn polygon_is_left_of_edges()
    ensures { PolygonIsLeftOfEdges }
{}

/// The points of a rounded polygon are those that it covers with the reach 0: each of them lies in the polygon, or no further
/// than the radius from a corner, or beside an edge.
pub fn points_are_covered()
    ensures { PointsAreCovered }
{}
