//! Boxes that hold the points of some flashes.

ghost use Rattle.std.specs.Prelude.{◌≡◌, ◌⊎◌, ◌<◌, true, false, length};
ghost use Rattle.std.specs.Int.{int_max, int_min};
ghost use Rattle.grid_units.specs.Points.{IsCoordinate};
ghost use Rattle.pad_shapes.specs.Rounded.{is_outline};
ghost use Rattle.pad_shapes.specs.Zones.{IsInZone};
ghost use Rattle.report.specs.Causes.{IsBounds, IsWithin, is_in_shape};
ghost use Rattle.report.specs.declared.other.Other.{Other as TheOther};

use crate::other::{Other, earlier_flash};
use grid_units::Point;
use pad_shapes::{PadShape, Rounded, Zone};

/// A box that holds the points of some flashes, with the earliest of these on the layer.
#[derive(Clone, Copy)]
pub(crate) struct Bounds {
    /// The least coordinates, in pm.
    least: Point,
    /// The greatest coordinates, in pm.
    greatest: Point,
    /// The earliest flash on the layer.
    pub(crate) first: Other,
}

/// The lesser of two coordinates.
fn least_of(a: i64, b: i64) -> i64
    requires a { IsCoordinate a }
    requires b { IsCoordinate b }
    ensures value { result ≡ int_min a b }
    ensures in_range { IsCoordinate result }
{
    a.min(b)
}

/// The greater of two coordinates.
fn greatest_of(a: i64, b: i64) -> i64
    requires a { IsCoordinate a }
    requires b { IsCoordinate b }
    ensures value { result ≡ int_max a b }
    ensures in_range { IsCoordinate result }
{
    a.max(b)
}

/// The lower left corner of the box of two points.
fn lesser_corner(a: Point, b: Point) -> Point
    ensures x { result.x ≡ int_min a.x b.x }
    ensures y { result.y ≡ int_min a.y b.y }
{
    Point::new(least_of(a.x(), b.x()), least_of(a.y(), b.y())).unwrap()
}

/// The upper right corner of the box of two points.
fn greater_corner(a: Point, b: Point) -> Point
    ensures x { result.x ≡ int_max a.x b.x }
    ensures y { result.y ≡ int_max a.y b.y }
{
    Point::new(greatest_of(a.x(), b.x()), greatest_of(a.y(), b.y())).unwrap()
}

/// The point at the x of one point and the y of another.
fn corner(across: Point, up: Point) -> Point
    ensures { result ≡ record { x = across.x; y = up.y } }
{
    Point::new(across.x(), up.y()).unwrap()
}

impl Bounds {
    /// The box of one flash.
    fn at(other: Other) -> Bounds
        ensures within { IsWithin result other }
        ensures first { result.first ≡ other }
    {
        Bounds {
            least: other.at,
            greatest: other.at,
            first: other,
        }
    }

    /// The box that also holds one more flash.
    fn with(self, other: Other) -> Bounds
        ensures within { IsWithin result other }
        ensures keeps { (held : TheOther) → IsWithin self held → IsWithin result held }
        ensures first { (result.first ≡ self.first) ⊎ (result.first ≡ other) }
    {
        Bounds {
            least: lesser_corner(self.least, other.at),
            greatest: greater_corner(self.greatest, other.at),
            first: earlier_flash(Some(self.first), other),
        }
    }

    /// The box of some flashes, at least one.
    pub(crate) fn of(others: &[Other]) -> Bounds
        requires { 0 < length others.now }
        ensures { IsBounds others.now result }
    {
        let mut bounds = Bounds::at(others[0]);
        for other in others {
            bounds = bounds.with(*other);
        }
        bounds
    }

    /// The box as a zone.
    fn zone(&self) -> Zone
        ensures { (held : TheOther) → IsWithin self.now held → IsInZone result held.at }
    {
        Zone {
            left: self.least.x(),
            right: self.greatest.x(),
            bottom: self.least.y(),
            top: self.greatest.y(),
        }
    }

    /// Whether the box meets that of a hole. Where it does not, no point of it is in the hole.
    pub(crate) fn may_touch(&self, hole: &Rounded) -> bool
        ensures { result ≡ false → (held : TheOther) → IsWithin self.now held → is_in_shape hole.now held.at ≡ false }
    {
        hole.may_cover(&self.zone(), 0)
    }

    /// Whether all corners of the box lie in a hole, so that each point of it does: the points of a hole are convex.
    pub(crate) fn is_inside(&self, hole: &Rounded) -> bool
        requires { is_outline hole.now.first hole.now.others ≡ true }
        ensures { result ≡ true → (held : TheOther) → IsWithin self.now held → is_in_shape hole.now held.at ≡ true }
    {
        let (least, greatest) = (self.least, self.greatest);
        hole.covers_slot(least, corner(greatest, least), 0)
            && hole.covers_slot(corner(least, greatest), greatest, 0)
    }
}
