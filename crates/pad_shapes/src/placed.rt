//! Rounded polygons at a place on the board, in memory that several pads share.

ghost use Rattle.std.specs.Prelude.{◌≡◌, ◌≤◌, ◌^◌, ◌+ℤ◌, ℤ, true, false, not, IfOk, MatchOption, map, unsigned_abs};
ghost use Rattle.std.specs.List.{list_all};
ghost use Rattle.grid_units.specs.Points.{IsCoordinate};
ghost use Rattle.grid_units.specs.Numbers.{is_too_far};
ghost use Rattle.pad_shapes.specs.Shapes.{max_reach};
ghost use Rattle.pad_shapes.specs.Zones.{BoundsCentres, IsBoxOf, IsWithin};
ghost use Rattle.pad_shapes.specs.Rounded.{IsInRounded, IsGreatestReach, corners, rounded_covers, rounded_left, rounded_right};
ghost use Rattle.pad_shapes.specs.Placed.{is_near, moved_point, moved_shape, shape_at};
ghost use Rattle.pad_shapes.specs.Inner.RoundedLaws.{rounded_contains_covered, rounded_contains_slots, rounded_between, rounded_extent};

use crate::relative::RelativePoint;
use crate::rounded::{MAX_REACH, Rounded};
use crate::shape::PadShape;
use crate::shared::SharedRounded;
use crate::zone::{Zone, are_apart};
use grid_units::{Point, is_too_far};
use std::alloc::{AllocError, Global};
use std::marker::Model;

/// A rounded polygon at its place on the board. Several of them may have their shape in the same memory. Contracts see the
/// rounded polygon on the board, whose corners are at most 10 m from zero along each axis.
#[derive(Debug, Drop)]
pub struct PlacedRounded {
    x: i64,
    y: i64,
    shape: SharedRounded,
}

impl Model for PlacedRounded {
    ghost use Rattle.std.specs.Prelude.{◌≡◌, ◌≤◌, true, unsigned_abs};
    ghost use Rattle.std.specs.List.{list_all};
    ghost use Rattle.pad_shapes.specs.Rounded.{GridRounded, corners};
    ghost use Rattle.pad_shapes.specs.Placed.{is_near, moved_shape};

    ghost Value = { GridRounded };

    ghost view = { λ p. moved_shape (record { x = p.x; y = p.y }) p.shape };

    ghost invariant = { λ p. (unsigned_abs p.x ≤ 20000000000000) × (unsigned_abs p.y ≤ 20000000000000) × (list_all is_near (corners (moved_shape (record { x = p.x; y = p.y }) p.shape)) ≡ true) };
}

impl PlacedRounded {
    /// A shape moved by an offset in pm, in the same memory, or `None` where one of its corners would be more than 10 m from zero
    /// along an axis.
    ///
    /// # Errors
    ///
    /// An `AllocError` where the shape is shared too often.
    pub fn new(shape: &SharedRounded, x: i128, y: i128) -> Result<Option<PlacedRounded>, AllocError>
        requires x { unsigned_abs x ≤ 2 ^ 104 }
        requires y { unsigned_abs y ≤ 2 ^ 104 }
        ensures { IfOk result (λ placed. placed ≡ shape_at shape.now (record { x = x; y = y })) }
    {
        let corners = shape.get();
        if !lies_near(corners, x, y) {
            return Ok(None);
        }
        let first = corners.first();
        let x = narrowed(x, first.x());
        let y = narrowed(y, first.y());
        Ok(Some(placed_at(x, y, shape.share()?)))
    }

    /// The rounded polygon on the board, in memory of its own.
    ///
    /// # Errors
    ///
    /// An `AllocError` where there is no memory for it.
    pub fn on_board(&self, alloc: Global) -> Result<Rounded, AllocError>
        ensures { IfOk result (λ rounded. rounded ≡ self.now) }
    {
        moved_shape(alloc, self.x, self.y, self.shape.get())
    }

    /// The first corner.
    pub fn first(&self) -> Point
        ensures { result ≡ self.now.first }
    {
        first_at(self.x, self.y, self.shape.get())
    }

    /// The least box along the axes that holds its points: each side is at most 15,000,000,000,000 pm from zero.
    pub fn bounds(&self) -> Zone
        ensures is { IsBoxOf self.now result }
        ensures in_range { IsWithin 15000000000000 result }
    {
        bounds_at(self.x, self.y, self.shape.get())
    }

    /// The greatest reach in pm with which the shape covers a centre, at most 15,000,000,000,000 pm, or `None` where it
    /// does not cover the centre itself.
    pub fn greatest_reach(&self, hole: Point) -> Option<u64>
        ensures { MatchOption result (rounded_covers self.now hole 0 ≡ false) (IsGreatestReach self.now hole) }
    {
        greatest_reach_at(self.x, self.y, self.shape.get(), hole)
    }

    /// The box of all centres that are covered with this reach or a greater one.
    fn centres(&self, reach: u64) -> Zone
        requires { reach ≤ max_reach }
        ensures { BoundsCentres rounded_covers self.now reach result }
    {
        centres_at(self.x, self.y, self.shape.get(), reach)
    }
}

impl PadShape for PlacedRounded {
    ghost points = { IsInRounded };

    ghost covers = { rounded_covers };

    ghost left = { rounded_left };

    ghost right = { rounded_right };

    ghost holds = { rounded_contains_covered };

    ghost holds_slots = { rounded_contains_slots };

    ghost between = { rounded_between };

    ghost extent = { rounded_extent };

    fn covers(&self, hole: Point, reach: i64) -> bool {
        covers_at(self.x, self.y, self.shape.get(), hole, reach.unsigned_abs())
    }

    fn left(&self) -> i64 {
        left_at(self.x, self.shape.get())
    }

    fn right(&self) -> i64 {
        right_at(self.x, self.shape.get())
    }

    fn zone(&self, reach: u64) -> Option<Zone> {
        Some(self.centres(reach))
    }

    fn may_cover(&self, zone: &Zone, reach: u64) -> bool {
        if MAX_REACH < reach {
            return true;
        }
        let own = self.centres(reach);
        !are_apart(zone, &own)
    }
}

/// A shape moved by an offset, where each of its corners is then at most 10 m from zero along each axis.
fn moved_shape(alloc: Global, x: i64, y: i64, shape: &Rounded) -> Result<Rounded, AllocError>
    requires { list_all is_near (corners (moved_shape (record { x = x; y = y }) shape.now)) ≡ true }
    ensures { IfOk result (λ moved. moved ≡ moved_shape (record { x = x; y = y }) shape.now) }
{
    let others = moved_points(alloc, x, y, shape.others())?;
    let first = moved_point(x, y, shape.first());
    Ok(Rounded::new(first, others, shape.radius()).unwrap())
}

/// A coordinate moved by an offset, where it is then at most 10 m in absolute value.
fn moved(offset: i64, n: i64) -> i64
    requires { IsCoordinate (offset +ℤ n) }
    ensures { result ≡ offset +ℤ n }
{
    (i128::from(offset) + i128::from(n)) as i64
}

/// A point moved by an offset, where it is then at most 10 m from zero along each axis.
fn moved_point(x: i64, y: i64, p: Point) -> Point
    requires x { IsCoordinate (x +ℤ p.x) }
    requires y { IsCoordinate (y +ℤ p.y) }
    ensures { result ≡ moved_point (record { x = x; y = y }) p }
{
    Point::new(moved(x, p.x()), moved(y, p.y())).unwrap()
}

/// Points moved by an offset.
fn moved_points(alloc: Global, x: i64, y: i64, points: &[Point]) -> Result<Vec<Point>, AllocError>
    requires { list_all is_near (map (moved_point (record { x = x; y = y })) points.now) ≡ true }
    ensures { IfOk result (λ found. found.items ≡ map (moved_point (record { x = x; y = y })) points.now) }
{
    let mut found = Vec::new(alloc);
    for point in points {
        found.push(moved_point(x, y, *point))?;
    }
    Ok(found)
}

/// Whether a coordinate moved by an offset is at most 10 m in absolute value.
fn is_near_sum(offset: i128, n: i64) -> bool
    requires { unsigned_abs offset ≤ 2 ^ 104 }
    ensures { result ≡ not (is_too_far (offset +ℤ n)) }
{
    !is_too_far(offset + i128::from(n))
}

/// Whether a point moved by an offset is at most 10 m from zero along each axis.
fn stays_near(x: i128, y: i128, p: Point) -> bool
    requires x { unsigned_abs x ≤ 2 ^ 104 }
    requires y { unsigned_abs y ≤ 2 ^ 104 }
    ensures { result ≡ is_near (moved_point (record { x = x; y = y }) p) }
{
    is_near_sum(x, p.x()) && is_near_sum(y, p.y())
}

/// Whether each corner of a shape moved by an offset is at most 10 m from zero along each axis: both corners of their box are.
fn lies_near(shape: &Rounded, x: i128, y: i128) -> bool
    requires x { unsigned_abs x ≤ 2 ^ 104 }
    requires y { unsigned_abs y ≤ 2 ^ 104 }
    ensures { result ≡ list_all is_near (corners (moved_shape (record { x = x; y = y }) shape.now)) }
{
    stays_near(x, y, shape.low()) && stays_near(x, y, shape.high())
}

/// An offset that moves one coordinate to another.
fn narrowed(offset: i128, n: i64) -> i64
    requires from { IsCoordinate n }
    requires to { IsCoordinate (offset +ℤ n) }
    ensures value { result ≡ offset }
    ensures small { unsigned_abs result ≤ 20000000000000 }
{
    offset as i64
}

/// A shape moved by an offset.
fn placed_at(x: i64, y: i64, shape: SharedRounded) -> PlacedRounded
    requires x { unsigned_abs x ≤ 20000000000000 }
    requires y { unsigned_abs y ≤ 20000000000000 }
    requires near { list_all is_near (corners (moved_shape (record { x = x; y = y }) shape)) ≡ true }
    ensures { result ≡ moved_shape (record { x = x; y = y }) shape }
{
    PlacedRounded { x, y, shape }
}

/// The first corner of a shape moved by an offset.
fn first_at(x: i64, y: i64, shape: &Rounded) -> Point
    requires { list_all is_near (corners (moved_shape (record { x = x; y = y }) shape.now)) ≡ true }
    ensures { result ≡ moved_point (record { x = x; y = y }) shape.now.first }
{
    moved_point(x, y, shape.first())
}

/// Whether a shape moved by an offset covers a centre with this reach.
fn covers_at(x: i64, y: i64, shape: &Rounded, hole: Point, reach: u64) -> bool
    requires x { unsigned_abs x ≤ 20000000000000 }
    requires y { unsigned_abs y ≤ 20000000000000 }
    requires reach { reach ≤ max_reach }
    ensures { result ≡ rounded_covers (moved_shape (record { x = x; y = y }) shape.now) hole reach }
{
    shape.covers_reach(RelativePoint::to(hole, x, y), reach)
}

/// The greatest reach with which a shape moved by an offset covers a centre.
fn greatest_reach_at(x: i64, y: i64, shape: &Rounded, hole: Point) -> Option<u64>
    requires x { unsigned_abs x ≤ 20000000000000 }
    requires y { unsigned_abs y ≤ 20000000000000 }
    ensures { MatchOption result (rounded_covers (moved_shape (record { x = x; y = y }) shape.now) hole 0 ≡ false) (IsGreatestReach (moved_shape (record { x = x; y = y }) shape.now) hole) }
{
    shape.reach_round(RelativePoint::to(hole, x, y))
}

/// The least x of a shape moved by an offset.
fn left_at(x: i64, shape: &Rounded) -> i64
    requires { unsigned_abs x ≤ 20000000000000 }
    ensures { (y : ℤ) → result ≡ rounded_left (moved_shape (record { x = x; y = y }) shape.now) }
{
    x + shape.low().x() - shape.radius()
}

/// The greatest x of a shape moved by an offset.
fn right_at(x: i64, shape: &Rounded) -> i64
    requires { unsigned_abs x ≤ 20000000000000 }
    ensures { (y : ℤ) → result ≡ rounded_right (moved_shape (record { x = x; y = y }) shape.now) }
{
    x + shape.high().x() + shape.radius()
}

/// The least box along the axes that holds the points of a shape moved by an offset.
fn bounds_at(x: i64, y: i64, shape: &Rounded) -> Zone
    requires x { unsigned_abs x ≤ 20000000000000 }
    requires y { unsigned_abs y ≤ 20000000000000 }
    requires near { list_all is_near (corners (moved_shape (record { x = x; y = y }) shape.now)) ≡ true }
    ensures is { IsBoxOf (moved_shape (record { x = x; y = y }) shape.now) result }
    ensures in_range { IsWithin 15000000000000 result }
{
    let radius = shape.radius();
    let (low, high) = (shape.low(), shape.high());
    Zone {
        left: x + low.x() - radius,
        right: x + high.x() + radius,
        bottom: y + low.y() - radius,
        top: y + high.y() + radius,
    }
}

/// The box of all centres that a shape moved by an offset covers with this reach or a greater one.
fn centres_at(x: i64, y: i64, shape: &Rounded, reach: u64) -> Zone
    requires x { unsigned_abs x ≤ 20000000000000 }
    requires y { unsigned_abs y ≤ 20000000000000 }
    requires reach { reach ≤ max_reach }
    ensures { BoundsCentres rounded_covers (moved_shape (record { x = x; y = y }) shape.now) reach result }
{
    let own = shape.centres(reach);
    Zone {
        left: x + own.left,
        right: x + own.right,
        bottom: y + own.bottom,
        top: y + own.top,
    }
}
