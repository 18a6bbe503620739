//! Rounded polygons: convex polygons, and all that lies within a radius of them.

ghost use Rattle.std.specs.Prelude.{◌≡◌, ℕ, pos, ◌<◌, ◌≤◌, ◌↔◌, false, IsSome, IfSome, MatchOption, unsigned_abs};
ghost use Rattle.std.specs.Int.{int_min, int_max};
ghost use Rattle.grid_units.specs.Points.{GridPoint};
ghost use Rattle.pad_shapes.specs.Shapes.{IsPadRadius, max_reach};
ghost use Rattle.pad_shapes.specs.Zones.{BoundsCentres, IsWithin};
ghost use Rattle.pad_shapes.specs.Rounded.{IsRounded, IsInRounded, IsGreatestReach, box_corner, rounded_covers, rounded_left, rounded_right};
ghost use Rattle.pad_shapes.specs.Inner.RoundedLaws.{rounded_contains_covered, rounded_contains_slots, rounded_between, rounded_extent};

use crate::polygon::{high_corner, is_deep_inside, is_near_rim, is_outline, low_corner};
use crate::relative::RelativePoint;
use crate::shape::{MAX_HALF_SIDE, PadShape};
use crate::zone::{Zone, are_apart};
use grid_units::Point;
use std::marker::Model;

/// The largest number of corners of a rounded polygon.
pub const MAX_CORNERS: usize = 256;

/// The largest reach of a call in pm: twenty metres.
pub(crate) const MAX_REACH: u64 = 20_000_000_000_000;

/// A rounded polygon: one to 256 corners, and a radius of 0 to 5,000,000,000,000 pm. It has all points within the radius
/// of its polygon. One corner makes a disc, two a line with round ends, and more go round a convex polygon
/// counterclockwise.
#[derive(Debug, Drop)]
pub struct Rounded {
    first: Point,
    others: Vec<Point>,
    radius: u64,
    // The box of the corners, so that no copy of the shape goes over them to find where it lies.
    low: Point,
    high: Point,
}

impl Model for Rounded {
    ghost use Rattle.std.specs.Prelude.{◌≡◌, ◌≤◌, ◌<◌, true, length};
    ghost use Rattle.std.specs.Int.{int_min, int_max};
    ghost use Rattle.pad_shapes.specs.Shapes.{max_half_side};
    ghost use Rattle.pad_shapes.specs.Rounded.{GridRounded, box_corner, max_corners, is_outline};

    ghost Value = { GridRounded };

    ghost view = { λ r. record { first = r.first; others = r.others.items; radius = r.radius } };

    ghost invariant = { λ r. (length r.others.items < max_corners) × (r.radius ≤ max_half_side) × (is_outline r.first r.others.items ≡ true) × (r.low ≡ box_corner int_min (record { first = r.first; others = r.others.items; radius = r.radius })) × (r.high ≡ box_corner int_max (record { first = r.first; others = r.others.items; radius = r.radius })) };
}

impl Rounded {
    /// The rounded polygon of these corners, the first one and the others in order, or `None` where there are more than
    /// [`MAX_CORNERS`], where they are neither a point nor a line nor a convex polygon counterclockwise, or where the
    /// radius in pm is out of range.
    pub fn new(first: Point, others: Vec<Point>, radius: i64) -> Option<Rounded>
        ensures valid { IsSome result ↔ IsRounded first others.items radius }
        ensures value { IfSome result (λ r. r ≡ record { first = first; others = others.items; radius = unsigned_abs radius }) }
    {
        let is_in_range = others.len() < MAX_CORNERS && 0 <= radius && radius <= MAX_HALF_SIDE;
        if is_in_range && is_outline(first, &others) {
            let low = low_corner(first, &others);
            let high = high_corner(first, &others);
            Some(Rounded {
                first,
                others,
                radius: radius.unsigned_abs(),
                low,
                high,
            })
        } else {
            None
        }
    }

    /// The first corner.
    pub fn first(&self) -> Point
        ensures { result ≡ self.now.first }
    {
        self.first
    }

    /// The other corners, in order.
    pub fn others(&self) -> &[Point]
        ensures value { result.now ≡ self.now.others }
        ensures in_range { IsRounded self.now.first self.now.others (pos self.now.radius) }
    {
        &self.others
    }

    /// The radius in pm.
    pub fn radius(&self) -> i64
        ensures value { result ≡ pos self.now.radius }
        ensures in_range { IsPadRadius result }
    {
        self.radius as i64
    }

    /// The box of all centres that are covered with this reach or a greater one: that of the corners, wider by the radius
    /// and narrower by the reach.
    pub(crate) fn centres(&self, reach: u64) -> Zone
        requires { reach ≤ max_reach }
        ensures bound { BoundsCentres rounded_covers self.now reach result }
        ensures in_range { IsWithin 40000000000000 result }
    {
        let inset = reach as i64 - self.radius as i64;
        Zone {
            left: self.low.x() + inset,
            right: self.high.x() - inset,
            bottom: self.low.y() + inset,
            top: self.high.y() - inset,
        }
    }

    /// Whether the shape covers a centre with this reach.
    pub(crate) fn covers_reach(&self, centre: RelativePoint, reach: u64) -> bool
        requires { reach ≤ max_reach }
        ensures { result ≡ rounded_covers self.now centre reach }
    {
        let depth = reach.saturating_sub(self.radius);
        if is_deep_inside(self.first, &self.others, depth, centre) {
            return true;
        }
        reach <= self.radius && is_near_rim(self.first, &self.others, self.radius - reach, centre)
    }

    /// The corner of the box of the corners that has the least x and the least y.
    pub(crate) fn low(&self) -> Point
        ensures { result ≡ box_corner int_min self.now }
    {
        self.low
    }

    /// The corner of the box of the corners that has the greatest x and the greatest y.
    pub(crate) fn high(&self) -> Point
        ensures { result ≡ box_corner int_max self.now }
    {
        self.high
    }

    /// Half the width of the shape in pm, at most 15,000,000,000,000 pm. It covers nothing with a greater reach.
    fn half_width(&self) -> u64
        ensures in_range { result ≤ 15000000000000 }
        ensures bound { (c : GridPoint) (reach : ℕ) → result < reach → rounded_covers self.now c reach ≡ false }
    {
        let width = self.high.x() - self.low.x();
        self.radius + width.unsigned_abs() / 2
    }

    /// The greatest reach in pm with which the shape covers a centre, at most 15,000,000,000,000 pm, or `None` where it
    /// does not cover the centre itself. It is found by halving: what is covered with one reach is covered with each lesser.
    pub(crate) fn reach_round(&self, centre: RelativePoint) -> Option<u64>
        ensures { MatchOption result (rounded_covers self.now centre 0 ≡ false) (IsGreatestReach self.now centre) }
    {
        if !self.covers_reach(centre, 0) {
            return None;
        }
        let mut covered = 0;
        let mut missed = self.half_width() + 1;
        while 1 < missed - covered {
            let middle = covered + (missed - covered) / 2;
            if self.covers_reach(centre, middle) {
                covered = middle;
            } else {
                missed = middle;
            }
        }
        Some(covered)
    }

    /// The greatest reach in pm with which the shape covers a centre, at most 15,000,000,000,000 pm, or `None` where it
    /// does not cover the centre itself.
    pub fn greatest_reach(&self, hole: Point) -> Option<u64>
        ensures { MatchOption result (rounded_covers self.now hole 0 ≡ false) (IsGreatestReach self.now hole) }
    {
        self.reach_round(RelativePoint::to_zero(hole))
    }
}

impl PadShape for Rounded {
    ghost points = { IsInRounded };

    ghost covers = { rounded_covers };

    ghost left = { rounded_left };

    ghost right = { rounded_right };

    ghost holds = { rounded_contains_covered };

    ghost holds_slots = { rounded_contains_slots };

    ghost between = { rounded_between };

    ghost extent = { rounded_extent };

    fn covers(&self, hole: Point, reach: i64) -> bool {
        self.covers_reach(RelativePoint::to_zero(hole), reach.unsigned_abs())
    }

    fn left(&self) -> i64 {
        self.low.x() - self.radius as i64
    }

    fn right(&self) -> i64 {
        self.high.x() + self.radius as i64
    }

    fn zone(&self, reach: u64) -> Option<Zone> {
        Some(self.centres(reach))
    }

    fn may_cover(&self, zone: &Zone, reach: u64) -> bool {
        if MAX_REACH < reach {
            return true;
        }
        let own = self.centres(reach);
        !are_apart(zone, &own)
    }
}
