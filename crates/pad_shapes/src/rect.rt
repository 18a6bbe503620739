//! Rectangular pads.

ghost use Rattle.std.specs.Prelude.{◌≡◌, pos, ◌+ℤ◌, ◌-ℤ◌, ◌↔◌, IsSome, IfSome, unsigned_abs};
ghost use Rattle.pad_shapes.specs.Shapes.{IsHalfSide, IsInRect, rect_covers};
ghost use Rattle.pad_shapes.specs.Inner.ShapeLaws.{rect_contains_covered, rect_contains_slots, rect_between, rect_extent};

use crate::shape::{PadShape, is_half_side};
use crate::zone::{Zone, distance_x, distance_y, inset_zone};
use grid_units::Point;
use std::marker::Model;

/// A rectangle along the axes: its centre, and half of each side. Each half is 1 to 5,000,000,000,000 pm.
#[derive(Clone, Copy, Debug, PartialEq, Eq)]
pub struct Rect {
    centre: Point,
    half_x: u64,
    half_y: u64,
}

impl Model for Rect {
    ghost use Rattle.std.specs.Prelude.{◌≤◌};
    ghost use Rattle.pad_shapes.specs.Shapes.{GridRect, max_half_side};

    ghost Value = { GridRect };

    ghost view = { λ r. record { centre = r.centre; half_x = r.half_x; half_y = r.half_y } };

    ghost invariant = { λ r. ((1 ≤ r.half_x) × (r.half_x ≤ max_half_side)) × ((1 ≤ r.half_y) × (r.half_y ≤ max_half_side)) };

    ghost inverse = { λ r. record { centre = r.centre; half_x = r.half_x; half_y = r.half_y } };
}

impl Rect {
    /// The rectangle round this centre, or `None` where half of a side, in pm, is out of range.
    pub fn new(centre: Point, half_x: i64, half_y: i64) -> Option<Rect>
        ensures valid { IsSome result ↔ (IsHalfSide half_x × IsHalfSide half_y) }
        ensures value { IfSome result (λ r. r ≡ record { centre = centre; half_x = unsigned_abs half_x; half_y = unsigned_abs half_y }) }
    {
        if is_half_side(half_x) && is_half_side(half_y) {
            Some(Rect {
                centre,
                half_x: half_x.unsigned_abs(),
                half_y: half_y.unsigned_abs(),
            })
        } else {
            None
        }
    }

    /// The centre of the rectangle.
    pub fn centre(&self) -> Point
        ensures { result ≡ self.now.centre }
    {
        self.centre
    }

    /// Half of the side along x, in pm.
    pub fn half_x(&self) -> i64
        ensures value { result ≡ pos self.now.half_x }
        ensures in_range { IsHalfSide result }
    {
        self.half_x as i64
    }

    /// Half of the side along y, in pm.
    pub fn half_y(&self) -> i64
        ensures value { result ≡ pos self.now.half_y }
        ensures in_range { IsHalfSide result }
    {
        self.half_y as i64
    }
}

impl PadShape for Rect {
    ghost points = { IsInRect };

    ghost covers = { rect_covers };

    ghost left = { λ r. r.centre.x -ℤ pos r.half_x };

    ghost right = { λ r. r.centre.x +ℤ pos r.half_x };

    ghost holds = { rect_contains_covered };

    ghost holds_slots = { rect_contains_slots };

    ghost between = { rect_between };

    ghost extent = { rect_extent };

    fn covers(&self, hole: Point, reach: i64) -> bool {
        let reach = reach.unsigned_abs();
        let dx = hole.x().abs_diff(self.centre.x());
        let dy = hole.y().abs_diff(self.centre.y());
        dx + reach <= self.half_x && dy + reach <= self.half_y
    }

    fn left(&self) -> i64 {
        self.centre.x() - self.half_x as i64
    }

    fn right(&self) -> i64 {
        self.centre.x() + self.half_x as i64
    }

    fn zone(&self, reach: u64) -> Option<Zone> {
        Some(inset_zone(self.centre, self.half_x, self.half_y, reach))
    }

    fn may_cover(&self, zone: &Zone, reach: u64) -> bool {
        if self.half_x < reach || self.half_y < reach {
            return false;
        }
        let dx = distance_x(zone, self.centre);
        let dy = distance_y(zone, self.centre);
        dx <= self.half_x - reach && dy <= self.half_y - reach
    }
}
