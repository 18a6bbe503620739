//! Obround pads: pads with two round ends.

ghost use Rattle.std.specs.Prelude.{◌≡◌, pos, ◌≤◌, ◌+ℤ◌, ◌-ℤ◌, ◌↔◌, IsSome, IfSome, unsigned_abs};
ghost use Rattle.pad_shapes.specs.Shapes.{IsHalfSide, IsInObround, end_radius, square_axis_distance, obround_covers, max_half_side};
ghost use Rattle.pad_shapes.specs.Inner.ShapeLaws.{obround_contains_covered, obround_contains_slots, obround_between, obround_extent};

use crate::shape::{PadShape, is_half_side};
use crate::zone::{Zone, distance_x, distance_y, inset_zone, is_step_within};
use grid_units::{Point, square, square_length};
use std::marker::Model;

/// An obround: a rectangle along the axes with half circles for its two shorter sides. It has a centre and half of
/// each side; each half is 1 to 5,000,000,000,000 pm.
#[derive(Clone, Copy, Debug, PartialEq, Eq)]
pub struct Obround {
    centre: Point,
    half_x: u64,
    half_y: u64,
}

impl Model for Obround {
    ghost use Rattle.std.specs.Prelude.{◌≤◌};
    ghost use Rattle.pad_shapes.specs.Shapes.{GridObround, max_half_side};

    ghost Value = { GridObround };

    ghost view = { λ o. record { centre = o.centre; half_x = o.half_x; half_y = o.half_y } };

    ghost invariant = { λ o. ((1 ≤ o.half_x) × (o.half_x ≤ max_half_side)) × ((1 ≤ o.half_y) × (o.half_y ≤ max_half_side)) };

    ghost inverse = { λ o. record { centre = o.centre; half_x = o.half_x; half_y = o.half_y } };
}

impl Obround {
    /// The obround round this centre, or `None` where half of a side, in pm, is out of range.
    pub fn new(centre: Point, half_x: i64, half_y: i64) -> Option<Obround>
        ensures valid { IsSome result ↔ (IsHalfSide half_x × IsHalfSide half_y) }
        ensures value { IfSome result (λ o. o ≡ record { centre = centre; half_x = unsigned_abs half_x; half_y = unsigned_abs half_y }) }
    {
        if is_half_side(half_x) && is_half_side(half_y) {
            Some(Obround {
                centre,
                half_x: half_x.unsigned_abs(),
                half_y: half_y.unsigned_abs(),
            })
        } else {
            None
        }
    }

    /// The centre of the obround.
    pub fn centre(&self) -> Point
        ensures { result ≡ self.now.centre }
    {
        self.centre
    }

    /// Half of the side along x, in pm.
    pub fn half_x(&self) -> i64
        ensures value { result ≡ pos self.now.half_x }
        ensures in_range { IsHalfSide result }
    {
        self.half_x as i64
    }

    /// Half of the side along y, in pm.
    pub fn half_y(&self) -> i64
        ensures value { result ≡ pos self.now.half_y }
        ensures in_range { IsHalfSide result }
    {
        self.half_y as i64
    }

    /// The radius of the round ends, in pm: half of the shorter side.
    fn end_radius(&self) -> u64
        ensures value { result ≡ end_radius self.now }
        ensures in_range { result ≤ max_half_side }
    {
        self.half_x.min(self.half_y)
    }

    /// The square of a point's distance from the line between the centres of the round ends.
    fn square_axis_distance(&self, point: Point) -> i128
        ensures { result ≡ pos (square_axis_distance self.now point) }
    {
        let radius = self.end_radius();
        let dx = point.x().abs_diff(self.centre.x());
        let dy = point.y().abs_diff(self.centre.y());
        let past_x = dx.saturating_sub(self.half_x - radius);
        let past_y = dy.saturating_sub(self.half_y - radius);
        square_length(past_x, past_y)
    }
}

impl PadShape for Obround {
    ghost points = { IsInObround };

    ghost covers = { obround_covers };

    ghost left = { λ o. o.centre.x -ℤ pos o.half_x };

    ghost right = { λ o. o.centre.x +ℤ pos o.half_x };

    ghost holds = { obround_contains_covered };

    ghost holds_slots = { obround_contains_slots };

    ghost between = { obround_between };

    ghost extent = { obround_extent };

    fn covers(&self, hole: Point, reach: i64) -> bool {
        let reach = reach.unsigned_abs();
        let radius = self.end_radius();
        reach <= radius && self.square_axis_distance(hole) <= square(radius - reach)
    }

    fn left(&self) -> i64 {
        self.centre.x() - self.half_x as i64
    }

    fn right(&self) -> i64 {
        self.centre.x() + self.half_x as i64
    }

    fn zone(&self, reach: u64) -> Option<Zone> {
        Some(inset_zone(self.centre, self.half_x, self.half_y, reach))
    }

    fn may_cover(&self, zone: &Zone, reach: u64) -> bool {
        let radius = self.end_radius();
        if radius < reach {
            return false;
        }
        let dx = distance_x(zone, self.centre);
        let dy = distance_y(zone, self.centre);
        let past_x = dx.saturating_sub(self.half_x - radius);
        let past_y = dy.saturating_sub(self.half_y - radius);
        is_step_within(past_x, past_y, radius - reach)
    }
}
