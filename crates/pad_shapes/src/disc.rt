//! Round pads.

ghost use Rattle.std.specs.Prelude.{◌≡◌, pos, ◌+ℤ◌, ◌-ℤ◌, ◌↔◌, IsSome, IfSome, unsigned_abs};
ghost use Rattle.pad_shapes.specs.Shapes.{IsPadRadius, IsInDisc, disc_covers};
ghost use Rattle.pad_shapes.specs.Inner.ShapeLaws.{disc_contains_covered, disc_contains_slots, disc_between, disc_extent};

use crate::shape::{MAX_HALF_SIDE, PadShape};
use crate::zone::{Zone, distance_x, distance_y, inset_zone, is_step_within};
use grid_units::{Point, square, square_distance};
use std::marker::Model;

/// A disc: its centre, and its radius of 0 to 5,000,000,000,000 pm.
#[derive(Clone, Copy, Debug, PartialEq, Eq)]
pub struct Disc {
    centre: Point,
    radius: u64,
}

impl Model for Disc {
    ghost use Rattle.std.specs.Prelude.{◌≤◌};
    ghost use Rattle.pad_shapes.specs.Shapes.{GridDisc, max_half_side};

    ghost Value = { GridDisc };

    ghost view = { λ d. record { centre = d.centre; radius = d.radius } };

    ghost invariant = { λ d. d.radius ≤ max_half_side };

    ghost inverse = { λ d. record { centre = d.centre; radius = d.radius } };
}

impl Disc {
    /// The disc round this centre, or `None` where the radius in pm is out of range.
    pub fn new(centre: Point, radius: i64) -> Option<Disc>
        ensures valid { IsSome result ↔ IsPadRadius radius }
        ensures value { IfSome result (λ d. d ≡ record { centre = centre; radius = unsigned_abs radius }) }
    {
        if 0 <= radius && radius <= MAX_HALF_SIDE {
            Some(Disc {
                centre,
                radius: radius.unsigned_abs(),
            })
        } else {
            None
        }
    }

    /// The centre of the disc.
    pub fn centre(&self) -> Point
        ensures { result ≡ self.now.centre }
    {
        self.centre
    }

    /// The radius in pm.
    pub fn radius(&self) -> i64
        ensures value { result ≡ pos self.now.radius }
        ensures in_range { IsPadRadius result }
    {
        self.radius as i64
    }
}

impl PadShape for Disc {
    ghost points = { IsInDisc };

    ghost covers = { disc_covers };

    ghost left = { λ d. d.centre.x -ℤ pos d.radius };

    ghost right = { λ d. d.centre.x +ℤ pos d.radius };

    ghost holds = { disc_contains_covered };

    ghost holds_slots = { disc_contains_slots };

    ghost between = { disc_between };

    ghost extent = { disc_extent };

    fn covers(&self, hole: Point, reach: i64) -> bool {
        let reach = reach.unsigned_abs();
        reach <= self.radius && square_distance(hole, self.centre) <= square(self.radius - reach)
    }

    fn left(&self) -> i64 {
        self.centre.x() - self.radius as i64
    }

    fn right(&self) -> i64 {
        self.centre.x() + self.radius as i64
    }

    fn zone(&self, reach: u64) -> Option<Zone> {
        Some(inset_zone(self.centre, self.radius, self.radius, reach))
    }

    fn may_cover(&self, zone: &Zone, reach: u64) -> bool {
        if self.radius < reach {
            return false;
        }
        let dx = distance_x(zone, self.centre);
        let dy = distance_y(zone, self.centre);
        is_step_within(dx, dy, self.radius - reach)
    }
}
