//! Drilled holes, round ones and slots.

ghost use Rattle.std.specs.Prelude.{◌≡◌, pos, ◌≤◌, ◌↔◌, ◌≤ℤ◌, IsSome, IfSome, IsTrue, unsigned_abs};
ghost use Rattle.grid_units.specs.Holes.{IsRadius, is_round, max_radius};

use crate::points::Point;
use std::marker::Model;

/// The largest radius of a hole, in pm: five metres.
const MAX_RADIUS: i64 = 5_000_000_000_000;

/// A drilled hole: the path of a tool from one end to the other. It is round where the ends are equal,
/// else a slot. Its radius is 1 to 5,000,000,000,000 pm.
#[derive(Clone, Copy, Debug, PartialEq, Eq)]
pub struct Hole {
    from: Point,
    to: Point,
    radius: u64,
}

impl Model for Hole {
    ghost use Rattle.grid_units.specs.Holes.{GridHole, IsRadius};

    ghost Value = { GridHole };

    ghost view = { λ h. record { from = h.from; to = h.to; radius = h.radius } };

    ghost invariant = { λ h. IsRadius h.radius };

    ghost inverse = { λ h. record { from = h.from; to = h.to; radius = h.radius } };
}

impl Hole {
    /// The hole between these ends, or `None` where the radius in pm is out of range.
    pub fn new(from: Point, to: Point, radius: i64) -> Option<Hole>
        ensures valid { IsSome result ↔ ((pos 1 ≤ℤ radius) × (radius ≤ℤ pos max_radius)) }
        ensures value { IfSome result (λ h. h ≡ record { from = from; to = to; radius = unsigned_abs radius }) }
    {
        if 1 <= radius && radius <= MAX_RADIUS {
            Some(Hole {
                from,
                to,
                radius: radius.unsigned_abs(),
            })
        } else {
            None
        }
    }

    /// The first end.
    pub fn from(&self) -> Point
        ensures { result ≡ self.now.from }
    {
        self.from
    }

    /// The second end.
    pub fn to(&self) -> Point
        ensures { result ≡ self.now.to }
    {
        self.to
    }

    /// The radius in pm.
    pub fn radius(&self) -> i64
        ensures value { result ≡ pos self.now.radius }
        ensures in_range { IsRadius self.now.radius }
    {
        self.radius as i64
    }

    /// Whether both ends are equal, so that the hole is no slot.
    pub fn is_round(&self) -> bool
        ensures test { result ≡ is_round self.now }
        ensures exact { IsTrue result ↔ (self.now.from ≡ self.now.to) }
    {
        self.from.x() == self.to.x() && self.from.y() == self.to.y()
    }
}
