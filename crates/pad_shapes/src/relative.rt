//! Points relative to an offset.

ghost use Rattle.std.specs.Prelude.{◌≡◌, ◌≤◌, ◌-ℤ◌, unsigned_abs};

use grid_units::Point;
use std::marker::Model;

/// A point relative to an offset, in pm. Each coordinate is at most 30,000,000,000,000 in absolute value.
#[derive(Clone, Copy)]
pub(crate) struct RelativePoint {
    x: i64,
    y: i64,
}

impl Model for RelativePoint {
    ghost use Rattle.std.specs.Prelude.{◌≤◌, unsigned_abs};
    ghost use Rattle.grid_units.specs.Points.{GridPoint};

    ghost Value = { GridPoint };

    ghost view = { λ p. record { x = p.x; y = p.y } };

    ghost invariant = { λ p. (unsigned_abs p.x ≤ 30000000000000) × (unsigned_abs p.y ≤ 30000000000000) };

    ghost inverse = { λ p. record { x = p.x; y = p.y } };
}

impl RelativePoint {
    /// A point relative to an offset of at most 20,000,000,000,000 pm along each axis.
    pub(crate) fn to(point: Point, x: i64, y: i64) -> RelativePoint
        requires x { unsigned_abs x ≤ 20000000000000 }
        requires y { unsigned_abs y ≤ 20000000000000 }
        ensures { result ≡ record { x = point.x -ℤ x; y = point.y -ℤ y } }
    {
        RelativePoint {
            x: point.x() - x,
            y: point.y() - y,
        }
    }

    /// A point relative to zero.
    pub(crate) fn to_zero(point: Point) -> RelativePoint
        ensures { result ≡ point }
    {
        RelativePoint {
            x: point.x(),
            y: point.y(),
        }
    }

    /// The x in pm.
    pub(crate) fn x(&self) -> i64
        ensures value { result ≡ self.now.x }
        ensures in_range { unsigned_abs result ≤ 30000000000000 }
    {
        self.x
    }

    /// The y in pm.
    pub(crate) fn y(&self) -> i64
        ensures value { result ≡ self.now.y }
        ensures in_range { unsigned_abs result ≤ 30000000000000 }
    {
        self.y
    }
}
