//! Points of the grid, and the squares of their distances.

ghost use Rattle.std.specs.Prelude.{◌≡◌, pos, ◌+◌, ◌<◌, ◌^◌, ◌↔◌, IsSome, IfSome};
ghost use Rattle.grid_units.specs.Points.{IsCoordinate, square, square_distance};

use std::marker::Model;

/// The largest absolute value of a coordinate, in pm: ten metres.
pub const MAX_COORDINATE: u64 = 10_000_000_000_000;

/// A point of the grid, in pm. Each coordinate is at most [`MAX_COORDINATE`] in absolute value.
#[derive(Clone, Copy, Debug, PartialEq, Eq)]
pub struct Point {
    x: i64,
    y: i64,
}

impl Model for Point {
    ghost use Rattle.grid_units.specs.Points.{GridPoint, IsCoordinate};

    ghost Value = { GridPoint };

    ghost view = { λ p. record { x = p.x; y = p.y } };

    ghost invariant = { λ p. IsCoordinate p.x × IsCoordinate p.y };

    ghost inverse = { λ p. record { x = p.x; y = p.y } };
}

impl Point {
    /// The point at these coordinates in pm, or `None` where one of them is out of range.
    pub fn new(x: i64, y: i64) -> Option<Point>
        ensures valid { IsSome result ↔ (IsCoordinate x × IsCoordinate y) }
        ensures value { IfSome result (λ p. p ≡ record { x = x; y = y }) }
    {
        if x.unsigned_abs() <= MAX_COORDINATE && y.unsigned_abs() <= MAX_COORDINATE {
            Some(Point { x, y })
        } else {
            None
        }
    }

    /// The x in pm.
    pub fn x(&self) -> i64
        ensures value { result ≡ self.now.x }
        ensures in_range { IsCoordinate result }
    {
        self.x
    }

    /// The y in pm.
    pub fn y(&self) -> i64
        ensures value { result ≡ self.now.y }
        ensures in_range { IsCoordinate result }
    {
        self.y
    }
}

/// The square of a length in pm.
pub fn square(length: u64) -> i128
    requires { length < 2 ^ 63 }
    ensures { result ≡ pos (square length) }
{
    i128::from(length) * i128::from(length)
}

/// The square of the length of a step of `dx` along one axis and `dy` along the other, in pm.
pub fn square_length(dx: u64, dy: u64) -> i128
    requires x_in_range { dx < 2 ^ 62 }
    requires y_in_range { dy < 2 ^ 62 }
    ensures { result ≡ pos (square dx + square dy) }
{
    square(dx) + square(dy)
}

/// The square of the distance of two points, in pm.
pub fn square_distance(p: Point, q: Point) -> i128
    ensures { result ≡ pos (square_distance p q) }
{
    square_length(p.x().abs_diff(q.x()), p.y().abs_diff(q.y()))
}
