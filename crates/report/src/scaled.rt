//! Points with their coordinates times a factor.

ghost use Rattle.std.specs.Prelude.{◌≡◌, ◌≤◌, ◌<◌, pos};
ghost use Rattle.grid_units.specs.Points.{IsCoordinate};
ghost use Rattle.report.specs.UnitMistakes.{divisor, multiplier, scaled_coordinate};
ghost use Rattle.report.specs.Inner.RescaledCounts.{IsScaledPoint};

use crate::UnitFactor;
use grid_units::Point;

/// The numerator of a factor.
fn multiplier(factor: UnitFactor) -> i64
    ensures value { result ≡ pos (multiplier factor) }
    ensures few { multiplier factor ≤ 254 }
{
    match factor {
        UnitFactor::Ten | UnitFactor::PerInch => 10,
        UnitFactor::Tenth => 1,
        UnitFactor::Inch => 254,
    }
}

/// The denominator of a factor.
fn divisor(factor: UnitFactor) -> i64
    ensures value { result ≡ pos (divisor factor) }
    ensures some { 0 < divisor factor }
{
    match factor {
        UnitFactor::Ten => 1,
        UnitFactor::Tenth | UnitFactor::Inch => 10,
        UnitFactor::PerInch => 254,
    }
}

/// A coordinate in pm times a factor, rounded down.
fn scaled(coordinate: i64, factor: UnitFactor) -> i64
    requires { IsCoordinate coordinate }
    ensures { result ≡ scaled_coordinate factor coordinate }
{
    (multiplier(factor) * coordinate).div_euclid(divisor(factor))
}

/// The point with its coordinates times a factor, each rounded down to whole pm; none where one of them would be beyond ten metres.
pub fn scaled_point(point: Point, factor: UnitFactor) -> Option<Point>
    ensures { IsScaledPoint factor point result }
{
    Point::new(scaled(point.x(), factor), scaled(point.y(), factor))
}
