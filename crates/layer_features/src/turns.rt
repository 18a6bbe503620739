//! Runs of points that go round no convex polygon.

ghost use Rattle.std.specs.Prelude.{◌≡◌, ◌≤◌, ◌*ℤ◌, unsigned_abs};
ghost use Rattle.pad_shapes.specs.Rounded.{cross};
ghost use Rattle.layer_features.specs.Inner.Forgetting.{starts_no_polygon};
ghost use Rattle.layer_features.specs.Inner.Turns.{is_turn, turns};

use grid_units::Point;
use macro_shapes::has_many_stops;

/// The product of two differences of coordinates, in square pm.
fn product(a: i64, b: i64) -> i128
    requires a { unsigned_abs a ≤ 20000000000000 }
    requires b { unsigned_abs b ≤ 20000000000000 }
    ensures value { result ≡ a *ℤ b }
    ensures small { unsigned_abs result ≤ 800000000000000000000000000 }
{
    i128::from(a) * i128::from(b)
}

/// Twice the area of the triangle of three points, in square pm: above 0 where the way through them turns to the left.
fn cross(from: Point, to: Point, point: Point) -> i128
    ensures { result ≡ cross (record { from = from; to = to }) point }
{
    product(to.x() - from.x(), point.y() - from.y())
        - product(to.y() - from.y(), point.x() - from.x())
}

/// Whether three points turn to the left, or to the right, by twice the area of their triangle.
fn is_turn(left: bool, area: i128) -> bool
    ensures { result ≡ is_turn left area }
{
    if left { area > 0 } else { area < 0 }
}

/// Whether a run of points turns to the left at one of them, or to the right.
fn turns(left: bool, run: &[Point]) -> bool
    ensures { result ≡ turns left run.now }
{
    let mut rest = run;
    while let [a, b, c, ..] = rest {
        if is_turn(left, cross(*a, *b, *c)) {
            return true;
        }
        rest = &rest[1..];
    }
    false
}

/// Whether no convex polygon starts with a run of points: it has more corners than a pad may have, or it turns both ways.
pub(crate) fn starts_no_polygon(run: &[Point]) -> bool
    ensures { result ≡ starts_no_polygon run.now }
{
    has_many_stops(run) || (turns(true, run) && turns(false, run))
}
