//! Polygons by their corners: what lies inside of each edge, and what lies near the rim.

ghost use Rattle.std.specs.Prelude.{◌≡◌, ◌≤◌};
ghost use Rattle.std.specs.Int.{int_min, int_max};
ghost use Rattle.pad_shapes.specs.Rounded.{has_area, is_deep_inside, is_near_corner, is_near_rim, is_convex, is_outline, is_deep_left_of_all, is_beside_some, box_corner};

use crate::edges::{is_beside, is_deep_left, is_left_of, square_distance_to};
use crate::relative::RelativePoint;
use grid_units::{Point, square};

/// Whether the corners enclose an area: the first one lies to the left of some edge.
fn has_area(first: Point, others: &[Point]) -> bool
    ensures { result ≡ has_area (record { first = first; others = others.now; radius = 0 }) }
{
    let start = RelativePoint::to_zero(first);
    let mut from = first;
    for to in others {
        if is_left_of(from, *to, start) {
            return true;
        }
        from = *to;
    }
    is_left_of(from, first, start)
}

/// Whether a point lies to the left of each edge, no nearer to it than the depth.
fn is_deep_left_of_all(first: Point, others: &[Point], depth: u64, point: RelativePoint) -> bool
    requires { depth ≤ 20000000000000 }
    ensures { result ≡ is_deep_left_of_all (record { first = first; others = others.now; radius = 0 }) depth point }
{
    let mut from = first;
    for to in others {
        if !is_deep_left(from, *to, depth, point) {
            return false;
        }
        from = *to;
    }
    is_deep_left(from, first, depth, point)
}

/// Whether a point lies inside of each edge, no nearer to it than the depth in pm, which is at most 20,000,000,000,000.
pub(crate) fn is_deep_inside(
    first: Point,
    others: &[Point],
    depth: u64,
    point: RelativePoint,
) -> bool
    requires { depth ≤ 20000000000000 }
    ensures { result ≡ is_deep_inside (record { first = first; others = others.now; radius = 0 }) depth point }
{
    has_area(first, others) && is_deep_left_of_all(first, others, depth, point)
}

/// Whether a point is no further from a corner than the distance.
fn is_near_corner(first: Point, others: &[Point], distance: u64, point: RelativePoint) -> bool
    requires { distance ≤ 5000000000000 }
    ensures { result ≡ is_near_corner (record { first = first; others = others.now; radius = 0 }) distance point }
{
    let limit = square(distance);
    if square_distance_to(point, first) <= limit {
        return true;
    }
    for corner in others {
        if square_distance_to(point, *corner) <= limit {
            return true;
        }
    }
    false
}

/// Whether a point lies beside an edge, no further from it than the distance.
fn is_beside_some(first: Point, others: &[Point], distance: u64, point: RelativePoint) -> bool
    requires { distance ≤ 5000000000000 }
    ensures { result ≡ is_beside_some (record { first = first; others = others.now; radius = 0 }) distance point }
{
    let mut from = first;
    for to in others {
        if is_beside(from, *to, distance, point) {
            return true;
        }
        from = *to;
    }
    is_beside(from, first, distance, point)
}

/// Whether a point is no further from the rim than the distance in pm, which is at most 5,000,000,000,000.
pub(crate) fn is_near_rim(
    first: Point,
    others: &[Point],
    distance: u64,
    point: RelativePoint,
) -> bool
    requires { distance ≤ 5000000000000 }
    ensures { result ≡ is_near_rim (record { first = first; others = others.now; radius = 0 }) distance point }
{
    is_near_corner(first, others, distance, point) || is_beside_some(first, others, distance, point)
}

/// Whether the corners enclose an area, and none of them lies to the right of an edge.
fn is_convex(first: Point, others: &[Point]) -> bool
    ensures { result ≡ is_convex (record { first = first; others = others.now; radius = 0 }) }
{
    if !is_deep_inside(first, others, 0, RelativePoint::to_zero(first)) {
        return false;
    }
    for corner in others {
        if !is_deep_inside(first, others, 0, RelativePoint::to_zero(*corner)) {
            return false;
        }
    }
    true
}

/// Whether these are one corner, two different ones, or the corners of a convex polygon.
pub(crate) fn is_outline(first: Point, others: &[Point]) -> bool
    ensures { result ≡ is_outline first others.now }
{
    if others.is_empty() {
        return true;
    }
    if others.len() == 1 {
        let other = others[0];
        return !(first.x() == other.x() && first.y() == other.y());
    }
    is_convex(first, others)
}

/// The corner with the least x and the least y of the box of the corners.
pub(crate) fn low_corner(first: Point, others: &[Point]) -> Point
    ensures { result ≡ box_corner int_min (record { first = first; others = others.now; radius = 0 }) }
{
    let (mut x, mut y) = (first.x(), first.y());
    for corner in others {
        x = x.min(corner.x());
        y = y.min(corner.y());
    }
    Point::new(x, y).unwrap()
}

/// The corner with the greatest x and the greatest y of the box of the corners.
pub(crate) fn high_corner(first: Point, others: &[Point]) -> Point
    ensures { result ≡ box_corner int_max (record { first = first; others = others.now; radius = 0 }) }
{
    let (mut x, mut y) = (first.x(), first.y());
    for corner in others {
        x = x.max(corner.x());
        y = y.max(corner.y());
    }
    Point::new(x, y).unwrap()
}
