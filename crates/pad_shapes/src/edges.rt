//! Edges of polygons: the areas and lengths between an edge and a point, and comparisons of their squares in 128 bits.

ghost use Rattle.std.specs.Prelude.{◌≡◌, ◌+◌, ◌*◌, ◌<◌, ◌≤◌, ◌-ℤ◌, ◌*ℤ◌, pos, unsigned_abs, int_lt, nat_le};
ghost use Rattle.std.specs.Ordering.{MatchOrdering};
ghost use Rattle.grid_units.specs.Points.{square, square_distance};
ghost use Rattle.pad_shapes.specs.Rounded.{cross, along, square_edge, is_deep_left, is_beside};

use crate::relative::RelativePoint;
use grid_units::{Point, square_distance, square_length};
use std::cmp::Ordering;

/// The product of a difference of corners and one of a point and a corner, in square pm.
fn product(a: i64, b: i64) -> i128
    requires a { unsigned_abs a ≤ 20000000000000 }
    requires b { unsigned_abs b ≤ 40000000000000 }
    ensures value { result ≡ a *ℤ b }
    ensures small { unsigned_abs result ≤ 800000000000000000000000000 }
{
    i128::from(a) * i128::from(b)
}

/// The step from a corner to the next one along each axis, in pm.
fn step(from: Point, to: Point) -> (i64, i64)
    ensures value { result ≡ (to.x -ℤ from.x, to.y -ℤ from.y) }
    ensures small { (unsigned_abs result.0 ≤ 20000000000000) × (unsigned_abs result.1 ≤ 20000000000000) }
{
    (to.x() - from.x(), to.y() - from.y())
}

/// The step from a corner to a point along each axis, in pm.
fn step_to(from: Point, point: RelativePoint) -> (i64, i64)
    ensures value { result ≡ (point.x -ℤ from.x, point.y -ℤ from.y) }
    ensures small { (unsigned_abs result.0 ≤ 40000000000000) × (unsigned_abs result.1 ≤ 40000000000000) }
{
    (point.x() - from.x(), point.y() - from.y())
}

/// Twice the area of the triangle of an edge and a point, in square pm: above 0 where the point lies to the left of the edge.
fn cross(from: Point, to: Point, point: RelativePoint) -> i128
    ensures value { result ≡ cross (record { from = from; to = to }) point }
    ensures small { unsigned_abs result ≤ 1600000000000000000000000000 }
{
    let (dx, dy) = step(from, to);
    let (x, y) = step_to(from, point);
    product(dx, y) - product(dy, x)
}

/// Whether a point lies to the left of an edge.
pub(crate) fn is_left_of(from: Point, to: Point, point: RelativePoint) -> bool
    ensures { result ≡ int_lt (pos 0) (cross (record { from = from; to = to }) point) }
{
    0 < cross(from, to, point)
}

/// How far a point lies along an edge from its start, times the edge's length, in square pm.
fn along(from: Point, to: Point, point: RelativePoint) -> i128
    ensures { result ≡ along (record { from = from; to = to }) point }
{
    let (dx, dy) = step(from, to);
    let (x, y) = step_to(from, point);
    product(dx, x) + product(dy, y)
}

/// The square of an edge's length, in square pm.
fn square_edge(from: Point, to: Point) -> u128
    ensures value { result ≡ square_distance to from }
    ensures small { result ≤ 800000000000000000000000000 }
{
    let dx = to.x().abs_diff(from.x());
    let dy = to.y().abs_diff(from.y());
    square_length(dx, dy).unsigned_abs()
}

/// The square of the distance of a point and a corner, in square pm.
pub(crate) fn square_distance_to(point: RelativePoint, corner: Point) -> i128
    ensures { result ≡ pos (square_distance point corner) }
{
    square_length(
        point.x().abs_diff(corner.x()),
        point.y().abs_diff(corner.y()),
    )
}

/// Compares the square of `rest` and `depth * loss` with `depth * gain`. None of the numbers that it meets needs more
/// than 128 bits.
fn compare_rests(depth: u128, rest: u128, gain: u128, loss: u128) -> Ordering
    requires rest { rest < depth }
    requires depth { depth ≤ 20000000000000 }
    ensures { MatchOrdering result (square rest + depth * loss < depth * gain) (square rest + depth * loss ≡ depth * gain) (depth * gain < square rest + depth * loss) }
{
    if gain < loss {
        return Ordering::Greater;
    }
    let more = gain - loss;
    if depth <= more {
        return Ordering::Less;
    }
    let first = rest * rest;
    let second = depth * more;
    if first < second {
        Ordering::Less
    } else if first == second {
        Ordering::Equal
    } else {
        Ordering::Greater
    }
}

/// Compares an area with the product of a depth and an edge's length, by their squares, which need up to 178 bits and are
/// never formed. The area is at most 16 * 10^26 square pm, the square of the edge 8 * 10^26, and the depth 2 * 10^13 pm.
fn compare_areas(area: u128, depth: u128, square_edge: u128) -> Ordering
    requires area { area ≤ 1600000000000000000000000000 }
    requires depth { depth ≤ 20000000000000 }
    requires square_edge { square_edge ≤ 800000000000000000000000000 }
    ensures { MatchOrdering result (square area < square depth * square_edge) (square area ≡ square depth * square_edge) (square depth * square_edge < square area) }
{
    if depth == 0 && area == 0 {
        return Ordering::Equal;
    }
    if depth == 0 {
        return Ordering::Greater;
    }
    let whole = area / depth;
    let rest = area % depth;
    if whole > 30_000_000_000_000 {
        return Ordering::Greater;
    }
    let square_whole = whole * whole;
    if square_edge < square_whole {
        return Ordering::Greater;
    }
    let lack = square_edge - square_whole;
    let double = 2 * whole;
    if double < lack {
        return Ordering::Less;
    }
    let gain = lack * depth;
    let loss = double * rest;
    compare_rests(depth, rest, gain, loss)
}

/// Whether a point lies to the left of an edge, and no nearer to its line than the depth, which is at most
/// 20,000,000,000,000 pm; or on it, for the depth 0.
pub(crate) fn is_deep_left(from: Point, to: Point, depth: u64, point: RelativePoint) -> bool
    requires { depth ≤ 20000000000000 }
    ensures { result ≡ is_deep_left (record { from = from; to = to }) depth point }
{
    let area = cross(from, to, point);
    if area < 0 {
        return false;
    }
    match compare_areas(
        area.unsigned_abs(),
        u128::from(depth),
        square_edge(from, to),
    ) {
        Ordering::Less => false,
        Ordering::Equal => true,
        Ordering::Greater => true,
    }
}

/// Whether a point is no further from the line of an edge than the distance, which is at most 5,000,000,000,000 pm.
fn is_near_line(from: Point, to: Point, distance: u64, point: RelativePoint) -> bool
    requires { distance ≤ 5000000000000 }
    ensures { result ≡ nat_le (square (unsigned_abs (cross (record { from = from; to = to }) point))) (square distance * square_edge (record { from = from; to = to })) }
{
    match compare_areas(
        cross(from, to, point).unsigned_abs(),
        u128::from(distance),
        square_edge(from, to),
    ) {
        Ordering::Less => true,
        Ordering::Equal => true,
        Ordering::Greater => false,
    }
}

/// Whether a point lies beside an edge, between its ends, no further from its line than the distance, which is at most
/// 5,000,000,000,000 pm.
pub(crate) fn is_beside(from: Point, to: Point, distance: u64, point: RelativePoint) -> bool
    requires { distance ≤ 5000000000000 }
    ensures { result ≡ is_beside (record { from = from; to = to }) distance point }
{
    let foot = along(from, to, point);
    0 < foot && foot < square_distance(to, from) && is_near_line(from, to, distance, point)
}
