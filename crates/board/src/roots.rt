//! Whole square roots, and differences of lengths and of coordinates.

ghost use Rattle.std.specs.Prelude.{◌≡◌, ℕ, pos, ◌+◌, ◌*◌, ◌^◌, ◌≤◌, ◌<◌, ◌-ℤ◌, ◌↔◌};
ghost use Rattle.grid_units.specs.Points.{abs_diff, square};

use grid_units::{Point, square_length};

/// The greatest number whose square is at most `n`. The roots of small numbers are quicker.
pub(crate) fn floor_root(n: u128) -> u64
    ensures { (t : ℕ) → (square t ≤ n) ↔ (t ≤ result) }
{
    if n < 1 << 64 {
        (n as u64).isqrt()
    } else {
        n.isqrt() as u64
    }
}

/// The least number whose square is at least `n`.
pub(crate) fn ceiling_root(n: u128) -> u64
    requires { n < 2 ^ 120 }
    ensures { (t : ℕ) → (n ≤ square t) ↔ (result ≤ t) }
{
    let root = floor_root(n);
    if u128::from(root) * u128::from(root) < n {
        root + 1
    } else {
        root
    }
}

/// The length of a step of `dx` along one axis and `dy` along the other, in pm, rounded up.
pub(crate) fn length_rounded_up(dx: u64, dy: u64) -> u64
    requires x { dx ≤ 20000000000000 }
    requires y { dy ≤ 20000000000000 }
    ensures exact { (t : ℕ) → (square dx + square dy ≤ square t) ↔ (result ≤ t) }
    ensures in_range { result ≤ 30000000000000 }
{
    ceiling_root(square_length(dx, dy) as u128)
}

/// The length of a step of `dx` along one axis and `dy` along the other, in pm, rounded down.
pub(crate) fn length_rounded_down(dx: u64, dy: u64) -> u64
    requires x { dx ≤ 20000000000000 }
    requires y { dy ≤ 20000000000000 }
    ensures exact { (t : ℕ) → (square t ≤ square dx + square dy) ↔ (t ≤ result) }
    ensures in_range { result ≤ 30000000000000 }
{
    floor_root(square_length(dx, dy) as u128)
}

/// One length less another one, in pm.
pub(crate) fn less(length: u64, other: u64) -> i64
    requires length { length ≤ 30000000000000 }
    requires other { other ≤ 30000000000000 }
    ensures { result ≡ pos length -ℤ pos other }
{
    length as i64 - other as i64
}

/// How far two points are apart along x, in pm.
pub(crate) fn apart_x(p: Point, q: Point) -> u64
    ensures value { result ≡ abs_diff p.x q.x }
    ensures in_range { result ≤ 20000000000000 }
{
    p.x().abs_diff(q.x())
}

/// How far two points are apart along y, in pm.
pub(crate) fn apart_y(p: Point, q: Point) -> u64
    ensures value { result ≡ abs_diff p.y q.y }
    ensures in_range { result ≤ 20000000000000 }
{
    p.y().abs_diff(q.y())
}
