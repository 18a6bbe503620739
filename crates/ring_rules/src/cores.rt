//! The distance of the cores of two holes. A core is the least box that contains both ends of a hole.

ghost use Rattle.std.specs.Prelude.{◌≡◌, pos, ◌+◌, ◌≤◌, ◌-ℤ◌, ◌↔◌, IsTrue};
ghost use Rattle.grid_units.specs.Holes.{AreClear, AreApart};
ghost use Rattle.ring_rules.specs.Cores.{positive_part, range_distance, are_clear};

use grid_units::{Hole, Rules, square, square_length};

/// How far a number lies above another one, 0 where it does not.
pub(crate) fn excess(high: i64, low: i64) -> u64
    ensures { result ≡ positive_part (high -ℤ low) }
{
    if low < high { high.abs_diff(low) } else { 0 }
}

/// How far two ranges are apart, 0 where they meet. The ends of each may stand in any order.
fn range_distance(a: i64, b: i64, c: i64, d: i64) -> u64
    ensures { result ≡ range_distance a b c d }
{
    let above = excess(c.min(d), a.max(b));
    let below = excess(a.min(b), c.max(d));
    above.max(below)
}

/// How far the cores of two holes are apart along x, in pm: at most 20,000,000,000,000.
pub fn core_distance_x(a: &Hole, b: &Hole) -> u64
    ensures value { result ≡ range_distance a.now.from.x a.now.to.x b.now.from.x b.now.to.x }
    ensures in_range { result ≤ 20000000000000 }
{
    range_distance(a.from().x(), a.to().x(), b.from().x(), b.to().x())
}

/// How far the cores of two holes are apart along y, in pm: at most 20,000,000,000,000.
pub fn core_distance_y(a: &Hole, b: &Hole) -> u64
    ensures value { result ≡ range_distance a.now.from.y a.now.to.y b.now.from.y b.now.to.y }
    ensures in_range { result ≤ 20000000000000 }
{
    range_distance(a.from().y(), a.to().y(), b.from().y(), b.to().y())
}

/// Whether the distance of the cores of two holes is at least the radii and the gap together.
pub fn are_clear(a: &Hole, b: &Hole, rules: Rules) -> bool
    ensures { result ≡ are_clear rules.gap a.now b.now }
{
    let cores = square_length(core_distance_x(a, b), core_distance_y(a, b));
    square((a.radius() + b.radius() + rules.gap()).unsigned_abs()) <= cores
}

/// Whether no point of one core is nearer to a point of the other than the radii and the gap together. Then no points
/// of the two holes are nearer than the gap.
pub fn clear_of(a: &Hole, b: &Hole, rules: Rules) -> bool
    ensures test { result ≡ are_clear rules.gap a.now b.now }
    ensures exact { IsTrue result ↔ AreClear rules.gap a.now b.now }
    ensures apart { IsTrue result → AreApart rules.gap a.now b.now }
{
    are_clear(a, b, rules)
}
