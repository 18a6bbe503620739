//! The gap between two holes.

ghost use Rattle.std.specs.Prelude.{◌≡◌, ◌≤ℤ◌, ◌↔◌, ◌≤◌, neg_ℤ, pos, nat_le, ℕ, ℤ, true};
ghost use Rattle.grid_units.specs.Points.{square};
ghost use Rattle.ring_rules.specs.Cores.{are_clear, square_of_cores};
ghost use Rattle.ring_rules.specs.Near.{IsGapBound};
ghost use Rattle.board.specs.Gaps.{IsGap};

use crate::roots::{length_rounded_down, less};
use grid_units::{Hole, square, square_length};
use ring_rules::{core_distance_x, core_distance_y};

/// The gap between two holes, in pm: the distance of their cores, rounded down, less both radii. Below 0 they overlap. It is the
/// greatest gap under which they are clear.
pub fn gap_between(a: &Hole, b: &Hole) -> i64
    ensures exact { IsGap a.now b.now result }
    ensures same { (gap : ℕ) → (are_clear gap a.now b.now ≡ true) ↔ (pos gap ≤ℤ result) }
    ensures in_range { (neg_ℤ (pos 10000000000000) ≤ℤ result) × (result ≤ℤ pos 30000000000000) }
{
    let cores = length_rounded_down(core_distance_x(a, b), core_distance_y(a, b));
    less(cores, a.radius().unsigned_abs() + b.radius().unsigned_abs())
}

/// Whether the cores of two holes are at least so many pm apart.
fn is_as_far(a: &Hole, b: &Hole, far: u64) -> bool
    requires { far ≤ 50000000000000 }
    ensures { result ≡ nat_le (square far) (square_of_cores a.now b.now) }
{
    let cores = square_length(core_distance_x(a, b), core_distance_y(a, b));
    square(far) <= cores
}

/// Whether the gap between two holes is at least so many pm. No root is taken.
pub(crate) fn has_gap(a: &Hole, b: &Hole, gap: i64) -> bool
    requires { IsGapBound gap }
    ensures { result ≡ true → (g : ℤ) → IsGap a.now b.now g → gap ≤ℤ g }
{
    let reach = gap + (a.radius() + b.radius());
    if reach <= 0 {
        return true;
    }
    is_as_far(a, b, reach.unsigned_abs())
}
