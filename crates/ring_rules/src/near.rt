//! Where the holes may be that are not clear of a hole.

ghost use Rattle.std.specs.Prelude.{◌≡◌, ℕ, ◌+◌, ◌<◌, ◌≤◌, ◌+ℤ◌, ◌-ℤ◌, ◌≤ℤ◌, pos, length, IfOk, OnOk};
ghost use Rattle.std.specs.Int.{int_min, int_max};
ghost use Rattle.std.specs.List.{Contains};
ghost use Rattle.grid_units.specs.Holes.{GridHole};
ghost use Rattle.grid_units.specs.Points.{IsCoordinate, abs_diff};
ghost use Rattle.pad_shapes.specs.Zones.{IsInZone};
ghost use Rattle.ring_rules.specs.Index.{AreCellsOf};
ghost use Rattle.ring_rules.specs.Near.{length_of, size_of, IsWithinLimits, AreLimits, IsGapBound, AreNearer, AreWithin};
ghost use Rattle.ring_rules.specs.Inner.Trees.{AreReady};
ghost use Rattle.ring_rules.specs.Inner.ClashingPairs.{AddsClashes, AreSpotsWithin, IsClash, ListsClashes};

use crate::cell_size::sample_index;
use crate::clashes::add_pairs;
use crate::finding::Drilled;
use crate::layout::{fitting_cells, no_zone};
use crate::limits::Limits;
use crate::regions::{Region, region_of};
use crate::spots::Cells;
use grid_units::{Hole, Rules};
use pad_shapes::Zone;
use std::alloc::{AllocError, Global};

/// The most rows and spots that a hole looks at, on average, in cells that suit the search for gaps.
const FEW_LOOKS: usize = 16;

/// How many looks a row with more spots than these counts as.
const MANY_LOOKS: usize = 8;

/// The longer side of a hole's core, in pm.
fn length_of(hole: &Hole) -> u64
    ensures value { result ≡ length_of hole.now }
    ensures in_range { result ≤ 20000000000000 }
{
    length_x(hole).max(length_y(hole))
}

/// The length of a hole's core along x, in pm.
fn length_x(hole: &Hole) -> u64
    ensures value { result ≡ abs_diff hole.now.from.x hole.now.to.x }
    ensures in_range { result ≤ 20000000000000 }
{
    hole.from().x().abs_diff(hole.to().x())
}

/// The length of a hole's core along y, in pm.
fn length_y(hole: &Hole) -> u64
    ensures value { result ≡ abs_diff hole.now.from.y hole.now.to.y }
    ensures in_range { result ≤ 20000000000000 }
{
    hole.from().y().abs_diff(hole.to().y())
}

/// The radius of a hole, or the longer side of its core where that is more, in pm.
fn size_of(hole: &Hole) -> u64
    ensures { result ≡ size_of hole.now }
{
    length_of(hole).max(hole.radius().unsigned_abs())
}

/// Lengths that no hole of a list exceeds.
pub fn limits_of(holes: &[Drilled]) -> Limits
    ensures { AreLimits holes.now result }
{
    let (mut radius, mut x, mut y) = (0, 0, 0);
    for drilled in holes {
        radius = drilled.hole.radius().unsigned_abs().max(radius);
        x = length_x(&drilled.hole).max(x);
        y = length_y(&drilled.hole).max(y);
    }
    Limits { radius, x, y }
}

/// How far the core of a hole may be at most from that of another one, in pm. The other is no larger and has less
/// than a gap from it. At 0 or below there is no such hole.
fn farthest(hole: &Hole, gap: i64, widest: u64) -> i64
    requires gap { IsGapBound gap }
    requires widest { widest ≤ 5000000000000 }
    ensures in_range { result ≤ℤ pos 50000000000000 }
    ensures value { (o : GridHole) → o.radius ≤ widest → size_of o ≤ size_of hole.now → (pos (o.radius + hole.now.radius) +ℤ gap) ≤ℤ result }
{
    let size = size_of(hole);
    let radii = hole.radius().unsigned_abs() + size.min(widest);
    radii as i64 + gap
}

/// How far from the core of a hole the entry point of such a hole may lie along an axis. Its core is at most `far`
/// away, and no core is longer than `longest` along that axis.
fn margin(hole: &Hole, far: u64, longest: u64) -> u64
    requires far { far ≤ 50000000000000 }
    requires longest { longest ≤ 20000000000000 }
    ensures bound { result ≤ 70000000000000 }
    ensures value { (o : GridHole) (n : ℕ) → n ≤ longest → n ≤ length_of o → size_of o ≤ size_of hole.now → far + n ≤ result }
{
    far + size_of(hole).min(longest)
}

/// The range of two coordinates, in any order, with `margin` pm more on both sides.
fn widened(a: i64, b: i64, margin: u64) -> (i64, i64)
    requires a { IsCoordinate a }
    requires b { IsCoordinate b }
    requires margin { margin ≤ 70000000000000 }
    ensures low { result.0 ≡ int_min a b -ℤ pos margin }
    ensures high { result.1 ≡ int_max a b +ℤ pos margin }
{
    (a.min(b) - margin as i64, a.max(b) + margin as i64)
}

/// A zone that contains the entry point of each hole that is no larger than this one and has its core nearer than `far`.
fn zone_round(hole: &Hole, far: u64, limits: Limits) -> Zone
    requires { far ≤ 50000000000000 }
    ensures { (o : GridHole) → IsWithinLimits limits o → size_of o ≤ size_of hole.now → AreWithin far o hole.now → IsInZone result o.from }
{
    let from = hole.from();
    let to = hole.to();
    let (left, right) = widened(from.x(), to.x(), margin(hole, far, limits.x));
    let (bottom, top) = widened(from.y(), to.y(), margin(hole, far, limits.y));
    Zone {
        left,
        right,
        bottom,
        top,
    }
}

/// A zone with the entry point of each hole that is no larger than this one and has less than `gap` pm from it. Two
/// holes with a gap below 0 overlap.
pub fn near_zone(hole: &Hole, gap: i64, limits: Limits) -> Zone
    requires { IsGapBound gap }
    ensures { (o : GridHole) → IsWithinLimits limits o → size_of o ≤ size_of hole.now → AreNearer gap o hole.now → IsInZone result o.from }
{
    let far = farthest(hole, gap, limits.radius);
    if far <= 0 {
        return no_zone();
    }
    zone_round(hole, far.unsigned_abs(), limits)
}

/// Appends the pairs of a spot with those whose holes are no larger and not clear of it.
fn add_near(
    cells: &Cells,
    rules: Rules,
    limits: Limits,
    i: usize,
    near: &mut Vec<usize>,
    pairs: &mut Vec<(usize, usize)>,
) -> Result<(), AllocError>
    requires cells { AreReady cells.now }
    requires limits { AreSpotsWithin limits cells.now.spots }
    requires inside { i < length cells.now.spots }
    ensures adds { OnOk result (AddsClashes rules.gap cells.now.spots pairs.old.items pairs.new.items) }
    ensures found { OnOk result (ListsClashes rules.gap cells.now.spots i pairs.new.items) }
{
    let zone = near_zone(&cells.spots.at(i).hole, rules.gap(), limits);
    cells.find(&zone, near)?;
    add_pairs(&cells.spots, rules, i, near, pairs)?;
    Ok(())
}

/// Appends such pairs of all spots, in their order: so holes that are near each other are looked for one after the other.
fn add_all_pairs(
    cells: &Cells,
    rules: Rules,
    limits: Limits,
    near: &mut Vec<usize>,
    pairs: &mut Vec<(usize, usize)>,
) -> Result<(), AllocError>
    requires cells { AreReady cells.now }
    requires limits { AreSpotsWithin limits cells.now.spots }
    ensures adds { OnOk result (AddsClashes rules.gap cells.now.spots pairs.old.items pairs.new.items) }
    ensures found { OnOk result ((i : ℕ) → i < length cells.now.spots → ListsClashes rules.gap cells.now.spots i pairs.new.items) }
{
    for i in 0..cells.spots.len() {
        add_near(cells, rules, limits, i, near, pairs)?;
    }
    Ok(())
}

/// The mean width or height of the zones of a sample of the holes, in pm. Any answer is right: only the time depends on it.
fn mean_zone_length(holes: &[Drilled], rules: Rules, widest: u64, longest: u64) -> u64 {
    let mut sum: u64 = 0;
    let mut count: u64 = 0;
    for draw in 0..(holes.len() as u64).min(256) {
        if let Some(drilled) = holes.get(sample_index(draw, holes.len())) {
            let size = size_of(&drilled.hole);
            let radii = size.min(widest).saturating_add(size.min(longest));
            sum = sum.saturating_add(radii.saturating_add(rules.gap().unsigned_abs()));
            count = count.saturating_add(1);
        }
    }
    (sum / count.max(1)).saturating_mul(2)
}

/// The pairs of holes that are not clear, by the holes in cells. Some may stand twice.
pub(crate) fn clashes_in(
    alloc: Global,
    cells: &Cells,
    holes: &[Drilled],
    rules: Rules,
    limits: Limits,
) -> Result<Vec<(usize, usize)>, AllocError>
    requires cells { AreCellsOf holes.now cells.now }
    requires limits { AreLimits holes.now limits }
    ensures sound { IfOk result (λ v. (p : ℕ × ℕ) → Contains v.items p → IsClash rules.gap holes.now p) }
    ensures complete { IfOk result (λ v. (p : ℕ × ℕ) → IsClash rules.gap holes.now p → Contains v.items p) }
{
    let mut near = Vec::new(alloc);
    let mut pairs = Vec::new(alloc);
    add_all_pairs(cells, rules, limits, &mut near, &mut pairs)?;
    Ok(pairs)
}

/// The pairs of holes that are not clear. Some may stand twice.
pub(crate) fn clashes(
    alloc: Global,
    holes: &[Drilled],
    rules: Rules,
) -> Result<Vec<(usize, usize)>, AllocError>
    ensures sound { IfOk result (λ v. (p : ℕ × ℕ) → Contains v.items p → IsClash rules.gap holes.now p) }
    ensures complete { IfOk result (λ v. (p : ℕ × ℕ) → IsClash rules.gap holes.now p → Contains v.items p) }
{
    let limits = limits_of(holes);
    let width = mean_zone_length(holes, rules, limits.radius, limits.x);
    let height = mean_zone_length(holes, rules, limits.radius, limits.y);
    let cells = fitting_cells(alloc, holes, width, height)?;
    clashes_in(alloc, &cells, holes, rules, limits)
}

/// How many rows a region has, and how many spots stand in the first 64 of them. Many spots of a row count as few, since the tree leads
/// to those that are near.
fn looks_in(cells: &Cells, region: Region) -> usize
    requires cells { AreReady cells.now }
    requires bottom { region.bottom ≤ cells.now.y.last + 1 }
    requires left { region.left ≤ cells.now.x.last + 1 }
    requires right { region.right ≤ cells.now.x.last + 1 }
{
    let mut looks = region.bottom.saturating_sub(region.top);
    for row in region.top..region.bottom.min(region.top.saturating_add(64)) {
        let run = cells.run(row, region.left, region.right);
        looks = looks.saturating_add(run.end.saturating_sub(run.start).min(MANY_LOOKS));
    }
    looks
}

/// Whether holes find their neighbours quickly in cells that were made for pads: a sample of them looks at few rows and
/// spots. Any answer is right: only the time depends on it.
pub(crate) fn suits_gaps(cells: &Cells, rules: Rules, limits: Limits) -> bool
    requires { AreReady cells.now }
{
    let draws = (cells.spots.len() as u64).min(256);
    let mut looks: usize = 0;
    for draw in 0..draws {
        let i = sample_index(draw, cells.spots.len());
        if i < cells.spots.len() {
            let zone = near_zone(&cells.spots.at(i).hole, rules.gap(), limits);
            let region = region_of(&cells.x, &cells.y, &zone);
            looks = looks.saturating_add(looks_in(cells, region));
        }
    }
    looks <= draws as usize * FEW_LOOKS
}
