//! Cells that suit the holes of a board and the zones that are looked for.

ghost use Rattle.std.specs.Prelude.{◌≡◌, ℕ, ◌+◌, ◌*◌, ◌^◌, ◌<◌, ◌≤◌, true, IfOk, length};
ghost use Rattle.grid_units.specs.Points.{GridPoint};
ghost use Rattle.pad_shapes.specs.Zones.{IsInZone};
ghost use Rattle.ring_rules.specs.Places.{entry_at};
ghost use Rattle.ring_rules.specs.Inner.Regions.{IsLaidOut};
ghost use Rattle.ring_rules.specs.Index.{AreCellsOf};

use crate::cell_size::{Axis, Spread, shifts, spreads};
use crate::cells::{Chains, chained};
use crate::finding::Drilled;
use crate::spots::{Cells, spotted};
use crate::tree::tree_of;
use grid_units::Point;
use pad_shapes::Zone;
use std::alloc::{AllocError, Global};

/// The least zone that contains two zones.
pub(crate) fn joined(first: Zone, second: Zone) -> Zone
    ensures first { (p : GridPoint) → IsInZone first p → IsInZone result p }
    ensures second { (p : GridPoint) → IsInZone second p → IsInZone result p }
{
    Zone {
        left: first.left.min(second.left),
        right: first.right.max(second.right),
        bottom: first.bottom.min(second.bottom),
        top: first.top.max(second.top),
    }
}

/// The zone of one point.
pub(crate) fn zone_at(at: Point) -> Zone
    ensures { IsInZone result at }
{
    Zone {
        left: at.x(),
        right: at.x(),
        bottom: at.y(),
        top: at.y(),
    }
}

/// A zone without points.
pub(crate) fn no_zone() -> Zone {
    Zone {
        left: i64::MAX,
        right: i64::MIN,
        bottom: i64::MAX,
        top: i64::MIN,
    }
}

/// A zone that contains the entry point of each hole.
pub fn entry_zone(holes: &[Drilled]) -> Zone
    ensures { (k : ℕ) → k < length holes.now → IsInZone result (entry_at holes.now k) }
{
    let mut zone = no_zone();
    for drilled in holes {
        zone = joined(zone, zone_at(drilled.hole.from()));
    }
    zone
}

/// A scale over a spread, with places of 2^shift pm.
fn axis_over(spread: &Spread, shift: u32) -> Axis {
    let shift = shift.min(63);
    Axis {
        low: spread.low,
        shift,
        last: (spread.span >> shift) as usize,
    }
}

/// Whether two scales make at most 2^62 cells.
fn fits(x: &Axis, y: &Axis) -> bool
    ensures { result ≡ true → (y.now.last + 1) * (x.now.last + 1) ≤ 2 ^ 62 }
{
    (y.last as u128 + 1) * (x.last as u128 + 1) <= 1 << 62
}

/// The holes in the cells of two scales, or in one cell where the scales would make too many.
fn chains_on(alloc: Global, holes: &[Drilled], x: Axis, y: Axis) -> Result<Chains, AllocError>
    ensures { IfOk result (λ chains. IsLaidOut chains.x chains.y chains.head.items chains.next.items holes.now) }
{
    if fits(&x, &y) {
        return chained(alloc, x, y, holes);
    }
    let (mut x, mut y) = (x, y);
    x.last = 0;
    y.last = 0;
    chained(alloc, x, y, holes)
}

/// The holes in cells that suit zones about so wide and so high, in pm, with a tree over them.
pub(crate) fn fitting_cells(
    alloc: Global,
    holes: &[Drilled],
    width: u64,
    height: u64,
) -> Result<Cells, AllocError>
    ensures { IfOk result (AreCellsOf holes.now) }
{
    let (spread_x, spread_y) = spreads(alloc, holes)?;
    let (shift_x, shift_y) = shifts(&spread_x, &spread_y, holes.len(), width, height);
    let x = axis_over(&spread_x, shift_x);
    let y = axis_over(&spread_y, shift_y);
    let chains = chains_on(alloc, holes, x, y)?;
    let mut cells = spotted(alloc, chains, holes)?;
    let nodes = tree_of(alloc, &cells)?;
    cells.nodes = nodes;
    Ok(cells)
}
